// The pieces of one sort, by the cell at their low corner: how far the rows above it go on with the same sort.
ghost use Rattle.std.specs.Prelude.{◌≡◌, length};
ghost use Prim.Native.Nat.{◌<◌, ◌≤◌};
ghost use Rattle.sum.specs.Sum.{over};
ghost use Rattle.table.specs.Run.{Wrote};
ghost use Rattle.count.specs.Corners.{cell_at, number_at, farther, widened, Widenable, Climbable, corner, spared_all};

use outline::MOST_LINES;

// How many cells of a row, from this one on, are of its sort, given how many are from the next one on.
pub fn farther(cell: u8, next: u8, further: u32) -> u32
    requires { further ≤ 15 }
    ensures { result ≡ farther cell next further }
{
    if cell == next { further + 1 } else { 1 }
}

// From the reaches of the rows at the next column to those at this one.
fn widen(cells: &[u8], column: usize, rows: usize, reaches: &mut [u32; MOST_LINES])
    requires { Widenable cells.now column rows reaches.old }
    ensures { Wrote (widened cells.now column reaches.old) 0 rows reaches.old reaches.new }
{
    let first = MOST_LINES * column;
    for j in 0..rows {
        let at = first + j;
        let cell = cells[at];
        let next = cells[at + MOST_LINES];
        let further = reaches[j];
        reaches[j] = farther(cell, next, further);
    }
}

// Twice the lines within the pieces of one sort that have the cell of this column and the row b at their low corner.
fn corner(cells: &[u8], reaches: &[u32; MOST_LINES], column: usize, b: usize, rows: usize) -> u32
    requires { Climbable cells.now column rows reaches.now × (b < rows) }
    ensures { (result ≡ corner (cell_at cells.now column) (number_at reaches.now) rows b) × (result ≤ 9900) }
{
    let first = MOST_LINES * column;
    let sort = cells[first + b];
    let mut narrow = reaches[b];
    let mut lines: u32 = 0;
    let mut sum: u32 = 0;
    for j in b..rows {
        if cells[first + j] != sort {
            return sum;
        }
        narrow = narrow.min(reaches[j]);
        sum += narrow * (narrow + 2 * lines - 1);
        lines += 1;
    }
    sum
}

// The same of all rows of this column.
fn corners_at(cells: &[u8], reaches: &[u32; MOST_LINES], column: usize, rows: usize) -> u32
    requires { Climbable cells.now column rows reaches.now }
    ensures { (result ≡ over 0 rows (corner (cell_at cells.now column) (number_at reaches.now) rows)) × (result ≤ 148500) }
{
    let mut sum: u32 = 0;
    for b in 0..rows {
        sum += corner(cells, reaches, column, b, rows);
    }
    sum
}

// The same of all columns, from the last one back.
pub fn spared(cells: &[u8], columns: usize, rows: usize) -> u32
    requires { (length cells.now ≡ 256) × ((columns ≤ 15) × (rows ≤ 15)) }
    ensures { result ≡ spared_all cells.now columns rows }
{
    let mut reaches = [0u32; MOST_LINES];
    let mut sum: u32 = 0;
    for column in (0..columns).rev() {
        widen(cells, column, rows, &mut reaches);
        sum += corners_at(cells, &reaches, column, rows);
    }
    sum
}
