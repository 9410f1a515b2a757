// How many cuts a fracture of a grid weighs: of each piece with cells of both sorts, the lines strictly between its ends. It is faster
// to count the lines within the pieces of one sort, and to take them from those within all pieces.
#![tactic(auto)]

ghost use Rattle.std.specs.Prelude.{◌≡◌, ◌≤◌, length};
ghost use Rattle.outline.specs.Grid.{Grid};
ghost use Rattle.demands.specs.Cuts.{weighed_cuts};
ghost use Rattle.demands.proofs.Bounded.{every_line};
ghost use Rattle.count.specs.Count.{Shaded, Countable};
ghost use Rattle.count.specs.Corners.{spared_all};

use table::numbering::pair_count;

mod corners;
mod flat;

// Twice the lines within the pieces of one sort: of one to three rows in single numbers, of more row by row.
fn spared(cells: &[u8], columns: usize, rows: usize) -> u32
    requires { (length cells.now ≡ 256) × ((columns ≤ 15) × (rows ≤ 15)) }
    ensures { result ≡ spared_all cells.now columns rows }
{
    if rows == 1 {
        flat::spared_of_one(cells, columns)
    } else if rows == 2 {
        flat::spared_of_two(cells, columns)
    } else if rows == 3 {
        flat::spared_of_three(cells, columns)
    } else {
        corners::spared(cells, columns, rows)
    }
}

// The lines within all pieces.
fn all_lines(columns: usize, rows: usize) -> u32
    requires { ((1 ≤ columns) × (columns ≤ 15)) × ((1 ≤ rows) × (rows ≤ 15)) }
    ensures { result ≡ every_line columns rows }
{
    let across = pair_count(columns);
    let upright = pair_count(rows);
    let lines = across * upright * (columns + rows - 2) / 3;
    lines as u32
}

// The lines within the pieces that have cells of both sorts: those within all, but for those within the pieces of one sort.
pub fn cuts(cells: &[u8], columns: usize, rows: usize) -> u32
    requires { Countable cells.now columns rows }
    ensures { (g : Grid) → Shaded g cells.now columns rows → result ≡ weighed_cuts g }
{
    let all = all_lines(columns, rows);
    let twice = spared(cells, columns, rows);
    all - twice / 2
}
