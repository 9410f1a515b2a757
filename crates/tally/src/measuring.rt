// Measuring a grid: what each of its cells adds to the sums of strips, and how wide the strips are.
ghost use Rattle.std.specs.Prelude.{◌≡◌, List, ℕ, ◌+◌, ◌*◌, ◌-◌, ◌<◌, ◌≤◌, length, get_or, replicate};
ghost use Rattle.outline.specs.Grid.{Grid, Drawn, stored};
ghost use Rattle.tally.specs.Sums.{Widths};
ghost use Rattle.tally.specs.Units.{low_neighbour, five, share_of, Measurable, Spans, Around, Put, Laid, Row, UnitsTo, Units, Rising};

use crate::{CELL_BOTTOMS, CELL_LEFTS, CELL_RIGHTS, CELL_TOPS, ROW, SHARES};
use outline::{Line, MOST_LINES};
use table::runs;
use table::runs::LANES;
use table::sides::{COLUMN_BEYOND, span};

// The number of the row beyond every frame.
pub const BEYOND: usize = 15;

// Where the cell before the k-th of a row or column of cells stands, the k-th standing at `here`: a step before it. Before the first
// there is none: a cell beyond the frame stands in for it.
pub fn low_neighbour(k: usize, here: usize, step: usize, beyond: usize) -> usize
    requires { (here < 256) × ((beyond < 256) × (0 < k → step ≤ here)) }
    ensures { (result ≡ low_neighbour k here step beyond) × (result < 256) }
{
    if k == 0 {
        return beyond;
    }
    here - step
}

// A cell with what says which of its sides are exposed: the cell itself, the four across its sides, and its width and height in nm.
#[derive(Clone, Copy)]
pub struct Surroundings {
    pub cell: u8,
    pub under: u8,
    pub above: u8,
    pub before: u8,
    pub after: u8,
    pub width: u32,
    pub height: u32,
}

// Reads the cell (i, j) and what lies around it.
pub fn look_around(xs: &[u16], ys: &[u16], cells: &[u8], i: usize, j: usize) -> Surroundings
    requires { Measurable xs.now ys.now cells.now i j }
    ensures spans { Spans result.width result.height xs.now ys.now i j }
    ensures around { Around result.cell result.under result.above result.before result.after cells.now i j }
{
    let here = MOST_LINES * i + j;
    let next = i + 1;
    let higher = j + 1;
    let width = span(xs, Line(i), Line(next));
    let height = span(ys, Line(j), Line(higher));
    let under = low_neighbour(j, here, 1, MOST_LINES * i + BEYOND);
    let before = low_neighbour(i, here, MOST_LINES, COLUMN_BEYOND + j);
    Surroundings {
        cell: cells[here],
        under: cells[under],
        above: cells[here + 1],
        before: cells[before],
        after: cells[here + MOST_LINES],
        width,
        height,
    }
}

// What a cell has exposed of its bottom, top, left and right side, in nm.
#[derive(Clone, Copy)]
pub struct Sides {
    pub bottom: u32,
    pub top: u32,
    pub left: u32,
    pub right: u32,
}

// Stores the five shares of the cell at this place: whether it is inside, and its exposed sides.
fn put_shares(unit: &mut [u32; SHARES], at: usize, cell: u8, sides: Sides)
    requires { (length unit.old ≡ 2560) × (at < 512) }
    ensures { Put (five cell sides.bottom sides.top sides.left sides.right) at unit.old unit.new }
{
    unit[at] = u32::from(cell);
    unit[CELL_BOTTOMS + at] = sides.bottom;
    unit[CELL_TOPS + at] = sides.top;
    unit[CELL_LEFTS + at] = sides.left;
    unit[CELL_RIGHTS + at] = sides.right;
}

// Measures the cell (i, j): it counts where it is inside, and each of its sides where the cell across is not.
fn measure_cell(unit: &mut [u32; SHARES], xs: &[u16], ys: &[u16], cells: &[u8], i: usize, j: usize)
    requires unit_len { length unit.old ≡ 2560 }
    requires measurable { Measurable xs.now ys.now cells.now i j }
    ensures { Put (share_of xs.now ys.now cells.now i j) (32 * j + i) unit.old unit.new }
{
    let around = look_around(xs, ys, cells, i, j);
    let sides = Sides {
        bottom: runs::exposed(around.cell, around.under, around.width),
        top: runs::exposed(around.cell, around.above, around.width),
        left: runs::exposed(around.cell, around.before, around.height),
        right: runs::exposed(around.cell, around.after, around.height),
    };
    put_shares(unit, ROW * j + i, around.cell, sides);
}

// Measures the cells of the row j.
fn measure_row(
    unit: &mut [u32; SHARES],
    xs: &[u16],
    ys: &[u16],
    cells: &[u8],
    columns: usize,
    j: usize,
)
    requires { (length unit.old ≡ 2560) × ((i : ℕ) → i < columns → Measurable xs.now ys.now cells.now i j) }
    ensures { (g : Grid) → Row g columns j xs.now ys.now cells.now → UnitsTo g (32 * j) unit.old → UnitsTo g (32 * (j + 1)) unit.new }
{
    for i in 0..columns {
        measure_cell(unit, xs, ys, cells, i, j);
    }
}

// Measures all cells, into a list that is all zeros.
pub fn measure(
    unit: &mut [u32; SHARES],
    xs: &[u16],
    ys: &[u16],
    cells: &[u8],
    columns: usize,
    rows: usize,
)
    requires laid { Laid (stored columns rows xs.now ys.now cells.now) xs.now ys.now cells.now }
    requires unit_value { unit.old ≡ replicate 2560 0 }
    ensures { Units (stored columns rows xs.now ys.now cells.now) unit.new }
{
    for j in 0..rows {
        measure_row(unit, xs, ys, cells, columns, j);
    }
}

// The widths in nm of the strips of w columns.
pub fn widths(wide: &mut [u32; LANES], xs: &[u16], columns: usize, w: usize)
    requires { (length wide.old ≡ 16) × Rising xs.now columns w }
    ensures { (g : Grid) (ys cells : List ℕ) → g.columns ≡ columns → Drawn g xs.now ys cells → Widths g w wide.new }
{
    let strips = columns + 1 - w;
    for a in 0..strips {
        let end = a + w;
        wide[a] = span(xs, Line(a), Line(end));
    }
}
