// Measuring a grid: what each of its cells adds to the sums of strips, where the rule counts it; and what all cells owe at most.
ghost use Rattle.std.specs.Prelude.{◌≡◌, ℕ, ◌+◌, ◌*◌, ◌<◌, ◌≤◌, ◌&&◌, List, length, replicate, ◌==◌};
ghost use Rattle.sum.specs.Sum.{only, over};
ghost use Rattle.outline.specs.Grid.{Grid, Drawn, stored};
ghost use Rattle.tally.specs.Sums.{Widths};
ghost use Rattle.tally.specs.Units.{five, Measurable, Put, Laid, Row, Rising};
ghost use Rattle.shares.specs.Shares.{counted_of, owed, dues_of, SharesTo, Shares};

use outline::{Line, MOST_LINES};
use rule::Rule;
use table::runs::LANES;
use table::sides::span;
use tally::measuring::{Sides, look_around};
use tally::{CELL_BOTTOMS, CELL_LEFTS, CELL_RIGHTS, CELL_TOPS, ROW, SHARES};

// A side of a cell, where it counts at all and the cell across is not inside. With no branch, since cells come in any order.
fn side_of(counts: bool, across: u8, length: u32) -> u32
    ensures { (result ≡ only (counts && across == 0) length) × (result ≤ length) }
{
    if counts & (across == 0) { length } else { 0 }
}

// The sides of the cell (i, j): each counts where the cell across is not inside, and where a shot as low or as narrow as this cell is a
// sliver.
fn sides_of(xs: &[u16], ys: &[u16], cells: &[u8], rule: Rule, i: usize, j: usize) -> Sides
    requires { Measurable xs.now ys.now cells.now i j }
    ensures bottom_value { (result.bottom ≡ counted_of rule xs.now ys.now cells.now i j 1) × (result.top ≡ counted_of rule xs.now ys.now cells.now i j 2) }
    ensures left_value { (result.left ≡ counted_of rule xs.now ys.now cells.now i j 3) × (result.right ≡ counted_of rule xs.now ys.now cells.now i j 4) }
    ensures bottom_bound { (result.bottom ≤ 65535) × ((result.top ≤ 65535) × ((result.left ≤ 65535) × (result.right ≤ 65535))) }
{
    let around = look_around(xs, ys, cells, i, j);
    let inside = around.cell != 0;
    let low = inside & !rule.spares(around.height);
    let narrow = inside & !rule.spares(around.width);
    Sides {
        bottom: side_of(low, around.under, around.width),
        top: side_of(low, around.above, around.width),
        left: side_of(narrow, around.before, around.height),
        right: side_of(narrow, around.after, around.height),
    }
}

// Stores the five shares of the cell at this place: whether it is inside, and its sides.
fn put_shares(short: &mut [u16; SHARES], at: usize, cell: u8, sides: Sides)
    requires short_len { (length short.old ≡ 2560) × (at < 512) }
    requires bottom_bound { (sides.bottom ≤ 65535) × ((sides.top ≤ 65535) × ((sides.left ≤ 65535) × (sides.right ≤ 65535))) }
    ensures { Put (five cell sides.bottom sides.top sides.left sides.right) at short.old short.new }
{
    short[at] = u16::from(cell);
    short[CELL_BOTTOMS + at] = sides.bottom as u16;
    short[CELL_TOPS + at] = sides.top as u16;
    short[CELL_LEFTS + at] = sides.left as u16;
    short[CELL_RIGHTS + at] = sides.right as u16;
}

// Measures the cell (i, j), and gives what it owes: the price of a shot where it is inside, and its sides.
fn measure_cell(
    short: &mut [u16; SHARES],
    xs: &[u16],
    ys: &[u16],
    cells: &[u8],
    rule: Rule,
    price: u32,
    i: usize,
    j: usize,
) -> u32
    requires short_len { (length short.old ≡ 2560) × (price ≤ 1000) }
    requires measurable { Measurable xs.now ys.now cells.now i j }
    ensures put { Put (counted_of rule xs.now ys.now cells.now i j) (32 * j + i) short.old short.new }
    ensures value { (result ≡ owed price (counted_of rule xs.now ys.now cells.now i j)) × (result ≤ 517140) }
{
    let cell = cells[MOST_LINES * i + j];
    let sides = sides_of(xs, ys, cells, rule, i, j);
    put_shares(short, ROW * j + i, cell, sides);
    price * u32::from(cell) + sides.bottom + sides.top + sides.left + sides.right
}

// Measures the cells of the row j, and gives what they owe.
fn measure_row(
    short: &mut [u16; SHARES],
    xs: &[u16],
    ys: &[u16],
    cells: &[u8],
    rule: Rule,
    price: u32,
    columns: usize,
    j: usize,
) -> u32
    requires short_len { (length short.old ≡ 2560) × ((price ≤ 1000) × (columns ≤ 15)) }
    requires by_index { (i : ℕ) → i < columns → Measurable xs.now ys.now cells.now i j }
    ensures shares_to { (g : Grid) → Row g columns j xs.now ys.now cells.now → SharesTo g rule (32 * j) short.old → SharesTo g rule (32 * (j + 1)) short.new }
    ensures value { (result ≡ over 0 columns (λ i. owed price (counted_of rule xs.now ys.now cells.now i j))) × (result ≤ 7757100) }
{
    let mut due: u32 = 0;
    for i in 0..columns {
        due += measure_cell(short, xs, ys, cells, rule, price, i, j);
    }
    due
}

// Measures all cells, into a list that is all zeros, and gives what they owe: no piece costs more.
pub fn measure(
    short: &mut [u16; SHARES],
    xs: &[u16],
    ys: &[u16],
    cells: &[u8],
    rule: Rule,
    price: u32,
    columns: usize,
    rows: usize,
) -> u32
    requires laid { Laid (stored columns rows xs.now ys.now cells.now) xs.now ys.now cells.now }
    requires short_value { (short.old ≡ replicate 2560 0) × (price ≤ 1000) }
    ensures shares { Shares (stored columns rows xs.now ys.now cells.now) rule short.new }
    ensures value { result ≡ dues_of (stored columns rows xs.now ys.now cells.now) rule price }
{
    let mut due: u32 = 0;
    for j in 0..rows {
        due += measure_row(short, xs, ys, cells, rule, price, columns, j);
    }
    due
}

// The widths in nm of the strips of w columns.
pub fn widths(wide: &mut [u16; LANES], xs: &[u16], columns: usize, w: usize)
    requires { (length wide.old ≡ 16) × Rising xs.now columns w }
    ensures { (g : Grid) (ys cells : List ℕ) → g.columns ≡ columns → Drawn g xs.now ys cells → Widths g w wide.new }
{
    let strips = columns + 1 - w;
    for a in 0..strips {
        let end = a + w;
        wide[a] = span(xs, Line(a), Line(end)) as u16;
    }
}
