// The fill of the cost table for a grid of one to five rows of cells: straight through, with the sums of a strip and the costs
// of its pieces in single numbers.
#![tactic(auto)]

mod cuts;
mod rows;
mod sums;

ghost use Rattle.std.specs.Prelude.{◌≡◌, ◌++◌, ℕ, ◌+◌, ◌≤◌, ◌<◌, length, drop};
ghost use Rattle.outline.specs.Grid.{stored};
ghost use Rattle.piece.specs.declared.Mode.TheVariants.{Straight};
ghost use Rattle.table.specs.Entry.{pairs_below, entry_count, costs};
ghost use Rattle.table.specs.Fill.{Ready, Reached, Beyond};

use crate::sums::Sums;
use outline::Line;
use rule::Rule;
use table::numbering;

// Fills the strips that begin at the x line a, the narrowest first, where all that begin above it are filled. `first` is the number of
// the first pair whose low line is a.
fn fill_from(
    xs: &[u16],
    ys: &[u16],
    cells: &[u8],
    columns: usize,
    rows: usize,
    rule: Rule,
    a: Line,
    first: usize,
    table: &mut [u32],
)
    requires ready { Ready (stored columns rows xs.now ys.now cells.now) rule xs.now ys.now cells.now table.old }
    requires rows_bound { (rows ≤ 5) × ((a.0 < columns) × (first ≡ pairs_below columns a.0)) }
    requires reached { Reached Straight (stored columns rows xs.now ys.now cells.now) rule table.old a.0 (a.0 + 1) }
    ensures reached_2 { Reached Straight (stored columns rows xs.now ys.now cells.now) rule table.new a.0 (columns + 1) }
    ensures beyond { Beyond (entry_count columns rows) table.old table.new }
{
    match rows {
        1 => rows::fill::<[Sums; 1]>(xs, ys, cells, columns, rule, a, first, table),
        2 => rows::fill::<[Sums; 2]>(xs, ys, cells, columns, rule, a, first, table),
        3 => rows::fill::<[Sums; 3]>(xs, ys, cells, columns, rule, a, first, table),
        4 => rows::fill::<[Sums; 4]>(xs, ys, cells, columns, rule, a, first, table),
        _ => rows::fill::<[Sums; 5]>(xs, ys, cells, columns, rule, a, first, table),
    }
}

// Fills the table with the cost of every piece of a grid of at most five rows of cells, in the order of entries. What it held there has
// no influence, and what lies beyond the entries stays as it was.
pub fn fill(
    xs: &[u16],
    ys: &[u16],
    cells: &[u8],
    columns: usize,
    rows: usize,
    rule: Rule,
    table: &mut [u32],
)
    requires ready { Ready (stored columns rows xs.now ys.now cells.now) rule xs.now ys.now cells.now table.old }
    requires rows_bound { rows ≤ 5 }
    ensures { table.new ≡ costs Straight (stored columns rows xs.now ys.now cells.now) rule ++ drop (length (costs Straight (stored columns rows xs.now ys.now cells.now) rule)) table.old }
{
    let mut first = numbering::pair_count(columns);
    for a in (0..columns).rev() {
        first -= columns - a;
        fill_from(xs, ys, cells, columns, rows, rule, Line(a), first, table);
    }
}
