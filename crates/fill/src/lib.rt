// The fill: the cost of every piece of a grid, into a table that the caller lends. A grid of one to five rows of cells is filled straight
// through; a higher one by widths, in short numbers where they are enough, else in long ones: all promise the same.
#![tactic(auto)]

ghost use Rattle.std.specs.Prelude.{◌≡◌, true, ◌++◌, ◌≤◌, length, drop};
ghost use Rattle.outline.specs.Grid.{stored};
ghost use Rattle.piece.specs.declared.Mode.TheVariants.{Straight};
ghost use Rattle.table.specs.Entry.{costs};
ghost use Rattle.table.specs.Fill.{Ready};

use rule::Rule;
use short::SMALL;

// So many rows of cells are filled straight through.
const FEW_ROWS: usize = 5;

// The fill by widths: in short numbers, or where they are not enough, in long ones. `FEW` says that the grid has at most SMALL columns and
// rows.
fn fill_widths<const FEW: bool>(
    xs: &[u16],
    ys: &[u16],
    cells: &[u8],
    columns: usize,
    rows: usize,
    rule: Rule,
    table: &mut [u32],
)
    requires ready { Ready (stored columns rows xs.now ys.now cells.now) rule xs.now ys.now cells.now table.old }
    requires few { FEW ≡ true → (columns ≤ 7) × (rows ≤ 7) }
    ensures { table.new ≡ costs Straight (stored columns rows xs.now ys.now cells.now) rule ++ drop (length (costs Straight (stored columns rows xs.now ys.now cells.now) rule)) table.old }
{
    if short::fill(xs, ys, cells, columns, rows, rule, table, FEW) {
        return;
    }
    wheels::fill_straight(xs, ys, cells, columns, rows, rule, table);
}

// Fills the table with the cost of every piece of the grid, in the order of entries. What it held there has no influence, and what lies
// beyond the entries stays as it was.
pub fn fill(
    xs: &[u16],
    ys: &[u16],
    cells: &[u8],
    columns: usize,
    rows: usize,
    rule: Rule,
    table: &mut [u32],
)
    requires { Ready (stored columns rows xs.now ys.now cells.now) rule xs.now ys.now cells.now table.old }
    ensures { table.new ≡ costs Straight (stored columns rows xs.now ys.now cells.now) rule ++ drop (length (costs Straight (stored columns rows xs.now ys.now cells.now) rule)) table.old }
{
    if rows <= FEW_ROWS {
        shallow::fill(xs, ys, cells, columns, rows, rule, table);
    } else if columns <= SMALL && rows <= SMALL {
        fill_widths::<true>(xs, ys, cells, columns, rows, rule, table);
    } else {
        fill_widths::<false>(xs, ys, cells, columns, rows, rule, table);
    }
}
