// From the table of costs by straight cuts to the one by pinwheels, in place, of a grid of few rows. Strip by strip, from the last x line down
// and from narrow to wide, each mixed piece of three rows and more is weighed anew: its cost is the least of its pinwheels and of its vertical and
// horizontal cuts, by the table, in which all its parts have been lowered before it. What is outside or full, and what has fewer than three columns
// or rows, costs the same by pinwheels.
#![tactic(auto)]

ghost use Rattle.std.specs.Prelude.{◌+◌};
ghost use Rattle.outline.specs.Grid.{Grid};
ghost use Rattle.rule.specs.declared.Rule.{Rule};
ghost use Rattle.piece.specs.declared.Mode.TheVariants.{Straight, Pinwheel};
ghost use Rattle.table.specs.Entry.{entry_count};
ghost use Rattle.table.specs.Run.{Lowest};
ghost use Rattle.table.specs.Fill.{Beyond};
ghost use Rattle.verdict.specs.Memory.{Costed};
ghost use Rattle.verdict.specs.Search.{Weighable, across};
ghost use Rattle.lowering.specs.Lowering.{Lowering, Standing, AtPiece, Priced, Lowerable, Standable, Weighed, Strippable, Beginnable, Startable};

use outline::Line;
use piece::Piece;
use table::numbering::pair_number;
use verdict::{Cuts, Numbered, Plan, all_inside};
use weighing::weigh;

mod weighing;

// The least of `start` and of what the two parts of each of these cuts cost together. The entries of the parts run along.
fn least_cut(table: &[u32], cuts: Cuts, start: u32) -> u32
    requires { Weighable table.now cuts }
    ensures { Lowest (across table.now cuts) cuts.low.0 cuts.high.0 start result }
{
    let last = cuts.last;
    let low = cuts.low.0;
    let high = cuts.high.0;
    let entry = cuts.entry;
    let stride = cuts.stride;
    let first = low + 1;
    let mut least = start;
    let mut lower = entry - stride * (high - first);
    let mut upper = entry + stride * (last - first);
    for j in first..high {
        least = least.min(table[lower] + table[upper]);
        lower += stride;
        upper += stride * (last - (j + 1));
    }
    least
}

// Lowers the cost of a piece, of which the least pinwheel is known. What is outside or full costs the same by pinwheels.
fn lower_piece(table: &mut [u32], cells: &[u8], plan: Plan, p: Numbered, wheel: u32)
    requires { Lowerable table.old cells.now plan p wheel }
    ensures { (g : Grid) (r : Rule) → AtPiece g r table.old cells.now plan p wheel → Priced g r p table.old table.new }
{
    let piece = p.piece;
    let entry = p.entry;
    if table[entry] == 0 {
        return;
    }
    if all_inside(cells, piece) {
        return;
    }
    let upright = least_cut(table, p.upright(plan), wheel);
    let level = least_cut(table, p.level(plan), upright);
    table[entry] = level;
}

// Lowers the pieces of a strip that begin at the y line b, from the lowest up. With fewer than three rows they have no pinwheel.
fn lower_pieces(
    table: &mut [u32],
    cells: &[u8],
    best: &[u32; 16],
    plan: Plan,
    a: Line,
    c: Line,
    b: Line,
)
    requires { Standable table.old cells.now best.now plan a.0 c.0 b.0 }
    ensures standing { (g : Grid) (r : Rule) → Standing g r table.old cells.now best.now plan a.0 c.0 b.0 (b.0 + 3) → Standing g r table.new cells.now best.now plan a.0 c.0 b.0 (plan.rows + 1) }
    ensures beyond { Beyond (entry_count plan.columns plan.rows) table.old table.new }
{
    let columns = plan.columns;
    let rows = plan.rows;
    let pairs = plan.pairs;
    let low = b.0;
    let strip = pairs * pair_number(columns, a, c);
    for d in low + 3..rows + 1 {
        let high = Line(d);
        let number = pair_number(rows, b, high);
        let piece = Piece { a, c, b, d: high };
        let entry = strip + number;
        lower_piece(table, cells, plan, Numbered { piece, entry }, best[number]);
    }
}

// Lowers the pieces of a strip whose pinwheels are weighed, from the highest line down.
fn lower_weighed(table: &mut [u32], cells: &[u8], best: &[u32; 16], plan: Plan, a: Line, c: Line)
    requires { Weighed table.old cells.now best.now plan a.0 c.0 }
    ensures lowering { (g : Grid) (r : Rule) → Standing g r table.old cells.now best.now plan a.0 c.0 plan.rows (plan.rows + 1) → Lowering g r table.new cells.now plan a.0 (c.0 + 1) }
    ensures beyond { Beyond (entry_count plan.columns plan.rows) table.old table.new }
{
    let rows = plan.rows;
    for b in (0..rows - 2).rev() {
        lower_pieces(table, cells, best, plan, a, c, Line(b));
    }
}

// Lowers a strip: all its pinwheels are weighed at once, since their parts are narrower.
fn lower_strip(table: &mut [u32], cells: &[u8], plan: Plan, a: Line, c: Line)
    requires { Strippable table.old cells.now plan a.0 c.0 }
    ensures lowering { (g : Grid) (r : Rule) → Lowering g r table.old cells.now plan a.0 c.0 → Lowering g r table.new cells.now plan a.0 (c.0 + 1) }
    ensures beyond { Beyond (entry_count plan.columns plan.rows) table.old table.new }
{
    let columns = plan.columns;
    let rows = plan.rows;
    let pairs = plan.pairs;
    let mut best = [u32::MAX; 16];
    weigh(&mut best, table, columns, rows, pairs, a, c);
    lower_weighed(table, cells, &best, plan, a, c);
}

// Lowers the strips that begin at the x line a, from narrow to wide. With fewer than three columns they have no pinwheel.
fn lower_strips(table: &mut [u32], cells: &[u8], plan: Plan, a: Line)
    requires { Beginnable table.old cells.now plan a.0 }
    ensures lowering { (g : Grid) (r : Rule) → Lowering g r table.old cells.now plan a.0 (a.0 + 3) → Lowering g r table.new cells.now plan a.0 (plan.columns + 1) }
    ensures beyond { Beyond (entry_count plan.columns plan.rows) table.old table.new }
{
    let columns = plan.columns;
    let low = a.0;
    for c in low + 3..columns + 1 {
        lower_strip(table, cells, plan, a, Line(c));
    }
}

// Lowers the table of a grid of three to five rows, which has what each piece costs by straight cuts, to what each costs by pinwheels too. What
// lies beyond the entries stays as it was.
pub fn lower(table: &mut [u32], cells: &[u8], plan: Plan)
    requires { Startable table.old cells.now plan }
    ensures costed { (g : Grid) (r : Rule) → Costed Straight g r table.old cells.now plan → Costed Pinwheel g r table.new cells.now plan }
    ensures beyond { Beyond (entry_count plan.columns plan.rows) table.old table.new }
{
    let columns = plan.columns;
    for a in (0..columns - 2).rev() {
        lower_strips(table, cells, plan, Line(a));
    }
}
