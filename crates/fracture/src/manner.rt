// The steps that each mode does in a manner of its own. What takes a manner is compiled for each by itself, so that a straight call makes no
// room on the stack for the store of the pinwheel fill or the parts of a pinwheel.
ghost use Rattle.std.specs.Prelude.{◌≡◌, ◌++◌, length, drop};
ghost use Rattle.outline.specs.Grid.{Grid, memory, stored};
ghost use Rattle.rule.specs.declared.Rule.{Rule};
ghost use Rattle.piece.specs.declared.Mode.{Mode};
ghost use Rattle.piece.specs.declared.Mode.TheVariants.{Straight};
ghost use Rattle.piece.specs.Meant.{meant};
ghost use Rattle.piece.specs.Cuts.{shots};
ghost use Rattle.table.specs.Entry.{costs};
ghost use Rattle.table.specs.Fill.{Ready};
ghost use Rattle.demands.specs.Promise.{gridded};
ghost use Rattle.fracture.specs.Delivery.{Laid, Fillable};
ghost use Rattle.fracture.specs.Told.{told};
ghost use Rattle.emission.specs.Emission.{Written, Walk, Emittable};

use super::{Denial, Fractured};
use emission::emit;
use fill::fill;
use outline::MOST_LINES;
use rule::Rule;
use verdict::{Numbered, Plan};

// How a mode fills the table of a grid, and writes the shots by it.
pub trait Manner {
    ghost mode: { Mode };

    fn fill(
        xs: &[u16],
        ys: &[u16],
        cells: &[u8],
        columns: usize,
        rows: usize,
        rule: Rule,
        table: &mut [u32],
    )
        requires { Ready (stored columns rows xs.now ys.now cells.now) rule xs.now ys.now cells.now table.old }
        ensures { table.new ≡ costs mode (stored columns rows xs.now ys.now cells.now) rule ++ drop (length (costs mode (stored columns rows xs.now ys.now cells.now) rule)) table.old };

    fn emit(
        costs: &[u32],
        cells: &[u8],
        xs: &[u16; MOST_LINES],
        ys: &[u16; MOST_LINES],
        list: &mut [u16],
        plan: Plan,
        at: usize,
        p: Numbered,
    ) -> usize
        requires { Emittable mode costs.now cells.now xs.now ys.now (length list.old) plan at p }
        ensures { (g : Grid) (r : Rule) → Walk mode g r costs.now cells.now xs.now ys.now plan → Written g list.old list.new at (shots mode g r (meant p.piece)) result };
}

// And how it fractures the grid of a figure by a rule in range: 6, 7 or the shots. A trait of its own: what it does goes by a manner, its own,
// or that of straight cuts where a grid has no pinwheel.
pub trait Grids: Manner {
    fn of_grid(
        columns: usize,
        rows: usize,
        xs: &[u16; MOST_LINES],
        ys: &[u16; MOST_LINES],
        cells: &[u8],
        rule: Rule,
        table: &mut [u32],
        list: &mut [u16],
    ) -> Result<Fractured, Denial>
        requires { Fillable (memory columns rows xs.now ys.now cells.now) rule }
        ensures { (g : Grid) → Laid g (memory columns rows xs.now ys.now cells.now) → told result table.new list.new ≡ gridded Self.mode g rule table.old list.old };
}

// By straight cuts.
pub struct StraightCuts;

impl Manner for StraightCuts {
    ghost mode = { Straight };

    fn fill(
        xs: &[u16],
        ys: &[u16],
        cells: &[u8],
        columns: usize,
        rows: usize,
        rule: Rule,
        table: &mut [u32],
    ) {
        fill(xs, ys, cells, columns, rows, rule, table);
    }

    fn emit(
        costs: &[u32],
        cells: &[u8],
        xs: &[u16; MOST_LINES],
        ys: &[u16; MOST_LINES],
        list: &mut [u16],
        plan: Plan,
        at: usize,
        p: Numbered,
    ) -> usize {
        emit(costs, cells, xs, ys, list, plan, at, p)
    }
}
