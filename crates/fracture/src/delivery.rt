// From a filled table to the list: is there room for the shots, and then the shots.
ghost use Rattle.std.specs.Prelude.{◌≡◌, length};
ghost use Rattle.outline.specs.Grid.{Grid};
ghost use Rattle.rule.specs.declared.Rule.{Rule};
ghost use Rattle.piece.specs.Meant.{meant};
ghost use Rattle.piece.specs.Piece.{box};
ghost use Rattle.piece.specs.Cuts.{shots};
ghost use Rattle.verdict.specs.Memory.{Known};
ghost use Rattle.emission.specs.Emission.{Walk, Emittable};
ghost use Rattle.demands.specs.Promise.{delivered};
ghost use Rattle.fracture.specs.Delivery.{room_of, Sized, Walkable};
ghost use Rattle.fracture.specs.Told.{told};

use super::manner::Manner;
use super::{Denial, Fractured, NUMBERS};
use emission::measuring::slivers;
use outline::{Line, MOST_LINES};
use piece::Piece;
use refusal::Refusal;
use verdict::{Numbered, Plan};

// The piece from the lowest lines to the highest. The pair of the lowest and the highest line is the last that begins at the lowest.
pub fn frame_of(plan: Plan) -> Numbered
    requires { Sized plan }
    ensures { (meant result.piece ≡ box 0 plan.columns 0 plan.rows) × Known plan result }
{
    let columns = plan.columns;
    let rows = plan.rows;
    let pairs = plan.pairs;
    let entry = (columns - 1) * pairs + (rows - 1);
    Numbered {
        piece: Piece {
            a: Line(0),
            c: Line(columns),
            b: Line(0),
            d: Line(rows),
        },
        entry,
    }
}

// Nothing where so many numbers have room for the shots of the frame, else how many shots there are. There are no more shots than cells, so
// most lists need no count; for the others the shots are written aside, where there is room for those of any grid.
fn room_for<M: Manner>(
    costs: &[u32],
    cells: &[u8],
    xs: &[u16; MOST_LINES],
    ys: &[u16; MOST_LINES],
    plan: Plan,
    frame: Numbered,
    numbers: usize,
) -> Result<(), Denial>
    requires { Emittable M.mode costs.now cells.now xs.now ys.now 900 plan 0 frame }
    ensures { (g : Grid) (r : Rule) → Walk M.mode g r costs.now cells.now xs.now ys.now plan → result ≡ room_of numbers (length (shots M.mode g r (meant frame.piece))) }
{
    let columns = plan.columns;
    let rows = plan.rows;
    if 4 * (columns * rows) <= numbers {
        return Ok(());
    }
    let mut aside = [0u16; NUMBERS];
    let end = M::emit(costs, cells, xs, ys, &mut aside, plan, 0, frame);
    let needed = end / 4;
    if numbers < 4 * needed {
        return Err(Denial {
            why: Refusal::List,
            needed: needed as u32,
        });
    }
    Ok(())
}

// Writes the shots of the frame, or tells how many there are where the list is too short for them; then it is left as it is.
pub fn deliver<M: Manner>(
    costs: &[u32],
    cells: &[u8],
    xs: &[u16; MOST_LINES],
    ys: &[u16; MOST_LINES],
    list: &mut [u16],
    plan: Plan,
) -> Result<Fractured, Denial>
    requires { Walkable M.mode costs.now cells.now xs.now ys.now plan }
    ensures { (g : Grid) (r : Rule) → Walk M.mode g r costs.now cells.now xs.now ys.now plan → told result costs.now list.new ≡ delivered M.mode g r costs.now list.old }
{
    let frame = frame_of(plan);
    room_for::<M>(costs, cells, xs, ys, plan, frame, list.len())?;
    let end = M::emit(costs, cells, xs, ys, list, plan, 0, frame);
    let shots = end / 4;
    let cost = costs[frame.entry];
    let sliver = slivers(cells, xs, ys, list, plan.rule, shots, cost);
    let cuts = count::cuts(cells, plan.columns, plan.rows);
    Ok(Fractured {
        shots: shots as u32,
        cost,
        sliver,
        cuts,
    })
}
