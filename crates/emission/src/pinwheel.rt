// Emission by pinwheels too. It stands apart from that of straight cuts, which has no room to make for the parts of a pinwheel.
ghost use Rattle.std.specs.Prelude.{length};
ghost use Rattle.outline.specs.Grid.{Grid};
ghost use Rattle.rule.specs.declared.Rule.{Rule};
ghost use Rattle.piece.specs.declared.Mode.TheVariants.{Pinwheel};
ghost use Rattle.piece.specs.Meant.{meant};
ghost use Rattle.piece.specs.Cuts.{shots};
ghost use Rattle.emission.specs.Emission.{Written, Walk, Emittable};

use crate::write_shot;
use outline::MOST_LINES;
use verdict::pinwheel::{Turned, judge};
use verdict::{Numbered, Plan};

// Writes the shots of a piece from the index at on, part after part: those of the low part of a cut before those of the high part, those of
// a pinwheel in the order of its parts; hands back the index behind them. Their slivers are not measured here: `measuring` tells their length from the cost.
pub fn emit(
    costs: &[u32],
    cells: &[u8],
    xs: &[u16; MOST_LINES],
    ys: &[u16; MOST_LINES],
    list: &mut [u16],
    plan: Plan,
    at: usize,
    p: Numbered,
) -> usize
    requires { Emittable Pinwheel costs.now cells.now xs.now ys.now (length list.old) plan at p }
    ensures { (g : Grid) (r : Rule) → Walk Pinwheel g r costs.now cells.now xs.now ys.now plan → Written g list.old list.new at (shots Pinwheel g r (meant p.piece)) result }
{
    let verdict = judge(costs, cells, plan, p);
    match verdict {
        Turned::Outside => at,
        Turned::Shot => {
            let shot = p.piece;
            write_shot(xs, ys, list, at, shot)
        }
        Turned::Cut(low, high) => {
            let next = emit(costs, cells, xs, ys, list, plan, at, low);
            emit(costs, cells, xs, ys, list, plan, next, high)
        }
        Turned::Wheel(wheel) => {
            let first = wheel.first;
            let second = wheel.second;
            let third = wheel.third;
            let fourth = wheel.fourth;
            let inner = wheel.inner;
            let one = emit(costs, cells, xs, ys, list, plan, at, first);
            let two = emit(costs, cells, xs, ys, list, plan, one, second);
            let three = emit(costs, cells, xs, ys, list, plan, two, third);
            let four = emit(costs, cells, xs, ys, list, plan, three, fourth);
            emit(costs, cells, xs, ys, list, plan, four, inner)
        }
    }
}
