// Emission: the shots of a piece, written in list order.
#![tactic(auto)]

ghost use Rattle.std.specs.Prelude.{◌≡◌, ◌∷◌, [], ◌+◌, ◌≤◌, length, get_or};
ghost use Rattle.std.proofs.lemmas.List.Edits.{sets};
ghost use Rattle.recurrence.specs.Scheme.{mixed};
ghost use Rattle.outline.specs.Grid.{Grid};
ghost use Rattle.rule.specs.declared.Rule.{Rule};
ghost use Rattle.piece.specs.declared.Mode.TheVariants.{Straight};
ghost use Rattle.piece.specs.Piece.{kind};
ghost use Rattle.piece.specs.Meant.{meant};
ghost use Rattle.piece.specs.Cuts.{shots};
ghost use Rattle.verdict.specs.Memory.{Known};
ghost use Rattle.emission.specs.Emission.{InLists, Written, Walk, Emittable, Settleable, Settles, EmittableMixed};

use outline::{MOST_LINES, place_of};
use piece::Piece;
use verdict::{Numbered, Plan, Sort, halves, sort_of};

pub mod measuring;
pub mod pinwheel;

// Writes the four numbers of a shot, x low, y low, x high, y high, from the index at on; hands back the index behind them.
fn write_shot(
    xs: &[u16; MOST_LINES],
    ys: &[u16; MOST_LINES],
    list: &mut [u16],
    at: usize,
    p: Piece,
) -> usize
    requires in_lists { InLists xs.now ys.now p }
    requires at_in_bounds { at + 4 ≤ length list.old }
    ensures { (list.new ≡ sets list.old at (get_or xs.now p.a.0 0 ∷ get_or ys.now p.b.0 0 ∷ get_or xs.now p.c.0 0 ∷ get_or ys.now p.d.0 0 ∷ [])) × (result ≡ at + 4) }
{
    let left = place_of(xs, p.a);
    let bottom = place_of(ys, p.b);
    let right = place_of(xs, p.c);
    let top = place_of(ys, p.d);
    list[at] = left.0;
    list[at + 1] = bottom.0;
    list[at + 2] = right.0;
    list[at + 3] = top.0;
    at + 4
}

// Settles a piece that needs no cut: where it is full it is a shot, written from the index at on; where it is outside there is nothing to write.
// Hands back the index behind its shots; none where it is mixed, and nothing is written.
fn settle(
    costs: &[u32],
    cells: &[u8],
    xs: &[u16; MOST_LINES],
    ys: &[u16; MOST_LINES],
    list: &mut [u16],
    at: usize,
    p: Numbered,
) -> Option<usize>
    requires { Settleable costs.now cells.now xs.now ys.now (length list.old) at p }
    ensures { (g : Grid) (r : Rule) (plan : Plan) → Walk Straight g r costs.now cells.now xs.now ys.now plan → Known plan p → Settles g r list.old list.new at (meant p.piece) result }
{
    let sort = sort_of(costs, cells, p);
    match sort {
        Sort::Outside => Some(at),
        Sort::Full => {
            let shot = p.piece;
            let behind = write_shot(xs, ys, list, at, shot);
            Some(behind)
        }
        Sort::Mixed => None,
    }
}

// Writes the shots of a mixed piece from the index at on, those of the low part of its cut before those of the high part; hands back the
// index behind them. A part that needs no cut is settled where it arises: only a mixed low part is a call, and with a mixed high part it goes
// on from the top. What is lent goes down one by one (not tried as one struct).
fn emit_mixed(
    costs: &[u32],
    cells: &[u8],
    xs: &[u16; MOST_LINES],
    ys: &[u16; MOST_LINES],
    list: &mut [u16],
    plan: Plan,
    at: usize,
    p: Numbered,
) -> usize
    requires { EmittableMixed costs.now cells.now xs.now ys.now (length list.old) plan at p }
    ensures { (g : Grid) (r : Rule) → Walk Straight g r costs.now cells.now xs.now ys.now plan → kind g (meant p.piece) ≡ mixed → Written g list.old list.new at (shots Straight g r (meant p.piece)) result }
{
    let mut next = at;
    let mut rest = p;
    let mut more = true;
    while more {
        let parts = halves(costs, plan, rest);
        let low = parts.low;
        let high = parts.high;
        let first = settle(costs, cells, xs, ys, list, next, low);
        next = match first {
            Some(n) => n,
            None => emit_mixed(costs, cells, xs, ys, list, plan, next, low),
        };
        let second = settle(costs, cells, xs, ys, list, next, high);
        match second {
            Some(m) => {
                next = m;
                more = false;
            }
            None => {
                rest = high;
            }
        }
    }
    next
}

// Writes the shots of a piece from the index at on, those of the low part of a cut before those of the high part; hands back the index
// behind them. Their slivers are not measured here: `measuring` tells their length from the cost.
pub fn emit(
    costs: &[u32],
    cells: &[u8],
    xs: &[u16; MOST_LINES],
    ys: &[u16; MOST_LINES],
    list: &mut [u16],
    plan: Plan,
    at: usize,
    p: Numbered,
) -> usize
    requires { Emittable Straight costs.now cells.now xs.now ys.now (length list.old) plan at p }
    ensures { (g : Grid) (r : Rule) → Walk Straight g r costs.now cells.now xs.now ys.now plan → Written g list.old list.new at (shots Straight g r (meant p.piece)) result }
{
    let settled = settle(costs, cells, xs, ys, list, at, p);
    match settled {
        Some(n) => n,
        None => emit_mixed(costs, cells, xs, ys, list, plan, at, p),
    }
}
