// The shot that a stretch ends up on.
ghost use Rattle.std.specs.Prelude.{◌≡◌, ℕ, Some, false};
ghost use Rattle.figure.specs.Figure.{figure, bad_figure};
ghost use Rattle.figure.specs.Inside.{inside_at};
ghost use Rattle.shot.specs.Shot.{shots_in};
ghost use Rattle.shot.specs.Bad.{shot_of};
ghost use Rattle.edge.specs.Landing.{landing};
ghost use Rattle.edge.specs.Steps as step;

use crate::beside::side_at;
use crate::{Landed, Side, Stretch};
use figure::Axis;

// The side that lies at `at`, of a shot from low to high across it and from `from` to `to` along it: the low one where the shot begins
// there, the high one where it ends there.
fn side_on(low: u16, high: u16, from: u16, to: u16, at: u16, k: u16) -> Option<Side>
    ensures { (first : ℕ) → step.side_no first result ≡ step.side_on low high from to at k first }
{
    if k < from {
        return None;
    }
    if to <= k {
        return None;
    }
    if low == at {
        return Some(Side::Low);
    }
    if high == at {
        return Some(Side::High);
    }
    None
}

// The side of a shot that a stretch lies on.
fn side_of(xlow: u16, ylow: u16, xhigh: u16, yhigh: u16, s: Stretch) -> Option<Side>
    ensures { step.side_no (step.low_of s.axis) result ≡ step.side_by s.axis (shot_of xlow ylow xhigh yhigh) s.at s.k }
{
    match s.axis {
        Axis::X => side_on(xlow, xhigh, ylow, yhigh, s.at, s.k),
        Axis::Y => side_on(ylow, yhigh, xlow, xhigh, s.at, s.k),
    }
}

// The number, from 1, of the first shot of a list that has a side where a stretch lies.
fn shot_with(shots: &[u16], s: Stretch, side: Side) -> Option<usize>
    ensures number { step.shot_no result ≡ step.shot_by (step.side_no (step.low_of s.axis) (Some side)) s.axis (shots_in shots.now) s.at s.k }
    ensures from_1 { step.FromOne result }
{
    let count = shots.len() / 4;
    for i in 0..count {
        let at = 4 * i;
        if side_of(shots[at], shots[at + 1], shots[at + 2], shots[at + 3], s) == Some(side) {
            return Some(i + 1);
        }
    }
    None
}

// Where a stretch ends up: on the first shot of the list that it lies on the same side of as of the figure.
pub fn landing_at(corners: &[u16], lengths: &[u16], shots: &[u16], s: Stretch) -> Landed
    requires lengths_value { bad_figure (figure corners.now lengths.now) ≡ false }
    requires solid { step.Solid s.axis (shots_in shots.now) }
    ensures told { step.told s.axis result ≡ landing s.axis (inside_at (figure corners.now lengths.now)) (shots_in shots.now) s.at s.k }
    ensures from_1 { step.FromOne result.shot }
{
    let Some(side) = side_at(corners, lengths, s) else {
        return Landed {
            shot: None,
            side: None,
        };
    };
    Landed {
        shot: shot_with(shots, s, side),
        side: Some(side),
    }
}
