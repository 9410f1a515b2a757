// The squares beside a stretch, and the side of the figure that it lies on.
ghost use Rattle.std.specs.Prelude.{◌≡◌, ℕ, false, ◌/◌, ◌≤◌, ◌<◌, length};
ghost use Rattle.figure.specs.Figure.{figure, bad_figure};
ghost use Rattle.figure.specs.Inside.{inside_at};
ghost use Rattle.edge.specs.Landing.{facing};
ghost use Rattle.edge.specs.Steps as step;

use crate::{Side, Stretch};
use figure::Axis;

// Whether a span from low to high takes in the stretch from y to y + 1. (`outline::cells` has it of places: one line, for which `figure`,
// that both know, has no use.)
fn covers(low: u16, high: u16, y: u16) -> bool
    ensures { result ≡ step.spans low high y }
{
    low <= y && y < high
}

// Whether the edge from (a, b) to (c, d) is upright, at or left of x, and its span takes in the stretch from y to y + 1.
fn stands(a: u16, b: u16, c: u16, d: u16, x: u16, y: u16) -> bool
    ensures { result ≡ step.standing x y (step.link a b c d) }
{
    if a != c {
        return false;
    }
    if x < c {
        return false;
    }
    if b <= d {
        return covers(b, d, y);
    }
    covers(d, b, y)
}

// One thing more that turns inside to outside, and outside to inside, if it does.
fn turned(inside: bool, hit: bool) -> bool
    ensures { result ≡ step.turned inside hit }
{
    inside != hit
}

// Whether a ring holds the unit square at (x, y), by the odd count. The first edge is the closing one. Over numbers: each corner is read
// with the one before it, and the first with the last.
fn ring_holds(ring: &[u16], x: u16, y: u16) -> bool
    requires { 0 < length ring.now / 2 }
    ensures { result ≡ step.ring_holds ring.now x y }
{
    let count = ring.len() / 2;
    let mut inside = false;
    let mut start = count - 1;
    for end in 0..count {
        let from = 2 * start;
        let to = 2 * end;
        let hit = stands(ring[from], ring[from + 1], ring[to], ring[to + 1], x, y);
        inside = turned(inside, hit);
        start = end;
    }
    inside
}

// Whether the unit square at (x, y) is inside: an odd number of rings hold it.
fn inside_at(corners: &[u16], lengths: &[u16], x: u16, y: u16) -> bool
    requires { bad_figure (figure corners.now lengths.now) ≡ false }
    ensures { result ≡ inside_at (figure corners.now lengths.now) x y }
{
    let mut inside = false;
    let mut from: usize = 0;
    for &length in lengths {
        let to = from + 2 * usize::from(length);
        let hit = ring_holds(&corners[from..to], x, y);
        inside = turned(inside, hit);
        from = to;
    }
    inside
}

// Whether the square at p along an axis and k along the other is inside.
fn seen(corners: &[u16], lengths: &[u16], axis: Axis, p: u16, k: u16) -> bool
    requires { bad_figure (figure corners.now lengths.now) ≡ false }
    ensures { result ≡ step.seen_by axis (figure corners.now lengths.now) p k }
{
    match axis {
        Axis::X => inside_at(corners, lengths, p, k),
        Axis::Y => inside_at(corners, lengths, k, p),
    }
}

// Whether the square on the low side of a stretch is inside; left of 0 and below 0 there is none.
fn beneath(corners: &[u16], lengths: &[u16], s: Stretch) -> bool
    requires { bad_figure (figure corners.now lengths.now) ≡ false }
    ensures { result ≡ step.beneath_by s.axis (figure corners.now lengths.now) s.at s.k }
{
    let axis = s.axis;
    let at = s.at;
    if at == 0 {
        return false;
    }
    seen(corners, lengths, axis, at - 1, s.k)
}

// The number of the low side, left or bottom; the high one has the next.
fn low_side(axis: Axis) -> u8
    ensures { result ≡ step.low_of axis }
{
    match axis {
        Axis::X => 1,
        Axis::Y => 3,
    }
}

// The number that a run is written with for a side: 0 for none.
pub fn number(axis: Axis, side: Option<Side>) -> u8
    ensures { result ≡ step.side_no (step.low_of axis) side }
{
    match side {
        None => 0,
        Some(Side::Low) => low_side(axis),
        Some(Side::High) => low_side(axis) + 1,
    }
}

// The side by the two squares beside a stretch.
fn face(beyond: bool, beneath: bool) -> Option<Side>
    ensures { (low : ℕ) → step.side_no low result ≡ step.face_of beyond beneath low }
{
    if beyond {
        if beneath {
            return None;
        }
        return Some(Side::Low);
    }
    if beneath {
        return Some(Side::High);
    }
    None
}

// The side of the figure that a stretch lies on.
pub fn side_at(corners: &[u16], lengths: &[u16], s: Stretch) -> Option<Side>
    requires { bad_figure (figure corners.now lengths.now) ≡ false }
    ensures { step.side_no (step.low_of s.axis) result ≡ facing s.axis (inside_at (figure corners.now lengths.now)) s.at s.k }
{
    let high = seen(corners, lengths, s.axis, s.at, s.k);
    let low = beneath(corners, lengths, s);
    face(high, low)
}
