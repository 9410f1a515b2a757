// The edges of a ring, and refusals 3 and 4.
ghost use Rattle.std.specs.Prelude.{◌≡◌, ◌/◌, ◌<◌, length};
ghost use Rattle.figure.specs.Corners as corner;
ghost use Rattle.figure.specs.Steps as step;

use crate::{Axis, Place};

// The place of corner k along an axis.
pub fn along(corners: &[u16], k: usize, axis: Axis) -> Place
    requires { k < length corners.now / 2 }
    ensures { result.0 ≡ corner.coordinate axis (step.corner corners.now k) }
{
    match axis {
        Axis::X => Place(corners[2 * k]),
        Axis::Y => Place(corners[2 * k + 1]),
    }
}

// The corner before corner k of `count`, once round: the last is before the first.
fn before(k: usize, count: usize) -> usize
    requires { k < count }
    ensures { (result ≡ step.before k count) × (result < count) }
{
    if k == 0 { count - 1 } else { k - 1 }
}

// Whether the edge that ends at corner k changes the coordinate along an axis.
pub fn changes(corners: &[u16], k: usize, axis: Axis) -> bool
    requires { k < length corners.now / 2 }
    ensures { result ≡ corner.changes axis (step.edge corners.now k) }
{
    let from = along(corners, before(k, corners.len() / 2), axis);
    let to = along(corners, k, axis);
    from != to
}

// Whether the edge that ends at corner k changes both coordinates.
fn both(corners: &[u16], k: usize) -> bool
    requires { k < length corners.now / 2 }
    ensures { result ≡ corner.both (step.edge corners.now k) }
{
    let x = changes(corners, k, Axis::X);
    let y = changes(corners, k, Axis::Y);
    x && y
}

// 3: an edge changes both coordinates. The edge that ends at corner 0 is the closing one.
pub fn slanted(corners: &[u16]) -> bool
    ensures { result ≡ corner.slanted (corner.corners corners.now) }
{
    let count = corners.len() / 2;
    for end in 0..count {
        if both(corners, end) {
            return true;
        }
    }
    false
}

// Whether a ring is not right_angled, 3 or 4, in one pass: an edge changes both coordinates or neither, or x where the edge before it
// does, or neither of them. Over numbers: an edge is read from the corner before it, once round.
pub fn crooked(corners: &[u16]) -> bool
    requires { 0 < length corners.now / 2 }
    ensures { result ≡ step.crooked (corner.corners corners.now) }
{
    let count = corners.len() / 2;
    let mut across = changes(corners, count - 1, Axis::X);
    for turn in 0..count {
        let x = changes(corners, turn, Axis::X);
        let y = changes(corners, turn, Axis::Y);
        if x == y {
            return true;
        }
        if x == across {
            return true;
        }
        across = x;
    }
    false
}
