// The edge of a number: its two corners, and where it lies.
ghost use Rattle.std.specs.Prelude.{◌≡◌, false, ◌/◌, ◌<◌, length};
ghost use Rattle.figure.specs.Figure.{figure, bad_figure};
ghost use Rattle.edge.specs.Edge.{other as other_of, across as acrossOf};
ghost use Rattle.edge.specs.Steps as step;

use figure::{Axis, edges};

// Where an edge lies: at a place along the axis that it stands across, from low to high along the other.
#[derive(Clone, Copy)]
pub struct Span {
    pub axis: Axis,
    pub at: u16,
    pub low: u16,
    pub high: u16,
}

// The other axis.
pub fn other(axis: Axis) -> Axis
    ensures { result ≡ other_of axis }
{
    match axis {
        Axis::X => Axis::Y,
        Axis::Y => Axis::X,
    }
}

// The corner that an edge leads to: the next of its ring, after the ring's last corner its first. Corners are counted over all rings.
pub fn next_corner(corners: &[u16], lengths: &[u16], edge: usize) -> usize
    requires lengths_value { bad_figure (figure corners.now lengths.now) ≡ false }
    requires edge_in_bounds { edge < length corners.now / 2 }
    ensures { step.Leads (figure corners.now lengths.now) edge result }
{
    let mut first: usize = 0;
    for &length in lengths {
        let past = first + usize::from(length);
        if edge + 1 < past {
            return edge + 1;
        }
        if edge + 1 == past {
            return first;
        }
        first = past;
    }
    first
}

// The axis that the edge between two corners stands across.
fn across(corners: &[u16], start: usize, end: usize) -> Axis
    requires { (start < length corners.now / 2) × (end < length corners.now / 2) }
    ensures { result ≡ acrossOf (step.between corners.now start end) }
{
    let from = edges::along(corners, start, Axis::X);
    let to = edges::along(corners, end, Axis::X);
    if from == to { Axis::X } else { Axis::Y }
}

// Where the edge between two corners lies.
pub fn span_of(corners: &[u16], start: usize, end: usize) -> Span
    requires { (start < length corners.now / 2) × (end < length corners.now / 2) }
    ensures { step.Spanned (step.between corners.now start end) result.axis result.at result.low result.high }
{
    let axis = across(corners, start, end);
    let at = edges::along(corners, end, axis);
    let from = edges::along(corners, start, other(axis));
    let to = edges::along(corners, end, other(axis));
    Span {
        axis,
        at: at.0,
        low: from.0.min(to.0),
        high: from.0.max(to.0),
    }
}
