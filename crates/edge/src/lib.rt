// One edge of a figure and the shots that it ends up on.
#![tactic(auto)]

ghost use Rattle.std.specs.Prelude.{◌≡◌};
ghost use Rattle.figure.specs.Figure.{figure};
ghost use Rattle.outline.specs.Promise.{answer_no, refusal};
ghost use Rattle.edge.specs.Promise.{edge_told, edge_walked};

use along::{count_runs, write_runs};
use figure::Axis;
use numbered::{next_corner, span_of};
use outline::{MOST_CELLS, MOST_LINES, draw};
use refusal::Refusal;
use shot::bad_shots;

mod along;
mod beside;
mod ending;
mod numbered;

// A stretch of 1 nm: at a place along an axis, from k to k + 1 along the other.
#[derive(Clone, Copy)]
pub struct Stretch {
    pub axis: Axis,
    pub at: u16,
    pub k: u16,
}

// A side of what a stretch lies on: the low one, left or bottom, or the high one, right or top.
#[derive(Clone, Copy, PartialEq, Eq)]
pub enum Side {
    Low,
    High,
}

// Where a stretch ends up: on which side of the figure, and on which shot, by its number from 1.
#[derive(Clone, Copy, PartialEq, Eq)]
pub struct Landed {
    pub shot: Option<usize>,
    pub side: Option<Side>,
}

// 2 to 5 of a figure. What is drawn on the way is not wanted here.
fn judge(corners: &[u16], lengths: &[u16]) -> Result<(), Refusal>
    ensures { answer_no result ≡ refusal (figure corners.now lengths.now) }
{
    let mut xs = [0u16; MOST_LINES];
    let mut ys = [0u16; MOST_LINES];
    let mut cells = [0u8; MOST_CELLS];
    draw(corners, lengths, &mut xs, &mut ys, &mut cells)?;
    Ok(())
}

// The runs of an edge, from its low end to its high end, and how many: four numbers each at the front of the buffer, from and to along
// the edge, the number of the shot that it ends up on, from 1, or 0 for none, and the side of the figure, 0 where there is no wall. The
// edge is numbered by the corner that it leaves, counted over all rings. Nothing is written beside a refusal.
pub fn edge_shots(
    corners: &[u16],
    lengths: &[u16],
    edge: usize,
    shots: &[u16],
    runs: &mut [usize],
) -> Result<usize, Refusal>
    ensures settled { edge_told result runs.new ≡ edge_walked (figure corners.now lengths.now) edge shots.now runs.old }
{
    judge(corners, lengths)?;
    if bad_shots(shots) {
        return Err(Refusal::Shots);
    }
    if corners.len() / 2 <= edge {
        return Err(Refusal::Edge);
    }
    let span = span_of(corners, edge, next_corner(corners, lengths, edge));
    let count = count_runs(corners, lengths, shots, span);
    if runs.len() / 4 < count {
        return Err(Refusal::Room);
    }
    write_runs(corners, lengths, shots, span, runs);
    Ok(count)
}
