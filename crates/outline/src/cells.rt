// The cells inside a figure, by the odd count.
ghost use Rattle.std.specs.Prelude.{◌≡◌, List, ℕ, ◌+◌, ◌/◌, ◌≤◌, ◌<◌, length, drop, replicate};
ghost use Rattle.figure.specs.Corners as corner;
ghost use Rattle.figure.specs.Figure.{figure, edges_of};
ghost use Rattle.figure.specs.Inside as inside;
ghost use Rattle.figure.specs.Steps.{edge};
ghost use Rattle.outline.specs.Inside.{grid};
ghost use Rattle.outline.specs.Steps as step;
ghost use Rattle.outline.specs.Promise as promise;

use crate::{Line, MOST_LINES, rising};
use figure::{Axis, Place, edges};

// Whether a span from low to high covers a row of cells, by the row's bottom: high is a line, so a row that begins below it ends there
// or below.
fn covers(low: Place, high: Place, bottom: Place) -> bool
    ensures { result ≡ step.begins low.0 high.0 bottom.0 }
{
    low.0 <= bottom.0 && bottom.0 < high.0
}

// A cell, 0 or 1, turned over where a wall covers it: so it is 1 after an odd number of walls.
fn turned(cell: u8, covered: bool) -> u8
    requires { cell ≤ 1 }
    ensures { result ≡ step.flip covered cell }
{
    let other = 1 - cell;
    if covered { other } else { cell }
}

// Turns over each cell right of an x line whose y range a span covers, in 16 by 16 cells.
fn turn_over(cells: &mut [u8], line: Line, ys: &[u16], low: Place, high: Place)
    requires bits { step.Bits cells.old ys.now line.0 }
    requires listed { step.Listed ys.now high.0 }
    ensures { step.Turned cells.old ys.now line.0 low.0 high.0 cells.new }
{
    let first = MOST_LINES * line.0;
    let rows = ys.len() - 1;
    for j in 0..rows {
        let covered = covers(low, high, crate::place_of(ys, Line(j)));
        let at = first + j;
        cells[at] = turned(cells[at], covered);
    }
}

// Turns over the cells on the right of the wall from corner b of a ring to corner k, the one after it.
fn mark(corners: &[u16], b: usize, k: usize, xs: &[u16], ys: &[u16], cells: &mut [u8])
    requires k_in_bounds { k < length corners.now / 2 }
    requires upright { step.Upright corners.now b k }
    requires ruled { step.Ruled corners.now xs.now ys.now }
    requires marks { step.Marks cells.old }
    ensures { step.Marked xs.now ys.now (inside.wall (edge corners.now k)) cells.old cells.new }
{
    let start = edges::along(corners, b, Axis::Y);
    let end = edges::along(corners, k, Axis::Y);
    let line = rising::line_of(xs, edges::along(corners, k, Axis::X));
    turn_over(
        cells,
        line,
        ys,
        Place(start.0.min(end.0)),
        Place(start.0.max(end.0)),
    );
}

// Turns over the cells on the right of every other edge of a ring, beginning with the edge that ends at corner `first`. From there on
// these are its walls, since its edges change x and y by turns.
fn mark_from(corners: &[u16], first: usize, xs: &[u16], ys: &[u16], cells: &mut [u8])
    requires walled { step.Walled corners.now first }
    requires ruled { step.Ruled corners.now xs.now ys.now }
    requires marks { step.Marks cells.old }
    ensures { step.Marked xs.now ys.now (inside.walls (drop first (corner.edges (corner.corners corners.now)))) cells.old cells.new }
{
    let count = corners.len() / 2;
    for edge in (first..count).step_by(2) {
        mark(corners, edge - 1, edge, xs, ys, cells);
    }
}

// Turns over the cells on the right of each wall of a ring. The closing edge is one, or the edge after it.
fn mark_ring(corners: &[u16], xs: &[u16], ys: &[u16], cells: &mut [u8])
    requires ruled { step.Ruled corners.now xs.now ys.now }
    requires marks { step.Marks cells.old }
    ensures { step.Marked xs.now ys.now (inside.walls (corner.edges (corner.corners corners.now))) cells.old cells.new }
{
    if edges::changes(corners, 0, Axis::X) {
        mark_from(corners, 1, xs, ys, cells);
        return;
    }
    mark(corners, corners.len() / 2 - 1, 0, xs, ys, cells);
    mark_from(corners, 2, xs, ys, cells);
}

// Turns over the cells on the right of each wall of all rings: so a window in a ring takes away what the ring holds.
fn mark_walls(corners: &[u16], lengths: &[u16], xs: &[u16], ys: &[u16], cells: &mut [u8])
    requires lined { step.Lined (figure corners.now lengths.now) xs.now ys.now }
    requires marks { step.Marks cells.old }
    ensures { step.Marked xs.now ys.now (inside.walls (edges_of (figure corners.now lengths.now))) cells.old cells.new }
{
    let mut from: usize = 0;
    for &length in lengths {
        let to = from + 2 * usize::from(length);
        mark_ring(&corners[from..to], xs, ys, cells);
        from = to;
    }
}

// Lets the marks of the column before column i reach into it. Over numbers: a cell is read with the one a column before.
fn sweep_column(cells: &mut [u8], i: usize)
    requires marks { step.Marks cells.old }
    requires le_i { (1 ≤ i) × (i < 16) }
    ensures { (start : List ℕ) → step.Swept i start cells.old → step.Swept (i + 1) start cells.new }
{
    let first = MOST_LINES * i;
    for j in 0..MOST_LINES {
        let at = first + j;
        cells[at] = (cells[at - MOST_LINES] + cells[at]) % 2;
    }
}

// Lets each mark reach to the right, up to the last of so many x lines: a cell is then 1 where the number of walls at or left of it
// is odd. Beyond that line no wall stands and nothing is inside.
fn sweep(cells: &mut [u8], lines: usize)
    requires marks { step.Marks cells.old }
    requires le_lines { (1 ≤ lines) × (lines ≤ 16) }
    ensures { step.Swept lines cells.old cells.new }
{
    for i in 1..lines {
        sweep_column(cells, i);
    }
}

// Sets the cells inside a figure that passes 2, 3 and 4, by its x lines and its y lines.
pub fn shade(corners: &[u16], lengths: &[u16], xs: &[u16], ys: &[u16], cells: &mut [u8])
    requires lined { step.Lined (figure corners.now lengths.now) xs.now ys.now }
    requires cells_value { cells.old ≡ replicate 256 0 }
    ensures { cells.new ≡ (promise.laid (grid (figure corners.now lengths.now))).cells }
{
    mark_walls(corners, lengths, xs, ys, cells);
    sweep(cells, xs.len());
}

// Whether some cell is inside.
pub fn any_inside(cells: &[u8]) -> bool
    ensures { result ≡ corner.any step.lit cells.now }
{
    cells.iter().any(|&cell| cell != 0)
}
