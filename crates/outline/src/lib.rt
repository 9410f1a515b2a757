// From the corners of a figure to its grid.
#![tactic(auto)]

ghost use Rattle.std.specs.Prelude.{◌≡◌, ◌<◌, Ok, length, get_or};
ghost use Rattle.figure.specs.Figure.{figure};
ghost use Rattle.figure.specs.Steps.{Right};
ghost use Rattle.outline.specs.Inside.{grid};
ghost use Rattle.outline.specs.Steps as step;
ghost use Rattle.outline.specs.Promise as promise;

use figure::{Axis, Place, shape_of};
use refusal::Refusal;

mod cells;
mod rising;

// The number of a line, from 0 for the lowest; x lines and y lines are numbered apart.
#[derive(Clone, Copy)]
pub struct Line(pub usize);

// No figure has more lines each way.
pub const MOST_LINES: usize = 16;

// Room for the cells between so many lines, and a column and a row beyond them: the cell (i, j) is at MOST_LINES * i + j.
pub const MOST_CELLS: usize = 256;

// The columns and rows of the grid of a figure.
#[derive(Clone, Copy, PartialEq, Eq)]
pub struct Drawing {
    pub columns: usize,
    pub rows: usize,
}

// The place of a line, by the list of the lines of its direction.
pub fn place_of(lines: &[u16], line: Line) -> Place
    requires { line.0 < length lines.now }
    ensures { result.0 ≡ get_or lines.now line.0 0 }
{
    let at = line.0;
    Place(lines[at])
}

// Clears the lent arrays, whatever was in them.
fn clear(xs: &mut [u16; MOST_LINES], ys: &mut [u16; MOST_LINES], cells: &mut [u8; MOST_CELLS])
    ensures { step.Clear xs.new ys.new cells.new }
{
    *xs = [0u16; MOST_LINES];
    *ys = [0u16; MOST_LINES];
    *cells = [0u8; MOST_CELLS];
}

// Draws the lines and the cells of a figure that passes 2, 3 and 4 into lists that are all zeros; 5 is not asked yet.
fn trace(
    corners: &[u16],
    lengths: &[u16],
    xs: &mut [u16],
    ys: &mut [u16],
    cells: &mut [u8],
) -> Drawing
    requires right { Right (figure corners.now lengths.now) }
    requires clear { step.Clear xs.old ys.old cells.old }
    ensures { promise.sheet (Ok result) xs.new ys.new cells.new ≡ step.sheet_of (grid (figure corners.now lengths.now)) }
{
    let across_x = rising::gather(corners, Axis::X, xs);
    let across_y = rising::gather(corners, Axis::Y, ys);
    cells::shade(corners, lengths, &xs[..across_x], &ys[..across_y], cells);
    Drawing {
        columns: across_x - 1,
        rows: across_y - 1,
    }
}

// The grid of a figure, from the list x, y, x, y, .. of its corners, ring after ring, and the number of corners of each ring; or
// the first of 2, 3, 4, 5 whose condition holds. It is drawn into the lent arrays, whatever was in them: the places of the columns
// + 1 x lines and of the rows + 1 y lines, and at 16 * i + j a 1 where the cell (i, j) is inside. All else is 0, and beside a
// refusal all of it. Not a call for users: beside a refusal it clears what it is lent.
pub fn draw(
    corners: &[u16],
    lengths: &[u16],
    xs: &mut [u16; MOST_LINES],
    ys: &mut [u16; MOST_LINES],
    cells: &mut [u8; MOST_CELLS],
) -> Result<Drawing, Refusal>
    ensures { promise.Promise (figure corners.now lengths.now) (promise.sheet result xs.new ys.new cells.new) }
{
    clear(xs, ys, cells);
    shape_of(corners, lengths)?;
    let drawing = trace(corners, lengths, xs, ys, cells);
    if cells::any_inside(cells) {
        return Ok(drawing);
    }
    clear(xs, ys, cells);
    Err(Refusal::Empty)
}
