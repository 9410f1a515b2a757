// Lines and cells of a drawing, by number: what lies beyond them is 0, or outside.
ghost use Rattle.std.specs.Prelude.{◌≡◌, ℕ, ◌<◌, ◌≤◌, get_or};
ghost use Rattle.cutting.specs.Cutting.{cell_at, LineAt};

use outline::{MOST_CELLS, MOST_LINES};

// The place of a line.
pub fn place(lines: &[u16; MOST_LINES], line: usize) -> u16
    ensures { result ≡ get_or lines.now line 0 }
{
    lines.get(line).copied().unwrap_or(0)
}

// The number of the line at a place: the first that is not below it; MOST_LINES where there is none, where nothing is read.
#[tactic(auto, unfolding(crate::specs::Cutting::LineAt))]
pub fn line_at(lines: &[u16; MOST_LINES], at: u16) -> usize
    ensures { LineAt lines.now at result }
{
    lines
        .iter()
        .position(|place| at <= *place)
        .unwrap_or(MOST_LINES)
}

// Whether the cell (i, j) is inside.
#[tactic(auto, unfolding(crate::specs::Cutting::cell_at))]
pub fn cell(cells: &[u8; MOST_CELLS], i: usize, j: usize) -> bool
    ensures { result ≡ cell_at cells.now i j }
{
    i < MOST_LINES && j < MOST_LINES && cells[MOST_LINES * i + j] == 1
}
