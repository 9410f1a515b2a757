// Lengths along lines and the columns beside them, for whoever sums up the sides of strips.
ghost use Rattle.std.specs.Prelude.{◌≡◌, ◌-◌, ◌<◌, ◌≤◌, length, get_or};
ghost use Rattle.table.specs.Side.{before_at};

use outline::{Line, MOST_LINES, place_of};

// Where column 15 of the cells begins, which lies beyond every frame.
pub const COLUMN_BEYOND: usize = 240;

// From the place of one line to that of a higher one, in nm.
pub fn span(lines: &[u16], from: Line, to: Line) -> u32
    requires { (from.0 < length lines.now) × ((to.0 < length lines.now) × (get_or lines.now from.0 0 ≤ get_or lines.now to.0 0)) }
    ensures { (result ≡ get_or lines.now to.0 0 - get_or lines.now from.0 0) × (result ≤ 65535) }
{
    let low = place_of(lines, from);
    let high = place_of(lines, to);
    u32::from(high.0 - low.0)
}

// Where the column left of the x line a begins. Left of the first line there is none: the column beyond every frame stands in for it.
pub fn column_before(a: Line) -> usize
    requires { a.0 ≤ 14 }
    ensures { (result ≡ before_at a.0) × (result ≤ 240) }
{
    let line = a.0;
    if line == 0 {
        return COLUMN_BEYOND;
    }
    MOST_LINES * (line - 1)
}
