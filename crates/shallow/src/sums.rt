// What a piece of a strip adds up to: a row of cells as the strip grows by a column, and rows one above the other.
ghost use Rattle.std.specs.Prelude.{◌≡◌, not, ℕ, ◌+◌, ◌*◌, ◌-◌, ◌<◌, ◌≤◌, length, get_or};
ghost use Rattle.sum.specs.Sum.{only};
ghost use Rattle.rule.specs.Rules.{limit};
ghost use Rattle.rule.specs.Charge.{spared};
ghost use Rattle.table.specs.Side.{below_at};
ghost use Rattle.table.specs.Cuts.{Judged};
ghost use Rattle.shallow.specs.Sums.{Small, empty_of, flanks_at, grown_row, stacked_of, shot_of};

use crate::cuts::Strip;
use outline::{Line, MOST_LINES};
use rule::Rule;
use table::{runs, sides};

// The sums of a piece: its cells, how many of them are inside, its height, and how much of its bottom, of its top and of its two flanks
// is exposed, in nm. Flanks that the rule spares are not measured; then they are 0.
#[derive(Clone, Copy)]
pub struct Sums {
    pub cells: u32,
    pub inside: u32,
    pub height: u32,
    pub bottom: u32,
    pub top: u32,
    pub flanks: u32,
}

// The row j of a strip that has no column yet.
pub fn empty(ys: &[u16], j: usize) -> Sums
    requires { (j + 1 < length ys.now) × (get_or ys.now j 0 ≤ get_or ys.now (j + 1) 0) }
    ensures { result ≡ empty_of (get_or ys.now (j + 1) 0 - get_or ys.now j 0) }
{
    let next = j + 1;
    let height = sides::span(ys, Line(j), Line(next));
    Sums {
        cells: 0,
        inside: 0,
        height,
        bottom: 0,
        top: 0,
        flanks: 0,
    }
}

// A cell counts 1 where it is inside; here for its bound.
fn count(cell: u8) -> u32
    ensures { (result ≡ cell) × (result ≤ 255) }
{
    u32::from(cell)
}

// The cell below the row j of a column; below the lowest row there is none.
fn below(cells: &[u8], near: usize, j: usize) -> u8
    requires { near + j < length cells.now }
    ensures { result ≡ below_at cells.now near j }
{
    if j == 0 {
        return 0;
    }
    cells[near + (j - 1)]
}

// The exposed flanks of the row j of a strip: of its first column against the column before, and of its last against the one after.
fn flanks(cells: &[u8], rule: Rule, strip: Strip, j: usize, height: u32) -> u32
    requires { (length cells.now ≡ 256) × ((strip.a.0 < strip.c.0) × ((strip.c.0 ≤ 15) × ((j ≤ 14) × (height ≤ 65535)))) }
    ensures { (result ≡ only (not (spared rule strip.width)) (flanks_at cells.now strip.a.0 strip.c.0 j height)) × (result ≤ 131070) }
{
    let width = strip.width;
    if rule.spares(width) {
        return 0;
    }
    let a = strip.a;
    let left = MOST_LINES * a.0;
    let before = sides::column_before(a);
    let high = strip.c.0;
    let right = MOST_LINES * (high - 1);
    let after = MOST_LINES * high;
    let low_side = runs::exposed(cells[left + j], cells[before + j], height);
    let high_side = runs::exposed(cells[right + j], cells[after + j], height);
    low_side + high_side
}

// The row j of a strip, grown by the strip's last column, which is `step` nm wide.
pub fn grown(cells: &[u8], rule: Rule, strip: Strip, step: u32, j: usize, row: Sums) -> Sums
    requires cells_len { (length cells.now ≡ 256) × ((strip.a.0 < strip.c.0) × ((strip.c.0 ≤ 15) × (j ≤ 14))) }
    requires small { Small row × (step ≤ 65535) }
    ensures { result ≡ grown_row cells.now rule strip step j row }
{
    let high = strip.c.0;
    let near = MOST_LINES * (high - 1);
    let height = row.height;
    let cell = cells[near + j];
    let inside = count(cell);
    let under = below(cells, near, j);
    let bottom = runs::exposed(cell, under, step);
    let top = runs::exposed(cell, cells[near + j + 1], step);
    let flanks = flanks(cells, rule, strip, j, height);
    Sums {
        cells: row.cells + 1,
        inside: row.inside + inside,
        height,
        bottom: row.bottom + bottom,
        top: row.top + top,
        flanks,
    }
}

// The piece that two pieces of a strip make up, one above the other.
pub fn stacked(lower: Sums, upper: Sums) -> Sums
    requires { (Small lower × (lower.flanks ≤ 131070)) × (Small upper × (upper.flanks ≤ 131070)) }
    ensures { result ≡ stacked_of lower upper }
{
    Sums {
        cells: lower.cells + upper.cells,
        inside: lower.inside + upper.inside,
        height: lower.height + upper.height,
        bottom: lower.bottom,
        top: upper.top,
        flanks: lower.flanks + upper.flanks,
    }
}

// The cost of a piece of this width, whose best cut costs `best`: nothing outside, its charge where it is full, else what its best cut
// costs.
pub fn settled(s: Sums, rule: Rule, width: u32, best: u32) -> u32
    requires { (Small s × (s.flanks ≤ 131070)) × (rule.weight ≤ limit) }
    ensures { Judged s.inside s.cells (shot_of rule width s) best result }
{
    let inside = s.inside;
    if inside == 0 {
        return 0;
    }
    if inside == s.cells {
        let ends = s.bottom + s.top;
        let sliver = rule.sliver(width, s.height, s.flanks, ends);
        return rule.charge(sliver);
    }
    best
}
