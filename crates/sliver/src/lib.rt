// The sliver length of one shot, from the places of its lines and the cells along its four sides.
#![tactic(auto)]

ghost use Rattle.std.specs.Prelude.{◌≡◌, ◌≤◌};
ghost use Rattle.outline.specs.Grid.{Grid};
ghost use Rattle.piece.specs.Meant.{meant};
ghost use Rattle.piece.specs.Piece.{sliver};
ghost use Rattle.sliver.specs.Sides.{Shown, Seen, exposed_at, exposed_in, Lies, both_in, counted_in, Banded};

use figure::Place;
use outline::{Line, MOST_LINES, place_of};
use piece::Piece;
use rule::Rule;

// The last column and row of cells lie beyond every frame: they stand in for the cells across the lowest line, of which there are none.
const BEYOND: usize = 15;

// One side of a piece, as its cells lie in memory: those within start at near, those across at far,
// and the next stretch is a step on; it runs from line to line.
#[derive(Clone, Copy)]
struct Side {
    pub near: usize,
    pub far: usize,
    pub step: usize,
    pub from: Line,
    pub to: Line,
}

// The exposed length of one stretch: its own where the cell within is inside and the cell across is not.
fn stretch(near: u8, far: u8, low: Place, high: Place) -> u32
    requires { low.0 ≤ high.0 }
    ensures { (result ≡ exposed_at near far low.0 high.0) × (result ≤ 65535) }
{
    if near == 1 {
        if far == 0 {
            return u32::from(high.0 - low.0);
        }
    }
    0
}

// The exposed length of one side, by the list of the lines that it crosses.
fn exposed(cells: &[u8], lines: &[u16], side: Side) -> u32
    requires { Lies cells.now lines.now side }
    ensures { (result ≡ exposed_in cells.now lines.now side) × (result ≤ 983025) }
{
    let near = side.near;
    let far = side.far;
    let step = side.step;
    let to = side.to.0;
    let mut sum: u32 = 0;
    for k in side.from.0..to {
        let within = cells[near + step * k];
        let across = cells[far + step * k];
        let next = k + 1;
        let low = place_of(lines, Line(k));
        let high = place_of(lines, Line(next));
        sum += stretch(within, across, low, high);
    }
    sum
}

// Two opposite sides of a piece: they lie on the lines low and high, and run from line to line of the other direction. The cells
// beyond the next line lie so many bytes across, those beyond the next stretch so many bytes along.
#[derive(Clone, Copy)]
struct Band {
    pub low: Line,
    pub high: Line,
    pub from: Line,
    pub to: Line,
    pub across: usize,
    pub along: usize,
}

// The exposed length of two opposite sides together.
fn both_sides(cells: &[u8], lines: &[u16], band: Band) -> u32
    requires { Banded cells.now lines.now band }
    ensures { (result ≡ both_in cells.now lines.now band) × (result ≤ 1966050) }
{
    let a = band.low.0;
    let c = band.high.0;
    let from = band.from;
    let to = band.to;
    let across = band.across;
    let step = band.along;
    let low_side = exposed(
        cells,
        lines,
        Side {
            near: across * a,
            far: across * ((a + BEYOND) % MOST_LINES),
            step,
            from,
            to,
        },
    );
    let high_side = exposed(
        cells,
        lines,
        Side {
            near: across * (c - 1),
            far: across * c,
            step,
            from,
            to,
        },
    );
    low_side + high_side
}

// The same, but 0 for sides that the rule spares: they are not measured.
fn counted_sides(cells: &[u8], lines: &[u16], band: Band, spared: bool) -> u32
    requires { Banded cells.now lines.now band }
    ensures { (result ≡ counted_in cells.now lines.now band spared) × (result ≤ 1966050) }
{
    if spared {
        return 0;
    }
    both_sides(cells, lines, band)
}

// The sliver length of a shot, in nm, as the rule reckons it.
pub fn sliver_of(cells: &[u8], xs: &[u16], ys: &[u16], rule: Rule, p: Piece) -> u32
    requires { Seen xs.now ys.now cells.now (meant p) }
    ensures { (g : Grid) → Shown g xs.now ys.now cells.now (meant p) → result ≡ sliver g rule (meant p) }
{
    let a = p.a;
    let c = p.c;
    let b = p.b;
    let d = p.d;
    let left = place_of(xs, a);
    let right = place_of(xs, c);
    let bottom = place_of(ys, b);
    let top = place_of(ys, d);
    let width = u32::from(right.0 - left.0);
    let height = u32::from(top.0 - bottom.0);
    let wide = rule.spares(width);
    let high = rule.spares(height);
    let upright = counted_sides(
        cells,
        ys,
        Band {
            low: a,
            high: c,
            from: b,
            to: d,
            across: MOST_LINES,
            along: 1,
        },
        wide,
    );
    let level = counted_sides(
        cells,
        xs,
        Band {
            low: b,
            high: d,
            from: a,
            to: c,
            across: 1,
            along: MOST_LINES,
        },
        high,
    );
    rule.sliver(width, height, upright, level)
}
