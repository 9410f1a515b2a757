// All pinwheels of the strips of one width, weighed into their pieces. With the line that the two lower arms share held fast, the best
// other line does not depend on the piece's low line, nor the lower arms on its high line: so each is looked for once.
ghost use Rattle.std.specs.Prelude.{◌≡◌, ◌<◌, ◌≤◌, length};
ghost use Rattle.wheels.specs.Wheel.{Weighed, Among, Ground, Turning, Fitting, Turned, FromTo, OfLine, Wheeled, AllFit};

use crate::lanes;
use crate::lanes::{Arms, Strips};

// The pinwheels with these arms, whatever their high line; none where there is no other line.
fn weigh_turn(side: &mut [u32], store: &[u32], s: Strips, arms: Arms)
    requires ground { Ground s store.now × (Turning s arms × (length side.old ≡ 1920)) }
    requires fitting { Fitting store.now s arms }
    ensures { Weighed s.count (Turned store.now s arms) side.old side.new }
{
    if arms.before <= arms.after + 1 {
        return;
    }
    for d in arms.high + 1..s.rows + 1 {
        lanes::weigh_some(side, store, s, arms, d);
    }
}

// The pinwheels of both turns whose lower arms meet at this x line and whose inner part begins at the y line k.
fn weigh_pairs(side: &mut [u32], store: &[u32], s: Strips, line: usize, k: usize)
    requires ground { Ground s store.now × ((length side.old ≡ 1920) × ((0 < line) × ((line < s.width) × ((0 < k) × (k < s.rows))))) }
    requires all_fit { AllFit store.now s }
    ensures { Weighed s.count (FromTo store.now s line k) side.old side.new }
{
    let width = s.width;
    for m in k + 1..s.rows {
        let first = Arms {
            line,
            after: 0,
            before: line,
            near: k,
            far: m,
            low: k,
            high: m,
        };
        let second = Arms {
            line,
            after: line,
            before: width,
            near: m,
            far: k,
            low: k,
            high: m,
        };
        weigh_turn(side, store, s, first);
        weigh_turn(side, store, s, second);
    }
}

// The pinwheels whose lower arms meet at this x line.
fn weigh_line(side: &mut [u32], store: &[u32], s: Strips, line: usize)
    requires ground { Ground s store.now × ((length side.old ≡ 1920) × ((0 < line) × (line < s.width))) }
    requires all_fit { AllFit store.now s }
    ensures { Weighed s.count (OfLine store.now s line) side.old side.new }
{
    for k in 1..s.rows {
        weigh_pairs(side, store, s, line, k);
    }
}

// The pinwheels whose lower arms meet at one of the x lines from `first` up to `end`.
fn weigh_lines(side: &mut [u32], store: &[u32], s: Strips, first: usize, end: usize)
    requires ground { Ground s store.now × ((length side.old ≡ 1920) × ((0 < first) × ((first ≤ end) × (end ≤ s.width)))) }
    requires all_fit { AllFit store.now s }
    ensures { Weighed s.count (Among first end (OfLine store.now s)) side.old side.new }
{
    for line in first..end {
        weigh_line(side, store, s, line);
    }
}

// All pinwheels: each piece keeps the least of what it has and of what its pinwheels of either turn cost. The lines are weighed in two
// halves: what has two callers the compiler does not put in place, and in the loop over widths it would take registers from the steps of
// straight cuts.
pub fn weigh_wheels(side: &mut [u32], store: &[u32], s: Strips)
    requires ground { Ground s store.now × (length side.old ≡ 1920) }
    requires all_fit { AllFit store.now s }
    ensures { Weighed s.count (Wheeled store.now s) side.old side.new }
{
    let end = s.width;
    let half = end / 2;
    let middle = half + 1;
    weigh_lines(side, store, s, 1, middle);
    weigh_lines(side, store, s, middle, end);
}
