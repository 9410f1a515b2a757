// The runs along an edge.
ghost use Rattle.std.specs.Prelude.{◌≡◌, ◌+◌, ◌*◌, ◌/◌, ◌≤◌, ◌<◌, length};
ghost use Rattle.figure.specs.Figure.{figure};
ghost use Rattle.figure.specs.Inside.{inside_at};
ghost use Rattle.figure.specs.Steps.{Right};
ghost use Rattle.shot.specs.Shot.{shots_in};
ghost use Rattle.edge.specs.Landing.{landing};
ghost use Rattle.edge.specs.Steps as step;

use crate::beside::number;
use crate::ending::landing_at;
use crate::numbered::{Span, other};
use crate::{Landed, Stretch};
use figure::{Axis, edges};

// Where a run ends, and where its stretches end up.
#[derive(Clone, Copy)]
pub struct Reach {
    pub to: u16,
    pub lands: Landed,
}

// Of a place and the nearest so far, the nearer one past k.
fn nearer(place: u16, k: u16, best: u16) -> u16
    requires { k < best }
    ensures { step.Nearer place k best result }
{
    if place <= k {
        return best;
    }
    if best <= place {
        return best;
    }
    place
}

// The nearest place along an axis past k, up to high, where a corner of a list lies. A shot list is a list of corners too: two for each
// shot. Over numbers: `along` takes a corner by its number and the axis.
fn next_place(list: &[u16], run: Axis, k: u16, high: u16) -> u16
    requires { k < high }
    ensures { step.Free run list.now (length list.now / 2) k high result }
{
    let count = list.len() / 2;
    let mut best = high;
    for i in 0..count {
        let place = edges::along(list, i, run);
        best = nearer(place.0, k, best);
    }
    best
}

// How far the stretches from one on end up as it does for sure: to the next corner of the figure, end of a shot, or end of the edge.
fn steady(corners: &[u16], lengths: &[u16], shots: &[u16], s: Stretch, high: u16) -> u16
    requires k_lt_high { s.k < high }
    requires right { Right (figure corners.now lengths.now) }
    requires solid { step.Solid s.axis (shots_in shots.now) }
    ensures { step.Steady (landing s.axis (inside_at (figure corners.now lengths.now)) (shots_in shots.now) s.at) s.k high result }
{
    let axis = s.axis;
    let run = other(axis);
    let near = next_place(corners, run, s.k, high);
    next_place(shots, run, s.k, near)
}

// The run that begins with a stretch: as far as the stretches end up alike, up to the end of the edge. No range counts these turns: how
// far one goes is found in it.
fn run_at(corners: &[u16], lengths: &[u16], shots: &[u16], s: Stretch, high: u16) -> Reach
    requires k_lt_high { s.k < high }
    requires right { Right (figure corners.now lengths.now) }
    requires solid { step.Solid s.axis (shots_in shots.now) }
    ensures { step.Whole (landing s.axis (inside_at (figure corners.now lengths.now)) (shots_in shots.now) s.at) s.k high result.to (step.shot_no result.lands.shot) (step.side_no (step.low_of s.axis) result.lands.side) }
{
    let axis = s.axis;
    let at = s.at;
    let first = landing_at(corners, lengths, shots, s);
    let mut to = steady(corners, lengths, shots, s, high);
    while to < high {
        let there = Stretch { axis, at, k: to };
        if landing_at(corners, lengths, shots, there) != first {
            return Reach { to, lands: first };
        }
        to = steady(corners, lengths, shots, there, high);
    }
    Reach { to, lands: first }
}

// How many runs there are from the low end of a span to its high end. Each begins where the one before it ends, which only that one
// tells: no range counts these turns.
pub fn count_runs(corners: &[u16], lengths: &[u16], shots: &[u16], span: Span) -> usize
    requires low_le_high { span.low ≤ span.high }
    requires right { Right (figure corners.now lengths.now) }
    requires solid { step.Solid span.axis (shots_in shots.now) }
    ensures { result ≡ step.run_count (landing span.axis (inside_at (figure corners.now lengths.now)) (shots_in shots.now) span.at) span.low span.high }
{
    let axis = span.axis;
    let at = span.at;
    let high = span.high;
    let mut k = span.low;
    let mut count = 0;
    while k < high {
        let run = run_at(corners, lengths, shots, Stretch { axis, at, k }, high);
        count += 1;
        k = run.to;
    }
    count
}

// Writes one run across an axis, four numbers from i on.
fn store(runs: &mut [usize], i: usize, axis: Axis, from: u16, run: Reach)
    requires { i + 4 ≤ length runs.old }
    ensures { runs.new ≡ step.put4 runs.old i from run.to (step.shot_no run.lands.shot) (step.side_no (step.low_of axis) run.lands.side) }
{
    let lands = run.lands;
    runs[i] = usize::from(from);
    runs[i + 1] = usize::from(run.to);
    runs[i + 2] = lands.shot.unwrap_or(0);
    runs[i + 3] = usize::from(number(axis, lands.side));
}

// Writes the runs of a span from its low end to its high end, from the front, and touches nothing beyond. As in `count_runs`, no range
// counts the turns.
pub fn write_runs(corners: &[u16], lengths: &[u16], shots: &[u16], span: Span, runs: &mut [usize])
    requires low_le_high { span.low ≤ span.high }
    requires right { Right (figure corners.now lengths.now) }
    requires solid { step.Solid span.axis (shots_in shots.now) }
    requires high_in_bounds { 4 * step.run_count (landing span.axis (inside_at (figure corners.now lengths.now)) (shots_in shots.now) span.at) span.low span.high ≤ length runs.old }
    ensures { runs.new ≡ step.runs_written (landing span.axis (inside_at (figure corners.now lengths.now)) (shots_in shots.now) span.at) span.low span.high runs.old }
{
    let axis = span.axis;
    let at = span.at;
    let high = span.high;
    let mut k = span.low;
    let mut i = 0;
    while k < high {
        let run = run_at(corners, lengths, shots, Stretch { axis, at, k }, high);
        store(runs, i, axis, k, run);
        i += 4;
        k = run.to;
    }
}
