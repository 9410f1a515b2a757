// The pinwheels that end at one y line d, of all strips of one width at once: the strip that begins at the x line a stands in lane a. Lines
// of a strip are counted from its own first. A store keeps the costs of all narrower strips, width by width: spot(pairs, v, e, x) is
// where those of the e-th piece of the strips v columns wide begin, from the strip on that begins at the x line x.
ghost use Rattle.std.specs.Prelude.{◌≡◌, ◌+◌, ◌<◌, ◌≤◌, ◌⊎◌, length};
ghost use Rattle.table.specs.Run.{Wrote};
ghost use Rattle.wheels.specs.Wheel.{wrapped, gathered, joined, lowered, spot_of, inner_at, LeastRest, StartsFit, Weighed, Among, StartAt, EndsAt, Ground, Turning, FitsAt};

use outline::Line;
use table::numbering::pair_number;
use table::runs::LANES;

// The strips of one width: the rows of cells and the pairs of y lines, the width in columns, and how many strips there are.
#[derive(Clone, Copy)]
pub struct Strips {
    pub rows: usize,
    pub pairs: usize,
    pub width: usize,
    pub count: usize,
}

// Pinwheels with the same lower arms. The two lower arms meet at the x line `line`; the left one ends at the y line `near`, the right one
// at `far`; `low` and `high` are the lesser and the greater of these. The other x line lies between `after` and `before`.
#[derive(Clone, Copy)]
pub struct Arms {
    pub line: usize,
    pub after: usize,
    pub before: usize,
    pub near: usize,
    pub far: usize,
    pub low: usize,
    pub high: usize,
}

// Three costs together. In a lane without a strip the sum may wrap: nobody reads it.
fn together(a: u32, b: u32, c: u32) -> u32
    ensures { result ≡ wrapped a b c }
{
    a.wrapping_add(b).wrapping_add(c)
}

// Where the e-th piece of the strips v columns wide stands in the store, from the strip on that begins at the x line x.
fn spot(pairs: usize, v: usize, e: usize, x: usize) -> usize
    requires { (1 ≤ v) × ((v ≤ 15) × ((pairs ≤ 225) × ((e ≤ 240) × (x ≤ 15)))) }
    ensures { result ≡ spot_of pairs v e x }
{
    LANES * ((v - 1) * pairs + e) + x
}

// Where the inner parts stand, between the x lines `line` and x, whichever is the lower.
fn inner_spot(pairs: usize, line: usize, x: usize, e: usize) -> usize
    requires { ((x < line) ⊎ (line < x)) × ((line ≤ 15) × ((x ≤ 15) × ((pairs ≤ 225) × (e ≤ 240)))) }
    ensures { result ≡ inner_at pairs line x e }
{
    if x < line {
        return spot(pairs, line - x, e, x);
    }
    spot(pairs, x - line, e, line)
}

// One other line: each lane keeps the lesser of what it has and of what the two upper arms and the inner part cost.
fn gather(best: &mut [u32], store: &[u32], left: usize, right: usize, inner: usize, lanes: usize)
    requires { (lanes ≤ length best.old) × ((left + lanes ≤ length store.now) × ((right + lanes ≤ length store.now) × (inner + lanes ≤ length store.now))) }
    ensures { Wrote (gathered best.old store.now left right inner) 0 lanes best.old best.new }
{
    for l in 0..lanes {
        let sum = together(store[left + l], store[right + l], store[inner + l]);
        best[l] = best[l].min(sum);
    }
}

// All other lines: each lane keeps the least of what the upper arms and the inner part of a pinwheel cost that ends at the y line d.
fn gather_lines(best: &mut [u32], store: &[u32], s: Strips, arms: Arms, d: usize, lanes: usize)
    requires ground { Ground s store.now × (Turning s arms × ((arms.high < d) × (d ≤ s.rows))) }
    requires best_len { (length best.old ≡ 16) × (lanes ≤ 16) }
    requires fits_at { FitsAt store.now s arms d }
    ensures { LeastRest store.now s arms d lanes arms.before best.old best.new }
{
    let near = pair_number(s.rows, Line(arms.near), Line(d));
    let far = pair_number(s.rows, Line(arms.far), Line(d));
    let middle = pair_number(s.rows, Line(arms.low), Line(arms.high));
    for x in arms.after + 1..arms.before {
        let left = spot(s.pairs, x, near, 0);
        let right = spot(s.pairs, s.width - x, far, x);
        let inner = inner_spot(s.pairs, arms.line, x, middle);
        gather(best, store, left, right, inner, lanes);
    }
}

// The lower arms together with the least of the rest. They are summed up apart from the pieces, so that the lanes do not wait for each
// other.
fn add(sums: &mut [u32], store: &[u32], left: usize, right: usize, best: &[u32], lanes: usize)
    requires { (lanes ≤ length sums.old) × ((left + lanes ≤ length store.now) × ((right + lanes ≤ length store.now) × (lanes ≤ length best.now))) }
    ensures { Wrote (joined store.now left right best.now) 0 lanes sums.old sums.new }
{
    for l in 0..lanes {
        sums[l] = together(store[left + l], store[right + l], best[l]);
    }
}

// Lowers one piece in each lane to what was summed up, where that is less.
fn lower(side: &mut [u32], at: usize, sums: &[u32], lanes: usize)
    requires { (at + lanes ≤ length side.old) × (lanes ≤ length sums.now) }
    ensures { Wrote (lowered side.old at sums.now) at lanes side.old side.new }
{
    for l in 0..lanes {
        side[at + l] = side[at + l].min(sums[l]);
    }
}

// All low lines b below the arms: the pieces from b to d are lowered by their own lower arms and the least of the rest.
fn lower_starts(
    side: &mut [u32],
    store: &[u32],
    best: &[u32],
    s: Strips,
    arms: Arms,
    d: usize,
    lanes: usize,
)
    requires ground { Ground s store.now × (Turning s arms × ((arms.high < d) × (d ≤ s.rows))) }
    requires side_len { (length side.old ≡ 1920) × ((length best.now ≡ 16) × ((s.count ≤ lanes) × (lanes ≤ 16))) }
    requires starts_fit { StartsFit store.now s arms best.now }
    ensures { Weighed s.count (Among 0 arms.low (StartAt store.now s arms d best.now)) side.old side.new }
{
    let mut sums = [0u32; LANES];
    for b in 0..arms.low {
        let near = pair_number(s.rows, Line(b), Line(arms.near));
        let far = pair_number(s.rows, Line(b), Line(arms.far));
        let piece = pair_number(s.rows, Line(b), Line(d));
        let left = spot(s.pairs, arms.line, near, 0);
        let right = spot(s.pairs, s.width - arms.line, far, arms.line);
        add(&mut sums, store, left, right, best, lanes);
        lower(side, LANES * piece, &sums, lanes);
    }
}

// The pinwheels with these arms that end at the y line d, in so many lanes. The count of lanes is said twice, once for the rest and once
// for the pieces: the compiler would otherwise make one call of the four below, with a count that it does not know.
fn weigh_lanes(
    side: &mut [u32],
    store: &[u32],
    s: Strips,
    arms: Arms,
    d: usize,
    lanes: usize,
    lowered: usize,
)
    requires ground { Ground s store.now × (Turning s arms × ((arms.high < d) × (d ≤ s.rows))) }
    requires side_len { (length side.old ≡ 1920) × ((s.count ≤ lanes) × ((lanes ≤ 16) × (lowered ≡ lanes))) }
    requires after_bound { (arms.after + 1 < arms.before) × FitsAt store.now s arms d }
    ensures { Weighed s.count (EndsAt store.now s arms d) side.old side.new }
{
    let mut best = [u32::MAX; LANES];
    gather_lines(&mut best, store, s, arms, d, lanes);
    lower_starts(side, store, &best, s, arms, d, lowered);
}

// The same, in the fewest lanes of 4, 8, 12 and 16 that have room for the strips.
pub fn weigh_some(side: &mut [u32], store: &[u32], s: Strips, arms: Arms, d: usize)
    requires ground { Ground s store.now × (Turning s arms × ((arms.high < d) × (d ≤ s.rows))) }
    requires side_len { (length side.old ≡ 1920) × ((arms.after + 1 < arms.before) × FitsAt store.now s arms d) }
    ensures { Weighed s.count (EndsAt store.now s arms d) side.old side.new }
{
    let count = s.count;
    if count <= 4 {
        weigh_lanes(side, store, s, arms, d, 4, 4);
    } else if count <= 8 {
        weigh_lanes(side, store, s, arms, d, 8, 8);
    } else if count <= 12 {
        weigh_lanes(side, store, s, arms, d, 12, 12);
    } else {
        weigh_lanes(side, store, s, arms, d, LANES, LANES);
    }
}
