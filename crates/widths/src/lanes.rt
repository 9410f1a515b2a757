// The pieces between two y lines, of all strips of one width: the strip that begins at the x line a stands in lane a. What a side
// store is, the crate `table` says (`SIDE`).
ghost use Rattle.std.specs.Prelude.{◌≡◌, ℕ, ◌+◌, ◌*◌, ◌-◌, ◌<◌, ◌≤◌, ◌^◌, length, get_or};
ghost use Rattle.rule.specs.Rules.{limit};
ghost use Rattle.table.specs.Entry.{pairs_below};
ghost use Rattle.table.specs.Run.{Wrote, Lowest};
ghost use Rattle.table.specs.Cuts.{Judged};
ghost use Rattle.widths.specs.Lane.{copied, added, narrowed, Narrow, spot, parts_at, ends_at, Ruled, Settled, Enough};

use rule::Rule;
use table::runs;
use table::runs::LANES;
use tally::{BOTTOMS, FLANKS, TOPS};

// The pieces between the y lines low and high, of a grid of so many rows of cells: how many cells each has, and its height in nm.
// `first` is the number of the first pair of y lines whose low line is low.
#[derive(Clone, Copy)]
pub struct Level {
    pub rows: usize,
    pub low: usize,
    pub high: usize,
    pub first: usize,
    pub cells: u32,
    pub height: u32,
}

// Copies n numbers, from the place `at` of one list to the front of another. A loop, as in `eights::cuts`: few numbers, which stay in registers.
fn copy(to: &mut [u32], from: &[u32], at: usize, n: usize)
    requires { (n ≤ length to.old) × (at + n ≤ length from.now) }
    ensures { Wrote (copied from.now at) 0 n to.old to.new }
{
    for i in 0..n {
        to[i] = from[at + i];
    }
}

// The same, adding them to what is there.
fn add(to: &mut [u32], from: &[u32], at: usize, n: usize)
    requires n_in_bounds { (n ≤ length to.old) × (at + n ≤ length from.now) }
    requires by_index { (i : ℕ) → i < n → added to.old from.now at i < 2 ^ 32 }
    ensures { Wrote (added to.old from.now at) 0 n to.old to.new }
{
    for i in 0..n {
        to[i] += from[at + i];
    }
}

// The same of the exposed flanks of strips of these widths: nothing is added where the rule spares them.
fn add_flanks(to: &mut [u32], from: &[u32], widths: &[u32], rule: Rule, at: usize, n: usize)
    requires n_in_bounds { (n ≤ length to.old) × ((at + n ≤ length from.now) × (n ≤ length widths.now)) }
    requires by_index { (i : ℕ) → i < n → added to.old from.now at i < 2 ^ 32 }
    ensures { Wrote (narrowed rule widths.now to.old from.now at) 0 n to.old to.new }
{
    for i in 0..n {
        to[i] += rule.narrow(widths[i], from[at + i]);
    }
}

// Weighs all horizontal cuts of these pieces, in so many lanes. `upper` is where the high parts stand; with no cut it is not read.
fn weigh_lanes(best: &mut [u32], side: &[u32], level: Level, lanes: usize)
    requires low_lt_high { (level.low < level.high) × ((level.high ≤ level.rows) × ((level.rows ≤ 15) × (level.first ≡ pairs_below level.rows level.low))) }
    requires best_len { (length best.old ≡ 16) × ((length side.now ≡ 1920) × (lanes ≤ 16)) }
    requires by_index { (l k : ℕ) → l < lanes → level.low < k → k < level.high → parts_at side.now level.rows l level.low level.high k < 2 ^ 32 }
    ensures { (l : ℕ) → l < lanes → Lowest (parts_at side.now level.rows l level.low level.high) level.low level.high (get_or best.old l 0) (get_or best.new l 0) }
{
    let rows = level.rows;
    let low = level.low;
    let high = level.high;
    let first = level.first;
    let mut lower = LANES * first;
    let mut upper = LANES * (first + (rows - low) + (high - low) - 2);
    for k in low + 1..high {
        runs::weigh_apart(best, side, lower, upper, lanes);
        lower += LANES;
        upper += LANES * (rows - k - 1);
    }
}

// What a piece costs that has `count` inside cells of `cells`: nothing outside, its charge where it is full, else the least of its cuts.
fn settled(count: u32, cells: u32, charge: u32, best: u32) -> u32
    ensures { Judged count cells charge best result }
{
    if count == 0 {
        return 0;
    }
    if count == cells {
        return charge;
    }
    best
}

// Settles one piece in each of so many lanes: by its inside cells, its exposed flanks where they count, and the least of its cuts. All have
// one height: whether the rule spares their ends is asked once.
fn judge_lanes(
    side: &mut [u32],
    best: &[u32],
    sums: &[u32],
    widths: &[u32],
    count: &[u32],
    flanks: &[u32],
    rule: Rule,
    level: Level,
    at: usize,
    lanes: usize,
)
    requires best_len { (length best.now ≡ 16) × ((length sums.now ≡ 1024) × ((length widths.now ≡ 16) × ((length count.now ≡ 16) × (length flanks.now ≡ 16)))) }
    requires low_lt_high { (level.low < level.high) × ((level.high ≤ 15) × ((lanes ≤ 16) × ((at + 16 ≤ length side.old) × (rule.weight ≤ limit)))) }
    requires by_index { (l : ℕ) → l < lanes → (get_or flanks.now l 0 ≤ 131070) × (ends_at sums.now l level.low level.high ≤ 131070) }
    requires narrow { Narrow rule widths.now lanes flanks.now }
    ensures { Ruled rule level.height level.cells level.low level.high sums.now widths.now count.now flanks.now best.now at lanes side.old side.new }
{
    let low = level.low;
    let high = level.high;
    let cells = level.cells;
    let height = level.height;
    let tall = rule.spares(height);
    let bottom = BOTTOMS + LANES * low;
    let top = TOPS + LANES * (high - 1);
    for l in 0..lanes {
        let ends = sums[bottom + l] + sums[top + l];
        let sliver = rule.sliver_of_height(tall, widths[l], height, flanks[l], ends);
        side[at + l] = settled(count[l], cells, rule.charge(sliver), best[l]);
    }
}

// Settles these pieces in so many lanes: their last row of cells is added to the counts, and to the flanks where those count; their cuts
// are weighed, and each gets its cost. The count of lanes is said twice, once for the cuts and once for the costs: the compiler would
// otherwise make one call of the four below, with a count that it does not know.
fn settle_lanes(
    side: &mut [u32],
    count: &mut [u32],
    flanks: &mut [u32],
    sums: &[u32],
    widths: &[u32],
    rule: Rule,
    level: Level,
    lanes: usize,
    judged: usize,
)
    requires low_lt_high { (level.low < level.high) × ((level.high ≤ level.rows) × ((level.rows ≤ 15) × (level.first ≡ pairs_below level.rows level.low))) }
    requires side_len { (length side.old ≡ 1920) × ((length sums.now ≡ 1024) × ((length widths.now ≡ 16) × ((length count.old ≡ 16) × (length flanks.old ≡ 16)))) }
    requires lanes_bound { (lanes ≤ 16) × ((judged ≡ lanes) × (rule.weight ≤ limit)) }
    requires by_index { (l k : ℕ) → l < 16 → level.low < k → k < level.high → parts_at side.old level.rows l level.low level.high k < 2 ^ 32 }
    requires by_index_2 { (l : ℕ) → l < 16 → (added count.old sums.now (16 * (level.high - 1)) l ≤ 225) × ((added flanks.old sums.now (768 + 16 * (level.high - 1)) l ≤ 131070) × (ends_at sums.now l level.low level.high ≤ 131070)) }
    requires narrow { Narrow rule widths.now 16 flanks.old }
    ensures wrote { Wrote (added count.old sums.now (16 * (level.high - 1))) 0 lanes count.old count.new }
    ensures wrote_2 { Wrote (narrowed rule widths.now flanks.old sums.now (768 + 16 * (level.high - 1))) 0 lanes flanks.old flanks.new }
    ensures settled { Settled rule level.rows level.height level.cells level.low level.high sums.now widths.now count.new flanks.new lanes side.old side.new }
{
    let low = level.low;
    let high = level.high;
    let first = level.first;
    let at = LANES * (first + (high - low - 1));
    let row = LANES * (high - 1);
    let mut best = [0u32; LANES];
    copy(&mut best, side, at, lanes);
    weigh_lanes(&mut best, side, level, lanes);
    add(count, sums, row, judged);
    add_flanks(flanks, sums, widths, rule, FLANKS + row, judged);
    judge_lanes(
        side, &best, sums, widths, count, flanks, rule, level, at, judged,
    );
}

// The same of n strips, in the fewest lanes of 4, 8, 12 and 16 that have room for them.
pub fn settle_some(
    side: &mut [u32],
    count: &mut [u32],
    flanks: &mut [u32],
    sums: &[u32],
    widths: &[u32],
    rule: Rule,
    level: Level,
    n: usize,
)
    requires low_lt_high { (level.low < level.high) × ((level.high ≤ level.rows) × ((level.rows ≤ 15) × (level.first ≡ pairs_below level.rows level.low))) }
    requires side_len { (length side.old ≡ 1920) × ((length sums.now ≡ 1024) × ((length widths.now ≡ 16) × ((length count.old ≡ 16) × (length flanks.old ≡ 16)))) }
    requires n_bound { (n ≤ 16) × (rule.weight ≤ limit) }
    requires by_index { (l k : ℕ) → l < 16 → level.low < k → k < level.high → parts_at side.old level.rows l level.low level.high k < 2 ^ 32 }
    requires by_index_2 { (l : ℕ) → l < 16 → (added count.old sums.now (16 * (level.high - 1)) l ≤ 225) × ((added flanks.old sums.now (768 + 16 * (level.high - 1)) l ≤ 131070) × (ends_at sums.now l level.low level.high ≤ 131070)) }
    requires narrow { Narrow rule widths.now 16 flanks.old }
    ensures { Enough rule level.rows level.height level.cells level.low level.high n sums.now widths.now count.old count.new flanks.old flanks.new side.old side.new }
{
    if n <= 4 {
        settle_lanes(side, count, flanks, sums, widths, rule, level, 4, 4);
    } else if n <= 8 {
        settle_lanes(side, count, flanks, sums, widths, rule, level, 8, 8);
    } else if n <= 12 {
        settle_lanes(side, count, flanks, sums, widths, rule, level, 12, 12);
    } else {
        settle_lanes(side, count, flanks, sums, widths, rule, level, LANES, LANES);
    }
}
