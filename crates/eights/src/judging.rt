// What one piece costs in each of eight lanes: nothing outside, its charge where it is full, else the least of its cuts.
ghost use Rattle.std.specs.Prelude.{◌≡◌, ℕ, ◌+◌, ◌<◌, ◌≤◌, length, get_or};
ghost use Rattle.rule.specs.Charge.{longer};
ghost use Rattle.table.specs.Cuts.{Judged};
ghost use Rattle.eights.specs.Store.{Stands, Room};
ghost use Rattle.eights.specs.Eight.{ends_at, Ruled, RuledLevel};

use crate::cuts::{EIGHT, Level};
use crate::settling::{Strips, Tariff};
use shares::growing::{both, counted};
use table::runs::LANES;
use tally::{BOTTOMS, TOPS};

// The exposed length of the two longer sides of a shot; of a square the greater of both. With no branch, so that eight are reckoned at once.
fn longer(width: u16, height: u16, upright: u16, level: u16) -> u16
    ensures { result ≡ longer width height upright level }
{
    counted(width <= height, upright).max(counted(height <= width, level))
}

// The sliver lengths of pieces below the threshold: by their flanks, where those count, and by their bottoms and tops.
fn slivers(
    strips: Strips,
    flanks: &[u16; EIGHT],
    level: Level,
    height: u16,
    g: usize,
) -> [u16; EIGHT]
    requires sums_len { (length strips.sums.now ≡ 1024) × ((length strips.wide.now ≡ 16) × (length flanks.now ≡ 8)) }
    requires stands { Stands level × (g + 8 ≤ 16) }
    ensures result_len { length result ≡ 8 }
    ensures by_index { (l : ℕ) → l < 8 → get_or result l 0 ≡ longer (get_or strips.entry.wide.now (g + l) 0) height (get_or flanks.now l 0) (ends_at strips.entry.sums.now (g + l) level.low level.high) }
{
    let bottom = BOTTOMS + LANES * level.low + g;
    let top = TOPS + LANES * (level.high - 1) + g;
    let mut sliver = [0u16; EIGHT];
    for (l, length) in sliver.iter_mut().enumerate() {
        let ends = both(strips.sums[bottom + l], strips.sums[top + l]);
        *length = longer(strips.wide[g + l], height, flanks[l], ends);
    }
    sliver
}

// What a piece costs that has `count` inside cells of `cells`. `widths` has the same in long numbers: one for both would ask for the zero and
// the equality of any number, and be no plainer.
fn settled(count: u16, cells: u16, charge: u16, best: u16) -> u16
    ensures { Judged count cells charge best result }
{
    if count == 0 {
        return 0;
    }
    if count == cells {
        return charge;
    }
    best
}

// Settles a piece in each of eight lanes, from the place `at` on: by its inside cells, its sliver length and the least of its cuts.
fn judge(
    store: &mut [u16],
    best: &[u16; EIGHT],
    count: &[u16; EIGHT],
    sliver: &[u16; EIGHT],
    cells: u16,
    price: u16,
    at: usize,
)
    requires { (length count.now ≡ 8) × ((length sliver.now ≡ 8) × (at + 8 ≤ length store.old)) }
    ensures { Ruled price cells count.now sliver.now best.now at store.old store.new }
{
    for l in 0..EIGHT {
        store[at + l] = settled(count[l], cells, both(price, sliver[l]), best[l]);
    }
}

// The same of pieces of this height: whether the rule spares their ends is asked once.
pub fn judge_level(
    store: &mut [u16],
    best: &[u16; EIGHT],
    count: &[u16; EIGHT],
    flanks: &[u16; EIGHT],
    strips: Strips,
    level: Level,
    height: u16,
    cells: u16,
    g: usize,
)
    requires count_len { (length count.now ≡ 8) × ((length flanks.now ≡ 8) × ((length strips.sums.now ≡ 1024) × (length strips.wide.now ≡ 16))) }
    requires stands { Stands level × (Room level store.old × (g + 8 ≤ 16)) }
    ensures { RuledLevel level height cells strips.entry.tariff.threshold strips.entry.tariff.price strips.entry.sums.now strips.entry.wide.now count.now flanks.now best.now g store.old store.new }
{
    let e = level.first + (level.high - level.low - 1);
    let at = LANES * (level.pairs * (level.width - 1) + e) + g;
    let Tariff { threshold, price } = strips.tariff;
    if threshold <= height {
        judge(store, best, count, flanks, cells, price, at);
    } else {
        let sliver = slivers(strips, flanks, level, height, g);
        judge(store, best, count, &sliver, cells, price, at);
    }
}
