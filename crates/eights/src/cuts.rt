// The cuts of one piece in each of eight lanes. A vertical cut lies in narrower strips, a horizontal one in strips of the same width.
ghost use Rattle.std.specs.Prelude.{◌≡◌, ℕ, ◌+◌, ◌*◌, ◌-◌, ◌<◌, ◌≤◌, max, length, get_or};
ghost use Rattle.table.specs.Run.{Wrote, Lowest};
ghost use Rattle.eights.specs.Store.{listed, weighed, unweighed, lowered, lowered_twice, Laid, place_of, besides, stacked, Stands, Room, Within};

use shares::growing::both;
use table::runs::LANES;

// So many strips are weighed at once.
pub const EIGHT: usize = 8;

// The pieces between the y lines low and high of a grid of so many rows, whose pairs of y lines are so many; `first` is the number of the
// first pair whose low line is low. The strips are `width` columns wide.
#[derive(Clone, Copy)]
pub struct Level {
    pub rows: usize,
    pub pairs: usize,
    pub width: usize,
    pub low: usize,
    pub high: usize,
    pub first: usize,
}

// Weighs one cut in eight lanes: each keeps the lesser of what it has and of its two parts' costs together.
fn weigh(best: &mut [u16; EIGHT], store: &[u16], low: usize, high: usize)
    requires { (length best.old ≡ 8) × ((low + 8 ≤ length store.now) × (high + 8 ≤ length store.now)) }
    ensures { Wrote (weighed best.old store.now low high) 0 8 best.old best.new }
{
    for (l, least) in best.iter_mut().enumerate() {
        *least = (*least).min(both(store[low + l], store[high + l]));
    }
}

// The eight numbers of the store from the place `at` on.
pub fn eight_at(store: &[u16], at: usize) -> [u16; EIGHT]
    requires { at + 8 ≤ length store.now }
    ensures result_len { length result ≡ 8 }
    ensures by_index { (l : ℕ) → l < 8 → get_or result l 0 ≡ get_or store.now (at + l) 0 }
{
    std::array::from_fn(|l| store[at + l])
}

// Puts eight numbers there. A loop: the library's copy goes through memory, with a test for overlap (measured).
fn put(store: &mut [u16], eight: &[u16; EIGHT], at: usize)
    requires { at + 8 ≤ length store.old }
    ensures { Wrote (listed eight.now) at 8 store.old store.new }
{
    for (l, number) in eight.iter().enumerate() {
        store[at + l] = *number;
    }
}

// No cut of so many pieces is weighed yet, in eight lanes from the place `at` on.
fn clear(store: &mut [u16], pairs: usize, at: usize)
    requires { at + 16 * pairs ≤ length store.old + 8 }
    ensures { Laid unweighed (16 * pairs) pairs at store.old store.new }
{
    let none = [u16::MAX; EIGHT];
    for e in 0..pairs {
        put(store, &none, at + LANES * e);
    }
}

// Weighs one vertical cut of so many pieces, whose costs stand from the place `at` on, and those of its parts from `low` and `high` on.
fn weigh_line(store: &mut [u16], pairs: usize, at: usize, low: usize, high: usize)
    requires { (at + 16 * pairs ≤ length store.old + 8) × ((low + 16 * pairs ≤ length store.old + 8) × (high + 16 * pairs ≤ length store.old + 8)) }
    ensures { Laid (lowered store.old at low high) (at - max low high) pairs at store.old store.new }
{
    for e in 0..pairs {
        let k = LANES * e;
        let mut best = eight_at(store, at + k);
        weigh(&mut best, store, low + k, high + k);
        put(store, &best, at + k);
    }
}

// The same of two cuts: so each piece is read and written half as often.
fn weigh_lines(
    store: &mut [u16],
    pairs: usize,
    at: usize,
    low: usize,
    high: usize,
    next: usize,
    further: usize,
)
    requires pairs_in_bounds { (at + 16 * pairs ≤ length store.old + 8) × ((low + 16 * pairs ≤ length store.old + 8) × (high + 16 * pairs ≤ length store.old + 8)) }
    requires pairs_in_bounds_2 { (next + 16 * pairs ≤ length store.old + 8) × (further + 16 * pairs ≤ length store.old + 8) }
    ensures { Laid (lowered_twice store.old at low high next further) (at - max (max low high) (max next further)) pairs at store.old store.new }
{
    for e in 0..pairs {
        let k = LANES * e;
        let mut best = eight_at(store, at + k);
        weigh(&mut best, store, low + k, high + k);
        weigh(&mut best, store, next + k, further + k);
        put(store, &best, at + k);
    }
}

// Gives all pieces of the strips w columns wide, in the lanes from g on, the least of their vertical cuts; where
// there is none the greatest number, which no cost reaches.
pub fn weigh_vertical(store: &mut [u16], pairs: usize, w: usize, g: usize)
    requires { ((1 ≤ w) × (w ≤ 15)) × ((pairs ≤ 225) × ((g + 8 ≤ 16) × (16 * (pairs * w) + 16 ≤ length store.old))) }
    ensures within { Within pairs w g store.old store.new }
    ensures by_index { (e l : ℕ) → e < pairs → l < 8 → g + l + w ≤ 16 → Lowest (besides store.old pairs w e (g + l)) 0 w 65535 (get_or store.new (place_of pairs w e (g + l)) 0) }
{
    let block = LANES * pairs;
    let at = block * (w - 1) + g;
    clear(store, pairs, at);
    let mut low = g;
    let mut high = at;
    // Counted on by hand: the cut that is left over behind the last two reads v, low and high after the loop.
    let mut v: usize = 1;
    while v + 1 < w {
        high -= block;
        let next = high - block;
        weigh_lines(store, pairs, at, low, high + v, low + block, next + (v + 1));
        high = next;
        low += 2 * block;
        v += 2;
    }
    if v < w {
        weigh_line(store, pairs, at, low, high - block + v);
    }
}

// Weighs all horizontal cuts of these pieces in the lanes from g on. `upper` is where the high parts stand; with no cut it is not read.
pub fn weigh_horizontal(best: &mut [u16; EIGHT], store: &[u16], level: Level, g: usize)
    requires stands { Stands level × (Room level store.now × (g + 8 ≤ 16)) }
    requires best_len { length best.old ≡ 8 }
    ensures { (l : ℕ) → l < 8 → Lowest (stacked store.now level.rows level.pairs level.width level.low level.high (g + l)) level.low level.high (get_or best.old l 0) (get_or best.new l 0) }
{
    let rows = level.rows;
    let low = level.low;
    let high = level.high;
    let first = level.pairs * (level.width - 1) + level.first;
    let mut lower = LANES * first + g;
    let mut upper = LANES * (first + (rows - low) + (high - low) - 2) + g;
    for k in low + 1..high {
        weigh(best, store, lower, upper);
        lower += LANES;
        upper += LANES * (rows - k - 1);
    }
}
