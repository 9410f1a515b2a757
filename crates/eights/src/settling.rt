// Settling all strips of one width: from the highest low line down, and of the pieces that begin at one line the lowest first, so that both
// parts of each horizontal cut are settled before it is weighed.
ghost use Rattle.std.specs.Prelude.{◌≡◌, ◌⊎◌, ℕ, ◌+◌, ◌*◌, ◌-◌, ◌<◌, ◌≤◌, length, get_or};
ghost use Rattle.table.specs.Entry.{pairs_below, pair_no};
ghost use Rattle.table.specs.Run.{Wrote};
ghost use Rattle.shares.specs.Growth.{wrap_added};
ghost use Rattle.eights.specs.Store.{place_of, Stands, Room, Within};
ghost use Rattle.eights.specs.Eight.{Settled};
ghost use Rattle.eights.specs.Price.{sheet_of, Measured, Prices, Ahead, Known};

use crate::cuts::{EIGHT, Level};
use crate::{cuts, judging};
use shares::growing::both;
use table::runs::LANES;
use tally::{FLANKS, SUMS};

// What a shot costs by the rule, in units of the weight: so much, and 1 for each nm of sliver; and below which extent it is one.
#[derive(Clone, Copy)]
pub struct Tariff {
    pub threshold: u16,
    pub price: u16,
}

// What is known of the strips of one width before they are settled: their sums, their widths in nm, the places of the y lines, what a shot
// costs, how many rows of cells and pairs of y lines there are, how many columns wide the strips are, and how many there are.
#[derive(Clone, Copy)]
pub struct Strips<'a> {
    pub sums: &'a [u16; SUMS],
    pub wide: &'a [u16; LANES],
    pub ys: &'a [u16],
    pub tariff: Tariff,
    pub rows: usize,
    pub pairs: usize,
    pub width: usize,
    pub count: usize,
}

// Adds eight numbers of the sums, from the place `at` on.
fn add(to: &mut [u16; EIGHT], sums: &[u16; SUMS], at: usize)
    requires { (length to.old ≡ 8) × ((length sums.now ≡ 1024) × (at + 8 ≤ 1024)) }
    ensures { Wrote (wrap_added to.old sums.now 0 at) 0 8 to.old to.new }
{
    for (l, number) in to.iter_mut().enumerate() {
        *number = both(*number, sums[at + l]);
    }
}

// Settles the pieces of one level in the lanes from g on, of which the store has the least of the vertical cuts: their last row of cells is
// added to the counts and the flanks, their horizontal cuts are weighed, and each gets its cost.
fn settle_level(
    store: &mut [u16],
    count: &mut [u16; EIGHT],
    flanks: &mut [u16; EIGHT],
    strips: Strips,
    level: Level,
    height: u16,
    cells: u16,
    g: usize,
)
    requires count_len { (length count.old ≡ 8) × ((length flanks.old ≡ 8) × ((length strips.sums.now ≡ 1024) × (length strips.wide.now ≡ 16))) }
    requires stands { Stands level × (Room level store.old × (g + 8 ≤ 16)) }
    ensures wrote { Wrote (wrap_added count.old strips.entry.sums.now 0 (16 * (level.high - 1) + g)) 0 8 count.old count.new }
    ensures wrote_2 { Wrote (wrap_added flanks.old strips.entry.sums.now 0 (768 + (16 * (level.high - 1) + g))) 0 8 flanks.old flanks.new }
    ensures settled { Settled level height cells strips.entry.tariff.threshold strips.entry.tariff.price strips.entry.sums.now strips.entry.wide.now count.new flanks.new g store.old store.new }
{
    let e = level.first + (level.high - level.low - 1);
    let at = LANES * (level.pairs * (level.width - 1) + e) + g;
    let mut best = cuts::eight_at(store, at);
    cuts::weigh_horizontal(&mut best, store, level, g);
    let row = LANES * (level.high - 1) + g;
    add(count, strips.sums, row);
    add(flanks, strips.sums, FLANKS + row);
    judging::judge_level(store, &best, count, flanks, strips, level, height, cells, g);
}

// Settles the pieces that begin at the y line low. `first` is the number of the first of them.
fn settle_from(store: &mut [u16], strips: Strips, low: usize, first: usize, g: usize)
    requires measured { Measured (sheet_of strips) }
    requires low_lt_rows { (low < strips.rows) × ((first ≡ pairs_below strips.rows low) × ((16 * (strips.pairs * strips.width) + 16 ≤ length store.old) × ((g < strips.count) × (g + 8 ≤ 16)))) }
    requires ahead { Ahead (sheet_of strips) store.old g low (low + 1) }
    ensures within { Within strips.entry.pairs strips.entry.width g store.old store.new }
    ensures ahead_2 { Ahead (sheet_of strips.entry) store.new g low (strips.entry.rows + 1) }
    ensures by_index { (s : ℕ → ℕ → ℕ → ℕ) → Prices s (sheet_of strips.entry) store.old → Known s (sheet_of strips.entry) store.old g low (low + 1) → Known s (sheet_of strips.entry) store.new g low (strips.entry.rows + 1) }
{
    let mut count = [0u16; EIGHT];
    let mut flanks = [0u16; EIGHT];
    let mut cells: usize = 0;
    for high in low + 1..strips.rows + 1 {
        cells += strips.width;
        let height = strips.ys[high] - strips.ys[low];
        let level = Level {
            rows: strips.rows,
            pairs: strips.pairs,
            width: strips.width,
            low,
            high,
            first,
        };
        settle_level(
            store,
            &mut count,
            &mut flanks,
            strips,
            level,
            height,
            cells as u16,
            g,
        );
    }
}

// Settles all pieces in the lanes from g on: first their vertical cuts are weighed, then each piece is settled.
fn settle_eight(store: &mut [u16], strips: Strips, g: usize)
    requires measured { Measured (sheet_of strips) }
    requires w_in_bounds { (16 * (strips.pairs * strips.width) + 16 ≤ length store.old) × ((g < strips.count) × (g + 8 ≤ 16)) }
    ensures within { Within strips.entry.pairs strips.entry.width g store.old store.new }
    ensures by_index { (s : ℕ → ℕ → ℕ → ℕ) → Prices s (sheet_of strips.entry) store.old → Known s (sheet_of strips.entry) store.new g 0 (strips.entry.rows + 1) }
{
    cuts::weigh_vertical(store, strips.pairs, strips.width, g);
    let mut first = strips.pairs;
    for b in (0..strips.rows).rev() {
        first -= strips.rows - b;
        settle_from(store, strips, b, first, g);
    }
}

// Settles all pieces of n strips, w columns wide, where the store has the costs of all narrower strips.
pub fn settle(store: &mut [u16], strips: Strips)
    requires measured { Measured (sheet_of strips) }
    requires w_in_bounds { 16 * (strips.pairs * strips.width) + 16 ≤ length store.old }
    ensures by_index { (k : ℕ) → k < 16 * (strips.entry.pairs * (strips.entry.width - 1)) → get_or store.new k 0 ≡ get_or store.old k 0 }
    ensures by_index_2 { (s : ℕ → ℕ → ℕ → ℕ) → Prices s (sheet_of strips.entry) store.old → (a p q : ℕ) → a < strips.entry.count → p < q → q ≤ strips.entry.rows → get_or store.new (place_of strips.entry.pairs strips.entry.width (pair_no strips.entry.rows p q) a) 0 ≡ s a p q }
{
    for g in (0..strips.count).step_by(EIGHT) {
        settle_eight(store, strips, g);
    }
}
