// Weighing the vertical cuts of all strips of one width: 16 pieces of a strip at a time, which stay in registers until all of their
// cuts are weighed.
ghost use Rattle.std.specs.Prelude.{◌≡◌, ℕ, ◌+◌, ◌*◌, ◌<◌, ◌≤◌, ◌^◌, length};
ghost use Rattle.table.specs.Entry.{pair_count};
ghost use Rattle.table.specs.Cuts.{parted};
ghost use Rattle.strips.specs.Lanes.{Weighed};
ghost use Rattle.strips.specs.Chunk.{Weighable, Least, listed, Laid, Chunk};

use table::runs;
use table::runs::{LANES, SIDE};

// So many pieces of a strip are weighed at once, and of a shorter strip half as many.
const CHUNK: usize = 16;

const HALF_CHUNK: usize = 8;

// The strip between the x lines a and a + w of a grid of so many columns and pairs of y lines. `first` is the number of the first pair of
// x lines whose low line is a.
#[derive(Clone, Copy)]
struct Strip {
    columns: usize,
    pairs: usize,
    a: usize,
    w: usize,
    first: usize,
}

// Weighs all vertical cuts of n pieces of a strip, from the e-th on: each keeps the least.
fn weigh_cuts(best: &mut [u32], table: &[u32], s: Strip, e: usize, n: usize)
    requires weighable { Weighable s.columns s.pairs s.w s.a s.first table.now }
    requires n_in_bounds { (n ≤ length best.old) × (e + n ≤ s.pairs) }
    ensures { Least s.columns s.pairs s.w s.a e n table.now best.old best.new }
{
    let Strip {
        columns,
        pairs,
        a,
        w,
        first,
    } = s;
    let mut lower = first * pairs + e;
    let mut upper = (first + (columns - a) + w - 2) * pairs + e;
    for j in a + 1..a + w {
        runs::weigh_apart(best, table, lower, upper, n);
        lower += pairs;
        upper += (columns - j - 1) * pairs;
    }
}

// Lays n numbers into the lane a, from the e-th piece on.
fn lay(side: &mut [u32; SIDE], list: &[u32], a: usize, e: usize, n: usize)
    requires { (length side.old ≡ 1920) × ((a < 16) × ((e + n ≤ 120) × (n ≤ length list.now))) }
    ensures { Laid (listed list.now) a e n side.old side.new }
{
    for i in 0..n {
        side[LANES * (e + i) + a] = list[i];
    }
}

// Gives n pieces of a strip, from the e-th on, the least of their vertical cuts.
fn weigh_chunk(side: &mut [u32; SIDE], table: &[u32], s: Strip, e: usize, n: usize)
    requires weighable { Weighable s.columns s.pairs s.w s.a s.first table.now }
    requires side_len { (length side.old ≡ 1920) × ((n ≤ 16) × (e + n ≤ s.pairs)) }
    ensures { Chunk s.columns s.pairs s.w s.a e n table.now side.old side.new }
{
    let mut best = [u32::MAX; CHUNK];
    weigh_cuts(&mut best, table, s, e, n);
    lay(side, &best, s.a, e, n);
}

// Gives all pieces of a strip of at least 16 the least of their vertical cuts. The last 16 overlap the ones before.
fn weigh_long(side: &mut [u32; SIDE], table: &[u32], s: Strip)
    requires weighable { Weighable s.columns s.pairs s.w s.a s.first table.now }
    requires side_len { (length side.old ≡ 1920) × (16 ≤ s.pairs) }
    ensures { Chunk s.columns s.pairs s.w s.a 0 s.pairs table.now side.old side.new }
{
    for e in (0..s.pairs - CHUNK).step_by(CHUNK) {
        weigh_chunk(side, table, s, e, CHUNK);
    }
    weigh_chunk(side, table, s, s.pairs - CHUNK, CHUNK);
}

// The same of a strip of 8 to 16 pieces: the first 8 and the last 8.
fn weigh_short(side: &mut [u32; SIDE], table: &[u32], s: Strip)
    requires weighable { Weighable s.columns s.pairs s.w s.a s.first table.now }
    requires side_len { (length side.old ≡ 1920) × ((8 ≤ s.pairs) × (s.pairs ≤ 16)) }
    ensures { Chunk s.columns s.pairs s.w s.a 0 s.pairs table.now side.old side.new }
{
    weigh_chunk(side, table, s, 0, HALF_CHUNK);
    weigh_chunk(side, table, s, s.pairs - HALF_CHUNK, HALF_CHUNK);
}

// Gives all pieces of a strip the least of their vertical cuts.
fn weigh_strip(side: &mut [u32; SIDE], table: &[u32], s: Strip)
    requires weighable { Weighable s.columns s.pairs s.w s.a s.first table.now }
    requires side_len { length side.old ≡ 1920 }
    ensures { Chunk s.columns s.pairs s.w s.a 0 s.pairs table.now side.old side.new }
{
    if CHUNK <= s.pairs {
        weigh_long(side, table, s);
    } else if HALF_CHUNK <= s.pairs {
        weigh_short(side, table, s);
    } else {
        weigh_chunk(side, table, s, 0, s.pairs);
    }
}

// Gives all pieces of the strips of the width w the least of their vertical cuts; where there is none the
// greatest number (`uncut`), which no cost reaches.
pub fn weigh_strips(side: &mut [u32; SIDE], table: &[u32], columns: usize, pairs: usize, w: usize)
    requires columns_bound { (columns ≤ 15) × ((pairs ≤ 120) × (pair_count columns * pairs ≤ length table.now)) }
    requires le_w { (1 ≤ w) × ((w ≤ columns) × (length side.old ≡ 1920)) }
    requires by_index { (a j e : ℕ) → a + w ≤ columns → a < j → j < a + w → e < pairs → parted table.now columns pairs a (a + w) e j < 2 ^ 32 }
    ensures { Weighed columns pairs w table.now side.old side.new }
{
    let mut first: usize = 0;
    for a in 0..columns + 1 - w {
        let strip = Strip {
            columns,
            pairs,
            a,
            w,
            first,
        };
        weigh_strip(side, table, strip);
        first += columns - a;
    }
}
