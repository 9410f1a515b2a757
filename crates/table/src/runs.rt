// What the fills share: the exposed length of a stretch, and one cut of several pieces weighed at once.
ghost use Rattle.std.specs.Prelude.{◌≡◌, ℕ, ◌+◌, ◌<◌, ◌≤◌, ◌^◌, length, get_or};
ghost use Rattle.table.specs.Run.{Wrote, bare, weighed_apart};

// The strips of one width are filled side by side, so that a cut of several of them is weighed at once: the strip that begins at the x line
// a stands in lane a.
pub const LANES: usize = 16;

// A side store has, at LANES * e + a, a number for the e-th piece of the strip in lane a, among the 120 pairs of y lines at most.
pub const SIDE: usize = 1920;

// The exposed length of a stretch: all of it where the cell within is inside and the cell across is not.
pub fn exposed(near: u8, far: u8, length: u32) -> u32
    ensures { (result ≡ bare near far length) × (result ≤ length) }
{
    if near == 0 {
        return 0;
    }
    if far == 0 { length } else { 0 }
}

// Weighs one cut of n pieces at once, which stand apart from their parts: each keeps the lesser of what it has and of its two parts' costs
// together. The parts stand in `side`.
pub fn weigh_apart(best: &mut [u32], side: &[u32], low: usize, high: usize, n: usize)
    requires n_in_bounds { (n ≤ length best.old) × ((low + n ≤ length side.now) × (high + n ≤ length side.now)) }
    requires by_index { (i : ℕ) → i < n → get_or side.now (low + i) 0 + get_or side.now (high + i) 0 < 2 ^ 32 }
    ensures { Wrote (weighed_apart best.old side.now low high) 0 n best.old best.new }
{
    for i in 0..n {
        best[i] = best[i].min(side[low + i] + side[high + i]);
    }
}
