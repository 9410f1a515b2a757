// Storing the costs of all strips of one width: each lane becomes a row of the table.
ghost use Rattle.std.specs.Prelude.{◌+◌, ◌*◌, ◌<◌, ◌≤◌, length};
ghost use Rattle.table.specs.Entry.{pair_count};
ghost use Rattle.table.specs.Run.{Wrote};
ghost use Rattle.strips.specs.Lanes.{Stored};
ghost use Rattle.strips.specs.Chunk.{lane_of};

use table::runs::{LANES, SIDE};

// Stores the lane a as the row of the table that starts at `at`.
fn store_strip(table: &mut [u32], side: &[u32; SIDE], at: usize, a: usize, pairs: usize)
    requires { (at + pairs ≤ length table.old) × ((a < 16) × (pairs ≤ 120)) }
    ensures { Wrote (lane_of side.now a) at pairs table.old table.new }
{
    for e in 0..pairs {
        table[at + e] = side[LANES * e + a];
    }
}

// Stores the lanes of all strips of the width w as their rows of the table.
pub fn store_strips(table: &mut [u32], side: &[u32; SIDE], columns: usize, pairs: usize, w: usize)
    requires columns_bound { (columns ≤ 15) × ((pairs ≤ 120) × (pair_count columns * pairs ≤ length table.old)) }
    requires le_w { (1 ≤ w) × (w ≤ columns) }
    ensures { Stored columns pairs w side.now table.old table.new }
{
    let mut row = w - 1;
    for a in 0..columns + 1 - w {
        store_strip(table, side, row * pairs, a, pairs);
        row += columns - a;
    }
}
