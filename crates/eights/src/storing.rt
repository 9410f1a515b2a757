// Storing the costs of all strips of one width: each lane becomes a row of the table, its numbers times the weight. (In long numbers:
// `strips::storing`, where each width has a side store of its own; here all widths stand in one.)
ghost use Rattle.std.specs.Prelude.{◌≡◌, ◌+◌, ◌*◌, ◌<◌, ◌≤◌, length};
ghost use Rattle.table.specs.Entry.{pair_count};
ghost use Rattle.table.specs.Run.{Wrote};
ghost use Rattle.eights.specs.Store.{scaled, Stored};

use table::runs::LANES;

// Stores a lane as the row of the table that starts at `at`; its numbers stand from the place `from` of the store on.
fn store_strip(table: &mut [u32], store: &[u16], weight: u32, at: usize, from: usize, pairs: usize)
    requires { (at + pairs ≤ length table.old) × ((from + 16 * pairs ≤ length store.now) × ((pairs ≤ 120) × (weight ≤ 1000))) }
    ensures { Wrote (scaled weight store.now from) at pairs table.old table.new }
{
    for e in 0..pairs {
        table[at + e] = weight * u32::from(store[from + LANES * e]);
    }
}

// Stores the lanes of all strips of the width w as their rows of the table.
pub fn store_strips(
    table: &mut [u32],
    store: &[u16],
    weight: u32,
    columns: usize,
    pairs: usize,
    w: usize,
)
    requires columns_bound { (columns ≤ 15) × ((pairs ≤ 120) × (pair_count columns * pairs ≤ length table.old)) }
    requires le_w { (1 ≤ w) × ((w ≤ columns) × ((weight ≤ 1000) × (16 * (pairs * w) + 16 ≤ length store.now))) }
    ensures { Stored columns pairs w weight store.now table.old table.new }
{
    let block = LANES * (pairs * (w - 1));
    let mut row = w - 1;
    for a in 0..columns + 1 - w {
        store_strip(table, store, weight, row * pairs, block + a, pairs);
        row += columns - a;
    }
}
