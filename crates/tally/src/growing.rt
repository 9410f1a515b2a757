// Growing: from the sums of the strips of one width to those of the strips that are one column wider, 16 strips at a time.
ghost use Rattle.std.specs.Prelude.{◌≡◌, ℕ, ◌+◌, ◌<◌, ◌≤◌, length, get_or};
ghost use Rattle.outline.specs.Grid.{Grid};
ghost use Rattle.table.specs.Run.{Wrote};
ghost use Rattle.tally.specs.Sums.{Grown, Flanked};
ghost use Rattle.tally.specs.Growth.{added, flank_sum, Slight, RowFits, RowGrown, Growable, Ripe};

use crate::{
    BOTTOMS, CELL_BOTTOMS, CELL_LEFTS, CELL_RIGHTS, CELL_TOPS, FLANKS, ROW, SHARES, SUMS, TOPS,
};
use table::runs::LANES;

// Adds 16 shares of cells to the sums of 16 strips.
fn add_shares(sums: &mut [u32; SUMS], unit: &[u32; SHARES], at: usize, from: usize)
    requires sums_len { (length sums.old ≡ 1024) × ((at + 16 ≤ 1024) × (from + 16 ≤ 2560)) }
    requires slight { Slight unit.now × ((l : ℕ) → l < 16 → get_or sums.old (at + l) 0 ≤ 65535) }
    ensures { Wrote (added sums.old unit.now at from) at 16 sums.old sums.new }
{
    for l in 0..LANES {
        sums[at + l] += unit[from + l];
    }
}

// The exposed flanks of 16 strips in one row: left sides of their first cells, and right sides of their last.
fn add_flanks(sums: &mut [u32; SUMS], unit: &[u32; SHARES], at: usize, left: usize, right: usize)
    requires sums_len { (length sums.old ≡ 1024) × ((at + 16 ≤ 1024) × ((left + 16 ≤ 2560) × (right + 16 ≤ 2560))) }
    requires slight { Slight unit.now }
    ensures { Wrote (flank_sum unit.now left right) at 16 sums.old sums.new }
{
    for l in 0..LANES {
        sums[at + l] = unit[left + l] + unit[right + l];
    }
}

// The strips grow by a column in the row j: the strip in lane a has a + last for its last column then.
fn grow_row(sums: &mut [u32; SUMS], unit: &[u32; SHARES], j: usize, last: usize)
    requires { RowFits unit.now last j sums.old }
    ensures { RowGrown unit.now last j sums.old sums.new }
{
    let at = LANES * j;
    let first = ROW * j;
    let end = first + last;
    add_shares(sums, unit, at, end);
    add_shares(sums, unit, BOTTOMS + at, CELL_BOTTOMS + end);
    add_shares(sums, unit, TOPS + at, CELL_TOPS + end);
    add_flanks(
        sums,
        unit,
        FLANKS + at,
        CELL_LEFTS + first,
        CELL_RIGHTS + end,
    );
}

// The strips grow by a column, to the width w.
pub fn grow(sums: &mut [u32; SUMS], unit: &[u32; SHARES], rows: usize, w: usize)
    requires { Growable rows w unit.now sums.old }
    ensures { (g : Grid) → Ripe g rows w unit.now sums.old → Grown g w sums.new × Flanked g w sums.new }
{
    let last = w - 1;
    for j in 0..rows {
        grow_row(sums, unit, j, last);
    }
}
