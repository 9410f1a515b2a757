// Growing: from the sums of the strips of one width to those of the strips that are one column wider, 16 strips at a time.
ghost use Rattle.std.specs.Prelude.{◌≡◌, ℕ, ◌+◌, ◌≤◌, length};
ghost use Rattle.sum.specs.Sum.{only};
ghost use Rattle.outline.specs.Grid.{Grid};
ghost use Rattle.rule.specs.declared.Rule.{Rule};
ghost use Rattle.table.specs.Run.{Wrote};
ghost use Rattle.shares.specs.Shares.{wrap};
ghost use Rattle.shares.specs.Growth.{wrap_added, narrow_flanks, RowGrown, Grown, Flanked, Ripe};

use table::runs::LANES;
use tally::{
    BOTTOMS, CELL_BOTTOMS, CELL_LEFTS, CELL_RIGHTS, CELL_TOPS, FLANKS, ROW, SHARES, SUMS, TOPS,
};

// Two short numbers together. In a lane without a strip the sum may wrap: nobody reads it.
pub fn both(a: u16, b: u16) -> u16
    ensures { result ≡ wrap a b }
{
    a.wrapping_add(b)
}

// A length where it counts, else 0; `rule` has it in 32 bits.
pub fn counted(counts: bool, length: u16) -> u16
    ensures { result ≡ only counts length }
{
    if counts { length } else { 0 }
}

// Adds 16 shares of cells to the sums of 16 strips.
fn add_shares(sums: &mut [u16; SUMS], short: &[u16; SHARES], at: usize, from: usize)
    requires { (length sums.old ≡ 1024) × ((length short.now ≡ 2560) × ((at + 16 ≤ 1024) × (from + 16 ≤ 2560))) }
    ensures { Wrote (wrap_added sums.old short.now at from) at 16 sums.old sums.new }
{
    for l in 0..LANES {
        sums[at + l] = both(sums[at + l], short[from + l]);
    }
}

// The exposed flanks of 16 strips in one row, where the rule counts them: left sides of their first cells, and right sides of their last.
fn add_flanks(
    sums: &mut [u16; SUMS],
    short: &[u16; SHARES],
    wide: &[u16; LANES],
    threshold: u16,
    at: usize,
    left: usize,
    right: usize,
)
    requires sums_len { (length sums.old ≡ 1024) × ((length short.now ≡ 2560) × (length wide.now ≡ 16)) }
    requires at_bound { (at + 16 ≤ 1024) × ((left + 16 ≤ 2560) × (right + 16 ≤ 2560)) }
    ensures { Wrote (narrow_flanks short.now wide.now threshold left right) at 16 sums.old sums.new }
{
    for (l, width) in wide.iter().enumerate() {
        sums[at + l] = counted(*width < threshold, both(short[left + l], short[right + l]));
    }
}

// The strips grow by a column in the row j: the strip in lane a has a + last for its last column then.
fn grow_row(
    sums: &mut [u16; SUMS],
    short: &[u16; SHARES],
    wide: &[u16; LANES],
    threshold: u16,
    j: usize,
    last: usize,
)
    requires sums_len { (length sums.old ≡ 1024) × ((length short.now ≡ 2560) × (length wide.now ≡ 16)) }
    requires j_bound { (j ≤ 14) × (last ≤ 14) }
    ensures { RowGrown short.now wide.now threshold last j sums.old sums.new }
{
    let at = LANES * j;
    let first = ROW * j;
    let end = first + last;
    add_shares(sums, short, at, end);
    add_shares(sums, short, BOTTOMS + at, CELL_BOTTOMS + end);
    add_shares(sums, short, TOPS + at, CELL_TOPS + end);
    add_flanks(
        sums,
        short,
        wide,
        threshold,
        FLANKS + at,
        CELL_LEFTS + first,
        CELL_RIGHTS + end,
    );
}

// The strips grow by a column, to the width w; `wide` has their widths in nm.
pub fn grow(
    sums: &mut [u16; SUMS],
    short: &[u16; SHARES],
    wide: &[u16; LANES],
    threshold: u16,
    rows: usize,
    w: usize,
)
    requires sums_len { (length sums.old ≡ 1024) × ((length short.now ≡ 2560) × (length wide.now ≡ 16)) }
    requires rows_bound { (rows ≤ 15) × ((1 ≤ w) × (w ≤ 15)) }
    ensures { (g : Grid) (r : Rule) (price : ℕ) → Ripe g r price rows w threshold short.now wide.now sums.old → Grown g r w sums.new × Flanked g r w sums.new }
{
    let last = w - 1;
    for j in 0..rows {
        grow_row(sums, short, wide, threshold, j, last);
    }
}
