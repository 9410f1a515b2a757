// Settling all strips of one width: from the highest low line down, and of the pieces that begin at one line the lowest first, so that both
// parts of each horizontal cut are settled before it is weighed.
ghost use Rattle.std.specs.Prelude.{◌≡◌, ℕ, ◌+◌, ◌*◌, ◌-◌, ◌<◌, ◌≤◌, length, get_or};
ghost use Rattle.table.specs.Entry.{pairs_below, pair_count};
ghost use Rattle.widths.specs.Price.{Sheet, sheet, Measured, Priced, Priceable};

use crate::lanes;
use crate::lanes::Level;
use outline::Line;
use rule::Rule;
use table::runs::LANES;
use table::sides;

// Settles the pieces of n strips, w columns wide, that begin at the y line low. `first` is the number of the first of them.
fn settle_from(
    side: &mut [u32],
    sums: &[u32],
    widths: &[u32],
    ys: &[u16],
    rule: Rule,
    rows: usize,
    w: u32,
    low: usize,
    first: usize,
    n: usize,
)
    requires measured { Measured (sheet sums.now widths.now ys.now rule rows w n) }
    requires low_lt_rows { (low < rows) × ((first ≡ pairs_below rows low) × (length side.old ≡ 1920)) }
    requires priceable { Priceable (sheet sums.now widths.now ys.now rule rows w n) side.old low (low + 1) }
    ensures { (s : ℕ → ℕ → ℕ → ℕ) → Priced s (sheet sums.now widths.now ys.now rule rows w n) side.old low (low + 1) → Priced s (sheet sums.now widths.now ys.now rule rows w n) side.new low (rows + 1) }
{
    let mut count = [0u32; LANES];
    let mut flanks = [0u32; LANES];
    let mut cells: u32 = 0;
    // Counted by hand for speed: with a `for` here the fill of 12 rows and more was measured 5 % slower.
    let mut high = low + 1;
    while high <= rows {
        cells += w;
        let height = sides::span(ys, Line(low), Line(high));
        let level = Level {
            rows,
            low,
            high,
            first,
            cells,
            height,
        };
        lanes::settle_some(side, &mut count, &mut flanks, sums, widths, rule, level, n);
        high += 1;
    }
}

// Settles all pieces of n strips, w columns wide: of each piece the side store has the least of the vertical cuts, and afterwards the price.
pub fn settle(
    side: &mut [u32],
    sums: &[u32],
    widths: &[u32],
    ys: &[u16],
    rule: Rule,
    rows: usize,
    pairs: usize,
    w: u32,
    n: usize,
)
    requires measured { Measured (sheet sums.now widths.now ys.now rule rows w n) }
    requires pairs_value { (pairs ≡ pair_count rows) × (length side.old ≡ 1920) }
    requires priceable { Priceable (sheet sums.now widths.now ys.now rule rows w n) side.old rows (rows + 1) }
    ensures { (s : ℕ → ℕ → ℕ → ℕ) → Priced s (sheet sums.now widths.now ys.now rule rows w n) side.old rows (rows + 1) → Priced s (sheet sums.now widths.now ys.now rule rows w n) side.new 0 (rows + 1) }
{
    let mut first = pairs;
    for b in (0..rows).rev() {
        first -= rows - b;
        settle_from(side, sums, widths, ys, rule, rows, w, b, first, n);
    }
}
