// The fill in short numbers, by straight cuts: the cost of every piece of a grid, counted in weights, where all of them fit 16 bits.
// Where the weight divides 1,000, as in every preset, each cost is a multiple of it: a shot costs 1,000 / weight, and each nm of its
// sliver one more. Eight short numbers go to a vector where four long ones do, and the least of two takes two steps and not six.
#![tactic(auto)]

ghost use Rattle.std.specs.Prelude.{◌≡◌, true, IfSome, List, ℕ, ◌+◌, ◌*◌, ◌≤◌, length};
ghost use Rattle.outline.specs.Grid.{stored};
ghost use Rattle.table.specs.Entry.{pair_count};
ghost use Rattle.table.specs.Fill.{Ready};
ghost use Rattle.short.specs.Short.{Fillable, Filled, FilledOr};

use eights::settling::{Strips, Tariff};
use eights::{settling, storing};
use rule::Rule;
use shares::{growing, measuring};
use table::numbering;
use table::runs::LANES;
use tally::{SHARES, SUMS};

// Room for the costs of all strips of a grid, in all lanes: LANES for each width and pair of y lines, and LANES more. Few numbers are sooner
// cleared than many: for a grid of so many columns and rows at most, for a larger one, and for any.
pub const SMALL: usize = 7;

const SMALL_STORE: usize = 3152;

const MIDDLE_STORE: usize = 8816;

const LARGE_STORE: usize = 28816;

// What all cells may owe, so that no sum is above 65,535, nor one with the price of a shot besides, which is at most 1,000.
const MOST_DUE: u32 = 64535;

// Fills the table, in a store with room for the strips of all widths side by side. `short` has the shares of the grid's cells.
fn fill_widths(
    short: &[u16; SHARES],
    xs: &[u16],
    ys: &[u16],
    columns: usize,
    rows: usize,
    rule: Rule,
    price: u16,
    table: &mut [u32],
    store: &mut [u16],
)
    requires by_index { (cells : List ℕ) × Fillable (stored columns rows xs.now ys.now cells) rule price xs.now ys.now cells short.now table.old }
    requires rows_in_bounds { 16 * (columns * pair_count rows) + 16 ≤ length store.old }
    ensures { (cells : List ℕ) → Fillable (stored columns rows xs.now ys.now cells) rule price xs.now ys.now cells short.now table.old → Filled (stored columns rows xs.now ys.now cells) rule table.old table.new }
{
    let pairs = numbering::pair_count(rows);
    let threshold = rule.threshold as u16;
    let tariff = Tariff { threshold, price };
    let mut sums = [0u16; SUMS];
    let mut wide = [0u16; LANES];
    for w in 1..columns + 1 {
        measuring::widths(&mut wide, xs, columns, w);
        growing::grow(&mut sums, short, &wide, threshold, rows, w);
        let strips = Strips {
            sums: &sums,
            wide: &wide,
            ys,
            tariff,
            rows,
            pairs,
            width: w,
            count: columns + 1 - w,
        };
        settling::settle(store, strips);
        storing::store_strips(table, store, rule.weight, columns, pairs, w);
    }
}

// The same in a store of so many numbers.
fn fill_in<const N: usize>(
    short: &[u16; SHARES],
    xs: &[u16],
    ys: &[u16],
    columns: usize,
    rows: usize,
    rule: Rule,
    price: u16,
    table: &mut [u32],
)
    requires by_index { (cells : List ℕ) × Fillable (stored columns rows xs.now ys.now cells) rule price xs.now ys.now cells short.now table.old }
    requires rows_bound { (16 * (columns * pair_count rows) + 16 ≤ N) × (N ≤ 28816) }
    ensures { (cells : List ℕ) → Fillable (stored columns rows xs.now ys.now cells) rule price xs.now ys.now cells short.now table.old → Filled (stored columns rows xs.now ys.now cells) rule table.old table.new }
{
    let mut store = [0u16; N];
    fill_widths(short, xs, ys, columns, rows, rule, price, table, &mut store);
}

// How many weights a shot costs, where that is a whole number and the threshold a short one.
fn price_of(rule: Rule) -> Option<u32>
    ensures { IfSome result (λ price. (price ≤ 1000) × ((price * rule.weight ≡ 1000) × (rule.threshold ≤ 65535))) }
{
    let weight = rule.weight;
    let threshold = rule.threshold;
    if weight == 0 {
        return None;
    }
    let price = 1000 / weight;
    if price * weight != 1000 {
        return None;
    }
    if 65535 < threshold {
        return None;
    }
    Some(price)
}

// Fills the table with the cost of every piece of the grid by straight cuts, in the order of entries, where short numbers are enough for it,
// and says whether they are: where not, the table is as it was. `small` says that there are at most SMALL columns and rows. A caller says so
// in two calls, one for each: a function with two callers is not put in place, and its store, which is large, no part of theirs.
pub fn fill(
    xs: &[u16],
    ys: &[u16],
    cells: &[u8],
    columns: usize,
    rows: usize,
    rule: Rule,
    table: &mut [u32],
    small: bool,
) -> bool
    requires ready { Ready (stored columns rows xs.now ys.now cells.now) rule xs.now ys.now cells.now table.old }
    requires columns_bound { small ≡ true → (columns ≤ 7) × (rows ≤ 7) }
    ensures { FilledOr result (stored columns rows xs.now ys.now cells.now) rule table.old table.new }
{
    let Some(price) = price_of(rule) else {
        return false;
    };
    let mut short = [0u16; SHARES];
    let due = measuring::measure(&mut short, xs, ys, cells, rule, price, columns, rows);
    if MOST_DUE < due {
        return false;
    }
    let room = LANES * (columns * numbering::pair_count(rows)) + LANES;
    if small {
        fill_in::<SMALL_STORE>(&short, xs, ys, columns, rows, rule, price as u16, table);
    } else if room <= MIDDLE_STORE {
        fill_in::<MIDDLE_STORE>(&short, xs, ys, columns, rows, rule, price as u16, table);
    } else {
        fill_in::<LARGE_STORE>(&short, xs, ys, columns, rows, rule, price as u16, table);
    }
    true
}
