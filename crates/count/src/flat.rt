// One to three rows, straight through: the reaches of the rows at a column are single numbers, and so is what the pieces of one sort
// that begin there have. A loop for each count of rows, and not one over a list of reaches: what the rows have in common differs with their
// count, so that each would still have a body of its own.
ghost use Rattle.std.specs.Prelude.{◌≡◌, suc, ◌≤◌, ◌<◌, length};
ghost use Rattle.count.specs.Corners.{cell_at, farther, spared_all};
ghost use Rattle.count.specs.Flat.{of_one, of_two, of_three};

use crate::corners::farther;
use outline::MOST_LINES;

// Twice the lines within the pieces of one row and 1, 2, .. `reach` columns.
fn of_one(reach: u32) -> u32
    requires { (1 ≤ reach) × (reach ≤ 15) }
    ensures { (result ≡ of_one reach) × (result ≤ 210) }
{
    reach * (reach - 1)
}

// The same of two rows, with the sorts and reaches of their cells at a column: of each row, and of both where they have one sort.
fn of_two(low: u8, high: u8, low_reach: u32, high_reach: u32) -> u32
    requires { ((1 ≤ low_reach) × (low_reach ≤ 15)) × ((1 ≤ high_reach) × (high_reach ≤ 15)) }
    ensures { (result ≡ of_two low high low_reach high_reach) × (result ≤ 660) }
{
    let single = of_one(low_reach) + of_one(high_reach);
    if high != low {
        return single;
    }
    let both = low_reach.min(high_reach);
    single + both * (both + 1)
}

// The same of three rows: of the two upper ones, and of those that begin at the lowest.
fn of_three(
    low: u8,
    middle: u8,
    high: u8,
    low_reach: u32,
    middle_reach: u32,
    high_reach: u32,
) -> u32
    requires { ((1 ≤ low_reach) × (low_reach ≤ 15)) × (((1 ≤ middle_reach) × (middle_reach ≤ 15)) × ((1 ≤ high_reach) × (high_reach ≤ 15))) }
    ensures { (result ≡ of_three low middle high low_reach middle_reach high_reach) × (result ≤ 1380) }
{
    let single = of_one(low_reach) + of_two(middle, high, middle_reach, high_reach);
    if middle != low {
        return single;
    }
    let two = low_reach.min(middle_reach);
    let lower = single + two * (two + 1);
    if high != low {
        return lower;
    }
    let three = two.min(high_reach);
    lower + three * (three + 3)
}

// How far a row goes on with its sort from a column on, given how far it does from the next one on.
fn reach_from(cells: &[u8], column: usize, row: usize, further: u32) -> u32
    requires { (length cells.now ≡ 256) × ((column < 15) × ((row < 16) × (further ≤ 15))) }
    ensures { result ≡ farther (cell_at cells.now column row) (cell_at cells.now (suc column) row) further }
{
    let at = MOST_LINES * column + row;
    farther(cells[at], cells[at + MOST_LINES], further)
}

// Twice the lines within the pieces of one sort, of a grid of one row: the columns from the last one back.
pub fn spared_of_one(cells: &[u8], columns: usize) -> u32
    requires { (length cells.now ≡ 256) × (columns ≤ 15) }
    ensures { result ≡ spared_all cells.now columns 1 }
{
    let mut low: u32 = 0;
    let mut sum: u32 = 0;
    for column in (0..columns).rev() {
        low = reach_from(cells, column, 0, low);
        sum += of_one(low);
    }
    sum
}

// The same of a grid of two rows.
pub fn spared_of_two(cells: &[u8], columns: usize) -> u32
    requires { (length cells.now ≡ 256) × (columns ≤ 15) }
    ensures { result ≡ spared_all cells.now columns 2 }
{
    let mut low: u32 = 0;
    let mut high: u32 = 0;
    let mut sum: u32 = 0;
    for column in (0..columns).rev() {
        let at = MOST_LINES * column;
        low = reach_from(cells, column, 0, low);
        high = reach_from(cells, column, 1, high);
        sum += of_two(cells[at], cells[at + 1], low, high);
    }
    sum
}

// The same of a grid of three rows.
pub fn spared_of_three(cells: &[u8], columns: usize) -> u32
    requires { (length cells.now ≡ 256) × (columns ≤ 15) }
    ensures { result ≡ spared_all cells.now columns 3 }
{
    let mut low: u32 = 0;
    let mut middle: u32 = 0;
    let mut high: u32 = 0;
    let mut sum: u32 = 0;
    for column in (0..columns).rev() {
        let at = MOST_LINES * column;
        low = reach_from(cells, column, 0, low);
        middle = reach_from(cells, column, 1, middle);
        high = reach_from(cells, column, 2, high);
        sum += of_three(cells[at], cells[at + 1], cells[at + 2], low, middle, high);
    }
    sum
}
