// The fill by widths, in either mode: the cost of every piece of a grid, into a table that the caller lends. Strips are filled by rising
// width, and all strips of one width stand side by side, so that a cut of 4, 8, 12 or 16 of them is weighed at once; all parts of a strip's
// cuts and pinwheels are narrower. In the pinwheel mode a width's pinwheels are weighed between its vertical cuts and its settling.
#![tactic(auto)]

ghost use Rattle.std.specs.Prelude.{◌≡◌, ◌+◌, ◌*◌, ◌≤◌, ◌++◌, length, drop};
ghost use Rattle.outline.specs.Grid.{stored};
ghost use Rattle.piece.specs.declared.Mode.TheVariants.{Straight, Pinwheel};
ghost use Rattle.table.specs.Entry.{pair_count, costs};
ghost use Rattle.table.specs.Fill.{Ready};
ghost use Rattle.table.specs.Run.{Wrote};
ghost use Rattle.strips.specs.Chunk.{listed};
ghost use Rattle.wheels.specs.Wheel.{Ground, AllFit, Wheeled, WeighedBy, WroteBy};

use piece::Mode;
use rule::Rule;
use strips::{storing, weighing};
use table::numbering;
use table::runs::{LANES, SIDE};
use tally::{SHARES, SUMS, growing, measuring};
use widths::settling;

mod lanes;
mod turning;

// A grid of so many columns and rows at most has its costs in a small store, which is sooner cleared. As in `short`, which this crate does not
// stand on.
const SMALL: usize = 7;

// Room for the costs of all strips of such a grid, and of any, in all lanes: LANES for each width and pair of y lines, and LANES more.
const SMALL_STORE: usize = 3152;

const LARGE_STORE: usize = 28816;

// Keeps the first n numbers of a side store, from the place `at` of the store on. Said place by place (`Wrote`), as the fills say all they write.
fn keep(store: &mut [u32], side: &[u32], at: usize, n: usize)
    requires { (at + n ≤ length store.old) × (n ≤ length side.now) }
    ensures { Wrote (listed side.now) at n store.old store.new }
{
    for i in 0..n {
        store[at + i] = side[i];
    }
}

// Weighs the pinwheels of a width in the pinwheel mode; by straight cuts there are none.
fn weigh_by(mode: Mode, side: &mut [u32], store: &[u32], s: lanes::Strips)
    requires { mode ≡ Pinwheel → (Ground s store.now × (length side.old ≡ 1920)) × AllFit store.now s }
    ensures { WeighedBy mode s.count (Wheeled store.now s) side.old side.new }
{
    match mode {
        Mode::Straight => {}
        Mode::Pinwheel => turning::weigh_wheels(side, store, s),
    }
}

// Keeps a width's side store in the pinwheel mode; by straight cuts nobody reads it.
fn keep_by(mode: Mode, store: &mut [u32], side: &[u32], at: usize, n: usize)
    requires { mode ≡ Pinwheel → (at + n ≤ length store.old) × (n ≤ length side.now) }
    ensures { WroteBy mode (listed side.now) at n store.old store.new }
{
    match mode {
        Mode::Straight => {}
        Mode::Pinwheel => keep(store, side, at, n),
    }
}

// Fills the table in a mode; in the pinwheel mode the store has room for the strips of all widths, side by side. One loop serves both modes:
// the local lists are lent to functions that the compiler puts in place here, where each has its only caller. Only so it sees that they do
// not overlap, and works on four lanes at a time.
fn fill_by(
    mode: Mode,
    xs: &[u16],
    ys: &[u16],
    cells: &[u8],
    columns: usize,
    rows: usize,
    rule: Rule,
    table: &mut [u32],
    store: &mut [u32],
)
    requires ready { Ready (stored columns rows xs.now ys.now cells.now) rule xs.now ys.now cells.now table.old }
    requires rows_in_bounds { mode ≡ Pinwheel → 16 * (columns * pair_count rows) + 16 ≤ length store.old }
    ensures { table.new ≡ costs mode (stored columns rows xs.now ys.now cells.now) rule ++ drop (length (costs mode (stored columns rows xs.now ys.now cells.now) rule)) table.old }
{
    let pairs = numbering::pair_count(rows);
    let mut unit = [0u32; SHARES];
    let mut sums = [0u32; SUMS];
    let mut side = [0u32; SIDE];
    let mut wide = [0u32; LANES];
    measuring::measure(&mut unit, xs, ys, cells, columns, rows);
    for w in 1..columns + 1 {
        let count = columns + 1 - w;
        let strips = lanes::Strips {
            rows,
            pairs,
            width: w,
            count,
        };
        growing::grow(&mut sums, &unit, rows, w);
        measuring::widths(&mut wide, xs, columns, w);
        weighing::weigh_strips(&mut side, table, columns, pairs, w);
        weigh_by(mode, &mut side, store, strips);
        settling::settle(
            &mut side, &sums, &wide, ys, rule, rows, pairs, w as u32, count,
        );
        keep_by(mode, store, &side, LANES * ((w - 1) * pairs), LANES * pairs);
        storing::store_strips(table, &side, columns, pairs, w);
    }
}

// The same with a store of so many numbers.
fn fill_in<const N: usize>(
    mode: Mode,
    xs: &[u16],
    ys: &[u16],
    cells: &[u8],
    columns: usize,
    rows: usize,
    rule: Rule,
    table: &mut [u32],
)
    requires ready { Ready (stored columns rows xs.now ys.now cells.now) rule xs.now ys.now cells.now table.old }
    requires room { (N ≤ 28816) × (mode ≡ Pinwheel → 16 * (columns * pair_count rows) + 16 ≤ N) }
    ensures { table.new ≡ costs mode (stored columns rows xs.now ys.now cells.now) rule ++ drop (length (costs mode (stored columns rows xs.now ys.now cells.now) rule)) table.old }
{
    let mut store = [0u32; N];
    fill_by(mode, xs, ys, cells, columns, rows, rule, table, &mut store);
}

// Fills the table with the cost of every piece of the grid in the pinwheel mode, in the order of entries. What it held there has no
// influence, and what lies beyond the entries stays as it was. The compiler never puts it in place: its store is off the stack when the shots
// are written.
#[inline(never)]
pub fn fill(
    xs: &[u16],
    ys: &[u16],
    cells: &[u8],
    columns: usize,
    rows: usize,
    rule: Rule,
    table: &mut [u32],
)
    requires { Ready (stored columns rows xs.now ys.now cells.now) rule xs.now ys.now cells.now table.old }
    ensures { table.new ≡ costs Pinwheel (stored columns rows xs.now ys.now cells.now) rule ++ drop (length (costs Pinwheel (stored columns rows xs.now ys.now cells.now) rule)) table.old }
{
    if columns <= SMALL && rows <= SMALL {
        fill_in::<SMALL_STORE>(Mode::Pinwheel, xs, ys, cells, columns, rows, rule, table);
        return;
    }
    fill_in::<LARGE_STORE>(Mode::Pinwheel, xs, ys, cells, columns, rows, rule, table);
}

// The same by straight cuts: no strip is kept, so one number is store enough.
pub fn fill_straight(
    xs: &[u16],
    ys: &[u16],
    cells: &[u8],
    columns: usize,
    rows: usize,
    rule: Rule,
    table: &mut [u32],
)
    requires { Ready (stored columns rows xs.now ys.now cells.now) rule xs.now ys.now cells.now table.old }
    ensures { table.new ≡ costs Straight (stored columns rows xs.now ys.now cells.now) rule ++ drop (length (costs Straight (stored columns rows xs.now ys.now cells.now) rule)) table.old }
{
    fill_in::<1>(Mode::Straight, xs, ys, cells, columns, rows, rule, table);
}
