// The pieces of a strip of one to five rows of cells, and the strips that begin at one x line. Every piece is settled when all of
// its parts are: in the table stand those of its vertical cuts, in single numbers those of its horizontal ones.
ghost use Rattle.std.specs.Prelude.{◌≡◌, refl, ℕ, ◌+◌, ◌*◌, ◌-◌, ◌≤◌, ◌<◌, length, get_or};
ghost use Rattle.outline.specs.Grid.{Grid, stored};
ghost use Rattle.piece.specs.declared.Mode.TheVariants.{Straight};
ghost use Rattle.piece.specs.Piece.{box};
ghost use Rattle.piece.specs.Cuts.{cost};
ghost use Rattle.table.specs.Entry.{pairs_below, pair_count, entry_count};
ghost use Rattle.table.specs.Run.{Wrote};
ghost use Rattle.table.specs.Fill.{Ready, Reached, Beyond};
ghost use Rattle.rule.specs.declared.Rule.{Rule};
ghost use Rattle.shallow.specs.Sums.{Whole, Small, empty_of, grown_row};
ghost use Rattle.shallow.specs.Rows.{Settled, Costed, row_of, pairs_of_one, pairs_of_two, pairs_of_three, pairs_of_four, pairs_of_five, OneRow, TwoRows, ThreeRows, FourthRow, FifthRow, TopTwo, LowThree, LowFour, LowFive, FourSums, WholeFour, WholeFive, Addable, least_of, up4, up5, three_at, four_at, five_at, ten_at};

use crate::cuts::{Strip, Three};
use crate::sums::Sums;
use crate::{cuts, sums};
use outline::Line;
use rule::Rule;
use table::sides;

// The costs of the four pieces of one to four rows that begin at one line, in the order of entries.
#[derive(Clone, Copy)]
pub struct Four {
    pub three: Three,
    pub whole: u32,
}

// And of the five pieces of one to five rows.
#[derive(Clone, Copy)]
pub struct Five {
    pub four: Four,
    pub whole: u32,
}

// The cost of a strip of one row of cells.
fn one_row(table: &[u32], strip: Strip, rule: Rule, row: Sums) -> u32
    requires { (g : Grid) × OneRow g rule strip row table.now }
    ensures { (g : Grid) → OneRow g rule strip row table.now → result ≡ cost Straight g rule (box strip.a.0 strip.c.0 0 1) }
{
    let best = cuts::least_cut(table, strip, 0);
    sums::settled(row, rule, strip.width, best)
}

// The costs of the three pieces of the two highest rows of a strip: they stand last in it.
fn two_rows(table: &[u32], strip: Strip, rule: Rule, low: Sums, high: Sums) -> Three
    requires { (g : Grid) × (b : ℕ) × TwoRows g rule strip b low high table.now }
    ensures { (g : Grid) (b : ℕ) → TwoRows g rule strip b low high table.now → TopTwo g rule strip.a.0 strip.c.0 b result }
{
    let width = strip.width;
    let least = cuts::least_cuts(table, strip, strip.pairs - 3);
    let first = sums::settled(low, rule, width, least.first);
    let third = sums::settled(high, rule, width, least.third);
    let both = sums::stacked(low, high);
    let cut = least.second.min(first + third);
    let second = sums::settled(both, rule, width, cut);
    Three {
        first,
        second,
        third,
    }
}

// What a row below two rows adds, whose costs are known: the costs of the three pieces that begin at its low line. They stand from the
// i-th of the strip on.
fn third_row(
    table: &[u32],
    strip: Strip,
    i: usize,
    rule: Rule,
    low: Sums,
    middle: Sums,
    high: Sums,
    above: Three,
) -> Three
    requires { (g : Grid) × (b : ℕ) × ThreeRows g rule strip b i low middle high above table.now }
    ensures { (g : Grid) (b : ℕ) → ThreeRows g rule strip b i low middle high above table.now → LowThree g rule strip.a.0 strip.c.0 b result }
{
    let width = strip.width;
    let least = cuts::least_cuts(table, strip, i);
    let first = sums::settled(low, rule, width, least.first);
    let two = sums::stacked(low, middle);
    let cut = least.second.min(first + above.first);
    let second = sums::settled(two, rule, width, cut);
    let all = sums::stacked(two, high);
    let lower = least.third.min(first + above.second);
    let upper = lower.min(second + above.third);
    let third = sums::settled(all, rule, width, upper);
    Three {
        first,
        second,
        third,
    }
}

// The least of `best` and of three horizontal cuts, of which `below` has the costs of the lower parts and `above` those of the upper
// ones.
fn three_cuts(best: u32, below: Three, above: Three) -> u32
    requires { Addable below above }
    ensures { result ≡ least_of best below above }
{
    let first = best.min(below.first + above.first);
    let second = first.min(below.second + above.second);
    second.min(below.third + above.third)
}

// The cost of the i-th piece of a strip, which has four rows, with these sums. `below` are the costs of the pieces of one, two and three
// rows that begin at its low line, `above` those of the three that are left over them, up to its high line.
fn four_rows(
    table: &[u32],
    strip: Strip,
    i: usize,
    rule: Rule,
    all: Sums,
    below: Three,
    above: Three,
) -> u32
    requires { (g : Grid) × (b : ℕ) × WholeFour g rule strip b i all below above table.now }
    ensures { (g : Grid) (b : ℕ) → WholeFour g rule strip b i all below above table.now → result ≡ cost Straight g rule (box strip.a.0 strip.c.0 b (up4 b)) }
{
    let best = cuts::least_cut(table, strip, i);
    let cut = three_cuts(best, below, above);
    sums::settled(all, rule, strip.width, cut)
}

// The same of one that has five rows: `low` is the cost of the piece of four rows that begins at its low line, `high` that of its
// highest row.
fn five_rows(
    table: &[u32],
    strip: Strip,
    i: usize,
    rule: Rule,
    all: Sums,
    below: Three,
    low: u32,
    above: Three,
    high: u32,
) -> u32
    requires { (g : Grid) × (b : ℕ) × WholeFive g rule strip b i all below low above high table.now }
    ensures { (g : Grid) (b : ℕ) → WholeFive g rule strip b i all below low above high table.now → result ≡ cost Straight g rule (box strip.a.0 strip.c.0 b (up5 b)) }
{
    let best = cuts::least_cut(table, strip, i);
    let lower = three_cuts(best, below, above);
    let cut = lower.min(low + high);
    sums::settled(all, rule, strip.width, cut)
}

// The sums of four rows, one above the other.
fn four_sums(lowest: Sums, second: Sums, third: Sums, highest: Sums) -> Sums
    requires { (g : Grid) × (r : Rule) × (a : ℕ) × (c : ℕ) × (b : ℕ) × FourSums g r a c b lowest second third highest }
    ensures { (g : Grid) (r : Rule) (a c b : ℕ) → FourSums g r a c b lowest second third highest → Whole g r a c b (up4 b) result }
{
    let two = sums::stacked(lowest, second);
    let three = sums::stacked(two, third);
    sums::stacked(three, highest)
}

// What a row below three rows adds, whose costs are known: the costs of the four pieces that begin at its low line. They stand from the
// i-th of the strip on. `upper` are the costs of the pieces that begin at the line above, `top` those of the two rows above that.
fn fourth_row(
    table: &[u32],
    strip: Strip,
    i: usize,
    rule: Rule,
    lowest: Sums,
    second: Sums,
    third: Sums,
    highest: Sums,
    upper: Three,
    top: Three,
) -> Four
    requires { (g : Grid) × (b : ℕ) × FourthRow g rule strip b i lowest second third highest upper top table.now }
    ensures { (g : Grid) (b : ℕ) → FourthRow g rule strip b i lowest second third highest upper top table.now → LowFour g rule strip.a.0 strip.c.0 b result }
{
    let over = Three {
        first: upper.first,
        second: upper.second,
        third: top.first,
    };
    let three = third_row(table, strip, i, rule, lowest, second, third, over);
    let left = Three {
        first: upper.third,
        second: top.second,
        third: top.third,
    };
    let all = four_sums(lowest, second, third, highest);
    let whole = four_rows(table, strip, i + 3, rule, all, three, left);
    Four { three, whole }
}

// What a fifth row below the four highest adds, whose costs are known: the costs of the five pieces that begin at the lowest line. They
// stand first in the strip. `middle` are the costs of the pieces that begin at the line above, `upper` and `top` as before.
fn fifth_row(
    table: &[u32],
    strip: Strip,
    rule: Rule,
    lowest: Sums,
    second: Sums,
    third: Sums,
    fourth: Sums,
    highest: Sums,
    middle: Four,
    upper: Three,
    top: Three,
) -> Five
    requires { (g : Grid) × FifthRow g rule strip lowest second third fourth highest middle upper top table.now }
    ensures { (g : Grid) → FifthRow g rule strip lowest second third fourth highest middle upper top table.now → LowFive g rule strip.a.0 strip.c.0 result }
{
    let over = Three {
        first: upper.first,
        second: upper.second,
        third: top.first,
    };
    let four = fourth_row(
        table,
        strip,
        0,
        rule,
        lowest,
        second,
        third,
        fourth,
        middle.three,
        over,
    );
    let left = Three {
        first: middle.whole,
        second: upper.third,
        third: top.second,
    };
    let lower = four_sums(lowest, second, third, fourth);
    let all = sums::stacked(lower, highest);
    let whole = five_rows(
        table, strip, 4, rule, all, four.three, four.whole, left, top.third,
    );
    Five { four, whole }
}

// Puts three numbers side by side.
fn store(table: &mut [u32], at: usize, three: Three)
    requires { at + 3 ≤ length table.old }
    ensures { Wrote (three_at three) at 3 table.old table.new }
{
    table[at] = three.first;
    table[at + 1] = three.second;
    table[at + 2] = three.third;
}

// Puts four numbers side by side.
fn store_four(table: &mut [u32], at: usize, four: Four)
    requires { at + 4 ≤ length table.old }
    ensures { Wrote (four_at four) at 4 table.old table.new }
{
    store(table, at, four.three);
    table[at + 3] = four.whole;
}

// Puts the costs of the ten pieces of four rows side by side, those that begin at the lowest line first.
fn store_ten(table: &mut [u32], at: usize, low: Four, upper: Three, top: Three)
    requires { at + 10 ≤ length table.old }
    ensures { Wrote (ten_at low upper top) at 10 table.old table.new }
{
    store_four(table, at, low);
    store(table, at + 4, upper);
    store(table, at + 7, top);
}

// Puts five numbers side by side.
fn store_five(table: &mut [u32], at: usize, five: Five)
    requires { at + 5 ≤ length table.old }
    ensures { Wrote (five_at five) at 5 table.old table.new }
{
    store_four(table, at, five.four);
    table[at + 4] = five.whole;
}

// The rows of cells of a strip, the lowest first: what they add up to grows with the strip, and settles the costs of its pieces.
pub trait Rows: Copy {
    ghost use Rattle.shallow.specs.declared.sums.Sums.{Sums};

    ghost ROWS: { ℕ };

    const ROWS: usize;

    // How many pieces a strip has.
    ghost PAIRS: { ℕ };

    const PAIRS: usize;

    // The sums of the row j.
    ghost row: { Self → ℕ → Sums };

    // The rows of a strip that has no column yet.
    fn empty(ys: &[u16]) -> Self
        requires { (j : ℕ) → j < ROWS → (j + 1 < length ys.now) × (get_or ys.now j 0 ≤ get_or ys.now (j + 1) 0) }
        ensures { (j : ℕ) → j < ROWS → row result j ≡ empty_of (get_or ys.now (j + 1) 0 - get_or ys.now j 0) };

    // These rows, grown by the strip's last column, which is `step` nm wide.
    fn grown(self, cells: &[u8], rule: Rule, strip: Strip, step: u32) -> Self
        requires within { (length cells.now ≡ 256) × ((strip.a.0 < strip.c.0) × ((strip.c.0 ≤ 15) × (ROWS ≤ 15))) }
        requires small { ((j : ℕ) → j < ROWS → Small (row self j)) × (step ≤ 65535) }
        ensures { (j : ℕ) → j < ROWS → row result j ≡ grown_row cells.now rule strip step j (row self j) };

    // Puts the costs of the pieces of these rows where the strip stands in the table.
    fn settle(self, table: &mut [u32], strip: Strip, rule: Rule)
        requires { (g : Grid) × Settled g rule strip ROWS (row self) table.old }
        ensures { (g : Grid) → Settled g rule strip ROWS (row self) table.old → Costed g rule strip ROWS PAIRS table.old table.new };

    ghost pairs_are: { PAIRS ≡ pair_count ROWS };
}

impl Rows for [Sums; 1] {
    ghost ROWS = { 1 };

    const ROWS: usize = 1;

    ghost PAIRS = { 1 };

    const PAIRS: usize = 1;

    ghost row = { row_of };

    fn empty(ys: &[u16]) -> [Sums; 1] {
        [sums::empty(ys, 0)]
    }

    fn grown(self, cells: &[u8], rule: Rule, strip: Strip, step: u32) -> [Sums; 1] {
        let [row] = self;
        [sums::grown(cells, rule, strip, step, 0, row)]
    }

    fn settle(self, table: &mut [u32], strip: Strip, rule: Rule) {
        let [row] = self;
        table[strip.at] = one_row(table, strip, rule, row);
    }

    ghost pairs_are = { pairs_of_one };
}

impl Rows for [Sums; 2] {
    ghost ROWS = { 2 };

    const ROWS: usize = 2;

    ghost PAIRS = { 3 };

    const PAIRS: usize = 3;

    ghost row = { row_of };

    fn empty(ys: &[u16]) -> [Sums; 2] {
        [sums::empty(ys, 0), sums::empty(ys, 1)]
    }

    fn grown(self, cells: &[u8], rule: Rule, strip: Strip, step: u32) -> [Sums; 2] {
        let [low, high] = self;
        [
            sums::grown(cells, rule, strip, step, 0, low),
            sums::grown(cells, rule, strip, step, 1, high),
        ]
    }

    fn settle(self, table: &mut [u32], strip: Strip, rule: Rule) {
        let [low, high] = self;
        let costs = two_rows(table, strip, rule, low, high);
        store(table, strip.at, costs);
    }

    ghost pairs_are = { pairs_of_two };
}

impl Rows for [Sums; 3] {
    ghost ROWS = { 3 };

    const ROWS: usize = 3;

    ghost PAIRS = { 6 };

    const PAIRS: usize = 6;

    ghost row = { row_of };

    fn empty(ys: &[u16]) -> [Sums; 3] {
        [sums::empty(ys, 0), sums::empty(ys, 1), sums::empty(ys, 2)]
    }

    fn grown(self, cells: &[u8], rule: Rule, strip: Strip, step: u32) -> [Sums; 3] {
        let [low, middle, high] = self;
        [
            sums::grown(cells, rule, strip, step, 0, low),
            sums::grown(cells, rule, strip, step, 1, middle),
            sums::grown(cells, rule, strip, step, 2, high),
        ]
    }

    fn settle(self, table: &mut [u32], strip: Strip, rule: Rule) {
        let [low, middle, high] = self;
        let above = two_rows(table, strip, rule, middle, high);
        let costs = third_row(table, strip, 0, rule, low, middle, high, above);
        store(table, strip.at, costs);
        store(table, strip.at + 3, above);
    }

    ghost pairs_are = { pairs_of_three };
}

impl Rows for [Sums; 4] {
    ghost ROWS = { 4 };

    const ROWS: usize = 4;

    ghost PAIRS = { 10 };

    const PAIRS: usize = 10;

    ghost row = { row_of };

    fn empty(ys: &[u16]) -> [Sums; 4] {
        [
            sums::empty(ys, 0),
            sums::empty(ys, 1),
            sums::empty(ys, 2),
            sums::empty(ys, 3),
        ]
    }

    fn grown(self, cells: &[u8], rule: Rule, strip: Strip, step: u32) -> [Sums; 4] {
        let [lowest, second, third, highest] = self;
        [
            sums::grown(cells, rule, strip, step, 0, lowest),
            sums::grown(cells, rule, strip, step, 1, second),
            sums::grown(cells, rule, strip, step, 2, third),
            sums::grown(cells, rule, strip, step, 3, highest),
        ]
    }

    fn settle(self, table: &mut [u32], strip: Strip, rule: Rule) {
        let [lowest, second, third, highest] = self;
        let top = two_rows(table, strip, rule, third, highest);
        let upper = third_row(table, strip, 4, rule, second, third, highest, top);
        let low = fourth_row(
            table, strip, 0, rule, lowest, second, third, highest, upper, top,
        );
        store_ten(table, strip.at, low, upper, top);
    }

    ghost pairs_are = { pairs_of_four };
}

impl Rows for [Sums; 5] {
    ghost ROWS = { 5 };

    const ROWS: usize = 5;

    ghost PAIRS = { 15 };

    const PAIRS: usize = 15;

    ghost row = { row_of };

    fn empty(ys: &[u16]) -> [Sums; 5] {
        [
            sums::empty(ys, 0),
            sums::empty(ys, 1),
            sums::empty(ys, 2),
            sums::empty(ys, 3),
            sums::empty(ys, 4),
        ]
    }

    fn grown(self, cells: &[u8], rule: Rule, strip: Strip, step: u32) -> [Sums; 5] {
        let [lowest, second, third, fourth, highest] = self;
        [
            sums::grown(cells, rule, strip, step, 0, lowest),
            sums::grown(cells, rule, strip, step, 1, second),
            sums::grown(cells, rule, strip, step, 2, third),
            sums::grown(cells, rule, strip, step, 3, fourth),
            sums::grown(cells, rule, strip, step, 4, highest),
        ]
    }

    fn settle(self, table: &mut [u32], strip: Strip, rule: Rule) {
        let [lowest, second, third, fourth, highest] = self;
        let top = two_rows(table, strip, rule, fourth, highest);
        let upper = third_row(table, strip, 9, rule, third, fourth, highest, top);
        let middle = fourth_row(
            table, strip, 5, rule, second, third, fourth, highest, upper, top,
        );
        let low = fifth_row(
            table, strip, rule, lowest, second, third, fourth, highest, middle, upper, top,
        );
        store_five(table, strip.at, low);
        store_ten(table, strip.at + 5, middle, upper, top);
    }

    ghost pairs_are = { pairs_of_five };
}

// Fills the strips that begin at the x line a, the narrowest first, where all that begin above it are filled, in a grid of so many rows of
// cells. `first` is the number of the first pair whose low line is a.
pub fn fill<R: Rows>(
    xs: &[u16],
    ys: &[u16],
    cells: &[u8],
    columns: usize,
    rule: Rule,
    a: Line,
    first: usize,
    table: &mut [u32],
)
    requires ready { Ready (stored columns R.ROWS xs.now ys.now cells.now) rule xs.now ys.now cells.now table.old }
    requires a_lt_columns { (a.0 < columns) × (first ≡ pairs_below columns a.0) }
    requires reached { Reached Straight (stored columns R.ROWS xs.now ys.now cells.now) rule table.old a.0 (a.0 + 1) }
    ensures reached_2 { Reached Straight (stored columns R.ROWS xs.now ys.now cells.now) rule table.new a.0 (columns + 1) }
    ensures beyond { Beyond (entry_count columns R.ROWS) table.old table.new }
{
    let start = R::PAIRS * first;
    let mut rows = R::empty(ys);
    let mut at = start;
    for last in a.0..columns {
        let c = Line(last + 1);
        let width = sides::span(xs, a, c);
        let step = sides::span(xs, Line(last), c);
        let strip = Strip {
            columns,
            pairs: R::PAIRS,
            a,
            c,
            first: start,
            at,
            width,
        };
        rows = rows.grown(cells, rule, strip, step);
        rows.settle(table, strip, rule);
        at += R::PAIRS;
    }
}
