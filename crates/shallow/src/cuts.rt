// The vertical cuts of a strip: the least of what the two parts of a piece cost together, by the table.
ghost use Rattle.std.specs.Prelude.{◌≡◌, ℕ, ◌+◌, ◌<◌, ◌≤◌, ◌^◌, length, get_or};
ghost use Rattle.table.specs.Run.{Lowest};
ghost use Rattle.table.specs.Cuts.{uncut};
ghost use Rattle.table.specs.Cuts.{parted};
ghost use Rattle.shallow.specs.Cuts.{Cuttable, LeastThree};

use outline::Line;

// The strip between the x lines a and c, its width in nm, and where it stands in the table: each strip has so many pairs of y lines, so
// many entries; the first strip that begins at a has them from `first` on, this one from `at` on.
#[derive(Clone, Copy)]
pub struct Strip {
    pub columns: usize,
    pub pairs: usize,
    pub a: Line,
    pub c: Line,
    pub first: usize,
    pub at: usize,
    pub width: u32,
}

// Numbers of three entries that stand side by side. No list: where two are added, the names tell which parts make up which cut.
#[derive(Clone, Copy)]
pub struct Three {
    pub first: u32,
    pub second: u32,
    pub third: u32,
}

// What the two parts of a piece cost together.
fn parts(table: &[u32], lower: usize, upper: usize) -> u32
    requires { (lower < length table.now) × ((upper < length table.now) × (get_or table.now lower 0 + get_or table.now upper 0 < 2 ^ 32)) }
    ensures { result ≡ get_or table.now lower 0 + get_or table.now upper 0 }
{
    table[lower] + table[upper]
}

// The least of the vertical cuts of the i-th piece of a strip; where there is none the greatest number (`uncut` of the definitions), which no
// cost reaches, so that the least needs no test.
pub fn least_cut(table: &[u32], strip: Strip, i: usize) -> u32
    requires { Cuttable strip table.now × (i < strip.pairs) }
    ensures { Lowest (parted table.now strip.columns strip.pairs strip.a.0 strip.c.0 i) strip.a.0 strip.c.0 uncut result }
{
    let columns = strip.columns;
    let pairs = strip.pairs;
    let low = strip.a.0;
    let high = strip.c.0;
    let mut best = u32::MAX;
    let mut lower = strip.first + i;
    let mut upper = strip.at + pairs * (columns - low - 1) + i;
    for j in low + 1..high {
        best = best.min(parts(table, lower, upper));
        lower += pairs;
        upper += pairs * (columns - j - 1);
    }
    best
}

// The same of three pieces side by side, of which the i-th is the first. For a count of pieces as a parameter the loop would have another
// within, which is no plainer.
pub fn least_cuts(table: &[u32], strip: Strip, i: usize) -> Three
    requires { Cuttable strip table.now × (i + 3 ≤ strip.pairs) }
    ensures { LeastThree table.now strip i result }
{
    let columns = strip.columns;
    let pairs = strip.pairs;
    let low = strip.a.0;
    let high = strip.c.0;
    let mut first = u32::MAX;
    let mut second = u32::MAX;
    let mut third = u32::MAX;
    let mut lower = strip.first + i;
    let mut upper = strip.at + pairs * (columns - low - 1) + i;
    for j in low + 1..high {
        first = first.min(parts(table, lower, upper));
        second = second.min(parts(table, lower + 1, upper + 1));
        third = third.min(parts(table, lower + 2, upper + 2));
        lower += pairs;
        upper += pairs * (columns - j - 1);
    }
    Three {
        first,
        second,
        third,
    }
}
