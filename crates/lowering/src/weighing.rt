// The pinwheels of one strip of a grid of three, four or five rows of cells, weighed from the table. Each piece of the strip has its number
// among the pairs of y lines. The quadruples of y lines are written out, and each call of them says the rows by a constant, so that the
// compiler works the numbers of pairs out.
ghost use Rattle.std.specs.Prelude.{◌≡◌, ℕ, ◌+◌, ◌<◌, ◌≤◌, min, length, get_or};
ghost use Rattle.piece.specs.declared.Turn.TheVariants.{First, Second};
ghost use Rattle.piece.specs.Piece.{box};
ghost use Rattle.table.specs.Entry.{pair_count, pair_no};
ghost use Rattle.lowering.specs.Least.{LeastWheel, Weighable};
ghost use Rattle.lowering.specs.Lowered.{Lines, Addable, weight_in, Placed, Lowered, WheelsAt, WheelsUpTo, EveryWheel, OfLine};

use outline::Line;
use table::numbering::pair_number;

// Where the entries begin of the strips that a pinwheel with the x lines j < l takes out of the strip between a and c.
#[derive(Clone, Copy)]
struct Strips {
    // from a to j
    pub start: usize,
    // from j to l
    pub middle: usize,
    // from l to c
    pub end: usize,
    // from a to l
    pub left: usize,
    // from j to c
    pub right: usize,
}

// What the table has at four entries together.
fn four(table: &[u32], i: usize, j: usize, k: usize, l: usize) -> u32
    requires { Addable table.now i j k l }
    ensures { result ≡ get_or table.now i 0 + get_or table.now j 0 + get_or table.now k 0 + get_or table.now l 0 }
{
    table[i] + table[j] + table[k] + table[l]
}

// What the table has for the cheaper of the two pinwheels of these lines: the four arms, and the inner part that both have.
fn cheaper(table: &[u32], rows: usize, s: Strips, b: usize, k: usize, m: usize, d: usize) -> u32
    requires { Placed table.now rows s × Lines rows b k m d }
    ensures { result ≡ min (weight_in table.now rows s First b k m d) (weight_in table.now rows s Second b k m d) }
{
    let bk = pair_number(rows, Line(b), Line(k));
    let bm = pair_number(rows, Line(b), Line(m));
    let kd = pair_number(rows, Line(k), Line(d));
    let md = pair_number(rows, Line(m), Line(d));
    let km = pair_number(rows, Line(k), Line(m));
    let first = four(table, s.left + bk, s.end + bm, s.start + kd, s.right + md);
    let second = four(table, s.start + bm, s.right + bk, s.left + md, s.end + kd);
    let inner = table[s.middle + km];
    first.min(second) + inner
}

// The piece from b to d is lowered by the pinwheels with the y lines k and m.
fn take(
    best: &mut [u32; 16],
    table: &[u32],
    rows: usize,
    s: Strips,
    b: usize,
    k: usize,
    m: usize,
    d: usize,
)
    requires { Placed table.now rows s × (Lines rows b k m d × (length best.old ≡ 16)) }
    ensures { Lowered (WheelsAt table.now rows s b k m d) best.old best.new }
{
    let at = pair_number(rows, Line(b), Line(d));
    let least = cheaper(table, rows, s, b, k, m, d);
    best[at] = best[at].min(least);
}

// The pieces from b on: those of three rows, of up to four, and of up to five.
fn take_three(best: &mut [u32; 16], table: &[u32], rows: usize, s: Strips, b: usize)
    requires { Placed table.now rows s × ((b + 3 ≤ rows) × (length best.old ≡ 16)) }
    ensures { Lowered (WheelsUpTo table.now rows s b (b + 3)) best.old best.new }
{
    take(best, table, rows, s, b, b + 1, b + 2, b + 3);
}

fn take_four(best: &mut [u32; 16], table: &[u32], rows: usize, s: Strips, b: usize)
    requires { Placed table.now rows s × ((b + 4 ≤ rows) × (length best.old ≡ 16)) }
    ensures { Lowered (WheelsUpTo table.now rows s b (b + 4)) best.old best.new }
{
    take_three(best, table, rows, s, b);
    take(best, table, rows, s, b, b + 1, b + 2, b + 4);
    take(best, table, rows, s, b, b + 1, b + 3, b + 4);
    take(best, table, rows, s, b, b + 2, b + 3, b + 4);
}

fn take_five(best: &mut [u32; 16], table: &[u32], rows: usize, s: Strips, b: usize)
    requires { Placed table.now rows s × ((b + 5 ≤ rows) × (length best.old ≡ 16)) }
    ensures { Lowered (WheelsUpTo table.now rows s b (b + 5)) best.old best.new }
{
    take_four(best, table, rows, s, b);
    take(best, table, rows, s, b, b + 1, b + 2, b + 5);
    take(best, table, rows, s, b, b + 1, b + 3, b + 5);
    take(best, table, rows, s, b, b + 1, b + 4, b + 5);
    take(best, table, rows, s, b, b + 2, b + 3, b + 5);
    take(best, table, rows, s, b, b + 2, b + 4, b + 5);
    take(best, table, rows, s, b, b + 3, b + 4, b + 5);
}

// All pieces of the strip are lowered by the pinwheels with the x lines that these strips have.
fn weigh_rows(best: &mut [u32; 16], table: &[u32], rows: usize, s: Strips)
    requires { Placed table.now rows s × ((3 ≤ rows) × (length best.old ≡ 16)) }
    ensures { Lowered (EveryWheel table.now rows s) best.old best.new }
{
    if rows == 3 {
        take_three(best, table, 3, s, 0);
    } else if rows == 4 {
        take_three(best, table, 4, s, 1);
        take_four(best, table, 4, s, 0);
    } else {
        take_three(best, table, 5, s, 2);
        take_four(best, table, 5, s, 1);
        take_five(best, table, 5, s, 0);
    }
}

// The same by all pinwheels with the lower x line j.
fn weigh_line(
    best: &mut [u32; 16],
    table: &[u32],
    columns: usize,
    rows: usize,
    pairs: usize,
    a: Line,
    c: Line,
    j: Line,
)
    requires weighable { Weighable table.now columns rows a.0 c.0 }
    requires pairs_value { (pairs ≡ pair_count rows) × ((length best.old ≡ 16) × ((a.0 < j.0) × (j.0 < c.0))) }
    ensures { Lowered (OfLine table.now columns rows a.0 c.0 j.0) best.old best.new }
{
    let high = c.0;
    let start = pair_number(columns, a, j) * pairs;
    let right = pair_number(columns, j, c) * pairs;
    for l in j.0 + 1..high {
        let left = pair_number(columns, a, Line(l)) * pairs;
        let end = pair_number(columns, Line(l), c) * pairs;
        let middle = pair_number(columns, j, Line(l)) * pairs;
        let s = Strips {
            start,
            middle,
            end,
            left,
            right,
        };
        weigh_rows(best, table, rows, s);
    }
}

// Lowers the number of each piece between the x lines a and c to the least of what it has and of what the table has for the five parts of each
// of its pinwheels.
pub fn weigh(
    best: &mut [u32; 16],
    table: &[u32],
    columns: usize,
    rows: usize,
    pairs: usize,
    a: Line,
    c: Line,
)
    requires weighable { Weighable table.now columns rows a.0 c.0 }
    requires pairs_value { (pairs ≡ pair_count rows) × (length best.old ≡ 16) }
    ensures by_index { (b d : ℕ) → b < d → d ≤ rows → LeastWheel table.now columns rows (box a.0 c.0 b d) (get_or best.old (pair_no rows b d) 0) (get_or best.new (pair_no rows b d) 0) }
    ensures best_len { length best.new ≡ 16 }
{
    let high = c.0;
    for j in a.0 + 1..high {
        weigh_line(best, table, columns, rows, pairs, a, c, Line(j));
    }
}
