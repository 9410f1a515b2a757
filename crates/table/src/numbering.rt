// The numbers of pairs of lines, and the entries of pieces.
ghost use Rattle.std.specs.Prelude.{◌≡◌, ℕ, ◌+◌, ◌*◌, ◌-◌, ◌<◌, ◌≤◌};
ghost use Rattle.piece.specs.Piece.{box};
ghost use Rattle.table.specs.Entry.{pairs_below, pair_count, pair_no, entry_count, entry_of, Valid};

use outline::Line;

// How many pairs of the lines 0 to `last` have their low line below the line a: with n lines, a (2n - a - 1) / 2.
pub fn pairs_below(last: usize, a: Line) -> usize
    requires { (last ≤ 15) × (a.0 ≤ last) }
    ensures { (result ≡ pairs_below last a.0) × (result ≤ 225) }
{
    let lines = last + 1;
    let low = a.0;
    low * (2 * lines - low - 1) / 2
}

// How many pairs of the lines 0 to `last` there are.
pub fn pair_count(last: usize) -> usize
    requires { last ≤ 15 }
    ensures { (result ≡ pair_count last) × (result ≤ 225) }
{
    pairs_below(last, Line(last))
}

// The number of the pair of lines a < c.
pub fn pair_number(last: usize, a: Line, c: Line) -> usize
    requires { (last ≤ 15) × ((a.0 < c.0) × (c.0 ≤ last)) }
    ensures { (result ≡ pair_no last a.0 c.0) × (result ≤ 240) }
{
    let low = a.0;
    let high = c.0;
    pairs_below(last, a) + (high - low - 1)
}

// How many pieces a grid has, and so how many entries its table needs.
pub fn entries(columns: usize, rows: usize) -> usize
    requires { (columns ≤ 15) × (rows ≤ 15) }
    ensures { result ≡ entry_count columns rows }
{
    pair_count(columns) * pair_count(rows)
}

// The entry of the piece between the x lines a < c and the y lines b < d: the number of its x pair times the count of y pairs, plus the
// number of its y pair. With n lines the pair (a, c) has the number a (2n - a - 1) / 2 + (c - a - 1), and there are n (n - 1) / 2.
pub fn entry(columns: usize, rows: usize, a: Line, c: Line, b: Line, d: Line) -> usize
    requires { (columns ≤ 15) × ((rows ≤ 15) × Valid columns rows (box a.0 c.0 b.0 d.0)) }
    ensures { (result ≡ entry_of columns rows (box a.0 c.0 b.0 d.0)) × (result < entry_count columns rows) }
{
    pair_number(columns, a, c) * pair_count(rows) + pair_number(rows, b, d)
}
