// What becomes of a piece, from the table of costs and the cells: its sort, and where it is mixed the parts of its cut.
#![tactic(auto)]

ghost use Rattle.std.specs.Prelude.{◌≡◌, List, ℕ, ◌+◌, ◌*◌, ◌≤◌, length, MatchOption};
ghost use Rattle.recurrence.specs.Scheme.{mixed};
ghost use Rattle.outline.specs.Grid.{Grid};
ghost use Rattle.piece.specs.declared.Mode.{Mode};
ghost use Rattle.piece.specs.declared.Mode.TheVariants.{Straight};
ghost use Rattle.piece.specs.Piece.{kind};
ghost use Rattle.piece.specs.Meant.{meant};
ghost use Rattle.piece.specs.Cuts.{choice};
ghost use Rattle.verdict.specs.Memory.{Costed, Known, Sortable, Choosable, Cuttable};
ghost use Rattle.verdict.specs.Search.{ColumnInside, AllInside, cuts-x, cuts-y, Weighable, Finds, Uncut};
ghost use Rattle.verdict.specs.Verdict.{kind_of, cut_into, made};

use outline::{Line, MOST_LINES};
use piece::Piece;
use rule::Rule;

pub mod pinwheel;

// A piece with its entry in the table: the parts of a cut get theirs from the search, so that no entry is reckoned anew.
#[derive(Clone, Copy)]
pub struct Numbered {
    pub piece: Piece,
    pub entry: usize,
}

// The sort of a piece: none of its cells is inside, or all of them are, or some are and some are not.
#[derive(Clone, Copy)]
pub enum Sort {
    Outside,
    Full,
    Mixed,
}

// The parts of a straight cut: the left or the lower one, and the right or the upper one.
#[derive(Clone, Copy)]
pub struct Parts {
    pub low: Numbered,
    pub high: Numbered,
}

// What a walk over the pieces goes by besides the lent slices: the size of the grid, the count of its pairs of y lines, and the rule.
#[derive(Clone, Copy)]
pub struct Plan {
    pub columns: usize,
    pub rows: usize,
    pub pairs: usize,
    pub rule: Rule,
}

// Whether the cells of the column i from the row b to below the row d are all inside.
fn column_inside(cells: &[u8], i: usize, b: Line, d: Line) -> bool
    requires { (16 * i + d.0 ≤ length cells.now) × (b.0 ≤ d.0) }
    ensures { ColumnInside cells.now i b.0 d.0 result }
{
    cells[MOST_LINES * i + b.0..MOST_LINES * i + d.0]
        .iter()
        .all(|cell| *cell == 1)
}

// Whether every cell of the piece is inside.
pub fn all_inside(cells: &[u8], p: Piece) -> bool
    requires { (p.c.0 ≤ 15) × ((p.b.0 ≤ p.d.0) × ((p.d.0 ≤ 15) × (length cells.now ≡ 256))) }
    ensures { AllInside cells.now p result }
{
    (p.a.0..p.c.0).all(|i| column_inside(cells, i, p.b, p.d))
}

// The cuts of a piece in one direction, as the table has them: they lie on the lines between low and high, of the lines 0 to
// last; the piece has its cost at entry, and the next pair of lines has its own a stride on.
#[derive(Clone, Copy)]
pub struct Cuts {
    pub last: usize,
    pub low: Line,
    pub high: Line,
    pub entry: usize,
    pub stride: usize,
}

impl Numbered {
    // The piece's vertical cuts.
    pub fn upright(self, plan: Plan) -> Cuts
        ensures { result ≡ cuts-x plan self.piece self.entry }
    {
        Cuts {
            last: plan.columns,
            low: self.piece.a,
            high: self.piece.c,
            entry: self.entry,
            stride: plan.pairs,
        }
    }

    // And its horizontal ones.
    pub fn level(self, plan: Plan) -> Cuts
        ensures { result ≡ cuts-y plan self.piece self.entry }
    {
        Cuts {
            last: plan.rows,
            low: self.piece.b,
            high: self.piece.d,
            entry: self.entry,
            stride: 1,
        }
    }
}

// A cut that was found: its line, and the entries of its two parts.
#[derive(Clone, Copy)]
struct Found {
    pub line: Line,
    pub lower: usize,
    pub upper: usize,
}

// The first cut whose two parts cost so much together. The entries of the parts run along.
fn first_line(table: &[u32], cuts: Cuts, cost: u32) -> Option<Found>
    requires { Weighable table.now cuts }
    ensures { Finds table.now cuts cost result }
{
    let last = cuts.last;
    let low = cuts.low.0;
    let high = cuts.high.0;
    let entry = cuts.entry;
    let stride = cuts.stride;
    let first = low + 1;
    let mut lower = entry - stride * (high - first);
    let mut upper = entry + stride * (last - first);
    for j in first..high {
        if table[lower] + table[upper] == cost {
            return Some(Found {
                line: Line(j),
                lower,
                upper,
            });
        }
        lower += stride;
        upper += stride * (last - (j + 1));
    }
    None
}

// The parts of a mixed piece by its first straight cut, vertical ones first and the lower line first, whose parts cost together what the
// piece costs; none where only a pinwheel does.
#[inline(always)]
fn first_cut(costs: &[u32], plan: Plan, p: Numbered) -> Option<Parts>
    requires { Choosable costs.now plan p }
    ensures { (mode : Mode) (g : Grid) (r : Rule) (cells : List ℕ) → Costed mode g r costs.now cells plan → kind g (meant p.piece) ≡ mixed → MatchOption result (Uncut costs.now plan p) (λ h. cut_into h ≡ made g (meant p.piece) (choice mode g r (meant p.piece))) }
{
    let piece = p.piece;
    let cost = costs[p.entry];
    if let Some(found) = first_line(costs, p.upright(plan), cost) {
        return Some(Parts {
            low: Numbered {
                piece: Piece {
                    c: found.line,
                    ..piece
                },
                entry: found.lower,
            },
            high: Numbered {
                piece: Piece {
                    a: found.line,
                    ..piece
                },
                entry: found.upper,
            },
        });
    }
    let found = first_line(costs, p.level(plan), cost)?;
    Some(Parts {
        low: Numbered {
            piece: Piece {
                d: found.line,
                ..piece
            },
            entry: found.lower,
        },
        high: Numbered {
            piece: Piece {
                b: found.line,
                ..piece
            },
            entry: found.upper,
        },
    })
}

// The sort of a piece. What costs nothing is outside; only of other pieces the cells are looked at.
pub fn sort_of(costs: &[u32], cells: &[u8], p: Numbered) -> Sort
    requires { Sortable costs.now cells.now p }
    ensures { (mode : Mode) (g : Grid) (r : Rule) (plan : Plan) → Costed mode g r costs.now cells.now plan → Known plan p → kind_of result ≡ kind g (meant p.piece) }
{
    let entry = p.entry;
    let cost = costs[entry];
    if cost == 0 {
        return Sort::Outside;
    }
    if all_inside(cells, p.piece) {
        return Sort::Full;
    }
    Sort::Mixed
}

// The parts of a mixed piece by straight cuts alone. There always is such a cut.
pub fn halves(costs: &[u32], plan: Plan, p: Numbered) -> Parts
    requires { Cuttable costs.now plan p }
    ensures { (g : Grid) (r : Rule) (cells : List ℕ) → Costed Straight g r costs.now cells plan → kind g (meant p.piece) ≡ mixed → cut_into result ≡ made g (meant p.piece) (choice Straight g r (meant p.piece)) }
{
    first_cut(costs, plan, p).unwrap()
}
