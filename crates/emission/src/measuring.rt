// The sliver length of shots that were written: from their cost, and where slivers cost nothing from the shots themselves.
ghost use Rattle.std.specs.Prelude.{◌≡◌, List, ℕ, ◌+◌, ◌≤◌, length, get_or};
ghost use Rattle.sum.specs.Sum.{sum_of};
ghost use Rattle.outline.specs.Grid.{Grid};
ghost use Rattle.piece.specs.Piece as pieces;
ghost use Rattle.piece.specs.Meant.{meant};
ghost use Rattle.verdict.specs.Search.{FirstLine};
ghost use Rattle.emission.specs.Measuring.{Stands, Standing, Listed, Measurable, Priced};

use figure::Place;
use outline::Line;
use piece::Piece;
use rule::Rule;
use sliver::sliver_of;

// The first of the lines that lies at a place.
fn line_at(lines: &[u16], place: Place) -> Option<Line>
    ensures { FirstLine (λ j. get_or lines.now j 0 ≡ place.0) 0 (length lines.now) result }
{
    let at = lines.iter().position(|line| *line == place.0)?;
    Some(Line(at))
}

// The shot whose four numbers stand in the list from the index at on: they are those of lines.
fn shot_at(xs: &[u16], ys: &[u16], list: &[u16], at: usize) -> Piece
    requires { Standing xs.now ys.now list.now at }
    ensures { (g : Grid) (cells : List ℕ) (s : pieces.Piece) → Stands g xs.now ys.now cells list.now at s → meant result ≡ s }
{
    let left = Place(list[at]);
    let bottom = Place(list[at + 1]);
    let right = Place(list[at + 2]);
    let top = Place(list[at + 3]);
    let a = line_at(xs, left).unwrap();
    let b = line_at(ys, bottom).unwrap();
    let c = line_at(xs, right).unwrap();
    let d = line_at(ys, top).unwrap();
    Piece { a, c, b, d }
}

// The sliver length of so many shots at the front of a list together, each measured.
fn measured(cells: &[u8], xs: &[u16], ys: &[u16], list: &[u16], rule: Rule, shots: usize) -> u32
    requires { Measurable cells.now xs.now ys.now list.now rule shots }
    ensures { (g : Grid) (l : List pieces.Piece) → Listed g cells.now xs.now ys.now list.now rule l shots → result ≡ sum_of (pieces.sliver g rule) l }
{
    let mut sum: u32 = 0;
    for k in 0..shots {
        let shot = shot_at(xs, ys, list, 4 * k);
        sum += sliver_of(cells, xs, ys, rule, shot);
    }
    sum
}

// The same by what they cost together: a shot costs 1,000, and each nm of sliver the weight. Only where that is 0 are they measured.
pub fn slivers(
    cells: &[u8],
    xs: &[u16],
    ys: &[u16],
    list: &[u16],
    rule: Rule,
    shots: usize,
    cost: u32,
) -> u32
    requires { Priced cells.now xs.now ys.now list.now rule shots cost }
    ensures { (g : Grid) (l : List pieces.Piece) → Listed g cells.now xs.now ys.now list.now rule l shots → cost ≡ sum_of (pieces.charge g rule) l → result ≡ sum_of (pieces.sliver g rule) l }
{
    let weight = rule.weight;
    if weight == 0 {
        return measured(cells, xs, ys, list, rule, shots);
    }
    (cost - 1000 * (shots as u32)) / weight
}
