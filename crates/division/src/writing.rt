// The parts of shots, written in list order: rows from the bottom, left to right in a row.
ghost use Rattle.std.specs.Prelude.{◌≡◌, ◌∷◌, [], ◌+◌, ◌*◌, ◌≤◌, length};
ghost use Rattle.std.proofs.lemmas.List.Edits.{sets};
ghost use Rattle.sum.specs.Sum.{sum_of, join};
ghost use Rattle.division.specs.Division.{divided, product};
ghost use Rattle.division.specs.Steps.{edge, row_of, rows_of, in_front, Wrote, Divisible};

use super::side::{Side, edge_at, sides_of};

// Writes the four numbers of a part from the index at on.
fn write_part(list: &mut [u16], at: usize, left: u16, bottom: u16, right: u16, top: u16)
    requires { at + 4 ≤ length list.old }
    ensures { list.new ≡ sets list.old at (left ∷ bottom ∷ right ∷ top ∷ []) }
{
    list[at] = left;
    list[at + 1] = bottom;
    list[at + 2] = right;
    list[at + 3] = top;
}

// Writes a row of parts from the index at on, left to right; hands back the index behind them.
fn write_row(list: &mut [u16], at: usize, x: Side, bottom: u16, top: u16) -> usize
    requires { (edge x x.count ≤ 65535) × (at + 4 * x.count ≤ length list.old) }
    ensures { Wrote list.old list.new at (row_of x bottom top x.count) result }
{
    let mut next = at;
    for j in 0..x.count {
        let left = edge_at(x, j);
        let right = edge_at(x, j + 1);
        write_part(list, next, left, bottom, right, top);
        next += 4;
    }
    next
}

// Writes the parts of a shot from the index at on, rows from the bottom; hands back the index behind them.
fn write_parts(list: &mut [u16], at: usize, x: Side, y: Side) -> usize
    requires { ((edge x x.count ≤ 65535) × (edge y y.count ≤ 65535)) × (at + 4 * (y.count * x.count) ≤ length list.old) }
    ensures { Wrote list.old list.new at (rows_of x y y.count) result }
{
    let mut next = at;
    for i in 0..y.count {
        let bottom = edge_at(y, i);
        let top = edge_at(y, i + 1);
        next = write_row(list, next, x, bottom, top);
    }
    next
}

// Writes the parts of the first n of some shots at the front of the list.
pub fn write_all(shots: &[u16], n: usize, largest: u32, list: &mut [u16]) -> usize
    requires { Divisible shots.now n largest × (4 * sum_of (product largest) (in_front shots.now n) ≤ length list.old) }
    ensures { Wrote list.old list.new 0 (join (divided largest) (in_front shots.now n)) result }
{
    let mut next = 0;
    for k in 0..n {
        let sides = sides_of(shots, k, largest);
        next = write_parts(list, next, sides.x, sides.y);
    }
    next
}
