// Joining shots in pairs, for a writer that exposes an L in one flash. Whether two shots are joined is asked of two entries of the table, by
// value.
#![tactic(auto)]

ghost use Rattle.std.specs.Prelude.{◌≡◌, ◌+◌, ◌*◌, ◌≤◌, ◌<◌, length};
ghost use Rattle.join.specs.Join.{touches, can_join, as_shot, join_told, Promise};
ghost use Rattle.join.specs.Steps.{entry_of, checked, takes, counted, filled, set_partner, mate_of, paired, pairs_to, Fillable, Seekable, Within};

use refusal::Refusal;
use shot::bad_shots;

// A shot in the table, with its partner's number, or its own where it has none.
#[repr(C)]
#[derive(Clone, Copy, PartialEq, Eq)]
pub struct Joined {
    pub x_low: u16,
    pub y_low: u16,
    pub x_high: u16,
    pub y_high: u16,
    pub partner: usize,
}

// Whether two sides lie on one line, touch along a stretch, and have an end in common.
fn touch(end: u16, start: u16, a_low: u16, a_high: u16, b_low: u16, b_high: u16) -> bool
    ensures { result ≡ touches end start a_low a_high b_low b_high }
{
    if end != start {
        return false;
    }
    if b_high <= a_low {
        return false;
    }
    if a_high <= b_low {
        return false;
    }
    if a_low == b_low {
        return true;
    }
    a_high == b_high
}

// Whether two shots can be joined: a right side meets a left one, or a top a bottom.
pub fn can_be_joined(a: Joined, b: Joined) -> bool
    ensures { result ≡ can_join (as_shot a) (as_shot b) }
{
    if touch(a.x_high, b.x_low, a.y_low, a.y_high, b.y_low, b.y_high) {
        return true;
    }
    if touch(b.x_high, a.x_low, b.y_low, b.y_high, a.y_low, a.y_high) {
        return true;
    }
    if touch(a.y_high, b.y_low, a.x_low, a.x_high, b.x_low, b.x_high) {
        return true;
    }
    touch(b.y_high, a.y_low, b.x_low, b.x_high, a.x_low, a.x_high)
}

// Shot i of a list, with no partner.
fn entry_of(list: &[u16], i: usize) -> Joined
    requires { 4 * i + 4 ≤ length list.now }
    ensures { result ≡ entry_of list.now i }
{
    let at = 4 * i;
    let x_low = list[at];
    let y_low = list[at + 1];
    let x_high = list[at + 2];
    let y_high = list[at + 3];
    Joined {
        x_low,
        y_low,
        x_high,
        y_high,
        partner: i,
    }
}

// How many shots are joined in a table of so many entries: all, or 21, 14.
fn check(list: &[u16], room: usize) -> Result<usize, Refusal>
    ensures { result ≡ checked list.now room }
{
    if bad_shots(list) {
        return Err(Refusal::Shots);
    }
    let n = list.len() / 4;
    if room < n {
        return Err(Refusal::Room);
    }
    Ok(n)
}

// Whether a can take entry j, b, for its partner: b is free, and the two can be joined.
fn takes(a: Joined, b: Joined, j: usize) -> bool
    ensures { result ≡ takes a b j }
{
    if b.partner != j {
        return false;
    }
    can_be_joined(a, b)
}

// One pair more where i is the lower number of one.
fn count(pairs: usize, i: usize, j: usize) -> usize
    requires { pairs ≤ i }
    ensures { result ≡ counted pairs i j }
{
    if i < j { pairs + 1 } else { pairs }
}

// Lays the first n shots of a list in the front of the table.
fn fill(list: &[u16], table: &mut [Joined], n: usize)
    requires { Fillable list.now table.old n }
    ensures { table.new ≡ filled list.now table.old n }
{
    for i in 0..n {
        table[i] = entry_of(list, i);
    }
}

// Gives entry i the partner j.
fn set_partner(table: &mut [Joined], i: usize, j: usize)
    requires { i < length table.old }
    ensures { table.new ≡ set_partner table.old i j }
{
    table[i].partner = j;
}

// The partner that entry i of n has or takes: the first later free one that it can be joined with; i if there is none,
// which is how the table says so.
fn mate(table: &[Joined], i: usize, n: usize) -> usize
    requires { Seekable table.now i n }
    ensures { result ≡ mate_of table.now n i }
{
    let a = table[i];
    if a.partner != i {
        return a.partner;
    }
    for j in i + 1..n {
        if takes(a, table[j], j) {
            return j;
        }
    }
    i
}

// Pairs the first n entries, in order, and tells how many pairs there are.
fn pair(table: &mut [Joined], n: usize) -> usize
    requires { Within table.old n }
    ensures { (result ≡ pairs_to table.old n n) × (table.new ≡ paired table.old n n) }
{
    let mut pairs = 0;
    for i in 0..n {
        let j = mate(table, i, n);
        set_partner(table, i, j);
        set_partner(table, j, i);
        pairs = count(pairs, i, j);
    }
    pairs
}

// Joins the shots of a list in the front of the table and tells how many flashes they take, one for each shot less one for each pair; or
// 21, 14. A refused call leaves the table as it is.
pub fn join(list: &[u16], table: &mut [Joined]) -> Result<usize, Refusal>
    ensures settled { Promise list.now table.old (join_told result table.new) }
{
    let n = check(list, table.len())?;
    fill(list, table, n);
    let pairs = pair(table, n);
    Ok(n - pairs)
}
