// The largest shot: the fracture of a figure for a writer that cannot expose beyond a side. The shots are those of the fracture without
// it, each divided into parts that fit.
#![tactic(auto)]

ghost use Rattle.std.specs.Prelude.{◌≡◌, true, false, List, ℕ, ◌≤◌};
ghost use Rattle.sum.specs.Sum.{sum_of, join};
ghost use Rattle.rule.specs.Rules.{in_range, limit};
ghost use Rattle.figure.specs.Figure.{figure};
ghost use Rattle.demands.specs.Promise.{asked, outcome};
ghost use Rattle.demands.specs.Demands.{Words};
ghost use Rattle.fracture.specs.Told.{told};
ghost use Rattle.division.specs.Division.{divided, product};
ghost use Rattle.division.specs.Promise.{bad_largest, listed, divided_outcome};
ghost use Rattle.division.specs.Steps.{in_front, Divisible};

use fracture::{Denial, Fractured, NUMBERS};
use piece::Mode;
use refusal::Refusal;
use rule::Rule;
use side::sides_of;
use writing::write_all;

mod side;
mod writing;

// In nm; a largest side may not be below twice the threshold either.
pub const LEAST_LARGEST: u32 = 200;

// In nm: no place is higher.
pub const MOST_LARGEST: u32 = 65535;

// 19: a largest side below 200, below twice the threshold, or above 65,535.
fn bad_largest(threshold: u32, largest: u32) -> bool
    requires { threshold ≤ limit }
    ensures { result ≡ bad_largest threshold largest }
{
    if largest < LEAST_LARGEST {
        return true;
    }
    if largest < 2 * threshold {
        return true;
    }
    MOST_LARGEST < largest
}

// How many parts the first n of some shots have together. There are more than 65,535 of some figures.
fn count_parts(shots: &[u16], n: usize, largest: u32) -> u32
    requires { Divisible shots.now n largest }
    ensures { (result ≡ sum_of (product largest) (in_front shots.now n)) × (result ≤ 116964) }
{
    let mut parts: u32 = 0;
    for k in 0..n {
        let sides = sides_of(shots, k, largest);
        parts += sides.x.count * sides.y.count;
    }
    parts
}

// The parts of the shots of a fracture at the front of the list; or 7, the list as it is. Division does not change the sliver length, and the
// cost is reported anew.
fn deliver(
    shots: &[u16],
    before: Fractured,
    weight: u32,
    largest: u32,
    list: &mut [u16],
) -> Result<Fractured, Denial>
    requires { Divisible shots.now before.shots largest × ((weight ≤ limit) × ((before.sliver ≤ 2097120) × (before.shots ≤ 225))) }
    ensures { (table : List ℕ) → told result table list.new ≡ listed weight (join (divided largest) (in_front shots.now before.shots)) before.sliver before.cuts table list.old }
{
    let whole = before.shots;
    let n = whole as usize;
    let parts = count_parts(shots, n, largest);
    if list.len() < 4 * (parts as usize) {
        return Err(Denial {
            why: Refusal::List,
            needed: parts,
        });
    }
    write_all(shots, n, largest, list);
    Ok(Fractured {
        shots: parts,
        cost: 1000 * parts + weight * before.sliver,
        ..before
    })
}

// The fracture in a mode. The corners are 16-bit numbers by their type, which `words` says.
fn undivided(
    corners: &[u16],
    lengths: &[u16],
    threshold: u32,
    weight: u32,
    mode: Mode,
    table: &mut [u32],
    list: &mut [u16],
) -> Result<Fractured, Denial>
    ensures settled { told result table.new list.new ≡ outcome (asked mode corners.now lengths.now threshold weight table.old list.old) }
    ensures words { Words (figure corners.now lengths.now) }
{
    match mode {
        Mode::Straight => { fracture::fracture(corners, lengths, threshold, weight, table, list) }
        Mode::Pinwheel => {
            fracture::fracture_pinwheel(corners, lengths, threshold, weight, table, list)
        }
    }
}

// The same with a largest side, by a rule and a largest side in range: 2 to 7 or the parts. Of a refusal before division no shots are told.
fn divide(
    corners: &[u16],
    lengths: &[u16],
    threshold: u32,
    weight: u32,
    mode: Mode,
    largest: u32,
    table: &mut [u32],
    list: &mut [u16],
) -> Result<Fractured, Denial>
    requires { (in_range threshold weight ≡ true) × (bad_largest threshold largest ≡ false) }
    ensures { told result table.new list.new ≡ divided_outcome (asked mode corners.now lengths.now threshold weight table.old list.old) largest }
{
    let mut aside = [0u16; NUMBERS];
    match undivided(corners, lengths, threshold, weight, mode, table, &mut aside) {
        Ok(before) => deliver(&aside, before, weight, largest, list),
        Err(denial) => Err(denial.why.into()),
    }
}

// Fractures a figure as `fracture::fracture` does, or by pinwheels too, and divides each shot into parts no side of which is longer than
// `largest`, in nm; or 1, 19, 2 to 7, of which 7 counts the parts. The table holds the costs before division.
pub fn fracture_divided(
    corners: &[u16],
    lengths: &[u16],
    threshold: u32,
    weight: u32,
    mode: Mode,
    largest: u32,
    table: &mut [u32],
    list: &mut [u16],
) -> Result<Fractured, Denial>
    ensures settled { told result table.new list.new ≡ divided_outcome (asked mode corners.now lengths.now threshold weight table.old list.old) largest }
{
    let _rule = Rule::new(threshold, weight)?;
    if bad_largest(threshold, largest) {
        return Err(Refusal::Largest.into());
    }
    divide(
        corners, lengths, threshold, weight, mode, largest, table, list,
    )
}
