// Reading a boundary from GDSII: one element of the stream format, as a ring of corners at 0 with its shift, or fractured. The database
// unit is taken as 1 nm.
#![tactic(auto)]

ghost use Rattle.std.specs.Prelude.{◌≡◌, [], ◌∷◌};
ghost use Rattle.figure.specs.Figure.{figure};
ghost use Rattle.outline.specs.Promise.{answer_no, refusal};
ghost use Rattle.demands.specs.Promise.{outcome};
ghost use Rattle.fracture.specs.Told.{told};
ghost use Rattle.gdsii.specs.Calls.{boundary_told, boundary_read, plate_told, boundary_fractured};
ghost use Rattle.gdsii.specs.Steps.{qualified};

use figure::Axis;
use fracture::{Denial, Fractured};
use outline::{MOST_CELLS, MOST_LINES, draw};
use places::{measure, shift, store};
use refusal::{Fault, Refusal};
use rule::Rule;

pub mod places;
mod stream;

// Two numbers for each corner of the longest ring.
const MOST_NUMBERS: usize = 64;

// The row that plates are qualified by, whatever the default is.
const QUALIFIED_PRESET: u32 = 0;

// How many corners were handed back, and what was taken off their x and y.
#[derive(Clone, Copy, PartialEq, Eq)]
pub struct Boundary {
    pub corners: u32,
    pub shift_x: i32,
    pub shift_y: i32,
}

// What the fracture of an element answers, with the shift.
#[derive(Clone, Copy, PartialEq, Eq)]
pub struct Plate {
    pub shots: u32,
    pub cost: u32,
    pub sliver: u32,
    pub cuts: u32,
    pub shift_x: i32,
    pub shift_y: i32,
}

// Why an element has no fracture; beside 7 the shots needed, beside 8 the offset of the record cut short, else 0.
#[derive(Clone, Copy, PartialEq, Eq)]
pub struct Unplated {
    pub why: Refusal,
    pub needed: u32,
    pub at: usize,
}

// The element itself is at fault, so no shots are needed.
impl From<Fault> for Unplated {
    ghost from_gives = { λ fault none. none ≡ record { why = fault.why; needed = 0; at = fault.at } };

    fn from(fault: Fault) -> Unplated {
        Unplated {
            why: fault.why,
            needed: 0,
            at: fault.at,
        }
    }
}

// The ring has no fracture, so no record is cut short.
impl From<Denial> for Unplated {
    ghost from_gives = { λ denial none. none ≡ record { why = denial.why; needed = denial.needed; at = 0 } };

    fn from(denial: Denial) -> Unplated {
        Unplated {
            why: denial.why,
            needed: denial.needed,
            at: 0,
        }
    }
}

// 2 to 5 of one ring, from its numbers and how many corners it has. What is drawn on the way is not wanted here.
fn judge(numbers: &[u16], corners: u16) -> Result<(), Refusal>
    ensures { answer_no result ≡ refusal (figure numbers.now (corners ∷ [])) }
{
    let lengths = [corners; 1];
    let mut xs = [0u16; MOST_LINES];
    let mut ys = [0u16; MOST_LINES];
    let mut cells = [0u8; MOST_CELLS];
    draw(numbers, &lengths, &mut xs, &mut ys, &mut cells)?;
    Ok(())
}

// Reads one boundary element, from its BOUNDARY record to its ENDEL, and leaves the corners x, y, x, y, .. at the front of the list, the
// lowest x and y moved to 0: shift plus corner gives back each point. Beside 8 stands the offset of the record cut short, else 0. Nothing is
// written beside a refusal.
pub fn read_boundary(element: &[u8], list: &mut [u16]) -> Result<Boundary, Fault>
    ensures settled { boundary_told result list.new ≡ boundary_read element.now list.old }
{
    let run = measure(element)?;
    let corners = run.count - 1;
    let n = 2 * corners;
    let mut numbers = [0u16; MOST_NUMBERS];
    store(element, run, &mut numbers);
    judge(&numbers[..n], corners as u16)?;
    if list.len() < n {
        return Err(Refusal::Room.at(0));
    }
    store(element, run, list);
    let shift_x = shift(element, run, Axis::X);
    let shift_y = shift(element, run, Axis::Y);
    Ok(Boundary {
        corners: corners as u32,
        shift_x,
        shift_y,
    })
}

// The fracture of a ring by the rule that plates are qualified by.
fn fracture_qualified(
    corners: &[u16],
    lengths: &[u16],
    table: &mut [u32],
    list: &mut [u16],
) -> Result<Fractured, Denial>
    ensures { told result table.new list.new ≡ outcome (qualified corners.now lengths.now table.old list.old) }
{
    let rule = Rule::preset(QUALIFIED_PRESET)?;
    fracture::fracture(corners, lengths, rule.threshold, rule.weight, table, list)
}

// Reads one boundary element and fractures its ring by preset 0: the costs at the front of the table, the shots, moved as the corners
// are, at the front of the list. What is lent is as after a fracture.
pub fn fracture_boundary(
    element: &[u8],
    table: &mut [u32],
    list: &mut [u16],
) -> Result<Plate, Unplated>
    ensures settled { plate_told result table.new list.new ≡ boundary_fractured element.now table.old list.old }
{
    let run = measure(element)?;
    let corners = run.count - 1;
    let n = 2 * corners;
    let mut numbers = [0u16; MOST_NUMBERS];
    store(element, run, &mut numbers);
    let lengths = [corners as u16; 1];
    let done = fracture_qualified(&numbers[..n], &lengths, table, list)?;
    let shift_x = shift(element, run, Axis::X);
    let shift_y = shift(element, run, Axis::Y);
    Ok(Plate {
        shots: done.shots,
        cost: done.cost,
        sliver: done.sliver,
        cuts: done.cuts,
        shift_x,
        shift_y,
    })
}
