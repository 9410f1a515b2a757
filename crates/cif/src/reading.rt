// Reading: the lines of a text from the front, the first at fault deciding; then its shots, stored.
ghost use Rattle.std.specs.Prelude.{◌≡◌, [], ◌∷◌, ◌+◌, ◌*◌, ◌≤◌, length};
ghost use Rattle.std.proofs.lemmas.List.Edits.{sets};
ghost use Rattle.cif.specs.Steps.{PastTold, BoxesTold, OpeningTold, ClosingTold, ScanTold, Stored};

use crate::boxes::{Sides, box_at, stands};
use refusal::{Fault, Refusal};

// Boxes in a row: how many, and the place past them.
#[derive(Clone, Copy, PartialEq, Eq)]
pub struct Run {
    pub count: usize,
    pub next: usize,
}

// Where the first box stands.
const FIRST_BOX: usize = 17;

// Past a line that has to stand at a place.
fn past(text: &[u8], at: usize, line: &[u8]) -> Result<usize, Fault>
    requires { at ≤ length text.now }
    ensures { PastTold text.now at line.now result }
{
    if !stands(text, at, line) {
        return Err(Refusal::Text.at(at));
    }
    Ok(at + line.len())
}

// Past the two lines before the boxes.
fn opening(text: &[u8]) -> Result<usize, Fault>
    ensures { OpeningTold text.now result }
{
    let layer = past(text, 0, b"DS 1 1 20;\n")?;
    past(text, layer, b"L NM;\n")
}

// Past all boxes that stand at a place, one behind the other.
fn boxes(text: &[u8], from: usize) -> Run
    requires { from ≤ length text.now }
    ensures { BoxesTold text.now from result.count result.next }
{
    let mut count = 0;
    let mut next = from;
    while let Some(found) = box_at(text, next) {
        next = found.next;
        count += 1;
    }
    Run { count, next }
}

// Past the three lines behind the boxes, with which the text has to end.
fn closing(text: &[u8], at: usize) -> Result<usize, Fault>
    requires { at ≤ length text.now }
    ensures { ClosingTold text.now at result }
{
    let call = past(text, at, b"DF;\n")?;
    let end = past(text, call, b"C 1;\n")?;
    let last = past(text, end, b"E\n")?;
    if last < text.len() {
        return Err(Refusal::Text.at(last));
    }
    Ok(last)
}

// How many shots the whole text has.
pub fn scan(text: &[u8]) -> Result<usize, Fault>
    ensures { ScanTold text.now result }
{
    let first = opening(text)?;
    let run = boxes(text, first);
    closing(text, run.next)?;
    Ok(run.count)
}

// Puts the four numbers of a shot at a place.
fn put_shot(list: &mut [u16], at: usize, shot: Sides)
    requires { at + 4 ≤ length list.old }
    ensures { list.new ≡ sets list.old at (shot.x_low ∷ shot.y_low ∷ shot.x_high ∷ shot.y_high ∷ []) }
{
    list[at] = shot.x_low;
    list[at + 1] = shot.y_low;
    list[at + 2] = shot.x_high;
    list[at + 3] = shot.y_high;
}

// Stores the shots of a text that has so many, at the front of the list.
pub fn store(text: &[u8], list: &mut [u16], n: usize)
    requires { (17 ≤ length text.now) × (4 * n ≤ length list.old) }
    ensures { Stored text.now 17 n list.old list.new }
{
    let mut next = FIRST_BOX;
    for i in 0..n {
        let Some(found) = box_at(text, next) else {
            return;
        };
        put_shot(list, 4 * i, found.sides);
        next = found.next;
    }
}
