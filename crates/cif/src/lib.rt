// A shot list as a CIF text for the viewers, one symbol in half nanometres, and back. Only this form is read, and one list has one text.
#![tactic(auto)]

ghost use Rattle.std.specs.Prelude.{◌≡◌};
ghost use Rattle.cif.specs.Calls.{write_told, cif_written, read_told, ReadSays};

use reading::{scan, store};
use refusal::{Fault, Refusal};
use shot::bad_shots;
use writing::{measure, put_text};

mod boxes;
mod numeral;
mod reading;
mod writing;

// The bytes of the lines before the boxes and after them.
const FRAME_BYTES: usize = 28;

// Writes the text of a shot list, four numbers for each shot, at the front of the buffer, and tells how many bytes it has: or 21, the list is
// no shot list, 14, the buffer is too short. Nothing is written beside a refusal.
pub fn write(list: &[u16], out: &mut [u8]) -> Result<usize, Refusal>
    ensures { write_told result out.new ≡ cif_written list.now out.old }
{
    if bad_shots(list) {
        return Err(Refusal::Shots);
    }
    let room = out.len();
    if room < FRAME_BYTES {
        return Err(Refusal::Room);
    }
    let boxes = measure(list, room - FRAME_BYTES)?;
    put_text(list, out);
    Ok(boxes + FRAME_BYTES)
}

// Reads a text to the shots at the front of the list, and tells how many: or 22 with the offset of the first line at fault; 14 with 0, the
// list is too short. The whole text is read before the list is looked at.
pub fn read(text: &[u8], list: &mut [u16]) -> Result<usize, Fault>
    ensures { ReadSays text.now list.old (read_told result list.new) }
{
    let shots = scan(text)?;
    if list.len() / 4 < shots {
        return Err(Fault::from(Refusal::Room));
    }
    store(text, list, shots);
    Ok(shots)
}
