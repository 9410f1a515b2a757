// `pinarewhemi gdsii`: a boundary element of a GDSII stream, fractured by preset 0, with the shift that moves its shots back to where the
// element stands.
use crate::lines::ended;
use explanation::texts::say_text;
use fracture::{ENTRIES, Fractured, NUMBERS};
use gdsii::{Plate, Unplated, fracture_boundary};
use preparation::lines::print_listed;
use terminal::arguments::read_argument;
use terminal::console::Console;
use terminal::errors::{say, say_number};
use terminal::host::Host;
use terminal::output::{Output, nothing_yet, print, print_number};
use terminal::status::Status;

// The longest element, with room to spare: six records, of which XY alone is longer than a few bytes, and none longer than 65,535. What is
// longer has bytes behind its end, and still has them where the rest is not read.
const MOST_ELEMENT: usize = 131072;

// A word, and a signed number after it.
fn print_signed(out: Output, word: &[u8], n: i32) -> Output {
    let sign: &[u8] = if n < 0 { b"-" } else { b"" };
    print_number(print(out, word), sign, u64::from(n.unsigned_abs()))
}

// An element that is refused: its number and place on standard output, and the words beside it.
fn print_refused(console: Console, none: Unplated) -> Status {
    let number = u64::from(u32::from(none.why));
    let at = none.at as u64;
    say_number(console.err, b"pinarewhemi: refused ", number);
    say_number(console.err, b" at ", at);
    say(console.err, b": ");
    say_text(console.err, none.why);
    say(console.err, b"\n");
    let refused = print_number(nothing_yet(console), b"element refused ", number);
    let placed = print_number(refused, b" at ", at);
    ended(print(placed, b"\n"), true)
}

// The shots of an element, in its own coordinates moved to 0, and the shift.
fn print_plate(console: Console, plate: Plate, list: &[u16]) -> Status {
    let x = print_signed(nothing_yet(console), b"element shift ", plate.shift_x);
    let y = print_signed(x, b" ", plate.shift_y);
    let done = Fractured {
        shots: plate.shots,
        cost: plate.cost,
        sliver: plate.sliver,
        cuts: plate.cuts,
    };
    if 4 * (done.shots as usize) <= list.len() {
        return ended(print_listed(y, done, list), false);
    }
    ended(y, false)
}

// An element, fractured and printed.
fn run(console: Console, element: &[u8]) -> Status {
    let mut table = [0u32; ENTRIES];
    let mut list = [0u16; NUMBERS];
    match fracture_boundary(element, &mut table, &mut list) {
        Ok(plate) => print_plate(console, plate, &list),
        Err(none) => print_refused(console, none),
    }
}

// The subcommand: its file is word 2.
pub fn element_words<H: Host>(host: &H) -> Result<Status, Status> {
    let mut element = [0u8; MOST_ELEMENT];
    let n = read_argument(host, b"pinarewhemi", 2, &mut element).map_err(|_| Status::Failed)?;
    Ok(run(host.console(), &element[..n]))
}
