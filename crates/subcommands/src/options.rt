// The words behind the file of a subcommand.
use std::rt::Stderr;
use terminal::arguments::{is_argument, number_argument};
use terminal::errors::complain;
use terminal::host::Host;
use terminal::status::Status;

// What the words ask for: a largest side, where one is named; pinwheels beside straight cuts.
#[derive(Clone, Copy)]
pub struct Options {
    pub largest: Option<u32>,
    pub pinwheels: bool,
}

// The largest side that word i says; or the status where it says none, which was told. Which sides there are, the fracture decides (19).
fn largest_side<H: Host>(host: &H, i: usize) -> Result<u32, Status> {
    match number_argument(host, i).map(u32::try_from) {
        Some(Ok(largest)) => Ok(largest),
        _ => Err(complain(
            host.console().err,
            b"pinarewhemi: --largest wants a side in nm\n",
        )),
    }
}

// A word that there is not.
fn unknown(err: Stderr) -> Status {
    complain(
        err,
        b"pinarewhemi: the words --largest M and --pinwheels may stand behind the file, and no other\n",
    )
}

// The options of all words from one on; or the status where a word is none that there is, which was told.
pub fn options_from<H: Host>(host: &H, first: usize, words: usize) -> Result<Options, Status> {
    let mut largest = None;
    let mut pinwheels = false;
    let mut awaited = false;
    for i in first..words {
        if awaited {
            largest = Some(largest_side(host, i)?);
            awaited = false;
        } else if is_argument(host, i, b"--pinwheels") {
            pinwheels = true;
        } else if is_argument(host, i, b"--largest") {
            awaited = true;
        } else {
            return Err(unknown(host.console().err));
        }
    }
    if awaited {
        // no word is left for the side
        largest = Some(largest_side(host, words)?);
    }
    Ok(Options { largest, pinwheels })
}
