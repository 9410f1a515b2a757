// `pinarewhemi cif`: the shots of a figure as a CIF text for viewers.
use crate::chosen::{choose, refuse_figure};
use crate::lines::ended;
use crate::sources::front;
use cif::write;
use fracture::{ENTRIES, NUMBERS, fracture};
use terminal::console::Console;
use terminal::host::Host;
use terminal::output::{nothing_yet, print};
use terminal::status::Status;

// Bytes that are enough for the text of every fracture.
const TEXT: usize = 6553;

// The text of a shot list. It has room, and a fracture's list is one that can be written, so neither 14 nor 21 is given.
fn write_list(console: Console, list: &[u16]) -> Status {
    let mut text = [0u8; TEXT];
    match write(list, &mut text) {
        Ok(bytes) => {
            let written = print(nothing_yet(console), front(&text, bytes));
            ended(written, false)
        }
        Err(_) => Status::Refused,
    }
}

// The subcommand: words 2 and 3 name the figure, which is fractured by its job's rule and written.
pub fn text_words<H: Host>(host: &H) -> Result<Status, Status> {
    let console = host.console();
    let chosen = choose(host)?;
    let figure = chosen.figure;
    let mut table = [0u32; ENTRIES];
    let mut list = [0u16; NUMBERS];
    let done = fracture(
        figure.corners(),
        figure.lengths(),
        chosen.header.threshold,
        chosen.header.weight,
        &mut table,
        &mut list,
    )
    .map_err(|denial| refuse_figure(console.err, chosen.k, &figure, denial.why))?;
    let shots = front(&list, 4 * (done.shots as usize));
    Ok(write_list(console, shots))
}
