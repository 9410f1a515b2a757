// `pinarewhemi picture`: a figure and its shots as a drawing in SVG.
use crate::chosen::{Chosen, choose, refuse_figure};
use crate::lines::ended;
use crate::options::options_from;
use picture::draw_picture;
use picture::scene::{Figure, Manner};
use terminal::arguments::argument;
use terminal::console::Console;
use terminal::errors::complain;
use terminal::host::Host;
use terminal::output::nothing_yet;
use terminal::status::Status;

// A figure of the file of this name, drawn; or told in words where it is refused.
fn run(console: Console, name: &[u8], chosen: Chosen, pinwheels: bool) -> Status {
    let drawn = Figure {
        name,
        number: chosen.k as u64,
        corners: chosen.figure.corners(),
        lengths: chosen.figure.lengths(),
    };
    let manner = Manner {
        threshold: chosen.header.threshold,
        weight: chosen.header.weight,
        pinwheels,
    };
    let mut out = nothing_yet(console);
    match draw_picture(drawn, manner, &mut out) {
        Ok(()) => ended(out, false),
        Err(why) => refuse_figure(console.err, chosen.k, &chosen.figure, why),
    }
}

// The subcommand: words 2 and 3 name the figure, and its options stand behind them. A divided list is not drawn.
pub fn picture_words<H: Host>(host: &H, words: usize) -> Result<Status, Status> {
    let console = host.console();
    let options = options_from(host, 4, words)?;
    if options.largest.is_some() {
        return Err(complain(console.err, b"pinarewhemi: a picture has no largest side\n"));
    }
    let chosen = choose(host)?;
    let mut path = io::buffer();
    let length = argument(host, 2, &mut path);
    Ok(run(console, &path[..length], chosen, options.pinwheels))
}
