// `pinarewhemi fracture`: every figure of a job or of a drawing, by straight cuts or by pinwheels too, undivided or by a largest side. It
// prints what the job program prints.
use crate::chosen::refuse_figure;
use crate::lines::{ended, print_answer};
use crate::options::{Options, options_from};
use crate::sources::{DIVIDED_NUMBERS, figure_of, front, read_job, refuse_job};
use division::fracture_divided;
use fracture::{Denial, ENTRIES, Fractured, fracture, fracture_pinwheel};
use job::read::whole;
use job::{Header, MOST_BYTES};
use piece::Mode;
use preparation::lines::{print_job, print_refused};
use terminal::console::Console;
use terminal::host::Host;
use terminal::output::{Output, nothing_yet};
use terminal::status::Status;
use walking::figures::Figure;

// What became of one figure or of several: the output after their lines, and whether one was refused.
#[derive(Clone, Copy)]
struct Ran {
    out: Output,
    refused: bool,
}

// One figure, fractured as the options ask.
fn fracture_so(
    figure: &Figure,
    header: Header,
    options: Options,
    table: &mut [u32],
    list: &mut [u16],
) -> Result<Fractured, Denial> {
    let corners = figure.corners();
    let lengths = figure.lengths();
    let Header {
        threshold,
        weight,
        ..
    } = header;
    let mode = if options.pinwheels {
        Mode::Pinwheel
    } else {
        Mode::Straight
    };
    match (options.largest, mode) {
        (Some(largest), _) => fracture_divided(
            corners, lengths, threshold, weight, mode, largest, table, list,
        ),
        (None, Mode::Pinwheel) => {
            fracture_pinwheel(corners, lengths, threshold, weight, table, list)
        }
        (None, Mode::Straight) => fracture(corners, lengths, threshold, weight, table, list),
    }
}

// Figure k of the job, fractured and printed; a refusal is told in words.
fn run_figure(
    figure: &Figure,
    k: usize,
    header: Header,
    options: Options,
    table: &mut [u32],
    list: &mut [u16],
    out: Output,
) -> Ran {
    let answer = fracture_so(figure, header, options, table, list);
    if let Err(denial) = answer {
        refuse_figure(out.console.err, k, figure, denial.why);
    }
    Ran {
        out: print_answer(out, k, answer, list),
        refused: answer.is_err(),
    }
}

// A job that was accepted: each figure in turn, until a write fails.
fn run_accepted(
    console: Console,
    job: &[u8],
    header: Header,
    options: Options,
) -> Result<Status, Status> {
    let mut table = [0u32; ENTRIES];
    let mut list = [0u16; DIVIDED_NUMBERS];
    let mut out = print_job(nothing_yet(console), header.outlines);
    let mut refused = false;
    for k in 0..header.outlines as usize {
        let figure = figure_of(console.err, job, k)?;
        let ran = run_figure(&figure, k, header, options, &mut table, &mut list, out);
        out = ran.out;
        refused = refused || ran.refused;
        if out.failed {
            break;
        }
    }
    Ok(ended(out, refused))
}

// A job: refused in one line, and told in words, or run.
fn run(console: Console, job: &[u8], options: Options) -> Result<Status, Status> {
    match whole(job) {
        Ok(header) => run_accepted(console, job, header, options),
        Err(fault) => {
            refuse_job(console.err, job, fault);
            Ok(ended(print_refused(nothing_yet(console), fault), true))
        }
    }
}

// The subcommand: its file is word 2, and its options stand behind it.
pub fn fracture_words<H: Host>(host: &H, words: usize) -> Result<Status, Status> {
    let options = options_from(host, 3, words)?;
    let mut job = [0u8; MOST_BYTES + 1];
    let n = read_job(host, 2, &mut job)?;
    run(host.console(), front(&job, n), options)
}
