// Lines of the subcommands, and how they end.
use fracture::{Denial, Fractured};
use preparation::lines::print_listed_outline;
use terminal::arguments::number_argument;
use terminal::errors::{complain, complain_of};
use terminal::host::Host;
use terminal::output::{Output, finish};
use terminal::status::Status;

// The lines of outline k, as the job program prints them, where the list holds its shots, as every fracture sees to.
pub fn print_answer(
    out: Output,
    k: usize,
    answer: Result<Fractured, Denial>,
    list: &[u16],
) -> Output {
    match answer {
        Ok(done) if list.len() < 4 * (done.shots as usize) => out,
        Ok(done) => print_listed_outline(out, k, Ok(done), list),
        Err(denial) => print_listed_outline(out, k, Err(denial), list),
    }
}

// Writes the last of the output, and gives the status.
pub fn ended(out: Output, refused: bool) -> Status {
    if !finish(out) {
        return complain(out.console.err, b"pinarewhemi: writing failed\n");
    }
    if refused {
        return Status::Refused;
    }
    Status::Done
}

// The number of a figure that a word says; or the status where it says none, or the job has none of it, which was told.
pub fn figure_number<H: Host>(host: &H, i: usize, outlines: u32) -> Result<usize, Status> {
    let err = host.console().err;
    let Some(k) = number_argument(host, i) else {
        return Err(complain(
            err,
            b"pinarewhemi: the number of a figure is wanted, from 0\n",
        ));
    };
    if outlines as usize <= k {
        return Err(complain_of(
            err,
            b"pinarewhemi: no figure ",
            k as u64,
            b": the job has ",
            u64::from(outlines),
            b", numbered from 0\n",
        ));
    }
    Ok(k)
}
