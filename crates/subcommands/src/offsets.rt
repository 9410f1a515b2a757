// `pinarewhemi index`: where each outline of a job starts, to find it in a hex viewer.
use crate::lines::ended;
use crate::sources::{front, read_job, refuse_job};
use index::opening::open;
use job::{MOST_BYTES, MOST_OUTLINES};
use terminal::console::Console;
use terminal::host::Host;
use terminal::output::{Output, nothing_yet, print, print_number};
use terminal::status::Status;

// The line of outline k.
fn print_offset(out: Output, k: usize, offset: u16) -> Output {
    let named = print_number(out, b"outline ", k as u64);
    let placed = print_number(named, b" at ", u64::from(offset));
    print(placed, b"\n")
}

// The lines of the outlines of a job, by its index.
fn print_offsets(index: &[u16], out: Output) -> Output {
    let mut next = out;
    for (k, offset) in index.iter().enumerate() {
        next = print_offset(next, k, *offset);
    }
    next
}

// A job, whose index is printed.
fn run(console: Console, job: &[u8]) -> Result<Status, Status> {
    let mut index = [0u16; MOST_OUTLINES as usize];
    let outlines = open(job, &mut index).map_err(|fault| refuse_job(console.err, job, fault))?;
    let counted = print_number(nothing_yet(console), b"job ", u64::from(outlines));
    let ruled = print(counted, b"\n");
    let printed = print_offsets(front(&index, outlines as usize), ruled);
    Ok(ended(printed, false))
}

// The subcommand: its file is word 2.
pub fn offset_words<H: Host>(host: &H) -> Result<Status, Status> {
    let mut job = [0u8; MOST_BYTES + 1];
    let n = read_job(host, 2, &mut job)?;
    run(host.console(), front(&job, n))
}
