// `pinarewhemi pack` and `pinarewhemi list`: a text drawing into a job, and back again.
use crate::lines::ended;
use crate::sources::{MOST_TEXT, front, packed, refuse_job};
use drawing::list;
use job::MOST_BYTES;
use terminal::arguments::read_argument;
use terminal::console::Console;
use terminal::host::Host;
use terminal::output::{nothing_yet, print};
use terminal::status::Status;

// Packs the drawing that word 2 names, and writes the job.
pub fn pack_words<H: Host>(host: &H) -> Result<Status, Status> {
    let mut text = [0u8; MOST_TEXT + 1];
    let n = read_argument(host, b"pinarewhemi", 2, &mut text).map_err(|_| Status::Failed)?;
    let mut job = [0u8; MOST_BYTES];
    let bytes = packed(host, 2, &text[..n], &mut job)?;
    let written = print(nothing_yet(host.console()), front(&job, bytes));
    Ok(ended(written, false))
}

// A job, listed; one that is refused is told in words.
fn list_job(console: Console, job: &[u8]) -> Status {
    let listed = list(job, nothing_yet(console));
    if let Err(fault) = listed.checked {
        refuse_job(console.err, job, fault);
    }
    ended(listed.out, listed.checked.is_err())
}

// Lists the job that word 2 names. One byte more than the longest is read, so that a longer one shows.
pub fn list_words<H: Host>(host: &H) -> Result<Status, Status> {
    let mut job = [0u8; MOST_BYTES + 1];
    let n = read_argument(host, b"pinarewhemi", 2, &mut job).map_err(|_| Status::Failed)?;
    Ok(list_job(host.console(), &job[..n]))
}
