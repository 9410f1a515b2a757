// The job that a subcommand's file says, and the figures of it.
use drawing::expected::BadLine;
use drawing::{is_drawing, pack, tell_line};
use explanation::jobs;
use job::Header;
use job::read::{check, whole};
use refusal::Fault;
use std::rt::Stderr;
use terminal::arguments::{argument, read_argument};
use terminal::errors::{say, say_number};
use terminal::host::Host;
use terminal::status::Status;
use walking::figures::Figure;

// The longest drawing, in bytes; a job is much shorter. One byte more is read, so that a longer one shows.
pub const MOST_TEXT: usize = 262144;

// Room that is enough for every divided figure, in numbers of the list.
pub const DIVIDED_NUMBERS: usize = 467856;

// The first n of some items; all of them where there are fewer.
pub fn front<T>(items: &[T], n: usize) -> &[T] {
    &items[..n.min(items.len())]
}

// Copies as many bytes as there is room for: how many.
fn copy_job(bytes: &[u8], job: &mut [u8]) -> usize {
    let n = bytes.len().min(job.len());
    job[..n].copy_from_slice(&bytes[..n]);
    n
}

// Tells a bad line of the drawing that word i names.
fn tell_bad_line<H: Host>(host: &H, i: usize, bad: BadLine) -> Status {
    let mut name = io::buffer();
    let length = argument(host, i, &mut name);
    tell_line(host.console().err, b"pinarewhemi", &name[..length], bad);
    Status::Refused
}

// Tells that the drawing that word i names is too long.
fn tell_long<H: Host>(host: &H, i: usize) -> Status {
    let mut name = io::buffer();
    let length = argument(host, i, &mut name);
    let err = host.console().err;
    say(err, b"pinarewhemi: ");
    say(err, &name[..length]);
    say_number(err, b": a drawing has at most ", MOST_TEXT as u64);
    say(err, b" bytes, and this one has more\n");
    Status::Refused
}

// The job that the drawing of word i is packed to, at the front of a buffer: how many bytes; or the status where there is none, which was
// told. A drawing that is too long was not read to its end: a part of it would be another drawing.
pub fn packed<H: Host>(host: &H, i: usize, text: &[u8], job: &mut [u8]) -> Result<usize, Status> {
    if MOST_TEXT < text.len() {
        return Err(tell_long(host, i));
    }
    pack(text, job).map_err(|bad| tell_bad_line(host, i, bad))
}

// The job that the bytes of word i are, or that they are packed to where they are a drawing, in the same way. Bytes are packed where they
// are no sound job, and begin as a drawing does: a sound job may begin so too, by coordinates that are letters.
fn job_of<H: Host>(host: &H, i: usize, bytes: &[u8], job: &mut [u8]) -> Result<usize, Status> {
    if check(bytes).is_err() && is_drawing(bytes) {
        return packed(host, i, bytes, job);
    }
    Ok(copy_job(bytes, job))
}

// The job of the file that word i names, in the same way: a job as it is, one byte more than the longest, so that a longer one shows; a
// drawing is packed.
pub fn read_job<H: Host>(host: &H, i: usize, job: &mut [u8]) -> Result<usize, Status> {
    let mut text = [0u8; MOST_TEXT + 1];
    let n = read_argument(host, b"pinarewhemi", i, &mut text).map_err(|_| Status::Failed)?;
    job_of(host, i, &text[..n], job)
}

// A job that is refused, told in words.
pub fn refuse_job(err: Stderr, job: &[u8], fault: Fault) -> Status {
    jobs::explain(err, job, fault);
    Status::Refused
}

// What a job says before its outlines; or the status where it is refused, which was told.
pub fn header_of(err: Stderr, job: &[u8]) -> Result<Header, Status> {
    whole(job).map_err(|fault| refuse_job(err, job, fault))
}

// Figure k of a job that was accepted.
pub fn figure_of(err: Stderr, job: &[u8], k: usize) -> Result<Figure, Status> {
    Figure::taken(job, k).map_err(|fault| refuse_job(err, job, fault))
}
