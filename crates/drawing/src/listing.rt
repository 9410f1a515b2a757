// Listing: a sound job as the lines of a drawing.
ghost use Rattle.terminal.specs.Output.{Remembers};

use figure::{MOST_CORNERS, MOST_RINGS};
use job::read::{Part, header, locate};
use job::unpack::unpack;
use number::Cursor;
use terminal::output::{Output, print, print_number};

// A line of two numbers, after a word.
fn print_pair(out: Output, word: &[u8], one: u32, two: u32) -> Output
    ensures { Remembers out result }
{
    let first = print_number(out, word, u64::from(one));
    print(print_number(first, b" ", u64::from(two)), b"\n")
}

// A ring by its corners, two numbers each.
fn print_ring(out: Output, ring: &[u16]) -> Output
    ensures { Remembers out result }
{
    let mut next = print(out, b"ring\n");
    for [x, y] in ring.as_chunks::<2>().0 {
        next = print_pair(next, b"", u32::from(*x), u32::from(*y));
    }
    next
}

// The rings of a figure, one behind another in the list of corners.
fn print_rings(out: Output, corners: &[u16], lengths: &[u16]) -> Output
    ensures { Remembers out result }
{
    let mut next = out;
    let mut left = corners;
    for length in lengths {
        let end = left.len().min(2 * usize::from(*length));
        let (ring, others) = left.split_at(end);
        next = print_ring(next, ring);
        left = others;
    }
    next
}

// The figure that a part holds.
fn print_figure(out: Output, part: &[u8]) -> Output
    ensures { Remembers out result }
{
    let mut corners = [0u16; 2 * MOST_CORNERS];
    let mut lengths = [0u16; MOST_RINGS];
    let Ok(unpacked) = unpack(part, &mut corners, &mut lengths) else {
        return out;
    };
    match lengths.get(..unpacked.rings as usize) {
        Some(rings) => print_rings(print(out, b"figure\n"), &corners, rings),
        None => out,
    }
}

// The same of a part of the job.
fn print_part(out: Output, job: &[u8], part: Part) -> Output
    ensures { Remembers out result }
{
    match job.get(part.start..part.end) {
        Some(bytes) => print_figure(out, bytes),
        None => out,
    }
}

// So many figures, the first of which begins at a place.
fn print_figures(out: Output, job: &[u8], first: Cursor, count: u32) -> Output
    ensures { Remembers out result }
{
    let mut next = out;
    let mut here = first;
    for _ in 0..count {
        let Ok(part) = locate(job, here, 0) else {
            return next;
        };
        next = print_part(next, job, part);
        here = Cursor { at: part.end };
    }
    next
}

// A job that is sound: its rule and its figures.
pub fn print_job(out: Output, job: &[u8]) -> Output
    ensures { Remembers out result }
{
    let Ok(says) = header(job) else {
        return out;
    };
    let ruled = print_pair(out, b"rule ", says.threshold, says.weight);
    print_figures(ruled, job, says.next, says.outlines)
}
