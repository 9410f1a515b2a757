// Reading a job: numbers from the front, the first fault deciding.
ghost use Rattle.std.specs.Prelude.{◌≡◌, ◌≤◌, IfOk};
ghost use Rattle.number.specs.Number.{read_told};
ghost use Rattle.number.specs.Reading.{past};
ghost use Rattle.figure.specs.Figure.{most_corners};
ghost use Rattle.job.specs.Job.{value, coordinates, ring, rings_from, announces, outline, outlines, header, job};
ghost use Rattle.job.specs.Calls.{checked, check_told, taken, take_told};
ghost use Rattle.job.specs.Placed.{Lies, taken_at};
ghost use Rattle.job.specs.Steps.{past_told, sized, summed, begun, head_told, whole, located_told, located};

use crate::{
    Header, LEAST_CORNERS, LEAST_RINGS, MOST_BYTES, MOST_CORNERS, MOST_OUTLINES, MOST_RINGS,
};
use figure::MOST_PLACE;
use number::{Cursor, Read};
use refusal::{Fault, Refusal};
use rule::Rule;

// Where a figure starts and ends.
#[derive(Clone, Copy, PartialEq, Eq)]
pub struct Part {
    pub start: usize,
    pub end: usize,
}

// What a job says.
#[derive(Clone, Copy, PartialEq, Eq)]
pub struct Job {
    pub threshold: u32,
    pub weight: u32,
    pub outlines: u32,
}

// A number of the job, held to its range: one outside is shown by its last byte.
pub(crate) fn value(job: &[u8], c: Cursor, low: u32, high: u32) -> Result<Read, Fault>
    ensures { read_told result ≡ value job.now low high c.at }
{
    let read = c.number(job)?;
    let last = read.next.at - 1;
    if read.value < low || high < read.value {
        return Err(Refusal::Range.at(last));
    }
    Ok(read)
}

// Past n coordinates.
fn coordinates(job: &[u8], from: Cursor, n: u32) -> Result<Cursor, Fault>
    ensures { past_told result ≡ past (coordinates job.now n from.at) }
{
    let mut c = from;
    for _ in 0..n {
        c = value(job, c, 0, MOST_PLACE)?.next;
    }
    Ok(c)
}

// Past one ring: V, no more than the most that is left, and its 2V coordinates. Gives V with the place past it.
fn ring(job: &[u8], from: Cursor, most: u32) -> Result<Read, Fault>
    requires { most ≤ most_corners }
    ensures { read_told result ≡ sized (ring job.now most from.at) }
{
    let v = value(job, from, LEAST_CORNERS, most)?;
    let end = coordinates(job, v.next, 2 * v.value)?;
    Ok(Read {
        value: v.value,
        next: end,
    })
}

// Past so many rings: each may have what the ones before it left of all corners. Gives how many corners they have together.
pub(crate) fn rings(job: &[u8], from: Cursor, count: u32) -> Result<Read, Fault>
    ensures { read_told result ≡ summed (rings_from job.now count most_corners from.at) }
{
    let mut c = from;
    let mut total = 0;
    for _ in 0..count {
        let v = ring(job, c, MOST_CORNERS - total)?;
        c = v.next;
        total += v.value;
    }
    Ok(Read {
        value: total,
        next: c,
    })
}

// Whether rings are announced: a byte 0 stands there.
fn announces(job: &[u8], from: Cursor) -> bool
    ensures { result ≡ announces job.now from.at }
{
    from.at < job.len() && job[from.at] == 0
}

// How many rings a figure has, and the place of the first: the number that 0 announces, or one ring, which is not announced.
pub(crate) fn begin(job: &[u8], from: Cursor) -> Result<Read, Fault>
    ensures { read_told result ≡ begun job.now from.at }
{
    if announces(job, from) {
        return value(job, Cursor { at: from.at + 1 }, LEAST_RINGS, MOST_RINGS);
    }
    Ok(Read {
        value: 1,
        next: from,
    })
}

// Past one figure: its rings, after what announces them. Always put in place, as what calls it: a call costs as much as some numbers of the
// figure.
#[inline(always)]
fn outline(job: &[u8], from: Cursor) -> Result<Cursor, Fault>
    ensures { past_told result ≡ past (outline job.now from.at) }
{
    let count = begin(job, from)?;
    Ok(rings(job, count.next, count.value)?.next)
}

// Past k figures.
#[inline(always)]
fn outlines(job: &[u8], from: Cursor, k: usize) -> Result<Cursor, Fault>
    ensures { past_told result ≡ past (outlines job.now k from.at) }
{
    let mut c = from;
    for _ in 0..k {
        c = outline(job, c)?;
    }
    Ok(c)
}

// Threshold, weight and K, from the front of the job.
pub fn header(job: &[u8]) -> Result<Header, Fault>
    ensures { head_told result ≡ header job.now }
{
    let threshold = value(job, Cursor { at: 0 }, 0, Rule::MAX_THRESHOLD)?;
    let weight = value(job, threshold.next, 0, Rule::MAX_WEIGHT)?;
    let outlines = value(job, weight.next, 0, MOST_OUTLINES)?;
    Ok(Header {
        threshold: threshold.value,
        weight: weight.value,
        outlines: outlines.value,
        next: outlines.next,
    })
}

// The header of a job that is sound from its first byte to its last, or the job's first fault.
pub fn whole(job: &[u8]) -> Result<Header, Fault>
    ensures { head_told result ≡ whole job.now }
{
    if MOST_BYTES < job.len() {
        return Err(Fault::from(Refusal::Long));
    }
    let head = header(job)?;
    let end = outlines(job, head.next, head.outlines as usize)?;
    let at = end.at;
    if at < job.len() {
        return Err(Refusal::Extra.at(at));
    }
    Ok(head)
}

// Threshold, weight and K of a whole job, or its first fault and the byte at fault.
pub fn check(job: &[u8]) -> Result<Job, Fault>
    ensures settled { check_told result ≡ checked job.now }
{
    let header = whole(job)?;
    Ok(Job {
        threshold: header.threshold,
        weight: header.weight,
        outlines: header.outlines,
    })
}

// Where figure k stands, by reading k figures and then one more.
#[inline(always)]
pub fn locate(job: &[u8], first: Cursor, k: usize) -> Result<Part, Fault>
    ensures { located_told result ≡ located job.now k first.at }
{
    let start = outlines(job, first, k)?;
    let end = outline(job, start)?;
    Ok(Part {
        start: start.at,
        end: end.at,
    })
}

// Figure k as that part of the job's own bytes, from its first byte to its last coordinate. The whole job is read first, so a
// fault anywhere refuses every figure.
pub fn take<'a>(job: &'a [u8], k: usize) -> Result<&'a [u8], Fault>
    ensures settled { take_told result ≡ taken job.now k }
    ensures placed { IfOk result (λ part. Lies part.ref_ptr job.entry.ref_ptr (taken_at job.now k)) }
{
    let head = whole(job)?;
    let count = head.outlines as usize;
    if count <= k {
        return Err(Fault::from(Refusal::Missing));
    }
    let part = locate(job, head.next, k)?;
    Ok(&job[part.start..part.end])
}
