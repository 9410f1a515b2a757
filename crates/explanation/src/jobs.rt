// A job that was refused: which of its numbers is at fault, and what is wrong with it.
use crate::texts::text_of;
use crate::wanted::{Spot, Wanted};
use drawing::is_drawing;
use figure::{LEAST_CORNERS, MOST_CORNERS, MOST_PLACE, MOST_RINGS};
use job::{MOST_BYTES, MOST_OUTLINES};
use number::Cursor;
use refusal::{Fault, Refusal};
use rule::Rule;
use std::fmt;
use std::fmt::Write;
use std::ops::RangeInclusive;
use std::rt::Stderr;
use terminal::errors::{Telling, say};

// How many corners a ring may have by itself.
fn corners_of_a_ring() -> RangeInclusive<u32> {
    LEAST_CORNERS as u32..=MOST_CORNERS as u32
}

// The limits of the number that is wanted. An outline's 0, which announces rings, is beside them.
fn limits_of(wanted: Wanted) -> RangeInclusive<u32> {
    match wanted {
        Wanted::Threshold => 0..=Rule::MAX_THRESHOLD,
        Wanted::Weight => 0..=Rule::MAX_WEIGHT,
        Wanted::Outlines => 0..=MOST_OUTLINES,
        Wanted::Corners(_) => corners_of_a_ring(),
        Wanted::Rings(_) => 2..=MOST_RINGS as u32,
        Wanted::RingCorners(spot) => LEAST_CORNERS as u32..=spot.left(),
        Wanted::Coordinate(_) => 0..=MOST_PLACE,
        Wanted::Nothing => 0..=0,
    }
}

// Whether a number is within the limits of what is wanted.
fn fits(wanted: Wanted, v: u32) -> bool {
    let announces = v == 0 && matches!(wanted, Wanted::Corners(_));
    announces || limits_of(wanted).contains(&v)
}

// What is wrong with bytes that are no number.
fn unread(why: Refusal) -> &'static str {
    match why {
        Refusal::Ends => "the bytes end",
        Refusal::Padded => "its last byte is 0 and not its only one",
        _ => "it has over three bytes",
    }
}

// Limits that a number is not within.
fn tell_limits(err: &mut Telling, v: u32, limits: RangeInclusive<u32>) -> fmt::Result {
    write!(err, "{v} is not {} to {}", *limits.start(), *limits.end())
}

// The corners of a ring that are out of range: by themselves, or together with those of the rings before it.
fn tell_ring(err: &mut Telling, v: u32, spot: Spot) -> fmt::Result {
    if !corners_of_a_ring().contains(&v) {
        return tell_limits(err, v, corners_of_a_ring());
    }
    let before = spot.before;
    write!(
        err,
        "{v} and the {before} of the rings before it are more than {MOST_CORNERS}"
    )
}

// What is wrong with a number that is out of range.
fn tell_range(err: &mut Telling, wanted: Wanted, v: u32) -> fmt::Result {
    match wanted {
        Wanted::RingCorners(spot) => tell_ring(err, v, spot),
        _ => tell_limits(err, v, limits_of(wanted)),
    }
}

// The first number of the job that is at fault: reads number by number, each by what the ones before it say. A job has no more numbers than
// bytes, and one more is read where they end.
fn tell_first_fault(err: &mut Telling, job: &[u8]) -> fmt::Result {
    let mut wanted = Wanted::Threshold;
    let mut here = Cursor { at: 0 };
    for _ in 0..=MOST_BYTES {
        match here.number(job) {
            Err(fault) => {
                let what = unread(fault.why);
                return write!(err, "{wanted}: {what}");
            }
            Ok(read) => {
                if !fits(wanted, read.value) {
                    write!(err, "{wanted}: ")?;
                    return tell_range(err, wanted, read.value);
                }
                wanted = wanted.after(read.value);
                here = read.next;
            }
        }
    }
    Ok(())
}

// How many bytes follow the last outline.
fn tell_extra(err: &mut Telling, job: &[u8], at: usize) -> fmt::Result {
    match job.len().saturating_sub(at) {
        0 => Ok(()),
        1 => err.write_str("1 byte follows the last outline"),
        extra => write!(err, "{extra} bytes follow the last outline"),
    }
}

// Why a job is refused: with the number at fault where there is one, else by the refusal's short text.
fn tell_reason(err: &mut Telling, job: &[u8], fault: Fault) -> fmt::Result {
    match fault.why {
        Refusal::Ends | Refusal::Padded | Refusal::Range => tell_first_fault(err, job),
        Refusal::Extra => tell_extra(err, job, fault.at),
        _ => err.write_str(text_of(fault.why)),
    }
}

// The whole line.
fn tell_line(err: &mut Telling, job: &[u8], fault: Fault) -> fmt::Result {
    write!(err, "refused {} at {}: ", u32::from(fault.why), fault.at)?;
    tell_reason(err, job, fault)?;
    err.write_str("\n")
}

// A line for whoever hands a text drawing to a program that wants a job: the number at fault means nothing to them.
pub fn say_if_drawing(err: Stderr, job: &[u8]) {
    if is_drawing(job) {
        say(
            err,
            b"this is a text drawing: pinarewhemi pack makes a job of it\n",
        );
    }
}

// The line of a job that was refused, by this refusal at this byte.
pub fn explain(err: Stderr, job: &[u8], fault: Fault) {
    let _told = tell_line(&mut Telling(err), job, fault);
    say_if_drawing(err, job);
}
