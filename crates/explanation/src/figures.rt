// A figure that was refused: which of its edges is at fault, and what is wrong with it.
use crate::texts::text_of;
use refusal::Refusal;
use std::fmt;
use std::fmt::Write;
use std::rt::Stderr;
use terminal::errors::Telling;

// What can be wrong with an edge: it changes both coordinates, or neither, or the one that the edge before it changes.
#[derive(Clone, Copy)]
enum Flaw {
    Slanted,
    Idle,
    Unturned,
}

// A corner of a ring, with its number.
#[derive(Clone, Copy)]
struct Corner {
    number: usize,
    x: u16,
    y: u16,
}

impl fmt::Display for Corner {
    fn fmt<W: fmt::Write>(&self, f: &mut fmt::Formatter<W>) -> fmt::Result {
        write!(f, "corner {} ({}, {})", self.number, self.x, self.y)
    }
}

// A ring by its corners, x and y of each.
#[derive(Clone, Copy)]
struct Ring<'a> {
    corners: &'a [[u16; 2]],
}

impl Ring<'_> {
    // Corner k.
    fn corner(self, k: usize) -> Corner {
        let [x, y] = self.corners.get(k).copied().unwrap_or([0, 0]);
        Corner { number: k, x, y }
    }

    // The corner after corner k, once round.
    fn next(self, k: usize) -> usize {
        let after = k.saturating_add(1);
        if after < self.corners.len() {
            return after;
        }
        0
    }

    // The corner before corner k, once round.
    fn previous(self, k: usize) -> usize {
        match k.checked_sub(1) {
            Some(before) => before,
            None => self.corners.len().saturating_sub(1),
        }
    }

    // Whether the edge from corner k changes x.
    fn changes_x(self, k: usize) -> bool {
        self.corner(k).x != self.corner(self.next(k)).x
    }

    // Whether it changes y.
    fn changes_y(self, k: usize) -> bool {
        self.corner(k).y != self.corner(self.next(k)).y
    }

    // Whether it has this flaw, in a ring none of whose edges has one of those before it.
    fn is_flawed(self, k: usize, flaw: Flaw) -> bool {
        let x = self.changes_x(k);
        match flaw {
            Flaw::Slanted => x && self.changes_y(k),
            Flaw::Idle => x == self.changes_y(k),
            Flaw::Unturned => x == self.changes_x(self.previous(k)),
        }
    }

    // The first edge that has a flaw, by the corner that it starts at.
    fn first_flawed(self, flaw: Flaw) -> Option<usize> {
        (0..self.corners.len()).find(|k| self.is_flawed(*k, flaw))
    }

    // Whether the edges before and after corner k go on through it, and not back.
    fn goes_on(self, k: usize) -> bool {
        let from = self.corner(self.previous(k));
        let here = self.corner(k);
        let to = self.corner(self.next(k));
        passes(from.x, here.x, to.x) || passes(from.y, here.y, to.y)
    }
}

// Whether b lies between a and c, so that one goes the same way through it.
fn passes(a: u16, b: u16, c: u16) -> bool {
    a < b && b < c || c < b && b < a
}

// What is wrong with the edge from corner k. An edge that changes neither coordinate is most often the closing one, of a ring whose first
// corner is repeated at its end.
fn tell_flaw(err: &mut Telling, ring: Ring<'_>, k: usize, flaw: Flaw) -> fmt::Result {
    let here = ring.corner(k);
    let to = ring.corner(ring.next(k));
    match flaw {
        Flaw::Slanted => write!(err, "the edge from {here} to {to} changes both coordinates"),
        Flaw::Idle => {
            write!(
                err,
                "the edge from {here} to {to} changes neither coordinate: is "
            )?;
            if to.number == 0 {
                return err.write_str("the first corner repeated at the end?");
            }
            err.write_str("a corner drawn twice?")
        }
        Flaw::Unturned => {
            write!(err, "the edges before and after {here} run ")?;
            if ring.goes_on(k) {
                return err.write_str("the same way: is a corner drawn on a straight edge?");
            }
            err.write_str("forth and back: is there a corner too many?")
        }
    }
}

// The first edge of the figure that has this flaw; whether there is one. The rings stand one behind another in the list of corners.
fn tell_first(
    err: &mut Telling,
    corners: &[u16],
    lengths: &[u16],
    flaw: Flaw,
) -> Result<bool, fmt::Error> {
    let mut left = corners.as_chunks::<2>().0;
    for (r, length) in lengths.iter().enumerate() {
        let (ring, others) = left.split_at(left.len().min(usize::from(*length)));
        let ring = Ring { corners: ring };
        if let Some(k) = ring.first_flawed(flaw) {
            if 1 < lengths.len() {
                write!(err, "ring {r}, ")?;
            }
            tell_flaw(err, ring, k, flaw)?;
            return Ok(true);
        }
        left = others;
    }
    Ok(false)
}

// Why a figure was refused: with the edge at fault where there is one, else by the refusal's short text. A figure that is not right_angled
// though none of its edges is slanted has an idle edge, or one that does not turn.
fn tell_reason(err: &mut Telling, why: Refusal, corners: &[u16], lengths: &[u16]) -> fmt::Result {
    match why {
        Refusal::Slanted => {
            tell_first(err, corners, lengths, Flaw::Slanted)?;
            Ok(())
        }
        Refusal::Unturned => {
            if !tell_first(err, corners, lengths, Flaw::Idle)? {
                tell_first(err, corners, lengths, Flaw::Unturned)?;
            }
            Ok(())
        }
        Refusal::Empty => {
            let text = text_of(why);
            write!(err, "{text}: rings that lie on each other cancel")
        }
        _ => err.write_str(text_of(why)),
    }
}

// The whole line.
fn tell_line(
    err: &mut Telling,
    k: usize,
    why: Refusal,
    corners: &[u16],
    lengths: &[u16],
) -> fmt::Result {
    write!(err, "outline {k} refused {}: ", u32::from(why))?;
    tell_reason(err, why, corners, lengths)?;
    err.write_str("\n")
}

// The line of outline k, which a fracture refused.
pub fn explain(err: Stderr, k: usize, why: Refusal, corners: &[u16], lengths: &[u16]) {
    let _told = tell_line(&mut Telling(err), k, why, corners, lengths);
}
