// Packing: line by line, each figure written to the job where it ends.
ghost use Rattle.std.specs.Prelude.{◌≤◌};

use crate::expected::{BadLine, Expected};
use crate::lines::{Lines, Ruled, Says, count_figures, said};
use figure::{LEAST_CORNERS, MOST_CORNERS, MOST_RINGS};
use job::write::{write_header, write_outline};
use job::{MOST_BYTES, MOST_OUTLINES};

// How far packing has come: the bytes of the job and the figures begun; of the figure at hand the line that it begins in, its rings and
// corners, the corners of its last ring, and the two lists that it is written from. The lists are fixed, and no Vec: packing takes no memory,
// so that it cannot run out of it.
#[derive(Clone, Copy)]
struct Packing {
    bytes: usize,
    figures: u32,
    line: usize,
    rings: usize,
    corners: usize,
    last: u16,
    places: [u16; 2 * MOST_CORNERS],
    lengths: [u16; MOST_RINGS],
    ghost few_rings: { rings ≤ 8 },
    ghost few_corners: { corners ≤ 32 },
}

// What is wrong where a figure does not fit the buffer: the job is too long, or the buffer is shorter than the longest job.
fn unfit(job: &[u8]) -> Expected {
    if job.len() < MOST_BYTES {
        return Expected::Room;
    }
    Expected::Bytes
}

impl Packing {
    // Behind a header of so many bytes; the rule's line is the one before the figures.
    fn behind(bytes: usize, line: usize) -> Packing {
        Packing {
            bytes,
            figures: 0,
            line,
            rings: 0,
            corners: 0,
            last: 0,
            places: [0; 2 * MOST_CORNERS],
            lengths: [0; MOST_RINGS],
        }
    }

    // Nothing of a figure yet.
    fn clear(&mut self) {
        self.rings = 0;
        self.corners = 0;
        self.last = 0;
    }

    // Whether the last ring has too few corners; before the first ring none has.
    fn is_open(&self) -> bool {
        0 < self.rings && usize::from(self.last) < LEAST_CORNERS
    }

    // The rings so far are whole.
    fn closed(&self, line: usize) -> Result<(), BadLine> {
        if self.is_open() {
            return Err(Expected::Corners(u32::from(self.last)).at(line));
        }
        Ok(())
    }

    // The figure at hand behind the job's bytes: how many bytes it has.
    fn written(&self, job: &mut [u8]) -> Result<usize, Expected> {
        let full = unfit(job);
        let places = &self.places[..2 * self.corners];
        let lengths = &self.lengths[..self.rings];
        let room = job.get_mut(self.bytes..).ok_or(full)?;
        write_outline(places, lengths, room).map_err(|_| full)
    }

    // The job with so many bytes more.
    fn grow(&mut self, n: usize) -> Result<(), Expected> {
        if MOST_BYTES < self.bytes || MOST_BYTES - self.bytes < n {
            return Err(Expected::Bytes);
        }
        self.bytes += n;
        self.clear();
        Ok(())
    }

    // Ends the figure at hand in a line, if there is one: its rings are counted, and it is written. Where the job has no room for it, the
    // line that it begins in is told.
    fn end_figure(&mut self, line: usize, job: &mut [u8]) -> Result<(), BadLine> {
        if self.figures == 0 {
            return Ok(());
        }
        if self.rings == 0 {
            return Err(Expected::Rings.at(line));
        }
        self.closed(line)?;
        let begun = self.line;
        let n = self.written(job).map_err(|expected| expected.at(begun))?;
        self.grow(n).map_err(|expected| expected.at(begun))
    }

    // A line that says figure: the one at hand ends, and another begins.
    fn take_figure(&mut self, line: usize, job: &mut [u8]) -> Result<(), BadLine> {
        self.end_figure(line, job)?;
        if MOST_OUTLINES <= self.figures {
            return Err(Expected::Figures.at(line));
        }
        self.figures += 1;
        self.line = line;
        self.clear();
        Ok(())
    }

    // A line that says ring: the ring at hand ends, and another begins.
    fn take_ring(&mut self, line: usize) -> Result<(), BadLine> {
        if self.figures == 0 {
            return Err(Expected::Figure.at(line));
        }
        self.closed(line)?;
        if MOST_RINGS <= self.rings {
            return Err(Expected::Rings.at(line));
        }
        self.rings += 1;
        self.last = 0;
        Ok(())
    }

    // Why a corner has no place here; a figure of one ring has no more corners than the ring.
    fn out_of_place(&self) -> Expected {
        if self.figures == 0 {
            return Expected::Figure;
        }
        if self.rings == 0 {
            return Expected::Ring;
        }
        if MOST_CORNERS <= usize::from(self.last) {
            return Expected::Corners(MOST_CORNERS as u32 + 1);
        }
        Expected::Rings
    }

    // A line that says a corner: it goes to the two lists.
    fn take_corner(&mut self, x: u16, y: u16) -> Result<(), Expected> {
        let last = usize::from(self.last);
        if self.rings == 0 || MOST_CORNERS <= self.corners || MOST_CORNERS <= last {
            return Err(self.out_of_place());
        }
        self.places[2 * self.corners] = x;
        self.places[2 * self.corners + 1] = y;
        self.last += 1;
        self.lengths[self.rings - 1] = self.last;
        self.corners += 1;
        Ok(())
    }

    // What a line says, taken into account.
    fn take(&mut self, line: usize, says: Says, job: &mut [u8]) -> Result<(), BadLine> {
        match says {
            Says::Rule(_, _) => Err(Expected::Once.at(line)),
            Says::Figure => self.take_figure(line, job),
            Says::Ring => self.take_ring(line),
            Says::Corner(x, y) => self.take_corner(x, y).map_err(|expected| expected.at(line)),
        }
    }

    // Every line from one on, and the end of the text, one line past the last.
    fn take_lines(&mut self, lines: Lines<'_>, job: &mut [u8]) -> Result<(), BadLine> {
        let mut past = lines.number;
        for line in lines {
            if let Some(says) = said(line.text).map_err(|expected| expected.at(line.number))? {
                self.take(line.number, says, job)?;
            }
            past = line.number.saturating_add(1);
        }
        self.end_figure(past, job)
    }
}

// What follows the rule, which stands in a line of its own: the header with the number of figures, which are counted first, and then the
// figures. How many bytes the job has.
pub fn pack_lines(rule: Ruled<'_>, job: &mut [u8]) -> Result<usize, BadLine> {
    let header = write_header(rule.threshold, rule.weight, count_figures(rule.behind), job);
    let bytes = header.map_err(|_| Expected::Room.at(rule.line))?;
    let mut packing = Packing::behind(bytes, rule.line);
    packing.take_lines(rule.behind, job)?;
    Ok(packing.bytes)
}
