// Job files: a rule and some figures as numbers of seven-bit groups. Reading, taking one figure apart, and writing.
#![tactic(auto)]

pub mod read;
pub mod unpack;
pub mod write;

use number::Cursor;

// No job has more bytes.
pub const MOST_BYTES: usize = 4096;

// No job has more figures.
pub const MOST_OUTLINES: u32 = 255;

// No figure has more corners, in all its rings together: the figure's limit, as a number of the job.
const MOST_CORNERS: u32 = figure::MOST_CORNERS as u32;

// No ring has fewer corners: likewise.
const LEAST_CORNERS: u32 = figure::LEAST_CORNERS as u32;

// No figure has more rings: the figure's limit, as a number of the job.
const MOST_RINGS: u32 = figure::MOST_RINGS as u32;

// A figure announces its rings from two on: one ring is not announced.
const LEAST_RINGS: u32 = 2;

// What a header says, and where the figures begin.
#[derive(Clone, Copy, PartialEq, Eq)]
pub struct Header {
    pub threshold: u32,
    pub weight: u32,
    pub outlines: u32,
    pub next: Cursor,
}
