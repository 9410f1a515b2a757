// A figure of a job, unpacked; and the numbers by which figures and edges are asked for.
ghost use Rattle.std.specs.Prelude.{length, IfOk, ◌≤◌, ◌<◌};
ghost use Rattle.job.specs.Steps.{located, IsRead};

use figure::{MOST_CORNERS, MOST_RINGS};
use job::Header;
use job::read::{locate, take};
use job::unpack::unpack;
use refusal::Fault;
use std::rt::Stderr;
use terminal::errors::{complain, complain_of};
use terminal::status::Status;

// The coordinates of its corners and how many corners each of its rings has, at the front of two lists.
#[derive(Clone, Copy)]
pub struct Figure {
    corners: [u16; 2 * MOST_CORNERS],
    lengths: [u16; MOST_RINGS],
    numbers: usize,
    rings: usize,
}

impl Figure {
    // Figure k of a job that was read: what `take` promises of its bytes is unpacked.
    pub fn taken(job: &[u8], k: usize) -> Result<Figure, Fault> {
        let mut corners = [0; 2 * MOST_CORNERS];
        let mut lengths = [0; MOST_RINGS];
        let said = unpack(take(job, k)?, &mut corners, &mut lengths)?;
        Ok(Figure {
            corners,
            lengths,
            numbers: 2 * (said.corners as usize),
            rings: said.rings as usize,
        })
    }

    // Figure k of a job by its header: only the bytes up to its last are read. Where these lie `locate` says, which is not refused then.
    pub fn new(job: &[u8], header: Header, k: usize) -> Result<Figure, Fault>
        ensures { IfOk result (λ figure. IsRead (located job.now k header.next.at)) }
    {
        let mut corners = [0; 2 * MOST_CORNERS];
        let mut lengths = [0; MOST_RINGS];
        let part = locate(job, header.next, k)?;
        let bytes = job.get(part.start..part.end).unwrap_or(&[]);
        let said = unpack(bytes, &mut corners, &mut lengths)?;
        Ok(Figure {
            corners,
            lengths,
            numbers: 2 * (said.corners as usize),
            rings: said.rings as usize,
        })
    }

    // The coordinates, x and y in turn.
    pub fn corners(&self) -> &[u16] {
        &self.corners[..self.numbers.min(2 * MOST_CORNERS)]
    }

    // How many corners each ring has.
    pub fn lengths(&self) -> &[u16] {
        &self.lengths[..self.rings.min(MOST_RINGS)]
    }
}

// The first n of some items; all of them where there are fewer.
pub fn front<T>(items: &[T], n: usize) -> &[T]
    ensures { length result.now ≤ n }
{
    &items[..n.min(items.len())]
}

// How a program says that a number is wanted; or, around the number that was asked for, that there is nothing of it.
#[derive(Clone, Copy)]
pub struct Wording<'a> {
    pub wanted: &'a [u8],
    pub none: &'a [u8],
    pub has: &'a [u8],
}

impl Wording<'_> {
    // The number of one of so many, from 0; or the status where there is none, which was told.
    pub fn number(self, err: Stderr, asked: Option<usize>, count: usize) -> Result<usize, Status>
        ensures { IfOk result (λ n. n < count) }
    {
        let Some(n) = asked else {
            return Err(complain(err, self.wanted));
        };
        if count <= n {
            let end = b", numbered from 0\n";
            return Err(complain_of(err, self.none, n as u64, self.has, count as u64, end));
        }
        Ok(n)
    }
}
