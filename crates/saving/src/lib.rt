// Saving what is left of a job that was broken in transfer: the outlines before the first fault, and a sound job of them. No outline after
// a fault is guessed at.
#![tactic(auto)]

ghost use Rattle.std.specs.Prelude.{◌≡◌, ◌++◌, ◌≤◌, length};
ghost use Rattle.job.specs.Bytes.{header_bytes};
ghost use Rattle.job.specs.Job.{most_bytes, most_outlines};
ghost use Rattle.job.specs.Calls.{write_told, written_to};
ghost use Rattle.saving.specs.Salvage.{kept_from, saved, save_told};
ghost use Rattle.saving.specs.Steps.{Keeps, InRange};

use copying::put;
use job::read::Job;
use job::write::{HEADER_BYTES, write_header};
use job::{MOST_BYTES, read};
use number::Cursor;
use refusal::{Fault, Refusal};

// How many bytes the sound job has at the front of the buffer, how many outlines were kept, how many of those declared were lost, and how
// many bytes were dropped.
#[derive(Clone, Copy, PartialEq, Eq)]
pub struct Saved {
    pub bytes: usize,
    pub kept: u32,
    pub lost: u32,
    pub dropped: usize,
}

// Outlines that read well one after another, and where the last of them ends.
#[derive(Clone, Copy, PartialEq, Eq)]
struct Kept {
    count: u32,
    end: usize,
}

// Of so many outlines from a place on, those before the first that does not read at its place.
fn keep(job: &[u8], from: Cursor, count: u32) -> Kept
    requires { count ≤ most_outlines }
    ensures { Keeps (kept_from job.now count from.at) result.count result.end }
{
    let mut c = from;
    for n in 0..count {
        match read::locate(job, c, 0) {
            Ok(part) => c = Cursor { at: part.end },
            Err(_) => return Kept {
                count: n,
                end: c.at,
            },
        }
    }
    Kept { count, end: c.at }
}

// Writes a job at the front of the buffer: its header, and the bytes of its outlines behind it.
fn write_kept(job: Job, body: &[u8], out: &mut [u8]) -> Result<usize, Refusal>
    requires in_range { InRange job.threshold job.weight job.outlines }
    requires body_len_bound { length body.now ≤ most_bytes }
    ensures { write_told result out.new ≡ written_to out.old (header_bytes job.threshold job.weight job.outlines ++ body.now) }
{
    let mut header = [0u8; HEADER_BYTES];
    let first = write_header(job.threshold, job.weight, job.outlines, &mut header)?;
    let bytes = first + body.len();
    if out.len() < bytes {
        return Err(Refusal::Room);
    }
    put(&header[..first], out, 0);
    put(body, out, first);
    Ok(bytes)
}

// The sound job of the outlines before the first fault, with the right count; and what is lost and dropped.
pub fn save(job: &[u8], out: &mut [u8]) -> Result<Saved, Fault>
    ensures settled { save_told result out.new ≡ saved job.now out.old }
{
    if MOST_BYTES < job.len() {
        return Err(Fault::from(Refusal::Long));
    }
    let head = read::header(job)?;
    let Kept { count, end } = keep(job, head.next, head.outlines);
    let from = head.next.at;
    let sound = Job {
        threshold: head.threshold,
        weight: head.weight,
        outlines: count,
    };
    let bytes = write_kept(sound, &job[from..end], out)?;
    Ok(Saved {
        bytes,
        kept: count,
        lost: head.outlines - count,
        dropped: job.len() - end,
    })
}
