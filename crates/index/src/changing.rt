// Changing a job: it is written anew with an outline more at its end, or without one, and its index is noted anew.
ghost use Rattle.std.specs.Prelude.{◌≡◌, ◌++◌, ◌≤◌, ◌+◌, length};
ghost use Rattle.std.proofs.lemmas.List.Edits.{sets};
ghost use Rattle.figure.specs.Figure.{figure};
ghost use Rattle.job.specs.Bytes.{header_bytes};
ghost use Rattle.job.specs.Job.{most_bytes};
ghost use Rattle.index.specs.Index.{change_told, appended, removed};
ghost use Rattle.index.specs.Steps.{Parted, changed_for};

use crate::noting::note;
use copying::put;
use job::read::Job;
use job::write::{HEADER_BYTES, write_header, write_outline};
use job::{MOST_BYTES, MOST_OUTLINES, read};
use number::Cursor;
use refusal::{Fault, Refusal};

// Room for any figure's bytes: 202 at most by the sizes of its numbers; 222 is what is proved, and is enough here.
const FIGURE_BYTES: usize = 256;

// How many bytes the new job has at the front of the buffer, and how many outlines, with the offset of each at the front of the index.
#[derive(Clone, Copy, PartialEq, Eq)]
pub struct Changed {
    pub bytes: usize,
    pub outlines: u32,
}

// Puts three runs of bytes at the front of the buffer, one behind the other.
fn put_parts(head: &[u8], front: &[u8], back: &[u8], out: &mut [u8])
    requires { length (head.now ++ (front.now ++ back.now)) ≤ length out.old }
    ensures { out.new ≡ sets out.old 0 (head.now ++ (front.now ++ back.now)) }
{
    let first = head.len();
    let second = first + front.len();
    put(head, out, 0);
    put(front, out, first);
    put(back, out, second);
}

// Writes a job, the bytes of whose outlines are lent in two runs, and notes where each begins.
fn write_anew(
    job: Job,
    front: &[u8],
    back: &[u8],
    index: &mut [u16],
    out: &mut [u8],
) -> Result<Changed, Fault>
    requires front_len_bound { (length front.now ≤ most_bytes) × (length back.now ≤ most_bytes) }
    requires parted { Parted job.threshold job.weight job.outlines (front.now ++ back.now) }
    ensures { change_told result index.new out.new ≡ changed_for (header_bytes job.threshold job.weight job.outlines ++ (front.now ++ back.now)) index.old out.old }
{
    let mut header = [0u8; HEADER_BYTES];
    let first = write_header(job.threshold, job.weight, job.outlines, &mut header)?;
    let bytes = first + front.len() + back.len();
    if MOST_BYTES < bytes {
        return Err(Fault::from(Refusal::Long));
    }
    if out.len() < bytes {
        return Err(Fault::from(Refusal::Room));
    }
    let outlines = job.outlines as usize;
    if index.len() < outlines {
        return Err(Fault::from(Refusal::Room));
    }
    put_parts(&header[..first], front, back, out);
    note(&out[..bytes], Cursor { at: first }, outlines, index)?;
    Ok(Changed {
        bytes,
        outlines: job.outlines,
    })
}

// The job with a figure more at its end, in a second buffer.
pub fn append(
    job: &[u8],
    corners: &[u16],
    lengths: &[u16],
    index: &mut [u16],
    out: &mut [u8],
) -> Result<Changed, Fault>
    ensures settled { change_told result index.new out.new ≡ appended job.now (figure corners.now lengths.now) index.old out.old }
{
    let head = read::whole(job)?;
    let mut bytes = [0u8; FIGURE_BYTES];
    let n = write_outline(corners, lengths, &mut bytes)?;
    let k = head.outlines;
    if MOST_OUTLINES <= k {
        return Err(Fault::from(Refusal::Full));
    }
    let first = head.next.at;
    let longer = Job {
        threshold: head.threshold,
        weight: head.weight,
        outlines: k + 1,
    };
    write_anew(longer, &job[first..], &bytes[..n], index, out)
}

// The job without outline k, in a second buffer.
pub fn remove(job: &[u8], k: usize, index: &mut [u16], out: &mut [u8]) -> Result<Changed, Fault>
    ensures settled { change_told result index.new out.new ≡ removed job.now k index.old out.old }
{
    let head = read::whole(job)?;
    let count = head.outlines as usize;
    if count <= k {
        return Err(Fault::from(Refusal::Missing));
    }
    let part = read::locate(job, head.next, k)?;
    let first = head.next.at;
    let shorter = Job {
        threshold: head.threshold,
        weight: head.weight,
        outlines: head.outlines - 1,
    };
    write_anew(
        shorter,
        &job[first..part.start],
        &job[part.end..],
        index,
        out,
    )
}
