// Opening a job: it is read once, and where each outline begins is noted.
ghost use Rattle.std.specs.Prelude.{◌≡◌};
ghost use Rattle.index.specs.Index.{opened, open_told};

use crate::noting::note;
use copying::put;
use job::{MOST_BYTES, MOST_OUTLINES, read};
use refusal::{Fault, Refusal};

// The offset of each outline of a job, at the front of the index. Nothing is written before the whole job is seen and the index is
// known to have room. Gives how many outlines the job has.
pub fn open(job: &[u8], index: &mut [u16]) -> Result<u32, Fault>
    ensures settled { open_told result index.new ≡ opened job.now index.old }
{
    if MOST_BYTES < job.len() {
        return Err(Fault::from(Refusal::Long));
    }
    let head = read::header(job)?;
    let count = head.outlines as usize;
    let mut starts = [0u16; MOST_OUTLINES as usize];
    let end = note(job, head.next, count, &mut starts)?;
    let at = end.at;
    if at < job.len() {
        return Err(Refusal::Extra.at(at));
    }
    if index.len() < count {
        return Err(Fault::from(Refusal::Room));
    }
    put(&starts[..count], index, 0);
    Ok(head.outlines)
}
