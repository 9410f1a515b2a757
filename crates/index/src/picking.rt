// Picking an outline by its index: nothing before it is read.
ghost use Rattle.std.specs.Prelude.{◌≡◌, IfOk};
ghost use Rattle.job.specs.Calls.{take_told};
ghost use Rattle.job.specs.Placed.{Lies};
ghost use Rattle.job.specs.Steps.{located_told};
ghost use Rattle.index.specs.Index.{found, picked, picked_at};
ghost use Rattle.index.specs.Steps.{place_of};

use job::read::Part;
use job::{MOST_BYTES, read};
use number::Cursor;
use refusal::{Fault, Refusal};

// Where the outline stands that entry k of an index points at, of so many entries that count: the index that is lent may be
// longer.
pub fn find(job: &[u8], index: &[u16], count: usize, k: usize) -> Result<Part, Fault>
    ensures settled { located_told result ≡ place_of (found job.now index.now count k) }
{
    if MOST_BYTES < job.len() {
        return Err(Fault::from(Refusal::Long));
    }
    if count <= k {
        return Err(Fault::from(Refusal::Missing));
    }
    if index.len() <= k {
        return Err(Fault::from(Refusal::Missing));
    }
    let at = usize::from(index[k]);
    read::locate(job, Cursor { at }, 0)
}

// That outline as a part of the job's own bytes.
pub fn pick<'a>(job: &'a [u8], index: &[u16], count: usize, k: usize) -> Result<&'a [u8], Fault>
    ensures settled { take_told result ≡ picked job.now index.now count k }
    ensures placed { IfOk result (λ part. Lies part.ref_ptr job.entry.ref_ptr (picked_at job.now index.now count k)) }
{
    let part = find(job, index, count, k)?;
    Ok(&job[part.start..part.end])
}
