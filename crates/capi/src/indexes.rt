// The C interface of an index beside a job.
ghost use Rattle.std.specs.Prelude.{◌≡◌, List, ℕ};
ghost use Rattle.figure.specs.Figure.{figure};
ghost use Rattle.index.specs.Index.{opened, appended, removed, change_told};
ghost use Rattle.capi.specs.Lent.{outline_lent};
ghost use Rattle.capi.specs.IndexLent.{open_lent, change_lent, pick_said};

use super::refuse;
use index::changing::{Changed, append, remove};
use index::opening::open;
use index::picking::find;
use refusal::Fault;

// How many outlines a job has, with the offset of each at the front of the index; or 12, 8 to 11 and the offset, 14.
#[unsafe(no_mangle)]
pub extern "C" fn pw_index_open(
    job: &[u8],
    index: &mut [u16],
    outlines: &mut u32,
    offset: &mut usize,
) -> u32
    ensures settled { open_lent result outlines.new offset.new index.new ≡ opened job.now index.old }
{
    *outlines = 0;
    *offset = 0;
    match open(job, index) {
        Ok(n) => {
            *outlines = n;
            0
        }
        Err(fault) => refuse(fault, offset),
    }
}

// Lends on what a change answers, whatever index and buffer hold.
fn lend_change(
    answer: Result<Changed, Fault>,
    written: &mut usize,
    outlines: &mut u32,
    offset: &mut usize,
) -> u32
    ensures { (index out : List ℕ) → change_lent result written.new outlines.new offset.new index out ≡ change_told answer index out }
{
    match answer {
        Ok(changed) => {
            *written = changed.bytes;
            *outlines = changed.outlines;
            *offset = 0;
            0
        }
        Err(fault) => {
            *written = 0;
            *outlines = 0;
            refuse(fault, offset)
        }
    }
}

// The job with a figure more at its end, and its index; or 12, 8 to 11 and the offset, 2, 20, 12, 14.
#[unsafe(no_mangle)]
pub extern "C" fn pw_index_append(
    job: &[u8],
    corners: &[u16],
    rings: &[u16],
    index: &mut [u16],
    out: &mut [u8],
    written: &mut usize,
    outlines: &mut u32,
    offset: &mut usize,
) -> u32
    ensures settled { change_lent result written.new outlines.new offset.new index.new out.new ≡ appended job.now (figure corners.now rings.now) index.old out.old }
{
    let answer = append(job, corners, rings, index, out);
    lend_change(answer, written, outlines, offset)
}

// The job without outline k, and its index; or 12, 8 to 11 and the offset, 13, 14.
#[unsafe(no_mangle)]
pub extern "C" fn pw_index_remove(
    job: &[u8],
    k: usize,
    index: &mut [u16],
    out: &mut [u8],
    written: &mut usize,
    outlines: &mut u32,
    offset: &mut usize,
) -> u32
    ensures settled { change_lent result written.new outlines.new offset.new index.new out.new ≡ removed job.now k index.old out.old }
{
    let answer = remove(job, k, index, out);
    lend_change(answer, written, outlines, offset)
}

// Where the outline starts that entry k of an index points at, and how long it is; or 12, 13, 8 to 10 and the offset.
#[unsafe(no_mangle)]
pub extern "C" fn pw_index_pick(
    job: &[u8],
    index: &[u16],
    count: usize,
    k: usize,
    start: &mut usize,
    length: &mut usize,
    offset: &mut usize,
) -> u32
    ensures settled { outline_lent result start.new length.new offset.new ≡ pick_said job.now index.now count k }
{
    *start = 0;
    *length = 0;
    *offset = 0;
    match find(job, index, count, k) {
        Err(fault) => refuse(fault, offset),
        Ok(part) => {
            *start = part.start;
            *length = part.end - part.start;
            0
        }
    }
}
