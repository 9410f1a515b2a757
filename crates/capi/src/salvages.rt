// The C interface of saving what is left of a job.
ghost use Rattle.std.specs.Prelude.{◌≡◌};
ghost use Rattle.saving.specs.Salvage.{saved};
ghost use Rattle.capi.specs.SaveLent.{save_lent};

use super::refuse;
use saving::save;

// How many bytes the sound job of the outlines before the first fault has, at the front of the buffer; how many outlines were kept, how
// many of those declared were lost, and how many bytes were dropped; or 12, 8 to 10 of the header and the offset, 14.
#[unsafe(no_mangle)]
pub extern "C" fn pw_salvage(
    job: &[u8],
    out: &mut [u8],
    written: &mut usize,
    kept: &mut u32,
    lost: &mut u32,
    dropped: &mut usize,
    offset: &mut usize,
) -> u32
    ensures settled { save_lent result written.new kept.new lost.new dropped.new offset.new out.new ≡ saved job.now out.old }
{
    *written = 0;
    *kept = 0;
    *lost = 0;
    *dropped = 0;
    *offset = 0;
    match save(job, out) {
        Ok(saved) => {
            *written = saved.bytes;
            *kept = saved.kept;
            *lost = saved.lost;
            *dropped = saved.dropped;
            0
        }
        Err(fault) => refuse(fault, offset),
    }
}
