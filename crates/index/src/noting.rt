// Noting where figures begin, while they are read.
ghost use Rattle.std.specs.Prelude.{◌≡◌, ◌≤◌, length};
ghost use Rattle.number.specs.Reading.{past};
ghost use Rattle.job.specs.Job.{most_bytes, outlines};
ghost use Rattle.job.specs.Steps.{past_told};
ghost use Rattle.index.specs.Steps.{Noted};

use job::read;
use number::Cursor;
use refusal::Fault;

// Past so many figures, and where each begins at the front of a list; or the first fault.
pub(crate) fn note(
    job: &[u8],
    from: Cursor,
    count: usize,
    starts: &mut [u16],
) -> Result<Cursor, Fault>
    requires { (length job.now ≤ most_bytes) × (count ≤ length starts.old) }
    ensures result_value { past_told result ≡ past (outlines job.now count from.at) }
    ensures noted { Noted (outlines job.now count from.at) starts.old starts.new }
{
    let mut c = from;
    let front = &mut starts[..count];
    for start in front.iter_mut() {
        let part = read::locate(job, c, 0)?;
        *start = part.start as u16;
        c = Cursor { at: part.end };
    }
    Ok(c)
}
