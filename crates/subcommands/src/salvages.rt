// `pinarewhemi salvage`: what is left of a broken job, as the program of that name has it.
ghost use Rattle.std.specs.Prelude.{length, MatchResult, ◌≤◌};

use job::MOST_BYTES;
use terminal::arguments::{read_argument, read_standard};
use terminal::host::Host;
use terminal::input::Unread;
use terminal::status::Status;

// The file that word 2 names, or standard input where there is no such word.
fn read_broken<H: Host>(host: &H, words: usize, job: &mut [u8]) -> Result<usize, Unread>
    ensures { MatchResult result (λ n. n ≤ length job.new) (λ unread. unread.bytes ≤ length job.new) }
{
    if words < 3 {
        return read_standard(host, b"pinarewhemi", job);
    }
    read_argument(host, b"pinarewhemi", 2, job)
}

// The subcommand. One byte more than the longest job is read, so that a longer one shows.
pub fn salvage_words<H: Host>(host: &H, words: usize) -> Result<Status, Status> {
    let mut job = [0u8; MOST_BYTES + 1];
    let mut room = [0u8; MOST_BYTES];
    let n = read_broken(host, words, &mut job).map_err(|_| Status::Failed)?;
    Ok(rescue::run(host.console(), &job[..n], &mut room))
}
