// Input, read to its end or until a buffer is full.
ghost use Rattle.std.specs.Prelude.{length, MatchResult, Some, ◌≡◌, ◌≤◌};

use crate::waiting::{PATIENCE, worth_another};
use std::io::{Error, Read};
use std::rt::HostRuntime;

// What is known where reading failed: how many bytes came before, at the front of the buffer; and why, where the system says it. It says
// nothing of a stream that stayed not ready for as long as is waited.
#[derive(Clone, Copy)]
pub struct Unread {
    pub bytes: usize,
    pub why: Option<Error>,
}

// Nothing came before.
impl From<Error> for Unread {
    ghost from_gives = { λ why unread. unread ≡ record { bytes = 0; why = Some why } };

    fn from(why: Error) -> Unread {
        Unread {
            bytes: 0,
            why: Some(why),
        }
    }
}

// One read, tried again where that is worth it: how many bytes came; none at the end of the input.
fn read_some<R: Read>(
    from: &mut R,
    clock: Option<HostRuntime>,
    buffer: &mut [u8],
) -> Result<usize, Unread>
    ensures { MatchResult result (λ n. n ≤ length buffer.old) (λ unread. unread.bytes ≡ 0) }
{
    for _ in 0..PATIENCE {
        match from.read(buffer) {
            Ok(bytes) => {
                return Ok(bytes);
            }
            Err(why) => {
                if !worth_another(why, clock) {
                    return Err(Unread::from(why));
                }
            }
        }
    }
    Err(Unread {
        bytes: 0,
        why: None,
    })
}

// What a reader has, to its end, or as much of it as the buffer holds: how many bytes. No `for`: how far one turn goes, the reader says.
pub fn read_all<R: Read>(
    from: &mut R,
    clock: Option<HostRuntime>,
    buffer: &mut [u8],
) -> Result<usize, Unread>
    ensures { MatchResult result (λ n. n ≤ length buffer.new) (λ unread. unread.bytes ≤ length buffer.new) }
{
    let mut done = 0;
    while done < buffer.len() {
        let more = read_some(from, clock, &mut buffer[done..]).map_err(|unread| Unread {
            bytes: done,
            ..unread
        })?;
        if more == 0 {
            break;
        }
        done += more;
    }
    Ok(done)
}
