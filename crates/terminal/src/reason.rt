// Why the system refused something, in its own words.
ghost use Rattle.std.specs.Prelude.{length, ◌≤◌};

use crate::errors::say;
use std::fmt;
use std::fmt::Write;
use std::io::Error;
use std::rt::Stderr;

// How many bytes of a reason are kept; each of the system's is shorter.
const ROOM: usize = 128;

// Text as it comes, as much of it as there is room for, with zero bytes behind it. It is no String: telling a reason takes no memory, so
// that it cannot run out of it.
#[derive(Drop)]
struct Kept {
    bytes: [u8; ROOM],
    held: usize,
}

impl Write for Kept {
    fn write_str(&mut self, text: &str) -> fmt::Result {
        for byte in text.bytes() {
            if self.held < ROOM {
                self.bytes[self.held] = byte;
                self.held += 1;
            }
        }
        Ok(())
    }
}

// Where the reason itself ends: before the system's number for it, in parentheses, or before the first zero byte.
fn end_of(text: &[u8]) -> usize
    ensures { result ≤ length text.now }
{
    for (i, glyph) in text.iter().enumerate() {
        if *glyph == 0 || text[i..].starts_with(b" (os error ") {
            return i;
        }
    }
    text.len()
}

// The reason, on standard error, with no line end.
pub fn say_reason(err: Stderr, why: Error) {
    let mut kept = Kept {
        bytes: [0; ROOM],
        held: 0,
    };
    let _told = write!(kept, "{why}");
    let end = end_of(&kept.bytes);
    say(err, &kept.bytes[..end]);
}
