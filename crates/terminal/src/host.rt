// Whatever a program is started by: the system, or a start in C (`given`).
ghost use Rattle.std.specs.Prelude.{length, IfOk, IfSome, MatchResult, ◌≤◌};

use crate::console::Console;
use crate::input::{Unread, read_all};
use std::env::FillError;
use std::fs::File;
use std::io::Error;
use std::rt::{Env, LibcRuntime};
use std::str::from_utf8;

pub trait Host {
    // The streams.
    fn console(&self) -> Console;

    // How many words the program was started with, its own name among them.
    fn word_count(&self) -> usize;

    // Puts word i at the front of a buffer, and gives its length; none where it is missing or longer than the buffer.
    fn word(&self, i: usize, into: &mut [u8]) -> Option<usize>
        ensures in_bounds { IfSome result (λ n. n ≤ length into.new) };

    // The file of this name, as much of it as the buffer holds: how many bytes.
    fn read_file(&self, path: &[u8], buffer: &mut [u8]) -> Result<usize, Unread>
        ensures in_bounds { IfOk result (λ n. n ≤ length buffer.new) };

    // The same; and where reading failed, no more bytes are told than the buffer has. Of a host that has no answer of its own to this, it is
    // that of `read_file`, cut to the buffer.
    fn read_counted(&self, path: &[u8], buffer: &mut [u8]) -> Result<usize, Unread>
        ensures in_bounds { MatchResult result (λ n. n ≤ length buffer.new) (λ unread. unread.bytes ≤ length buffer.new) }
    {
        match self.read_file(path, buffer) {
            Ok(bytes) => Ok(bytes),
            Err(unread) => Err(Unread {
                bytes: unread.bytes.min(buffer.len()),
                why: unread.why,
            }),
        }
    }
}

// The number by which the system says that bytes are no text.
const NO_TEXT: i32 = 84;

// Whether there is a word i.
fn has_word(rt: &LibcRuntime, i: usize) -> bool {
    !matches!(rt.arg(i, &mut []), Err(FillError::NotPresent))
}

impl Host for LibcRuntime {
    fn console(&self) -> Console {
        Console {
            input: self.stdin(),
            out: self.stdout(),
            err: self.stderr(),
            clock: Some(*self),
        }
    }

    fn word_count(&self) -> usize {
        (0..usize::MAX)
            .find(|i| !has_word(self, *i))
            .unwrap_or(usize::MAX)
    }

    fn word(&self, i: usize, into: &mut [u8]) -> Option<usize> {
        self.arg(i, into).ok()
    }

    fn read_file(&self, path: &[u8], buffer: &mut [u8]) -> Result<usize, Unread> {
        self.read_counted(path, buffer)
    }

    // Std opens a file by a name that is text, and by no other.
    fn read_counted(&self, path: &[u8], buffer: &mut [u8]) -> Result<usize, Unread> {
        let Ok(name) = from_utf8(path) else {
            return Err(Unread::from(Error::from_raw_os_error(NO_TEXT)));
        };
        let mut file = File::open(self, name)?;
        read_all(&mut file, Some(*self), buffer)
    }
}
