// What a start in C hands in (crates/starts): a static library reaches neither the words that a program is started with nor a file.
ghost use Rattle.std.specs.Prelude.{length, ◌≤◌};

use crate::console::Console;
use crate::host::Host;
use crate::input::Unread;
use std::io::Error;

// The streams; the words, each with a zero byte behind it; and the file that the word of a number names, as far as it was read, or what
// failed.
#[derive(Clone, Copy)]
pub struct Given<'a> {
    pub console: Console,
    pub words: &'a [u8],
    pub named: usize,
    pub file: Result<&'a [u8], Error>,
}

// The number by which the system says that there is no such file.
const NO_FILE: i32 = 2;

// Copies as many bytes as there is room for: how many.
pub fn copy_front(bytes: &[u8], into: &mut [u8]) -> usize
    ensures { result ≤ length into.new }
{
    let n = bytes.len().min(into.len());
    into[..n].copy_from_slice(&bytes[..n]);
    n
}

impl<'a> Given<'a> {
    // Word i: what stands before its zero byte; none where there is no such byte.
    fn word_at(&self, i: usize) -> Option<&'a [u8]> {
        self.words
            .split_inclusive(|glyph| *glyph == 0)
            .nth(i)?
            .strip_suffix(&[0])
    }
}

impl Host for Given<'_> {
    fn console(&self) -> Console {
        self.console
    }

    fn word_count(&self) -> usize {
        self.words.iter().filter(|glyph| **glyph == 0).count()
    }

    fn word(&self, i: usize, into: &mut [u8]) -> Option<usize> {
        let word = self.word_at(i)?;
        into.get_mut(..word.len())?.copy_from_slice(word);
        Some(word.len())
    }

    fn read_file(&self, path: &[u8], buffer: &mut [u8]) -> Result<usize, Unread> {
        self.read_counted(path, buffer)
    }

    fn read_counted(&self, path: &[u8], buffer: &mut [u8]) -> Result<usize, Unread> {
        if self.word_at(self.named) == Some(path) {
            return Ok(copy_front(self.file?, buffer));
        }
        Err(Unread::from(Error::from_raw_os_error(NO_FILE)))
    }
}
