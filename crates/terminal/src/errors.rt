// Standard error: one line for whoever started the program. Where writing it fails, there is nobody to tell.
ghost use Rattle.std.specs.Prelude.{◌≡◌};
ghost use Rattle.terminal.specs.declared.status.Status.TheVariants.{Failed};

use crate::status::Status;
use std::fmt;
use std::fmt::{Display, Write};
use std::rt::Stderr;

// Some words.
pub fn say(err: Stderr, words: &[u8]) {
    let _told = Print::write_all(&err, words);
}

// Standard error for text as `write!` puts it together.
#[derive(Clone, Copy)]
pub struct Telling(pub Stderr);

impl Write for Telling {
    fn write_str(&mut self, text: &str) -> fmt::Result {
        say(self.0, text.as_bytes());
        Ok(())
    }
}

// What a value says of itself.
pub fn tell<T: Display>(err: Stderr, what: &T) {
    let _told = write!(Telling(err), "{what}");
}

// Some words, and a number after them.
pub fn say_number(err: Stderr, words: &[u8], n: u64) {
    let mut digits = [0u8; 20];
    let count = io::decimal(n, &mut digits);
    say(err, words);
    say(err, &digits[..count]);
}

// Some words, and the status of a program that could not do what it was asked.
pub fn complain(err: Stderr, words: &[u8]) -> Status
    ensures { result ≡ Failed }
{
    say(err, words);
    Status::Failed
}

// Words around two numbers, and the same status.
pub fn complain_of(err: Stderr, start: &[u8], n: u64, middle: &[u8], m: u64, end: &[u8]) -> Status
    ensures { result ≡ Failed }
{
    say_number(err, start, n);
    say_number(err, middle, m);
    complain(err, end)
}
