// The words that a program is started with, numbered from 1, and the files that they name.
ghost use Rattle.std.specs.Prelude.{length, MatchResult, ◌≤◌};

use crate::errors::{complain, say};
use crate::host::Host;
use crate::input::{Unread, read_all};
use crate::reason::say_reason;
use std::rt::Stderr;

// A number with a digit more; none where it is no digit, or the number is long enough already.
fn grown(n: usize, glyph: u8) -> Option<usize> {
    if 99999 < n || !glyph.is_ascii_digit() {
        return None;
    }
    Some(10 * n + usize::from(glyph - b'0'))
}

// The number that a word says in decimal; none where it says none, or one of more than six digits.
pub fn number_of(word: &[u8]) -> Option<usize> {
    if word.is_empty() {
        return None;
    }
    let mut n = 0;
    for glyph in word {
        n = grown(n, *glyph)?;
    }
    Some(n)
}

// Argument i at the front of a buffer, and its length: 0 where there is none, or it is longer than the buffer. No Option (`Host::word` gives
// one): whoever asks shows the word, and shows an empty one where there is none.
pub fn argument<H: Host>(host: &H, i: usize, into: &mut [u8]) -> usize
    ensures { result ≤ length into.new }
{
    host.word(i, into).unwrap_or(0)
}

// The number that argument i says; none where there is no such argument, or it says none.
pub fn number_argument<H: Host>(host: &H, i: usize) -> Option<usize> {
    let mut word = [0u8; 8];
    let length = host.word(i, &mut word)?;
    number_of(&word[..length])
}

// Whether argument i is this word, which has at most 16 bytes.
pub fn is_argument<H: Host>(host: &H, i: usize, word: &[u8]) -> bool {
    let mut asked = [0u8; 16];
    host.word(i, &mut asked)
        .is_some_and(|length| &asked[..length] == word)
}

// A file that cannot be read: the program, the file's name and the reason, in one line.
fn say_unread(err: Stderr, program: &[u8], path: &[u8], unread: Unread) {
    say(err, program);
    say(err, b": ");
    say(err, path);
    say(err, b": ");
    if let Some(why) = unread.why {
        say_reason(err, why);
    }
    say(err, b"\n");
}

// Standard input, as much of it as the buffer holds: how many bytes; where reading failed, that is told.
pub fn read_standard<H: Host>(host: &H, program: &[u8], buffer: &mut [u8]) -> Result<usize, Unread>
    ensures { MatchResult result (λ n. n ≤ length buffer.new) (λ unread. unread.bytes ≤ length buffer.new) }
{
    let console = host.console();
    let mut input = console.input;
    let read = read_all(&mut input, console.clock, buffer);
    if read.is_err() {
        say(console.err, program);
        complain(console.err, b": reading failed\n");
    }
    read
}

// A file, in the same way.
pub fn read_file<H: Host>(
    host: &H,
    program: &[u8],
    path: &[u8],
    buffer: &mut [u8],
) -> Result<usize, Unread>
    ensures { MatchResult result (λ n. n ≤ length buffer.new) (λ unread. unread.bytes ≤ length buffer.new) }
{
    let read = host.read_counted(path, buffer);
    if let Err(unread) = read {
        say_unread(host.console().err, program, path, unread);
    }
    read
}

// The file that argument i names, in the same way; `-` names standard input.
pub fn read_argument<H: Host>(
    host: &H,
    program: &[u8],
    i: usize,
    buffer: &mut [u8],
) -> Result<usize, Unread>
    ensures { MatchResult result (λ n. n ≤ length buffer.new) (λ unread. unread.bytes ≤ length buffer.new) }
{
    if is_argument(host, i, b"-") {
        return read_standard(host, program, buffer);
    }
    let mut path = io::buffer();
    match host.word(i, &mut path) {
        Some(length) => read_file(host, program, &path[..length], buffer),
        None => {
            let err = host.console().err;
            say(err, program);
            complain(err, b": the name of a file is missing, or too long\n");
            Err(Unread {
                bytes: 0,
                why: None,
            })
        }
    }
}

// What a program with one input works on, in the same way: the file that its first word names, or standard input.
pub fn read_only<H: Host>(host: &H, program: &[u8], buffer: &mut [u8]) -> Result<usize, Unread>
    ensures { MatchResult result (λ n. n ≤ length buffer.new) (λ unread. unread.bytes ≤ length buffer.new) }
{
    if host.word_count() < 2 {
        return read_standard(host, program, buffer);
    }
    read_argument(host, program, 1, buffer)
}
