// Standard output, by way of a buffer. It stops at the first write that fails.
ghost use Rattle.std.specs.Prelude.{length, true, false, ◌≡◌, ◌≤◌, ◌<◌};
ghost use Rattle.terminal.specs.Output.{Remembers};

use crate::console::Console;
use crate::waiting::{PATIENCE, worth_another};
use std::fmt;
use std::fmt::Write;

// The streams of the program; the bytes that are still to be written, so many at the front of the buffer: 255 at most, so that any count is
// within it. And whether a write failed, after which nothing is written any more. The buffer is fixed, and no Vec: printing takes no
// memory, so that it cannot run out of it.
#[derive(Clone, Copy)]
pub struct Output {
    pub console: Console,
    pub bytes: [u8; 256],
    pub held: u8,
    pub failed: bool,
}

// One write, tried again where that is worth it: how many bytes it took, 0 where it failed. No Result: a write that takes nothing counts as
// one that failed.
fn write_some(to: Console, bytes: &[u8]) -> usize
    ensures { result ≤ length bytes.now }
{
    for _ in 0..PATIENCE {
        match Print::write_some(&to.out, bytes) {
            Ok(took) => {
                return took;
            }
            Err(why) => {
                if !worth_another(why, to.clock) {
                    return 0;
                }
            }
        }
    }
    0
}

// Writes all the bytes, or stops at the first write that takes none. No `for`: how far one turn goes, the stream says.
fn write_all(to: Console, bytes: &[u8]) -> bool {
    let mut left = bytes;
    while !left.is_empty() {
        let took = write_some(to, left);
        if took == 0 {
            return false;
        }
        left = &left[took..];
    }
    true
}

// Writes what is held, unless a write failed before.
pub fn flush(out: Output) -> Output
    ensures { (result.held ≡ 0) × Remembers out result }
{
    let held = usize::from(out.held);
    let failed = out.failed || !write_all(out.console, &out.bytes[..held]);
    Output {
        held: 0,
        failed,
        ..out
    }
}

// Room for a byte: where the buffer is full, what is held is written.
fn make_room(out: &mut Output)
    ensures { (out.new.held < 255) × Remembers out.old out.new }
{
    if 255 <= out.held {
        *out = flush(*out);
    }
}

// A byte more, in place: the buffer is not moved for each.
fn put_byte(out: &mut Output, byte: u8)
    ensures { Remembers out.old out.new }
{
    make_room(out);
    out.bytes[usize::from(out.held)] = byte;
    out.held += 1;
}

// A word more, in place.
fn put(out: &mut Output, word: &[u8])
    ensures { Remembers out.old out.new }
{
    for byte in word {
        put_byte(out, *byte);
    }
}

// A word more. Not by `write!`, which promises nothing of a failure that is forgotten; by value, as the callers' proofs have it.
pub fn print(out: Output, word: &[u8]) -> Output
    ensures { Remembers out result }
{
    let mut next = out;
    put(&mut next, word);
    next
}

// A word more, and a number after it.
pub fn print_number(out: Output, word: &[u8], n: u64) -> Output
    ensures { Remembers out result }
{
    let mut digits = [0u8; 20];
    let count = io::decimal(n, &mut digits);
    let mut next = out;
    put(&mut next, word);
    put(&mut next, &digits[..count]);
    next
}

// Text as `write!` puts it together. It gives no error: the output keeps in mind whether a write failed.
impl Write for Output {
    fn write_str(&mut self, text: &str) -> fmt::Result {
        put(self, text.as_bytes());
        Ok(())
    }
}

// Nothing printed yet.
pub fn nothing_yet(console: Console) -> Output {
    Output {
        console,
        bytes: [0; 256],
        held: 0,
        failed: false,
    }
}

// Writes the last of the output; whether all of it went.
pub fn finish(out: Output) -> bool
    ensures { out.failed ≡ true → result ≡ false }
{
    let last = flush(out);
    !last.failed
}

// Some words at once, for a program that keeps nothing back.
pub fn write_now(out: &mut Output, words: &[u8])
    ensures { Remembers out.old out.new }
{
    put(out, words);
    *out = flush(*out);
}

// Whether all words went that were written at once.
pub fn close(out: Output) -> bool
    ensures { out.failed ≡ true → result ≡ false }
{
    !out.failed
}
