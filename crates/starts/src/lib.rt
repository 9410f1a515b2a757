// The runs of our programs, for a start in C (c/main.c). A static library reaches neither the words that a program is started with nor a
// file: so C hands them in, the words each with a zero byte behind it, and the file that the word of a number names, as far as it was read,
// with the system's number for what failed, 0 where nothing did. The three streams take no bytes, and C passes nothing for them.
// A static library is proved anew where it is made: so it is made of these few lines, and not of the libraries that hold the runs.
#![tactic(auto)]

use std::io::Error;
use std::rt::{Stderr, Stdin, Stdout};
use terminal::console::Console;
use terminal::given::Given;

// What C hands in, with no clock to wait by.
fn given<'a>(
    input: Stdin,
    out: Stdout,
    err: Stderr,
    words: &'a [u8],
    named: usize,
    file: &'a [u8],
    failure: i32,
) -> Given<'a> {
    let console = Console {
        input,
        out,
        err,
        clock: None,
    };
    let file = if failure == 0 {
        Ok(file)
    } else {
        Err(Error::from_raw_os_error(failure))
    };
    Given {
        console,
        words,
        named,
        file,
    }
}

#[unsafe(no_mangle)]
pub extern "C" fn pw_start_prep(
    input: Stdin,
    out: Stdout,
    err: Stderr,
    words: &[u8],
    named: usize,
    file: &[u8],
    failure: i32,
) -> u32 {
    let given = given(input, out, err, words, named, file, failure);
    u32::from(preparation::pw_prep(&given))
}

#[unsafe(no_mangle)]
pub extern "C" fn pw_start_salvage(
    input: Stdin,
    out: Stdout,
    err: Stderr,
    words: &[u8],
    named: usize,
    file: &[u8],
    failure: i32,
) -> u32 {
    let given = given(input, out, err, words, named, file, failure);
    u32::from(rescue::pw_salvage_run(&given))
}

#[unsafe(no_mangle)]
pub extern "C" fn pw_start_walk(
    input: Stdin,
    out: Stdout,
    err: Stderr,
    words: &[u8],
    named: usize,
    file: &[u8],
    failure: i32,
) -> u32 {
    let given = given(input, out, err, words, named, file, failure);
    u32::from(walking::pw_walk(&given))
}

#[unsafe(no_mangle)]
pub extern "C" fn pw_start_pinarewhemi(
    input: Stdin,
    out: Stdout,
    err: Stderr,
    words: &[u8],
    named: usize,
    file: &[u8],
    failure: i32,
) -> u32 {
    let given = given(input, out, err, words, named, file, failure);
    u32::from(subcommands::pw_pinarewhemi(&given))
}

// The same runs by the names that their libraries exported before: today a library hands nothing to C.

#[unsafe(no_mangle)]
pub extern "C" fn pw_prep(
    input: Stdin,
    out: Stdout,
    err: Stderr,
    words: &[u8],
    named: usize,
    file: &[u8],
    failure: i32,
) -> u32 {
    pw_start_prep(input, out, err, words, named, file, failure)
}

#[unsafe(no_mangle)]
pub extern "C" fn pw_salvage_run(
    input: Stdin,
    out: Stdout,
    err: Stderr,
    words: &[u8],
    named: usize,
    file: &[u8],
    failure: i32,
) -> u32 {
    pw_start_salvage(input, out, err, words, named, file, failure)
}

#[unsafe(no_mangle)]
pub extern "C" fn pw_walk(
    input: Stdin,
    out: Stdout,
    err: Stderr,
    words: &[u8],
    named: usize,
    file: &[u8],
    failure: i32,
) -> u32 {
    pw_start_walk(input, out, err, words, named, file, failure)
}

#[unsafe(no_mangle)]
pub extern "C" fn pw_pinarewhemi(
    input: Stdin,
    out: Stdout,
    err: Stderr,
    words: &[u8],
    named: usize,
    file: &[u8],
    failure: i32,
) -> u32 {
    pw_start_pinarewhemi(input, out, err, words, named, file, failure)
}
