// Text drawings: a job as lines that people write and read. docs/JOB.md tells their form.
//   rule 25 40      the rule, in the first line that says something
//   figure          a figure begins
//   ring            a ring of it begins
//   0 0             a corner of the ring
#![tactic(auto)]

pub mod expected;
mod figures;
mod lines;
mod listing;

ghost use Rattle.std.specs.Prelude.{true, ◌≡◌};
ghost use Rattle.job.specs.Calls.{checked, check_told};
ghost use Rattle.terminal.specs.Output.{Remembers};
ghost use Rattle.drawing.specs.Packed.{Packs};

use expected::{BadLine, Expected};
use figures::pack_lines;
use job::MOST_BYTES;
use job::read::{Job, check};
use lines::rule_in;
use listing::print_job;
use refusal::Fault;
use std::rt::Stderr;
use terminal::errors::{say, say_number, tell};
use terminal::output::Output;

// The output after a listing, and what the job says; or why it is refused and where, with nothing printed.
#[derive(Clone, Copy)]
pub struct Listed {
    pub out: Output,
    pub checked: Result<Job, Fault>,
}

// Whether a job is sound.
fn is_sound(job: &[u8]) -> bool
    ensures { result ≡ true → (checked job.now).number ≡ 0 }
{
    check(job).is_ok()
}

// So many bytes at the front of the buffer, once they are seen to be a sound job.
fn checked_job(job: &[u8], n: usize, line: usize) -> Result<usize, BadLine>
    ensures { Packs result job.now }
{
    if n <= MOST_BYTES && n <= job.len() && is_sound(&job[..n]) {
        return Ok(n);
    }
    Err(Expected::Room.at(line))
}

// A drawing as a job at the front of a buffer: how many bytes it has; where a line is bad the buffer may hold a part of one.
pub fn pack(text: &[u8], job: &mut [u8]) -> Result<usize, BadLine>
    ensures sound { Packs result job.new }
{
    let rule = rule_in(text)?;
    let n = pack_lines(rule, job)?;
    checked_job(job, n, rule.line)
}

// Whether bytes begin as a drawing does, sound or not: the first word is `rule`, after blank lines and comments. The coordinates of a sound
// job may be such letters, with a slanted edge among them: whoever has bytes that may be a job asks `job::read::check` first.
pub fn is_drawing(bytes: &[u8]) -> bool {
    match rule_in(bytes) {
        Ok(_) => true,
        Err(bad) => bad.expected == Expected::Numbers,
    }
}

// Prints the drawing of a sound job; of any other nothing is printed.
pub fn list(job: &[u8], out: Output) -> Listed
    ensures told { (check_told result.checked ≡ checked job.now) × Remembers out result.out }
{
    let checked = check(job);
    if checked.is_err() {
        return Listed { out, checked };
    }
    Listed {
        out: print_job(out, job),
        checked,
    }
}

// Tells a bad line on standard error, in one line.
pub fn tell_line(err: Stderr, program: &[u8], name: &[u8], bad: BadLine) {
    say(err, program);
    say(err, b": ");
    say(err, name);
    say_number(err, b": line ", bad.line as u64);
    say(err, b": ");
    tell(err, &bad.expected);
    say(err, b"\n");
}
