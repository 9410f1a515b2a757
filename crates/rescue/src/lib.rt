// What is left of a job, as a library: reads a job, writes the sound job of the outlines before its first fault to standard output, and the
// report in one line to standard error, and gives the status to end with. A job that cannot be saved is refused there in one line, and
// nothing else is written.
#![tactic(auto)]

ghost use Rattle.std.specs.Prelude.{eqb, ◌&&◌, cond, ◌⊎◌, ◌≡◌};
ghost use Rattle.terminal.specs.Status.{status_no};
ghost use Rattle.rescue.specs.Status.{status};

use explanation::jobs::{explain, say_if_drawing};
use job::MOST_BYTES;
use refusal::Fault;
use saving::{Saved, save};
use std::rt::Stderr;
use terminal::arguments::{is_argument, read_only};
use terminal::console::Console;
use terminal::errors::{complain, say, say_number};
use terminal::host::Host;
use terminal::output::{Output, finish, nothing_yet, print};
use terminal::status::Status;

// The line of a job that was saved; of a text drawing, of which nothing is, one more.
fn report(err: Stderr, job: &[u8], saved: Saved) {
    say_number(err, b"kept ", u64::from(saved.kept));
    say_number(err, b" lost ", u64::from(saved.lost));
    say_number(err, b" dropped ", saved.dropped as u64);
    say(err, b"\n");
    if saved.kept == 0 {
        say_if_drawing(err, job);
    }
}

// The line of a job that cannot be saved, in words.
fn refuse(err: Stderr, job: &[u8], fault: Fault) -> Status
    ensures { status_no result ≡ 1 }
{
    say(err, b"job ");
    explain(err, job, fault);
    Status::Refused
}

// Whether all of the job was kept: no outline lost, no byte dropped.
fn is_whole(lost: u32, dropped: usize) -> bool
    ensures { result ≡ (eqb lost 0 && eqb dropped 0) }
{
    lost == 0 && dropped == 0
}

// Writes the last of the output, and gives the status: refused where something was lost.
fn ended(out: Output, whole: bool) -> Status
    ensures { (status_no result ≡ 2) ⊎ (status_no result ≡ cond whole 0 1) }
{
    if !finish(out) {
        return complain(out.console.err, b"salvage: writing failed\n");
    }
    if whole {
        return Status::Done;
    }
    Status::Refused
}

// A job: saved, with a report where all of it was written; or refused in one line.
pub fn run(console: Console, job: &[u8], room: &mut [u8]) -> Status
    ensures { (status_no result ≡ 2) ⊎ (status_no result ≡ status job.now room.old) }
{
    match save(job, room) {
        Ok(saved) => {
            let written = print(nothing_yet(console), &room[..saved.bytes]);
            let ends = ended(written, is_whole(saved.lost, saved.dropped));
            if ends != Status::Failed {
                report(console.err, job, saved);
            }
            ends
        }
        Err(fault) => refuse(console.err, job, fault),
    }
}

// The help: what the words mean, and the status.
fn help(console: Console) -> Status {
    let named = print(
        nothing_yet(console),
        b"salvage [FILE] > SOUND: keeps the outlines of a broken job before its first fault, as a sound job\n",
    );
    let given = print(named, b"FILE is the job; nothing or - is standard input\n");
    let told = print(
        given,
        b"standard error says what was kept, lost and dropped\n",
    );
    let ended_with = print(
        told,
        b"status 0: nothing was lost; 1: the job was refused, or something of it was lost; 2: reading or writing failed\n",
    );
    ended(ended_with, true)
}

// The run of the job that the one word names, or of standard input. One byte more than the longest job is read, so that a longer one shows.
fn read_and_run<H: Host>(host: &H) -> Status {
    let mut job = [0u8; MOST_BYTES + 1];
    let mut room = [0u8; MOST_BYTES];
    let Ok(n) = read_only(host, b"salvage", &mut job) else {
        return Status::Failed;
    };
    run(host.console(), &job[..n], &mut room)
}

// The whole run, with its status.
pub fn pw_salvage_run<H: Host>(host: &H) -> Status {
    let console = host.console();
    if 2 < host.word_count() {
        return complain(
            console.err,
            b"salvage: one file is wanted, or nothing; salvage --help says more\n",
        );
    }
    if is_argument(host, 1, b"--help") {
        return help(console);
    }
    read_and_run(host)
}
