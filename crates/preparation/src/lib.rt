// The job program as a library: reads a job, fractures each outline by the job's rule, prints the shots, and gives the status to end with.
#![tactic(auto)]

pub mod lines;
mod outlines;

ghost use Rattle.std.specs.Prelude.{length, ◌⊎◌, ◌≡◌, ◌≤◌};
ghost use Rattle.terminal.specs.Status.{status_no};
ghost use Rattle.preparation.specs.Status.{Ends, status};

use explanation::jobs;
use fracture::{ENTRIES, NUMBERS};
use job::{MOST_BYTES, MOST_OUTLINES};
use lines::{print_help, print_job, print_refused};
use outlines::{begin, run_outlines};
use std::rt::Stderr;
use terminal::arguments::{is_argument, read_only};
use terminal::console::Console;
use terminal::errors::complain;
use terminal::host::Host;
use terminal::output::{Output, finish, nothing_yet};
use terminal::status::Status;

// Writes the last of the output, and gives the status.
fn ended(out: Output, refused: bool) -> Status
    ensures { Ends out refused (status_no result) }
{
    if !finish(out) {
        return Status::Failed;
    }
    if refused {
        return Status::Refused;
    }
    Status::Done
}

// A job: refused in one line, and explained at once on standard error; or run.
fn run(console: Console, job: &[u8], table: &mut [u32], list: &mut [u16]) -> Status
    requires { (14400 ≤ length table.old) × (900 ≤ length list.old) }
    ensures { (status_no result ≡ 2) ⊎ (status_no result ≡ status job.now) }
{
    let out = nothing_yet(console);
    let mut index = [0u16; MOST_OUTLINES as usize];
    match begin(job, &mut index) {
        Ok(header) => {
            let told = print_job(out, header.outlines);
            let ran = run_outlines(job, &index, header, table, list, told);
            ended(ran.out, ran.refused)
        }
        Err(fault) => {
            jobs::explain(console.err, job, fault);
            ended(print_refused(out, fault), true)
        }
    }
}

// The status, and a line on standard error where writing failed.
fn told(err: Stderr, status: Status) -> Status
    ensures { result ≡ status }
{
    if status == Status::Failed {
        complain(err, b"prep: writing failed\n");
    }
    status
}

// The run of the job that the one word names, or of standard input. One byte more than the longest job is read, so that a longer one
// shows. Table and list are enough for every figure.
fn read_and_run<H: Host>(host: &H) -> Status {
    let console = host.console();
    let mut job = [0u8; MOST_BYTES + 1];
    let mut table = [0u32; ENTRIES];
    let mut list = [0u16; NUMBERS];
    let Ok(n) = read_only(host, b"prep", &mut job) else {
        return Status::Failed;
    };
    told(console.err, run(console, &job[..n], &mut table, &mut list))
}

// The whole run, with its status.
pub fn pw_prep<H: Host>(host: &H) -> Status {
    let console = host.console();
    if 2 < host.word_count() {
        return complain(
            console.err,
            b"prep: one file is wanted, or nothing; prep --help says more\n",
        );
    }
    if is_argument(host, 1, b"--help") {
        return told(console.err, ended(print_help(nothing_yet(console)), false));
    }
    read_and_run(host)
}
