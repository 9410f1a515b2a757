// A test that prints, on standard error: the short text of every refusal, in the order of their numbers, which tests/prep/run holds to
// include/pinarewhemi.h; and the line of a figure that is refused by 2, which no job can show.
#![tactic(auto)]

use explanation::figures::explain;
use explanation::texts::say_text;
use refusal::Refusal;
use std::rt::Stderr;
use terminal::errors::say;

// Those of a figure, 1 to 7; of a job, 8 to 14; of the other calls, 15 to 23.
const REFUSALS: [Refusal; 23] = [
    Refusal::Rule,
    Refusal::Length,
    Refusal::Slanted,
    Refusal::Unturned,
    Refusal::Empty,
    Refusal::Table,
    Refusal::List,
    Refusal::Ends,
    Refusal::Padded,
    Refusal::Range,
    Refusal::Extra,
    Refusal::Long,
    Refusal::Missing,
    Refusal::Room,
    Refusal::Preset,
    Refusal::Record,
    Refusal::Unclosed,
    Refusal::Extent,
    Refusal::Largest,
    Refusal::Full,
    Refusal::Shots,
    Refusal::Text,
    Refusal::Edge,
];

// The short text of a refusal, in a line.
fn line(err: Stderr, why: Refusal) {
    say_text(err, why);
    say(err, b"\n");
}

fn main(rt: HostRuntime) {
    let err = rt.stderr();
    for why in REFUSALS {
        line(err, why);
    }
    explain(err, 0, Refusal::Length, &[0; 6], &[3]);
}
