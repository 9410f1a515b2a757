// A test that prints: what another crate gets of public functions that no other crate of ours calls.
#![tactic(auto)]

use fracture::{Denial, Fractured};
use job::read::header;
use job::{Header, MOST_OUTLINES};
use preparation::lines::{print_done, print_outline};
use refusal::{Fault, Refusal};
use std::io::Error;
use std::rt::Stderr;
use terminal::console::Console;
use terminal::given::{Given, copy_front};
use terminal::host::Host;
use terminal::input::Unread;
use terminal::output::{finish, nothing_yet};
use walking::figures::{Figure, Wording, front};

// Two shots, and what a fracture into them tells.
const SHOTS: [u16; 8] = [0, 0, 60, 80, 60, 0, 100, 20];

const DONE: Fractured = Fractured {
    shots: 2,
    cost: 5200,
    sliver: 80,
    cuts: 3,
};

// Drawing L and a square, by the rule 25, 40.
const JOB: [u8; 25] = [
    0x19, 0x28, 0x02, 0x06, 0x00, 0x00, 0x64, 0x00, 0x64, 0x14, 0x3c, 0x14, 0x3c, 0x50, 0x00, 0x50,
    0x04, 0x00, 0x00, 0x0a, 0x00, 0x0a, 0x0a, 0x00, 0x0a,
];

// The lines of outlines: beside both shots, beside one and some of the other, beside none; and where the outline was refused.
fn lines(console: Console) {
    let refused = Denial {
        why: Refusal::List,
        needed: 2,
    };
    let mut out = print_outline(nothing_yet(console), 0, Ok(DONE), &SHOTS);
    out = print_outline(out, 1, Ok(DONE), &SHOTS[..7]);
    out = print_outline(out, 2, Ok(DONE), &[]);
    out = print_outline(out, 3, Err(refused), &SHOTS);
    out = print_done(out, DONE, &SHOTS);
    let _all = finish(print_done(out, DONE, &SHOTS[..4]));
}

// Three bytes, copied to where there is room for none, for some, for all and for more.
fn copies<R: Print>(rt: &R) {
    for room in 0..5 {
        let mut into = [46; 4];
        let n = copy_front(b"abc", &mut into[..room]);
        let _told = println!(rt; "room for {room}: {n} copied, {into:?}");
    }
}

// A host of another crate that cannot read, and tells more bytes than there is room for.
#[derive(Clone, Copy)]
struct Failing {
    console: Console,
}

impl Host for Failing {
    fn console(&self) -> Console {
        self.console
    }

    fn word_count(&self) -> usize {
        0
    }

    fn word(&self, _i: usize, _into: &mut [u8]) -> Option<usize> {
        None
    }

    fn read_file(&self, _path: &[u8], _buffer: &mut [u8]) -> Result<usize, Unread> {
        Err(Unread {
            bytes: 9,
            why: None,
        })
    }
}

// What reading a file tells.
fn say_read<R: Print>(rt: &R, read: Result<usize, Unread>) {
    let _told = match read {
        Ok(bytes) => { println!(rt; "{bytes} bytes") }
        Err(unread) => {
            println!(rt;
                "failed after {} bytes, a reason is told: {}",
                unread.bytes,
                unread.why.is_some()
            )
        }
    };
}

// A file that a host has or not, read to where there is room for two bytes.
fn file<R: Print, H: Host>(rt: &R, host: &H, path: &[u8]) {
    let mut buffer = [0; 2];
    say_read(rt, host.read_file(path, &mut buffer));
    say_read(rt, host.read_counted(path, &mut buffer));
}

// The file that a start in C hands in, where reading it went well and where it failed; one that it has not; those of other hosts.
fn files<R: Print, H: Host>(rt: &R, host: &H) {
    let console = host.console();
    let given = Given {
        console,
        words: b"program\0it\0",
        named: 1,
        file: Ok(b"abc"),
    };
    let failed = Given {
        file: Err(Error::from_raw_os_error(5)),
        ..given
    };
    file(rt, &given, b"it");
    file(rt, &given, b"another");
    file(rt, &failed, b"it");
    file(rt, &Failing { console }, b"it");
    file(rt, host, b"");
}

// The front of three items.
fn fronts<R: Print>(rt: &R) {
    for n in 0..5 {
        let _told = println!(rt; "the first {n} of 3: {:?}", front(&[7, 8, 9], n));
    }
}

// The number of one of three, asked for in words that say none, or one.
fn asked_numbers<R: Print>(rt: &R, err: Stderr) {
    let wording = Wording {
        wanted: b"a number is wanted\n",
        none: b"no number ",
        has: b" of ",
    };
    for asked in [None, Some(0), Some(2), Some(3)] {
        let _told = match wording.number(err, asked, 3) {
            Ok(n) => { println!(rt; "number {n}") }
            Err(status) => { println!(rt; "status {}", u32::from(status)) }
        };
    }
}

// A figure, or why it is refused and where.
fn say_figure<R: Print>(rt: &R, k: usize, answer: Result<Figure, Fault>) {
    let _told = match answer {
        Ok(figure) => {
            println!(rt;
                "figure {k}: {:?}, {:?}",
                figure.corners(),
                figure.lengths()
            )
        }
        Err(fault) => {
            println!(rt;
                "figure {k}: refused {} at {}",
                u32::from(fault.why),
                fault.at
            )
        }
    };
}

// The figures of a job by its header, which are read up to their last bytes; and taken, for which the whole job is read.
fn figures<R: Print>(rt: &R, job: &[u8]) {
    let Ok(said) = header(job) else {
        return;
    };
    for k in [0, 1, 2, MOST_OUTLINES as usize] {
        say_figure(rt, k, Figure::new(job, said, k));
        say_figure(rt, k, Figure::taken(job, k));
    }
}

fn main(rt: HostRuntime) {
    let console = rt.console();
    lines(console);
    copies(&rt);
    files(&rt, &rt);
    fronts(&rt);
    asked_numbers(&rt, console.err);
    figures(&rt, &JOB);
    figures(&rt, &JOB[..24]);
}
