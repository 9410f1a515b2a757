// The bytes of jobs, sound and damaged: what the number reader and the job check answer, line by line.
#![tactic(auto)]

use job::read::check;
use number::Cursor;
use std::fmt;
use std::fmt::Display;

// The worked example of the scope: drawing L by the rule 25, 40.
const WORKED: [u8; 16] = [
    0x19, 0x28, 0x01, 0x06, 0x00, 0x00, 0x64, 0x00, 0x64, 0x14, 0x3c, 0x14, 0x3c, 0x50, 0x00, 0x50,
];

// What each byte in turn is damaged to.
const DAMAGES: [u8; 6] = [0x00, 0x01, 0x21, 0x7f, 0x80, 0xff];

// Bytes as a hex viewer shows them.
#[derive(Clone, Copy)]
struct Hex<'a>(&'a [u8]);

impl Display for Hex<'_> {
    fn fmt<W: fmt::Write>(&self, f: &mut fmt::Formatter<W>) -> fmt::Result {
        for byte in self.0 {
            write!(f, "{byte:02x} ")?;
        }
        Ok(())
    }
}

// What the number reader answers at a place.
fn say_number<R: Print>(rt: &R, bytes: &[u8], at: usize) {
    let shown = Hex(bytes);
    let _told = match (Cursor { at }).number(bytes) {
        Ok(read) => {
            println!(rt;
                "number {shown}at {at}: {} next {}",
                read.value, read.next.at
            )
        }
        Err(fault) => {
            println!(rt;
                "number {shown}at {at}: refused {} at {}",
                u32::from(fault.why),
                fault.at
            )
        }
    };
}

// What the check of a whole job answers.
fn say_job<R: Print, N: Display + Drop>(rt: &R, name: N, job: &[u8]) {
    let _told = match check(job) {
        Ok(said) => {
            println!(rt;
                "{name}: threshold {} weight {} outlines {}",
                said.threshold, said.weight, said.outlines
            )
        }
        Err(fault) => { println!(rt; "{name}: refused {} at {}", u32::from(fault.why), fault.at) }
    };
}

// Numbers at the front of some bytes and behind it, sound and broken.
fn numbers<R: Print>(rt: &R) {
    say_number(rt, b"\x80\x00", 0);
    say_number(rt, b"\x80\x80\x80\x00", 0);
    say_number(rt, b"\x00", 0);
    say_number(rt, b"\x7f", 0);
    say_number(rt, b"\x80\x01", 0);
    say_number(rt, b"\xff\xff\x03", 0);
    say_number(rt, b"\xff\xff\x7f", 0);
    say_number(rt, b"\x80\x80", 0);
    say_number(rt, b"\x80\x80\x80", 0);
    say_number(rt, b"\x80\x80\x00", 0);
    say_number(rt, b"\x05\x80", 1);
    say_number(rt, b"\x05\x80", 2);
    say_number(rt, b"\x05\x80", 7);
}

// The worked example cut short in every way, and with a byte more.
fn cuts<R: Print>(rt: &R) {
    for n in 0..=WORKED.len() {
        let job = WORKED;
        say_job(rt, format_args!("first {n} bytes"), &job[..n]);
    }
    let longer = b"\x19\x28\x01\x06\x00\x00\x64\x00\x64\x14\x3c\x14\x3c\x50\x00\x50\x00";
    say_job(rt, "one byte more", longer);
}

// The worked example with each byte damaged in turn.
fn damages<R: Print>(rt: &R) {
    for i in 0..WORKED.len() {
        for damage in DAMAGES {
            let mut job = WORKED;
            job[i] = damage;
            say_job(rt, format_args!("byte {i} set to {damage:02x}"), &job);
        }
    }
}

fn main(rt: HostRuntime) {
    numbers(&rt);
    cuts(&rt);
    damages(&rt);
}
