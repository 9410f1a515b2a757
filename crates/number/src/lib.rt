// Numbers of a job: groups of seven bits, lowest group first, one to a byte; the top bit is set on every byte but the last.
#![tactic(auto)]

ghost use Rattle.std.specs.Prelude.{◌≡◌, ◌≤◌, ◌<◌, ◌+◌, ◌-◌, ◌*◌, length, get_or, IfOk, IfErr};
ghost use Rattle.refusal.specs.declared.Refusal.TheVariants.{Ends};
ghost use Rattle.number.specs.Faults.{AllBytes};
ghost use Rattle.number.specs.Number.{number, read_told};

use refusal::{Fault, Refusal};

// A place in the bytes of a job.
#[derive(Clone, Copy, PartialEq, Eq)]
pub struct Cursor {
    pub at: usize,
}

// A number, with the place past its last byte.
#[derive(Clone, Copy, PartialEq, Eq)]
pub struct Read {
    pub value: u32,
    pub next: Cursor,
}

// The byte at a place, or the fault that the bytes end, shown by their end.
fn byte(s: &[u8], at: usize) -> Result<u8, Fault>
    ensures there { IfOk result (λ b. (at < length s.now) × (b ≡ get_or s.now at 0)) }
    ensures ends { IfErr result (λ e. (length s.now ≤ at) × (e ≡ record { why = Ends; at = length s.now })) }
{
    s.get(at).copied().ok_or(Refusal::Ends.at(s.len()))
}

// The value of two groups.
fn two(a: u8, b: u8) -> u32
    requires { 128 ≤ a }
    ensures { result ≡ (a - 128) + 128 * b }
{
    (u32::from(a) - 128) + 128 * u32::from(b)
}

// The value of three groups.
fn three(a: u8, b: u8, d: u8) -> u32
    requires { (128 ≤ a) × (128 ≤ b) }
    ensures { result ≡ (a - 128) + 128 * (b - 128) + 16384 * d }
{
    (u32::from(a) - 128) + 128 * (u32::from(b) - 128) + 16384 * u32::from(d)
}

impl Cursor {
    // The number at the cursor, or the byte at fault: where the bytes end, or the last byte read. A value is held to no range here:
    // that is for whoever wanted it. Numbers of two bytes and of three leave at one place: from a place each the compiler puts the value
    // together byte by byte, as the reason of a fault lies where the value's first byte does.
    pub fn number(self, s: &[u8]) -> Result<Read, Fault>
        ensures settled { read_told result ≡ number s.now self.at }
        ensures bytes { AllBytes s.now }
    {
        let at = self.at;
        let a = byte(s, at)?;
        if a < 128 {
            return Ok(Read {
                value: u32::from(a),
                next: Cursor { at: at + 1 },
            });
        }
        let at1 = at + 1;
        let b = byte(s, at1)?;
        if b == 0 {
            return Err(Refusal::Padded.at(at1));
        }
        let (value, past) = if b < 128 {
            (two(a, b), at + 2)
        } else {
            let at2 = at + 2;
            let d = byte(s, at2)?;
            if 128 <= d {
                return Err(Refusal::Range.at(at2));
            }
            if d == 0 {
                return Err(Refusal::Padded.at(at2));
            }
            (three(a, b, d), at + 3)
        };
        Ok(Read {
            value,
            next: Cursor { at: past },
        })
    }
}
