// Numbers in a text: decimal, with no zero in front, at most six digits, each behind one space.
ghost use Rattle.std.specs.Prelude.{◌≡◌, ◌+◌, ◌<◌, ◌≤◌, length};
ghost use Rattle.std.proofs.lemmas.List.Edits.{sets};
ghost use Rattle.cif.specs.Text.{decimal, field};
ghost use Rattle.cif.specs.Steps.{Digit, DigitAt, NumeralTold, PairTold};

// A number with the place past it.
#[derive(Clone, Copy, PartialEq, Eq)]
pub struct Numeral {
    pub value: u32,
    pub next: usize,
}

// Two numbers with the place past them.
#[derive(Clone, Copy, PartialEq, Eq)]
pub struct Pair {
    pub first: u32,
    pub second: u32,
    pub next: usize,
}

// The least number of six digits: none is longer.
const SIX_DIGITS: u32 = 100000;

const SPACE: u8 = b' ';

const ZERO: u8 = b'0';

const NINE: u8 = b'9';

// What a byte is worth as a digit.
fn worth(b: u8) -> Option<u32>
    ensures { Digit b result }
{
    if b < ZERO {
        return None;
    }
    if NINE < b {
        return None;
    }
    Some(u32::from(b - ZERO))
}

// The digit at a place.
fn digit(text: &[u8], at: usize) -> Option<u32>
    ensures { DigitAt text.now at result }
{
    if text.len() <= at {
        return None;
    }
    worth(text[at])
}

// The number at a place. A zero in front is the whole number, and so are six digits: what follows is then no end of a number. No
// `for`: it ends by the value.
fn number(text: &[u8], at: usize) -> Option<Numeral>
    ensures { NumeralTold decimal text.now at result }
{
    let first = digit(text, at)?;
    let mut next = at + 1;
    if first == 0 {
        return Some(Numeral { value: 0, next });
    }
    let mut value = first;
    while value < SIX_DIGITS {
        let Some(d) = digit(text, next) else {
            return Some(Numeral { value, next });
        };
        value = 10 * value + d;
        next += 1;
    }
    Some(Numeral { value, next })
}

// A number behind one space.
fn spaced(text: &[u8], at: usize) -> Option<Numeral>
    ensures { NumeralTold field text.now at result }
{
    if text.len() <= at {
        return None;
    }
    if text[at] != SPACE {
        return None;
    }
    number(text, at + 1)
}

// Two numbers, each behind one space.
pub fn two(text: &[u8], at: usize) -> Option<Pair>
    ensures { PairTold text.now at result }
{
    let first = spaced(text, at)?;
    let second = spaced(text, first.next)?;
    Some(Pair {
        first: first.value,
        second: second.value,
        next: second.next,
    })
}

// How many digits a number has.
pub fn size(n: u32) -> usize
    requires { n < 1000000 }
    ensures { (result ≡ length (decimal n)) × (result ≤ 6) }
{
    if n < 10 {
        return 1;
    }
    if n < 100 {
        return 2;
    }
    if n < 1000 {
        return 3;
    }
    if n < 10000 {
        return 4;
    }
    if n < 100000 {
        return 5;
    }
    6
}

// Puts the digits of a number at a place, and gives the place past them.
fn put_number(out: &mut [u8], at: usize, n: u32) -> usize
    requires { (n < 1000000) × (at + length (decimal n) ≤ length out.old) }
    ensures { (result ≡ at + length (decimal n)) × (out.new ≡ sets out.old at (decimal n)) }
{
    if n < 10 {
        out[at] = ZERO + n as u8;
        return at + 1;
    }
    let last = put_number(out, at, n / 10);
    out[last] = ZERO + (n % 10) as u8;
    last + 1
}

// Puts a number behind one space.
pub fn put_spaced(out: &mut [u8], at: usize, n: u32) -> usize
    requires { (n < 1000000) × (at + length (field n) ≤ length out.old) }
    ensures { (result ≡ at + length (field n)) × (out.new ≡ sets out.old at (field n)) }
{
    out[at] = SPACE;
    put_number(out, at + 1, n)
}
