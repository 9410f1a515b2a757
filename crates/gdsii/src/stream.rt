// The records of one boundary element of a GDSII stream, from the front, the first record at fault deciding. No place is added to before
// it is known that the bytes reach so far, so no sum wraps.
ghost use Rattle.std.specs.Prelude.{◌≡◌, ◌+◌, ◌*◌, ◌≤◌, length};
ghost use Rattle.gdsii.specs.Record as records;
ghost use Rattle.gdsii.specs.Steps.{past_told, scan_told};

use refusal::{Fault, Refusal};

// Points in a row: where the first one stands, and how many there are, eight bytes each.
#[derive(Clone, Copy, PartialEq, Eq)]
pub struct Run {
    pub first: usize,
    pub count: usize,
}

// Types of records.
const TYPE_BOUNDARY: u8 = 0x08;

const TYPE_LAYER: u8 = 0x0D;

const TYPE_DATATYPE: u8 = 0x0E;

const TYPE_XY: u8 = 0x10;

const TYPE_ENDEL: u8 = 0x11;

const TYPE_ELFLAGS: u8 = 0x26;

const TYPE_PLEX: u8 = 0x2F;

// Data types: none, a bit array, signed numbers of two bytes and of four.
const NO_DATA: u8 = 0;

const BIT_ARRAY: u8 = 1;

const TWO_BYTES: u8 = 2;

const FOUR_BYTES: u8 = 3;

// The value of two bytes.
fn pair(high: u8, low: u8) -> u32
    ensures { (result ≡ 256 * high + low) × (result ≤ 65535) }
{
    256 * u32::from(high) + u32::from(low)
}

// Two bytes as a number, high first.
pub fn pair_at(element: &[u8], at: usize) -> u32
    requires { at + 2 ≤ length element.now }
    ensures { (result ≡ records.pair_at element.now at) × (result ≤ 65535) }
{
    let high = element[at];
    let low = element[at + 1];
    pair(high, low)
}

// The length that the record at a place announces, its own four bytes of length and types counted.
fn size_at(element: &[u8], at: usize) -> usize
    requires { at + 4 ≤ length element.now }
    ensures { result ≡ records.size_at element.now at }
{
    pair_at(element, at) as usize
}

// 8: the bytes end within the record at a place, or before it.
fn cut_short(element: &[u8], at: usize) -> bool
    ensures { result ≡ records.short element.now at }
{
    let len = element.len();
    if len < at {
        return true;
    }
    let left = len - at;
    if left < 4 {
        return true;
    }
    left < size_at(element, at)
}

// Whether the record at a place has this type.
fn has_type(element: &[u8], at: usize, kind: u8) -> bool
    requires { at + 4 ≤ length element.now }
    ensures { result ≡ records.typed element.now at kind }
{
    element[at + 2] == kind
}

// Whether the record at a place has this type, this data type and this length.
fn is(element: &[u8], at: usize, kind: u8, form: u8, size: usize) -> bool
    requires { at + 4 ≤ length element.now }
    ensures { result ≡ records.is element.now at kind form size }
{
    let of_type = has_type(element, at, kind);
    let of_form = element[at + 3] == form;
    let of_size = size_at(element, at) == size;
    of_type && (of_form && of_size)
}

// Past a record that has to stand at a place; or 8 with the offset of the record cut short, 16 with 0.
fn required(element: &[u8], at: usize, kind: u8, form: u8, size: usize) -> Result<usize, Fault>
    ensures { past_told result ≡ records.required element.now at kind form size }
{
    if cut_short(element, at) {
        return Err(Refusal::Ends.at(at));
    }
    if is(element, at, kind, form, size) {
        return Ok(at + size);
    }
    Err(Refusal::Record.at(0))
}

// Past a record that may stand at a place; before a record of another type, still there.
fn optional(element: &[u8], at: usize, kind: u8, form: u8, size: usize) -> Result<usize, Fault>
    ensures { past_told result ≡ records.optional element.now at kind form size }
{
    if cut_short(element, at) {
        return Err(Refusal::Ends.at(at));
    }
    if has_type(element, at, kind) {
        return required(element, at, kind, form, size);
    }
    Ok(at)
}

// From the front past BOUNDARY, and past ELFLAGS and PLEX where they stand. What these two hold is free.
fn heading(element: &[u8]) -> Result<usize, Fault>
    ensures { past_told result ≡ records.heading element.now }
{
    let flags = required(element, 0, TYPE_BOUNDARY, NO_DATA, 4)?;
    let plex = optional(element, flags, TYPE_ELFLAGS, BIT_ARRAY, 6)?;
    optional(element, plex, TYPE_PLEX, FOUR_BYTES, 8)
}

// Past LAYER and DATATYPE, whatever they hold.
fn layering(element: &[u8], at: usize) -> Result<usize, Fault>
    ensures { past_told result ≡ records.layering element.now at }
{
    let next = required(element, at, TYPE_LAYER, TWO_BYTES, 6)?;
    required(element, next, TYPE_DATATYPE, TWO_BYTES, 6)
}

// The points of XY: one at least, and whole ones only.
fn xy(element: &[u8], at: usize) -> Result<Run, Fault>
    ensures { scan_told result ≡ records.xy element.now at }
{
    if cut_short(element, at) {
        return Err(Refusal::Ends.at(at));
    }
    let size = size_at(element, at);
    if size < 12 {
        return Err(Refusal::Record.at(0));
    }
    let count = (size - 4) / 8;
    if is(element, at, TYPE_XY, FOUR_BYTES, 4 + 8 * count) {
        let first = at + 4;
        return Ok(Run { first, count });
    }
    Err(Refusal::Record.at(0))
}

// Past ENDEL, with which the bytes have to end: one byte more is 16, also where it looks like a record cut short.
fn ending(element: &[u8], at: usize) -> Result<usize, Fault>
    ensures { past_told result ≡ records.ending element.now at }
{
    let last = required(element, at, TYPE_ENDEL, NO_DATA, 4)?;
    if last == element.len() {
        return Ok(last);
    }
    Err(Refusal::Record.at(0))
}

// The points that stand at a place, where the element ends after them.
fn body(element: &[u8], at: usize) -> Result<Run, Fault>
    ensures { scan_told result ≡ records.body element.now at }
{
    let run = xy(element, at)?;
    ending(element, run.first + 8 * run.count)?;
    Ok(run)
}

// The points of a whole element, in one pass over its records; or the first of 8 and 16.
pub fn scan(element: &[u8]) -> Result<Run, Fault>
    ensures { scan_told result ≡ records.element element.now }
{
    let layer = heading(element)?;
    let points = layering(element, layer)?;
    body(element, points)
}
