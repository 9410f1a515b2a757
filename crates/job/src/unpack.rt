// Unpacking: from the bytes of one figure to its two lists, all its coordinates and how many corners each ring has.
ghost use Rattle.std.specs.Prelude.{◌≡◌, ◌+◌, ◌≤◌, ◌<◌, length, set};
ghost use Rattle.std.proofs.lemmas.List.Edits.{sets};
ghost use Rattle.number.specs.Reading.{read, past};
ghost use Rattle.figure.specs.Figure.{most_corners};
ghost use Rattle.job.specs.Job.{coordinates, ring, rings_from};
ghost use Rattle.job.specs.Calls.{unpacked, unpack_told};
ghost use Rattle.job.specs.Steps.{sized, IsRead, values_of, numbers_of, lengths_of};

use crate::{LEAST_CORNERS, MOST_CORNERS, read};
use figure::MOST_PLACE;
use number::{Cursor, Read};
use refusal::{Fault, Refusal};

// How many corners a figure has in all, and how many rings.
#[derive(Clone, Copy, PartialEq, Eq)]
pub struct Unpacked {
    pub corners: u32,
    pub rings: u32,
}

// Stores coordinates, which are known to read well, until the list is full, and gives the place past their bytes.
fn store(part: &[u8], from: Cursor, list: &mut [u16]) -> Cursor
    requires read { IsRead (coordinates part.now (length list.old) from.at) }
    ensures at_value { read tt result.at ≡ past (coordinates part.now (length list.old) from.at) }
    ensures list_after { list.new ≡ values_of (coordinates part.now (length list.old) from.at) }
{
    let mut c = from;
    for place in list.iter_mut() {
        let read = read::value(part, c, 0, MOST_PLACE).unwrap();
        *place = read.value as u16;
        c = read.next;
    }
    c
}

// Stores the coordinates of a ring, which is known to read well, at a place of the list. Gives how many corners it has, with the
// place past its bytes.
fn store_ring(part: &[u8], from: Cursor, most: u32, list: &mut [u16], to: usize) -> Read
    requires most_le_most_corners { most ≤ most_corners }
    requires read { IsRead (ring part.now most from.at) }
    requires at_in_bounds { to + length (values_of (ring part.now most from.at)) ≤ length list.old }
    ensures at_value { read result.value result.next.at ≡ sized (ring part.now most from.at) }
    ensures list_after { list.new ≡ sets list.old to (values_of (ring part.now most from.at)) }
{
    let v = read::value(part, from, LEAST_CORNERS, most).unwrap();
    let n = 2 * (v.value as usize);
    let end = store(part, v.next, &mut list[to..to + n]);
    Read {
        value: v.value,
        next: end,
    }
}

// Stores rings, which are known to read well, until the list of lengths is full: their coordinates at the front of the other list, one
// ring after the other, and how many corners each has.
fn store_rings(part: &[u8], from: Cursor, list: &mut [u16], lengths: &mut [u16])
    requires read { IsRead (rings_from part.now (length lengths.old) most_corners from.at) }
    requires at_in_bounds { length (numbers_of (rings_from part.now (length lengths.old) most_corners from.at)) ≤ length list.old }
    ensures list_after { list.new ≡ sets list.old 0 (numbers_of (rings_from part.now (length lengths.old) most_corners from.at)) }
    ensures lengths_after { lengths.new ≡ lengths_of (rings_from part.now (length lengths.old) most_corners from.at) }
{
    let mut c = from;
    let mut total = 0;
    for length in lengths.iter_mut() {
        let to = 2 * (total as usize);
        let ring = store_ring(part, c, MOST_CORNERS - total, list, to);
        *length = ring.value as u16;
        total += ring.value;
        c = ring.next;
    }
}

// The two lists of the one figure that the part holds, and nothing after it; nothing is written before the whole part is seen and
// both lists are known to be long enough.
pub fn unpack(part: &[u8], list: &mut [u16], lengths: &mut [u16]) -> Result<Unpacked, Fault>
    ensures settled { unpack_told result list.new lengths.new ≡ unpacked part.now list.old lengths.old }
{
    let count = read::begin(part, Cursor { at: 0 })?;
    let corners = read::rings(part, count.next, count.value)?;
    let at = corners.next.at;
    if at < part.len() {
        return Err(Refusal::Extra.at(at));
    }
    let n = 2 * (corners.value as usize);
    if list.len() < n {
        return Err(Fault::from(Refusal::Room));
    }
    let rings = count.value as usize;
    if lengths.len() < rings {
        return Err(Fault::from(Refusal::Room));
    }
    store_rings(part, count.next, list, &mut lengths[..rings]);
    Ok(Unpacked {
        corners: corners.value,
        rings: count.value,
    })
}
