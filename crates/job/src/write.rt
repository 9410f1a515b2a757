// Writing: a header, or a figure, at the front of a buffer. The room is known to suffice before a byte is written.
ghost use Rattle.std.specs.Prelude.{◌≡◌, ◌≤◌, ◌+◌, ◌*◌, length, false};
ghost use Rattle.std.proofs.lemmas.List.Edits.{sets};
ghost use Rattle.sum.specs.Sum.{join};
ghost use Rattle.figure.specs.Figure.{figure, share, most_corners, most_rings, bad_figure};
ghost use Rattle.number.specs.Number.{most, number_bytes};
ghost use Rattle.job.specs.Bytes.{coordinate_bytes, ring_bytes};
ghost use Rattle.job.specs.Steps.{announce_bytes};
ghost use Rattle.job.specs.Calls.{write_told, header_written, outline_written};

use crate::MOST_OUTLINES;
use figure::rings;
use refusal::Refusal;
use rule::Rule;

// Room for a header's three numbers, of three bytes at most each. A header in range takes six at most.
pub const HEADER_BYTES: usize = 9;

// How many bytes a number has.
fn size(n: u32) -> usize
    ensures { (result ≡ length (number_bytes n)) × (result ≤ 3) }
{
    if n < 128 {
        return 1;
    }
    if n < 16384 {
        return 2;
    }
    3
}

// Puts the bytes of a number at a place, and gives the place past them.
fn put(out: &mut [u8], at: usize, n: u32) -> usize
    requires { (n ≤ most) × (at + length (number_bytes n) ≤ length out.old) }
    ensures { (result ≡ at + length (number_bytes n)) × (out.new ≡ sets out.old at (number_bytes n)) }
{
    if n < 128 {
        out[at] = n as u8;
        return at + 1;
    }
    out[at] = (128 + n % 128) as u8;
    if n < 16384 {
        out[at + 1] = (n / 128) as u8;
        return at + 2;
    }
    out[at + 1] = (128 + n / 128 % 128) as u8;
    out[at + 2] = (n / 16384) as u8;
    at + 3
}

// How many bytes some numbers have: the coordinates, or the ring lengths.
fn sizes(numbers: &[u16]) -> usize
    requires { length numbers.now ≤ 2 * most_corners }
    ensures { (result ≡ length (coordinate_bytes numbers.now)) × (result ≤ 6 * most_corners) }
{
    let mut total = 0;
    for x in numbers {
        total += size(u32::from(*x));
    }
    total
}

// Puts the bytes of the coordinates at a place, and gives the place past them.
fn put_all(corners: &[u16], out: &mut [u8], from: usize) -> usize
    requires { from + length (coordinate_bytes corners.now) ≤ length out.old }
    ensures value { result ≡ from + length (coordinate_bytes corners.now) }
    ensures out_after { out.new ≡ sets out.old from (coordinate_bytes corners.now) }
{
    let mut at = from;
    for x in corners {
        at = put(out, at, u32::from(*x));
    }
    at
}

// Puts the bytes of a ring at a place, V and its coordinates, and gives the place past them.
fn put_ring(corners: &[u16], out: &mut [u8], from: usize) -> usize
    requires corners_len_bound { length corners.now ≤ 2 * most_corners }
    requires corners_in_bounds { from + length (ring_bytes corners.now) ≤ length out.old }
    ensures value { result ≡ from + length (ring_bytes corners.now) }
    ensures out_after { out.new ≡ sets out.old from (ring_bytes corners.now) }
{
    let v = (corners.len() / 2) as u32;
    let at = put(out, from, v);
    put_all(corners, out, at)
}

// Puts the bytes of the rings at a place, one ring after the other.
fn put_rings(corners: &[u16], lengths: &[u16], out: &mut [u8], first: usize)
    requires lengths_value { bad_figure (figure corners.now lengths.now) ≡ false }
    requires corners_in_bounds { first + length (join ring_bytes (share lengths.now corners.now)) ≤ length out.old }
    ensures { out.new ≡ sets out.old first (join ring_bytes (share lengths.now corners.now)) }
{
    let mut at = first;
    let mut from: usize = 0;
    for length in lengths {
        let to = from + 2 * usize::from(*length);
        at = put_ring(&corners[from..to], out, at);
        from = to;
    }
}

// How many bytes announce so many rings: one ring is not announced.
fn announcement(count: u32) -> usize
    ensures { (result ≡ length (announce_bytes count)) × (result ≤ 6) }
{
    if count == 1 {
        return 0;
    }
    size(0) + size(count)
}

// Puts what announces so many rings at the front, and gives the place past it.
fn put_announcement(out: &mut [u8], count: u32) -> usize
    requires { (count ≤ most_rings) × (length (announce_bytes count) ≤ length out.old) }
    ensures { (result ≡ length (announce_bytes count)) × (out.new ≡ sets out.old 0 (announce_bytes count)) }
{
    if count == 1 {
        return 0;
    }
    let at = put(out, 0, 0);
    put(out, at, count)
}

// A header for a job of so many figures. Gives how many bytes it has.
pub fn write_header(
    threshold: u32,
    weight: u32,
    outlines: u32,
    out: &mut [u8],
) -> Result<usize, Refusal>
    ensures settled { write_told result out.new ≡ header_written threshold weight outlines out.old }
{
    Rule::new(threshold, weight)?;
    if MOST_OUTLINES < outlines {
        return Err(Refusal::Range);
    }
    let n = size(threshold) + size(weight) + size(outlines);
    if out.len() < n {
        return Err(Refusal::Room);
    }
    let a = put(out, 0, threshold);
    let b = put(out, a, weight);
    put(out, b, outlines);
    Ok(n)
}

// A figure: what announces its rings, and the rings, each its V and its coordinates. Gives how many bytes it has.
pub fn write_outline(corners: &[u16], lengths: &[u16], out: &mut [u8]) -> Result<usize, Refusal>
    ensures settled { write_told result out.new ≡ outline_written (figure corners.now lengths.now) out.old }
{
    if rings::bad_figure(corners, lengths) {
        return Err(Refusal::Length);
    }
    let count = lengths.len() as u32;
    let need = announcement(count) + sizes(lengths) + sizes(corners);
    if out.len() < need {
        return Err(Refusal::Room);
    }
    let at = put_announcement(out, count);
    put_rings(corners, lengths, out, at);
    Ok(need)
}
