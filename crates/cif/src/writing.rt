// Writing: the room is counted down line by line, so that no sum wraps; then the bytes are put.
ghost use Rattle.std.specs.Prelude.{◌≡◌, false, ◌+◌, ◌*◌, ◌≤◌, length};
ghost use Rattle.std.proofs.lemmas.List.Edits.{sets};
ghost use Rattle.shot.specs.Bad.{bad_shots};
ghost use Rattle.cif.specs.Text.{box_line, cif_bytes};
ghost use Rattle.cif.specs.Steps.{MeasureTold, Reckoned, boxes_bytes, shot_with, listed};

use crate::boxes::Sides;
use crate::numeral::{put_spaced, size};
use refusal::Refusal;

// The four numbers of a box line.
#[derive(Clone, Copy, PartialEq, Eq)]
pub struct Numbers {
    pub length: u32,
    pub width: u32,
    pub x: u32,
    pub y: u32,
}

// Shot i of a list.
fn shot_at(list: &[u16], i: usize) -> Sides
    requires { 4 * i + 4 ≤ length list.now }
    ensures { shot_with result ≡ listed list.now (4 * i) }
{
    let at = 4 * i;
    Sides {
        x_low: list[at],
        y_low: list[at + 1],
        x_high: list[at + 2],
        y_high: list[at + 3],
    }
}

// The numbers of the box of a shot: both sides and the centre are doubled, so that every centre is whole.
fn doubled(shot: Sides) -> Numbers
    requires { (shot.x_low ≤ shot.x_high) × (shot.y_low ≤ shot.y_high) }
    ensures { Reckoned (shot_with shot) result.length result.width result.x result.y }
{
    let left = u32::from(shot.x_low);
    let right = u32::from(shot.x_high);
    let bottom = u32::from(shot.y_low);
    let top = u32::from(shot.y_high);
    let length = 2 * (right - left);
    let width = 2 * (top - bottom);
    let x = left + right;
    let y = bottom + top;
    Numbers {
        length,
        width,
        x,
        y,
    }
}

// How many bytes the box of a shot has.
fn box_size(shot: Sides) -> usize
    requires { (shot.x_low ≤ shot.x_high) × (shot.y_low ≤ shot.y_high) }
    ensures { (result ≡ length (box_line (shot_with shot))) × (result ≤ 31) }
{
    let n = doubled(shot);
    let length = size(n.length);
    let width = size(n.width);
    let x = size(n.x);
    let y = size(n.y);
    7 + length + width + x + y
}

// How many bytes the boxes of a list have; 14 where that is more than the room. What is used never passes the room.
pub fn measure(list: &[u16], room: usize) -> Result<usize, Refusal>
    requires { bad_shots list.now ≡ false }
    ensures { MeasureTold list.now room result }
{
    let mut used = 0;
    for i in 0..list.len() / 4 {
        let line = box_size(shot_at(list, i));
        if room - used < line {
            return Err(Refusal::Room);
        }
        used += line;
    }
    Ok(used)
}

// Puts some bytes at a place, and gives the place past them.
fn put_word(out: &mut [u8], at: usize, word: &[u8]) -> usize
    requires { at + length word.now ≤ length out.old }
    ensures { (result ≡ at + length word.now) × (out.new ≡ sets out.old at word.now) }
{
    let end = at + word.len();
    out[at..end].copy_from_slice(word);
    end
}

// Puts the box of a shot at a place, and gives the place past it.
fn put_box(out: &mut [u8], at: usize, shot: Sides) -> usize
    requires x_low_le_x_high { (shot.x_low ≤ shot.x_high) × (shot.y_low ≤ shot.y_high) }
    requires y_high_in_bounds { at + length (box_line (shot_with shot)) ≤ length out.old }
    ensures value { result ≡ at + length (box_line (shot_with shot)) }
    ensures out_after { out.new ≡ sets out.old at (box_line (shot_with shot)) }
{
    let n = doubled(shot);
    let sides = put_word(out, at, b"B");
    let second = put_spaced(out, sides, n.length);
    let centre = put_spaced(out, second, n.width);
    let fourth = put_spaced(out, centre, n.x);
    let last = put_spaced(out, fourth, n.y);
    put_word(out, last, b";\n")
}

// Puts the boxes of a list at a place, and gives the place past them.
fn put_boxes(list: &[u16], out: &mut [u8], from: usize) -> usize
    requires { (bad_shots list.now ≡ false) × (from + length (boxes_bytes list.now) ≤ length out.old) }
    ensures value { result ≡ from + length (boxes_bytes list.now) }
    ensures out_after { out.new ≡ sets out.old from (boxes_bytes list.now) }
{
    let mut next = from;
    for i in 0..list.len() / 4 {
        next = put_box(out, next, shot_at(list, i));
    }
    next
}

// Puts the whole text of a list at the front.
pub fn put_text(list: &[u16], out: &mut [u8])
    requires { (bad_shots list.now ≡ false) × (length (boxes_bytes list.now) + 28 ≤ length out.old) }
    ensures { out.new ≡ sets out.old 0 (cif_bytes list.now) }
{
    let first = put_word(out, 0, b"DS 1 1 20;\nL NM;\n");
    let last = put_boxes(list, out, first);
    put_word(out, last, b"DF;\nC 1;\nE\n");
}
