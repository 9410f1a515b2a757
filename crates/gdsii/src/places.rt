// The points of a boundary, raised by 2^31 so that their order is that of whole numbers: what closes, how far they extend, and the ring
// moved to 0.
ghost use Rattle.std.specs.Prelude.{◌≡◌, ◌+◌, ◌-◌, ◌*◌, ◌≤◌, length};
ghost use Rattle.std.proofs.lemmas.List.Edits.{sets};
ghost use Rattle.std.proofs.Math.IntN.{sub_ℕ};
ghost use Rattle.figure.specs.Figure.{bad_length};
ghost use Rattle.gdsii.specs.Boundary as point;
ghost use Rattle.gdsii.specs.Steps.{scan_told, Within, Fit, measured};

use crate::stream::{Run, pair_at, scan};
use figure::{Axis, LEAST_CORNERS, MOST_CORNERS};
use refusal::{Fault, Refusal};

// 2^31: so much a coordinate is raised.
const HALF: u32 = 2147483648;

// No raised coordinate is higher.
const HIGHEST: u32 = 4294967295;

// No boundary extends further each way, in nm.
const MOST_EXTENT: u64 = 65535;

// The number that is `raised` less 2^31: the coordinate itself.
pub fn lowered(raised: u32) -> i32
    ensures { result ≡ sub_ℕ raised 2147483648 }
{
    (raised as i64 - 2147483648) as i32
}

// A coordinate raised, from its four bytes as a number.
fn raise(word: u32) -> u32
    ensures { result ≡ point.raise word }
{
    if word < HALF {
        return word + HALF;
    }
    word - HALF
}

// Four bytes as a number, high first.
fn word_at(element: &[u8], at: usize) -> u32
    requires { at + 4 ≤ length element.now }
    ensures { result ≡ point.word_at element.now at }
{
    let high = pair_at(element, at);
    let low = pair_at(element, at + 2);
    65536 * high + low
}

// The raised place along an axis of the point at a place in the bytes: x in its first four, y in its last.
fn place_at(element: &[u8], at: usize, axis: Axis) -> u32
    requires { at + 8 ≤ length element.now }
    ensures { result ≡ point.along axis (point.point_at element.now at) }
{
    match axis {
        Axis::X => raise(word_at(element, at)),
        Axis::Y => raise(word_at(element, at + 4)),
    }
}

// The lowest place of the points along an axis.
fn lowest(element: &[u8], run: Run, axis: Axis) -> u32
    requires { Within element.now run }
    ensures { result ≡ point.lowest axis (point.points element.now run) }
{
    let mut low = HIGHEST;
    for i in 0..run.count {
        low = low.min(place_at(element, run.first + 8 * i, axis));
    }
    low
}

// The highest place of the points along an axis.
fn highest(element: &[u8], run: Run, axis: Axis) -> u32
    requires { Within element.now run }
    ensures { result ≡ point.highest axis (point.points element.now run) }
{
    let mut high: u32 = 0;
    for i in 0..run.count {
        high = high.max(place_at(element, run.first + 8 * i, axis));
    }
    high
}

// 17: the last point is unlike the first.
fn unclosed(element: &[u8], run: Run) -> bool
    requires { Within element.now run }
    ensures { result ≡ point.unclosed (point.points element.now run) }
{
    let first = run.first;
    let last = first + 8 * (run.count - 1);
    let same_x = place_at(element, first, Axis::X) == place_at(element, last, Axis::X);
    let same_y = place_at(element, first, Axis::Y) == place_at(element, last, Axis::Y);
    if same_x {
        return !same_y;
    }
    true
}

// 18: the points extend too far along an axis. Reckoned in 64 bits, where the sum does not wrap.
fn broad(element: &[u8], run: Run, axis: Axis) -> bool
    requires { Within element.now run }
    ensures { result ≡ point.broad axis (point.points element.now run) }
{
    let low = lowest(element, run, axis);
    let high = highest(element, run, axis);
    u64::from(low) + MOST_EXTENT < u64::from(high)
}

// 2: a ring of fewer corners than 4 or of more than 32.
fn bad_length(corners: usize) -> bool
    ensures { result ≡ bad_length corners }
{
    corners < LEAST_CORNERS || MOST_CORNERS < corners
}

// The points of an element, or the first of 8, 16, 17, 18 and 2. All points are looked at before 2 counts them, so nothing is stored
// here.
pub fn measure(element: &[u8]) -> Result<Run, Fault>
    ensures { scan_told result ≡ measured element.now }
{
    let run = scan(element)?;
    if unclosed(element, run) {
        return Err(Refusal::Unclosed.at(0));
    }
    if broad(element, run, Axis::X) {
        return Err(Refusal::Extent.at(0));
    }
    if broad(element, run, Axis::Y) {
        return Err(Refusal::Extent.at(0));
    }
    if bad_length(run.count - 1) {
        return Err(Refusal::Length.at(0));
    }
    Ok(run)
}

// What was taken off along an axis to move the ring to 0.
pub fn shift(element: &[u8], run: Run, axis: Axis) -> i32
    requires { Within element.now run }
    ensures { result ≡ point.shift axis (point.points element.now run) }
{
    lowered(lowest(element, run, axis))
}

// Stores the corners x, y, x, y, .. moved to 0 at the front of a list: all points but the last, which repeats the first.
pub fn store(element: &[u8], run: Run, list: &mut [u16])
    requires fit { Fit element.now run }
    requires count_in_bounds { 2 * (run.count - 1) ≤ length list.old }
    ensures { list.new ≡ sets list.old 0 (point.moved (point.points element.now run)) }
{
    let low_x = lowest(element, run, Axis::X);
    let low_y = lowest(element, run, Axis::Y);
    for i in 0..run.count - 1 {
        let at = run.first + 8 * i;
        let x = place_at(element, at, Axis::X) - low_x;
        let y = place_at(element, at, Axis::Y) - low_y;
        list[2 * i] = x as u16;
        list[2 * i + 1] = y as u16;
    }
}
