// The C interface, as include/pinarewhemi.h declares it. Each function returns the refusal's number, 0 on success, and writes
// every number that it is lent on every path; its promise is that of its call, said of these numbers.
#![tactic(auto)]

ghost use Rattle.std.specs.Prelude.{◌≡◌, List, ℕ};
ghost use Rattle.refusal.specs.Refusals.{refusal_no};
ghost use Rattle.rule.specs.Rules.{preset_told};
ghost use Rattle.figure.specs.Figure.{figure};
ghost use Rattle.piece.specs.declared.Mode.TheVariants.{Straight, Pinwheel};
ghost use Rattle.demands.specs.Promise.{asked, outcome};
ghost use Rattle.demands.specs.Cuts.{ahead};
ghost use Rattle.fracture.specs.Told.{told, by_default};
ghost use Rattle.number.specs.Number.{number as readNumber};
ghost use Rattle.job.specs.Calls.{checked, unpacked, header_written, outline_written};
ghost use Rattle.gdsii.specs.Calls.{boundary_read, boundary_fractured};
ghost use Rattle.join.specs.Join.{join_lent, Promise};
ghost use Rattle.capi.specs.Lent.{preset_lent, cuts_lent, number_lent, number_said, check_lent, outline_lent, outline_said, unpack_lent, write_lent, fracture_lent, boundary_lent, plate_lent, flashes_of, pairing_no};

use fracture::{Denial, Fractured};
use job::{read, unpack, write};
use join::Joined;
use number::Cursor;
use refusal::{Fault, Refusal};
use rule::Rule;

mod divided;
mod edges;
mod indexes;
mod salvages;
mod texts;
mod versions;

// Lends on the place of a fault, and tells its number.
fn refuse(fault: Fault, offset: &mut usize) -> u32
    ensures number { result ≡ refusal_no fault.why }
    ensures place { offset.new ≡ fault.at }
{
    *offset = fault.at;
    u32::from(fault.why)
}

// The rule of a preset, or 15.
#[unsafe(no_mangle)]
pub extern "C" fn pw_preset(number: u32, threshold: &mut u32, weight: &mut u32) -> u32
    ensures settled { preset_lent result threshold.new weight.new ≡ preset_told number }
{
    match Rule::preset(number) {
        Ok(row) => {
            *threshold = row.threshold;
            *weight = row.weight;
            0
        }
        Err(why) => {
            *threshold = 0;
            *weight = 0;
            u32::from(why)
        }
    }
}

// Lends on what a fracture answers, whatever its buffers hold.
fn lend(
    answer: Result<Fractured, Denial>,
    shots: &mut u32,
    cost: &mut u32,
    sliver: &mut u32,
    cuts: &mut u32,
) -> u32
    ensures { (table list : List ℕ) → fracture_lent result shots.new cost.new sliver.new cuts.new table list ≡ told answer table list }
{
    match answer {
        Ok(done) => {
            *shots = done.shots;
            *cost = done.cost;
            *sliver = done.sliver;
            *cuts = done.cuts;
            0
        }
        Err(denial) => {
            *shots = denial.needed;
            *cost = 0;
            *sliver = 0;
            *cuts = 0;
            u32::from(denial.why)
        }
    }
}

// Shots, cost, sliver length and cuts weighed, with the table and the list filled from their fronts; or 1 to 7.
#[unsafe(no_mangle)]
pub extern "C" fn pw_fracture(
    corners: &[u16],
    rings: &[u16],
    threshold: u32,
    weight: u32,
    table: &mut [u32],
    list: &mut [u16],
    shots: &mut u32,
    cost: &mut u32,
    sliver: &mut u32,
    cuts: &mut u32,
) -> u32
    ensures settled { fracture_lent result shots.new cost.new sliver.new cuts.new table.new list.new ≡ outcome (asked Straight corners.now rings.now threshold weight table.old list.old) }
{
    let answer = fracture::fracture(corners, rings, threshold, weight, table, list);
    lend(answer, shots, cost, sliver, cuts)
}

// The same by the default preset; or 2 to 7.
#[unsafe(no_mangle)]
pub extern "C" fn pw_fracture_default(
    corners: &[u16],
    rings: &[u16],
    table: &mut [u32],
    list: &mut [u16],
    shots: &mut u32,
    cost: &mut u32,
    sliver: &mut u32,
    cuts: &mut u32,
) -> u32
    ensures settled { fracture_lent result shots.new cost.new sliver.new cuts.new table.new list.new ≡ outcome (by_default corners.now rings.now table.old list.old) }
{
    let answer = fracture::fracture_default(corners, rings, table, list);
    lend(answer, shots, cost, sliver, cuts)
}

// How many cuts the fracture of a figure will weigh; or 2 to 5.
#[unsafe(no_mangle)]
pub extern "C" fn pw_cuts(corners: &[u16], rings: &[u16], cuts: &mut u32) -> u32
    ensures settled { cuts_lent result cuts.new ≡ ahead (figure corners.now rings.now) }
{
    *cuts = 0;
    match fracture::cuts(corners, rings) {
        Ok(n) => {
            *cuts = n;
            0
        }
        Err(why) => u32::from(why),
    }
}

// The same as `pw_fracture`, by pinwheels beside straight cuts.
#[unsafe(no_mangle)]
pub extern "C" fn pw_fracture_pinwheel(
    corners: &[u16],
    rings: &[u16],
    threshold: u32,
    weight: u32,
    table: &mut [u32],
    list: &mut [u16],
    shots: &mut u32,
    cost: &mut u32,
    sliver: &mut u32,
    cuts: &mut u32,
) -> u32
    ensures settled { fracture_lent result shots.new cost.new sliver.new cuts.new table.new list.new ≡ outcome (asked Pinwheel corners.now rings.now threshold weight table.old list.old) }
{
    let answer = fracture::fracture_pinwheel(corners, rings, threshold, weight, table, list);
    lend(answer, shots, cost, sliver, cuts)
}

// The number at a place of the bytes and the place past it; or 8, 9, 10 and the offset.
#[unsafe(no_mangle)]
pub extern "C" fn pw_number(
    bytes: &[u8],
    at: usize,
    value: &mut u32,
    next: &mut usize,
    offset: &mut usize,
) -> u32
    ensures settled { number_lent result value.new next.new offset.new ≡ number_said (readNumber bytes.now at) }
{
    *value = 0;
    *next = 0;
    *offset = 0;
    let cursor = Cursor { at };
    match cursor.number(bytes) {
        Ok(found) => {
            *value = found.value;
            *next = found.next.at;
            0
        }
        Err(fault) => refuse(fault, offset),
    }
}

// Threshold, weight and K of a whole job; or 12, 8 to 11 and the offset.
#[unsafe(no_mangle)]
pub extern "C" fn pw_job_check(
    job: &[u8],
    threshold: &mut u32,
    weight: &mut u32,
    outlines: &mut u32,
    offset: &mut usize,
) -> u32
    ensures settled { check_lent result threshold.new weight.new outlines.new offset.new ≡ checked job.now }
{
    *threshold = 0;
    *weight = 0;
    *outlines = 0;
    *offset = 0;
    match read::check(job) {
        Ok(found) => {
            *threshold = found.threshold;
            *weight = found.weight;
            *outlines = found.outlines;
            0
        }
        Err(fault) => refuse(fault, offset),
    }
}

// Where outline k of a job starts and how long it is; or what refuses the job, or 13.
#[unsafe(no_mangle)]
pub extern "C" fn pw_job_outline(
    job: &[u8],
    k: usize,
    start: &mut usize,
    length: &mut usize,
    offset: &mut usize,
) -> u32
    ensures settled { outline_lent result start.new length.new offset.new ≡ outline_said job.now k }
{
    *start = 0;
    *length = 0;
    *offset = 0;
    match read::whole(job) {
        Err(fault) => refuse(fault, offset),
        Ok(header) => {
            if header.outlines as usize <= k {
                return u32::from(Refusal::Missing);
            }
            match read::locate(job, header.next, k) {
                Err(fault) => refuse(fault, offset),
                Ok(part) => {
                    *start = part.start;
                    *length = part.end - part.start;
                    0
                }
            }
        }
    }
}

// How many corners and rings there are, with the corners and the ring lengths at the fronts of the two lists; or 8 to 11 and the
// offset in the part, or 14.
#[unsafe(no_mangle)]
pub extern "C" fn pw_unpack(
    part: &[u8],
    list: &mut [u16],
    rings: &mut [u16],
    corners: &mut u32,
    ring_count: &mut u32,
    offset: &mut usize,
) -> u32
    ensures settled { unpack_lent result corners.new ring_count.new offset.new list.new rings.new ≡ unpacked part.now list.old rings.old }
{
    *corners = 0;
    *ring_count = 0;
    *offset = 0;
    match unpack::unpack(part, list, rings) {
        Ok(figure) => {
            *corners = figure.corners;
            *ring_count = figure.rings;
            0
        }
        Err(fault) => refuse(fault, offset),
    }
}

// How many bytes of a header were written; or 1, 10, 14.
#[unsafe(no_mangle)]
pub extern "C" fn pw_write_header(
    threshold: u32,
    weight: u32,
    outlines: u32,
    out: &mut [u8],
    written: &mut usize,
) -> u32
    ensures settled { write_lent result written.new out.new ≡ header_written threshold weight outlines out.old }
{
    *written = 0;
    match write::write_header(threshold, weight, outlines, out) {
        Ok(n) => {
            *written = n;
            0
        }
        Err(why) => u32::from(why),
    }
}

// How many bytes of an outline were written; or 2, 14.
#[unsafe(no_mangle)]
pub extern "C" fn pw_write_outline(
    corners: &[u16],
    rings: &[u16],
    out: &mut [u8],
    written: &mut usize,
) -> u32
    ensures settled { write_lent result written.new out.new ≡ outline_written (figure corners.now rings.now) out.old }
{
    *written = 0;
    match write::write_outline(corners, rings, out) {
        Ok(size) => {
            *written = size;
            0
        }
        Err(why) => u32::from(why),
    }
}

// How many corners the ring of a boundary element has, with the corners, moved to 0, at the front of the list, and what was taken off
// their x and y; or 8 with the offset of the record cut short, 16, 17, 18, 2 to 5, 14.
#[unsafe(no_mangle)]
pub extern "C" fn pw_gdsii_read(
    element: &[u8],
    list: &mut [u16],
    corner_count: &mut u32,
    shift_x: &mut i32,
    shift_y: &mut i32,
    offset: &mut usize,
) -> u32
    ensures settled { boundary_lent result corner_count.new shift_x.new shift_y.new offset.new list.new ≡ boundary_read element.now list.old }
{
    *corner_count = 0;
    *shift_x = 0;
    *shift_y = 0;
    *offset = 0;
    match gdsii::read_boundary(element, list) {
        Ok(boundary) => {
            *corner_count = boundary.corners;
            *shift_x = boundary.shift_x;
            *shift_y = boundary.shift_y;
            0
        }
        Err(fault) => refuse(fault, offset),
    }
}

// Shots, cost, sliver length and cuts of that ring, fractured by preset 0, with the table and the list filled from their fronts, and the shift;
// or 8 with the offset of the record cut short, 16, 17, 18, 2 to 7.
#[unsafe(no_mangle)]
pub extern "C" fn pw_gdsii_fracture(
    element: &[u8],
    table: &mut [u32],
    list: &mut [u16],
    shots: &mut u32,
    cost: &mut u32,
    sliver: &mut u32,
    cuts: &mut u32,
    shift_x: &mut i32,
    shift_y: &mut i32,
    offset: &mut usize,
) -> u32
    ensures settled { plate_lent result shots.new cost.new sliver.new cuts.new shift_x.new shift_y.new offset.new table.new list.new ≡ boundary_fractured element.now table.old list.old }
{
    *shots = 0;
    *cost = 0;
    *sliver = 0;
    *cuts = 0;
    *shift_x = 0;
    *shift_y = 0;
    *offset = 0;
    match gdsii::fracture_boundary(element, table, list) {
        Ok(plate) => {
            *shots = plate.shots;
            *cost = plate.cost;
            *sliver = plate.sliver;
            *cuts = plate.cuts;
            *shift_x = plate.shift_x;
            *shift_y = plate.shift_y;
            0
        }
        Err(none) => {
            *shots = none.needed;
            *offset = none.at;
            u32::from(none.why)
        }
    }
}

// The flashes of an answer; none beside a refusal.
fn flashes_of(answer: Result<usize, Refusal>) -> usize
    ensures { result ≡ flashes_of answer }
{
    match answer {
        Ok(n) => n,
        Err(_) => 0,
    }
}

// The number of an answer's refusal, 0 for none.
fn pairing_no(answer: Result<usize, Refusal>) -> u32
    ensures { result ≡ pairing_no answer }
{
    match answer {
        Ok(_) => 0,
        Err(why) => u32::from(why),
    }
}

// How many flashes the shots of a list take, joined in pairs, with the shots and their partners at the front of the table; or 21, 14.
#[unsafe(no_mangle)]
pub extern "C" fn pw_join(list: &[u16], table: &mut [Joined], flashes: &mut usize) -> u32
    ensures settled { Promise list.now table.old (join_lent result flashes.new table.new) }
{
    let answer = join::join(list, table);
    let n = flashes_of(answer);
    *flashes = n;
    pairing_no(answer)
}
