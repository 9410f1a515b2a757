// The numbers of the shots: in the middle of each, as large as it allows; beside a shot that is too small for that, with a line that leads
// to it. And those of the cuts, on their lines.
ghost use Rattle.std.specs.Prelude.{◌<◌};

use crate::cuts::Made;
use crate::sheet::{HEAD, SHEET, Shot, Thousandths, View, digits, share};
use crate::spots::{Spot, Spots, take};
use std::fmt;
use std::fmt::Write;
use terminal::output::Output;

// Numbers are no larger and no smaller in a shot than this; beside one they have a size of their own.
const LARGEST: u64 = 40000;

const SMALLEST: u64 = 11000;

const BESIDE: u64 = 18000;

// Half of the room that the number of a cut takes on its disc: where there are few cuts, and where there are many.
const DISC: u64 = 15000;

const SMALL_DISC: u64 = 12000;

const FEW: usize = 24;

// What is left free around a disc.
const RIM: u64 = 2000;

// So many spots beside a shot are tried outside the figure, and then on it.
const TRIES: usize = 160;

// A step from a place: back, none, or on.
#[derive(Clone, Copy)]
enum Step {
    Back,
    Stay,
    On,
}

// The eight ways, across and down: right, left, up and down, and between them.
const WAYS: [(Step, Step); 8] = [
    (Step::On, Step::Stay),
    (Step::Back, Step::Stay),
    (Step::Stay, Step::Back),
    (Step::Stay, Step::On),
    (Step::On, Step::Back),
    (Step::On, Step::On),
    (Step::Back, Step::Back),
    (Step::Back, Step::On),
];

// Where along its line the number of a cut is tried, in sixteenths.
const ALONG: [u64; 15] = [8, 5, 11, 3, 13, 6, 10, 2, 14, 7, 9, 4, 12, 1, 15];

// What a shot covers on the sheet.
fn body_of(view: View, shot: Shot) -> Spot {
    let left = view.x(shot.left);
    let right = view.x(shot.right);
    let top = view.y(shot.top);
    let bottom = view.y(shot.bottom);
    Spot {
        x: left.saturating_add(right) / 2,
        y: top.saturating_add(bottom) / 2,
        aside: right.saturating_sub(left) / 2,
        above: bottom.saturating_sub(top) / 2,
    }
}

// The size of a number that fits into a spot; none where it would be too small to read.
fn size_within(body: Spot, number: u64) -> Option<u64> {
    let by_height = share(body.above, 14, 10);
    let by_width = share(body.aside, 24, 10 * digits(number));
    let size = LARGEST.min(by_height).min(by_width);
    if size < SMALLEST {
        return None;
    }
    Some(size)
}

// The spot of a number of this size.
pub fn spot_of(x: u64, y: u64, number: u64, size: u64) -> Spot {
    Spot {
        x,
        y,
        aside: share(size, 32 * digits(number), 100).saturating_add(2000),
        above: size / 2,
    }
}

// The number of shot or cut n, which is counted from 0.
fn from_one(n: usize) -> u64 {
    (n as u64).saturating_add(1)
}

// Places the numbers that fit into their shots.
fn place_within(view: View, shots: &[[u16; 4]], spots: &mut Spots) {
    for (n, shot) in shots.iter().enumerate() {
        let body = body_of(view, Shot::from(*shot));
        let number = from_one(n);
        if let Some(size) = size_within(body, number) {
            let spot = spot_of(body.x, body.y, number, size);
            take(&mut spots.shots, n, Some(spot));
        }
    }
}

// Whether a spot lies on a shot, so on the figure.
fn on_figure(view: View, shots: &[[u16; 4]], spot: Spot) -> bool {
    shots
        .iter()
        .any(|shot| body_of(view, Shot::from(*shot)).overlaps(spot))
}

// Whether a spot lies in the room of the figure and on the sheet.
fn on_sheet(view: View, spot: Spot) -> bool {
    spot.aside.saturating_add(4000) < spot.x
        && spot.right().saturating_add(4000) < SHEET
        && HEAD < spot.top().saturating_add(35000)
        && spot.bottom() < view.bottom.saturating_add(40000)
}

// A place moved by so much.
fn moved(at: u64, by: u64, step: Step) -> u64 {
    match step {
        Step::Back => at.saturating_sub(by),
        Step::Stay => at,
        Step::On => at.saturating_add(by),
    }
}

// Which way spot number k lies: first across the longer sides of a body, then past its ends, then at its corners.
fn way_of(k: usize, flat: bool) -> usize
    ensures { result < 8 }
{
    let way = k % 8;
    if flat && way < 4 {
        return (way + 2) % 4;
    }
    way
}

// Spot number k beside a body, for a number that reaches so far: eight ways, and then farther away.
fn spot_beside(body: Spot, label: Spot, k: usize) -> Spot {
    let farther = (k as u64 / 8 % 32) * 18000 + 9000;
    let across = body
        .aside
        .saturating_add(label.aside)
        .saturating_add(farther);
    let along = body
        .above
        .saturating_add(label.above)
        .saturating_add(farther);
    let (right, down) = WAYS[way_of(k, body.above < body.aside)];
    Spot {
        x: moved(body.x, across, right),
        y: moved(body.y, along, down),
        ..label
    }
}

// Whether a spot will do: on the sheet and free; of the first tries, outside the figure.
fn will_do(view: View, shots: &[[u16; 4]], spots: &Spots, spot: Spot, outside: bool) -> bool {
    on_sheet(view, spot) && spots.is_free(spot) && !(outside && on_figure(view, shots, spot))
}

// The first spot beside a body that will do for a number.
fn first_beside(
    view: View,
    shots: &[[u16; 4]],
    spots: &Spots,
    body: Spot,
    label: Spot,
    outside: bool,
) -> Option<Spot> {
    (0..TRIES)
        .map(|k| spot_beside(body, label, k))
        .find(|spot| will_do(view, shots, spots, *spot, outside))
}

// A spot for a number beside a body; none where every one is taken.
fn found_beside(
    view: View,
    shots: &[[u16; 4]],
    spots: &Spots,
    body: Spot,
    label: Spot,
) -> Option<Spot> {
    first_beside(view, shots, spots, body, label, true).or_else(|| first_beside(
        view, shots, spots, body, label, false,
    ))
}

// Places the numbers that do not fit into their shots.
fn place_beside(view: View, shots: &[[u16; 4]], spots: &mut Spots) {
    for (n, shot) in shots.iter().enumerate() {
        let body = body_of(view, Shot::from(*shot));
        let number = from_one(n);
        if size_within(body, number).is_none() {
            let label = spot_of(0, 0, number, BESIDE);
            let spot = found_beside(view, shots, spots, body, label);
            take(&mut spots.shots, n, spot);
        }
    }
}

// Places the numbers of the shots.
pub fn place_numbers(view: View, shots: &[[u16; 4]], spots: &mut Spots) {
    place_within(view, shots, spots);
    place_beside(view, shots, spots);
}

// A number of this size in the middle of a spot.
pub fn print_number_at(out: &mut Output, spot: Spot, size: u64, number: u64) -> fmt::Result {
    let x = Thousandths(spot.x);
    let y = Thousandths(spot.y);
    let high = Thousandths(size);
    write!(
        out,
        "<text x=\"{x}\" y=\"{y}\" font-size=\"{high}\" dy=\".35em\">{number}</text>\n",
    )
}

// The place nearest to another between two ends.
fn nearest(at: u64, low: u64, high: u64) -> u64 {
    at.max(low).min(high)
}

// A line from the middle of a body to the nearest place of a spot.
fn print_leader(out: &mut Output, body: Spot, spot: Spot) -> fmt::Result {
    let x = Thousandths(body.x);
    let y = Thousandths(body.y);
    let to_x = Thousandths(nearest(body.x, spot.left(), spot.right()));
    let to_y = Thousandths(nearest(body.y, spot.top(), spot.bottom()));
    write!(
        out,
        "<path stroke=\"#14263d\" d=\"M{x} {y}L{to_x} {to_y}\"/><circle r=\"2.5\" cx=\"{x}\" cy=\"{y}\"/>\n",
    )
}

// A white ground for a number that may stand on something.
fn print_ground(out: &mut Output, spot: Spot) -> fmt::Result {
    let x = Thousandths(spot.left());
    let y = Thousandths(spot.top());
    let width = Thousandths(spot.aside.saturating_add(spot.aside));
    let height = Thousandths(spot.above.saturating_add(spot.above));
    write!(
        out,
        "<rect rx=\"3\" fill=\"#fff\" fill-opacity=\".85\" x=\"{x}\" y=\"{y}\" width=\"{width}\" height=\"{height}\"/>\n",
    )
}

// The number of a shot at its spot, with a line that leads to it where it stands beside.
fn print_label(out: &mut Output, body: Spot, spot: Spot, number: u64) -> fmt::Result {
    if let Some(size) = size_within(body, number) {
        return print_number_at(out, spot, size, number);
    }
    print_leader(out, body, spot)?;
    print_ground(out, spot)?;
    print_number_at(out, spot, BESIDE, number)
}

// The same where there is a spot, in the colour of what it is: a sliver's number is red.
fn print_coloured(
    out: &mut Output,
    view: View,
    shot: Shot,
    spot: Option<Spot>,
    number: u64,
    threshold: u32,
) -> fmt::Result {
    let red = shot.is_sliver(threshold);
    if red {
        out.write_str("<g fill=\"#b01e12\">")?;
    }
    if let Some(spot) = spot {
        print_label(out, body_of(view, shot), spot, number)?;
    }
    if red {
        out.write_str("</g>\n")?;
    }
    Ok(())
}

// The numbers of the shots.
pub fn print_labels(
    out: &mut Output,
    view: View,
    shots: &[[u16; 4]],
    spots: &Spots,
    threshold: u32,
) -> fmt::Result {
    out.write_str("<g fill=\"#14263d\" font-weight=\"600\" text-anchor=\"middle\">\n")?;
    for (n, (shot, spot)) in shots.iter().zip(spots.shots.iter()).enumerate() {
        print_coloured(out, view, Shot::from(*shot), *spot, from_one(n), threshold)?;
    }
    out.write_str("</g>\n")
}

// The spot on the line of a cut, so many sixteenths along it.
fn spot_along(view: View, line: Shot, sixteenths: u64, room: u64) -> Spot {
    let left = view.x(line.left);
    let top = view.y(line.top);
    let width = view.x(line.right).saturating_sub(left);
    let height = view.y(line.bottom).saturating_sub(top);
    Spot {
        x: left.saturating_add(share(width, sixteenths, 16)),
        y: top.saturating_add(share(height, sixteenths, 16)),
        aside: room,
        above: room,
    }
}

// A free spot on the line of a cut; none where every one is taken.
fn found_along(view: View, spots: &Spots, line: Shot, room: u64) -> Option<Spot> {
    ALONG
        .iter()
        .map(|sixteenths| spot_along(view, line, *sixteenths, room))
        .find(|spot| spots.is_free(*spot))
}

// Half of the room of a number, by how many cuts there are.
fn room_of(cuts: usize) -> u64 {
    if cuts <= FEW {
        return DISC;
    }
    SMALL_DISC
}

// Places the numbers of the cuts whose lines are long enough.
pub fn place_cuts(view: View, cuts: &[Made], spots: &mut Spots) {
    let room = room_of(cuts.len());
    for (n, cut) in cuts.iter().enumerate() {
        let body = body_of(view, cut.line);
        if room <= body.aside.saturating_add(body.above) {
            let spot = found_along(view, spots, cut.line, room);
            take(&mut spots.cuts, n, spot);
        }
    }
}

// A disc with the number of a cut.
fn print_disc(out: &mut Output, spot: Spot, number: u64) -> fmt::Result {
    let half = spot.aside.saturating_sub(RIM);
    let size = if 99 < number {
        half
    } else {
        share(half, 13, 10)
    };
    let x = Thousandths(spot.x);
    let y = Thousandths(spot.y);
    let r = Thousandths(half);
    write!(
        out,
        "<circle cx=\"{x}\" cy=\"{y}\" r=\"{r}\" fill=\"#fff\" stroke=\"#2f7ed8\" stroke-width=\"1.5\"/>",
    )?;
    print_number_at(out, spot, size, number)
}

// The numbers of so many cuts, where they have a spot.
pub fn print_cut_labels(out: &mut Output, cuts: usize, spots: &Spots) -> fmt::Result {
    out.write_str("<g fill=\"#1d5fb0\" text-anchor=\"middle\">\n")?;
    for (n, spot) in spots.cuts.iter().enumerate().take(cuts) {
        if let Some(spot) = spot {
            print_disc(out, *spot, from_one(n))?;
        }
    }
    out.write_str("</g>\n")
}
