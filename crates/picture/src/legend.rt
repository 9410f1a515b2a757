// What stands around the figure: the head, the places of the lines, the scale, and what the colours mean.
use crate::labels::{print_number_at, spot_of};
use crate::scene::{Figure, Manner, Scene};
use crate::sheet::{Grid, LONGER, Thousandths, View, digits, share};
use crate::spots::{Spot, Spots, take};
use cutting::lines::place;
use fracture::Fractured;
use outline::MOST_LINES;
use std::fmt;
use std::fmt::Write;
use terminal::output::Output;

// Where the place of a line is written: below the figure for x, left of it for y.
#[derive(Clone, Copy, PartialEq, Eq)]
enum Edge {
    Below,
    Left,
}

// The size of the numbers beside lines.
const TICKS: u64 = 17000;

// Round lengths in nm, one of which the scale shows.
const ROUND: [u64; 14] = [
    1, 2, 5, 10, 20, 50, 100, 200, 500, 1000, 2000, 5000, 10000, 20000,
];

// How much of the sheet lies below the figure's room.
const FOOT: u64 = 240000;

// One letter of a name. Letters that mean something in SVG are written as it wants them, and those that are none as question marks.
fn print_letter(out: &mut Output, letter: u8) -> fmt::Result {
    match letter {
        b'&' => out.write_str("&amp;"),
        b'<' => out.write_str("&lt;"),
        b'>' => out.write_str("&gt;"),
        32..=126 => out.write_char(char::from(letter)),
        _ => out.write_str("?"),
    }
}

// The start of the picture: a white sheet.
pub fn print_sheet(out: &mut Output, view: View) -> fmt::Result {
    let height = Thousandths(view.bottom.saturating_add(FOOT));
    out.write_str(
        "<svg xmlns=\"http://www.w3.org/2000/svg\" font-family=\"Helvetica, Arial, sans-serif\" ",
    )?;
    write!(
        out,
        "viewBox=\"0 0 1000 {height}\">\n<rect width=\"1000\" height=\"{height}\" fill=\"#fff\"/>\n",
    )
}

// The name of the figure.
fn print_title(out: &mut Output, figure: Figure<'_>) -> fmt::Result {
    out.write_str("<text x=\"60\" y=\"52\" font-size=\"30\" font-weight=\"bold\">")?;
    for letter in figure.name {
        print_letter(out, *letter)?;
    }
    write!(out, ", figure {}</text>\n", figure.number)
}

// What was told of the fracture.
fn print_told(out: &mut Output, told: Fractured) -> fmt::Result {
    write!(
        out,
        "<text x=\"60\" y=\"90\" font-size=\"26\">shots {}, cost {}, sliver {} nm</text>\n",
        told.shots, told.cost, told.sliver,
    )
}

// The rule, and how it gives the cost.
fn print_rule(out: &mut Output, manner: Manner, told: Fractured) -> fmt::Result {
    let threshold = manner.threshold;
    let weight = manner.weight;
    write!(
        out,
        "<text x=\"60\" y=\"122\" font-size=\"19\" fill=\"#4a5a6e\">rule {threshold}, {weight}",
    )?;
    write!(
        out,
        ": {} x 1000 + {} nm x {weight} = {}</text>\n",
        told.shots, told.sliver, told.cost,
    )
}

// The head of the sheet.
pub fn print_head(out: &mut Output, scene: Scene<'_>) -> fmt::Result {
    out.write_str("<g fill=\"#14263d\">\n")?;
    print_title(out, scene.figure)?;
    print_told(out, scene.told)?;
    print_rule(out, scene.manner, scene.told)?;
    out.write_str("</g>\n")
}

// Where the number of a place stands.
fn tick_spot(view: View, edge: Edge, at: u16) -> Spot {
    let n = u64::from(at);
    match edge {
        Edge::Below => spot_of(view.x(at), view.foot().saturating_add(30000), n, TICKS),
        Edge::Left => {
            let half = share(TICKS, 32 * digits(n), 100);
            let x = view.across.saturating_sub(half.saturating_add(24000));
            spot_of(x, view.y(at), n, TICKS)
        }
    }
}

// The mark at a place.
fn print_mark(out: &mut Output, view: View, edge: Edge, spot: Spot) -> fmt::Result {
    out.write_str("<path stroke=\"#4a5a6e\" d=\"M")?;
    match edge {
        Edge::Below => {
            let x = Thousandths(spot.x);
            let y = Thousandths(spot.y.saturating_sub(20000));
            write!(out, "{x} {y}v8\"/>\n")
        }
        Edge::Left => {
            let x = Thousandths(view.across.saturating_sub(18000));
            let y = Thousandths(spot.y);
            write!(out, "{x} {y}h8\"/>\n")
        }
    }
}

// The mark of a line, and its place where there is room for it.
fn print_tick(
    out: &mut Output,
    view: View,
    edge: Edge,
    at: u16,
    spots: &mut Spots,
    slot: usize,
) -> fmt::Result {
    let spot = tick_spot(view, edge, at);
    print_mark(out, view, edge, spot)?;
    if spots.is_free(spot) {
        take(&mut spots.lines, slot, Some(spot));
        print_number_at(out, spot, TICKS, u64::from(at))?;
    }
    Ok(())
}

// Which line comes next: the first and the last before those between.
fn next_line(n: usize, last: usize) -> usize {
    match n {
        0 => 0,
        1 => last,
        _ => n - 1,
    }
}

// The places of the lines of a direction.
fn print_ticks(
    out: &mut Output,
    view: View,
    edge: Edge,
    lines: &[u16; MOST_LINES],
    last: usize,
    spots: &mut Spots,
) -> fmt::Result {
    let first = if edge == Edge::Below { MOST_LINES } else { 0 };
    for n in 0..MOST_LINES.min(last.saturating_add(1)) {
        let at = place(lines, next_line(n, last));
        print_tick(out, view, edge, at, spots, first + n)?;
    }
    Ok(())
}

// The places of all lines, in nm.
pub fn print_places(
    out: &mut Output,
    view: View,
    grid: Grid<'_>,
    spots: &mut Spots,
) -> fmt::Result {
    out.write_str("<g fill=\"#4a5a6e\" text-anchor=\"middle\">\n")?;
    print_ticks(out, view, Edge::Below, grid.xs, grid.columns, spots)?;
    print_ticks(out, view, Edge::Left, grid.ys, grid.rows, spots)?;
    out.write_str("</g>\n")
}

// The longest round length that is no longer than a number of nm, or 1.
fn round_length(most: u64) -> u64 {
    let mut best = 1;
    for length in ROUND.iter() {
        if *length <= most {
            best = *length;
        }
    }
    best
}

// The scale.
fn print_scale(out: &mut Output, view: View) -> fmt::Result {
    let side = u64::from(view.side);
    let length = round_length(side / 4);
    let long = share(length, LONGER, side);
    let y = view.bottom.saturating_add(88000);
    write!(
        out,
        "<path fill=\"none\" stroke=\"#14263d\" stroke-width=\"2.5\" d=\"M60 {}v14m0 -7h{}m0 -7v14\"/>\n",
        Thousandths(y.saturating_sub(7000)),
        Thousandths(long),
    )?;
    write!(
        out,
        "<text font-size=\"20\" x=\"{}\" y=\"{}\">{length} nm</text>\n",
        Thousandths(long.saturating_add(72000)),
        Thousandths(y.saturating_add(7000)),
    )
}

// The start of a line of the legend, so far below the figure's room.
fn print_row(out: &mut Output, view: View, below: u64) -> fmt::Result {
    let y = Thousandths(view.bottom.saturating_add(below));
    write!(out, "<g transform=\"translate(60 {y})\">")
}

// What a shot looks like.
fn print_shot_row(out: &mut Output, view: View) -> fmt::Result {
    print_row(out, view, 128000)?;
    out.write_str(
        "<rect y=\"-13\" width=\"52\" height=\"26\" fill=\"#eaf1fa\" stroke=\"#7f97b5\" stroke-width=\"1.5\"/><text x=\"26\" dy=\".35em\" font-weight=\"600\" text-anchor=\"middle\">1</text><text x=\"70\" dy=\".35em\">a shot, with its number in the shot list</text></g>\n",
    )
}

// What a sliver looks like, and what red means.
fn print_sliver_row(out: &mut Output, view: View, threshold: u32) -> fmt::Result {
    print_row(out, view, 166000)?;
    out.write_str(
        "<rect y=\"-8\" width=\"52\" height=\"16\" fill=\"#fde0dc\" stroke=\"#7f97b5\" stroke-width=\"1.5\"/><path stroke=\"#d62718\" stroke-width=\"7\" d=\"M0 -8h52M10 8h42\"/>",
    )?;
    write!(
        out,
        "<text x=\"70\" dy=\".35em\">a sliver, narrower than {threshold} nm; red: its longer sides where exposed, charged</text></g>\n",
    )
}

// What a cut looks like.
fn print_cut_row(out: &mut Output, view: View, pinwheels: bool) -> fmt::Result {
    print_row(out, view, 204000)?;
    out.write_str(
        "<g stroke=\"#2f7ed8\" stroke-opacity=\".55\"><path stroke-width=\"9\" d=\"M0 -9h52\"/><path stroke-width=\"4.8\" d=\"M0 2h52\"/><path stroke-width=\"2.2\" d=\"M0 11h52\"/></g>",
    )?;
    out.write_str("<text x=\"70\" dy=\".35em\">cuts, numbered in their order where there is room")?;
    if pinwheels {
        return out.write_str("; a pinwheel has none</text></g>\n");
    }
    out.write_str(", the first thickest</text></g>\n")
}

// The foot of the sheet, and the end of the picture.
pub fn print_foot(out: &mut Output, view: View, manner: Manner) -> fmt::Result {
    out.write_str("<g fill=\"#14263d\" font-size=\"19\">\n")?;
    print_scale(out, view)?;
    print_shot_row(out, view)?;
    print_sliver_row(out, view, manner.threshold)?;
    print_cut_row(out, view, manner.pinwheels)?;
    out.write_str("</g>\n</svg>\n")
}
