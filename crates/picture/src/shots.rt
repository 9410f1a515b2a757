// The figure and its shots, in nm.
use crate::sheet::{Shot, View};
use std::fmt;
use std::fmt::Write;
use terminal::output::Output;

// A shot, with its number and its four numbers, told where somebody points at it; a sliver in a colour of its own.
fn print_shot(
    out: &mut Output,
    view: View,
    shot: Shot,
    number: usize,
    threshold: u32,
) -> fmt::Result {
    let x = view.from_left(shot.left);
    let y = view.from_top(shot.top);
    let width = shot.width();
    let height = shot.height();
    write!(
        out,
        "<rect x=\"{x}\" y=\"{y}\" width=\"{width}\" height=\"{height}"
    )?;
    if shot.is_sliver(threshold) {
        out.write_str("\" fill=\"#fde0dc")?;
    }
    let Shot {
        left,
        bottom,
        right,
        top,
    } = shot;
    write!(
        out,
        "\"><title>shot {number}: {left} {bottom} {right} {top}</title></rect>\n",
    )
}

// Every shot, numbered from 1.
pub fn print_shots(
    out: &mut Output,
    view: View,
    shots: &[[u16; 4]],
    threshold: u32,
) -> fmt::Result {
    write!(
        out,
        "<g fill=\"#eaf1fa\" stroke=\"#7f97b5\" stroke-width=\"{}\">\n",
        view.stroke(15),
    )?;
    for (n, shot) in shots.iter().enumerate() {
        print_shot(out, view, Shot::from(*shot), n + 1, threshold)?;
    }
    out.write_str("</g>\n")
}

// A ring as a part of a path: M before its first corner, L before each other.
fn print_ring(out: &mut Output, view: View, ring: &[[u16; 2]]) -> fmt::Result {
    let mut letter = 'M';
    for [x, y] in ring {
        write!(out, "{letter}{} {}", view.from_left(*x), view.from_top(*y))?;
        letter = 'L';
    }
    out.write_str("Z")
}

// The figure as one path over all rings: inside is what an odd number of edges lie beside.
pub fn print_figure(out: &mut Output, view: View, corners: &[u16], lengths: &[u16]) -> fmt::Result {
    write!(
        out,
        "<path fill=\"#3d6fb0\" fill-opacity=\".08\" fill-rule=\"evenodd\" stroke=\"#14263d\" stroke-width=\"{}\" d=\"",
        view.stroke(25),
    )?;
    let mut left = corners.as_chunks::<2>().0;
    for length in lengths {
        let (ring, others) = left.split_at(left.len().min(usize::from(*length)));
        print_ring(out, view, ring)?;
        left = others;
    }
    out.write_str("\"/>\n")
}
