// Steps 1 and 2: the bytes of the figure, its corners, and the edge.
use crate::page::{Page, show};
use job::Header;
use job::read::Part;
use std::fmt::Write;

// An edge: the corners that it leads from and to; and where it lies, at a place, from low to high along it.
#[derive(Clone, Copy)]
pub struct Edge {
    pub start: usize,
    pub end: usize,
    pub upright: bool,
    pub at: u16,
    pub low: u16,
    pub high: u16,
}

// A corner.
#[derive(Clone, Copy)]
struct Corner {
    x: u16,
    y: u16,
}

// The bytes of a part of a job, to be shown.
fn part_of(job: &[u8], part: Part) -> &[u8] {
    job.get(part.start..part.end).unwrap_or(&[])
}

// Step 1: the bytes.
pub fn print_bytes(page: &mut Page, job: &[u8], header: Header, part: Part, k: usize) {
    show!(
        page,
        "1. The job's bytes\n\n   threshold {}, weight {}, figures {}; figure {k} begins at byte {}:\n  ",
        header.threshold,
        header.weight,
        header.outlines,
        part.start
    );
    for byte in part_of(job, part) {
        show!(page, " {byte:02x}");
    }
    show!(page, "\n");
}

// Numbers on a line, with a blank before each.
pub fn print_numbers(page: &mut Page, numbers: &[u16]) {
    for number in numbers {
        show!(page, " {number}");
    }
    show!(page, "\n");
}

// Corner k; one at 0 past the last.
fn corner_at(corners: &[u16], k: usize) -> Corner {
    match corners.chunks_exact(2).nth(k) {
        Some([x, y]) => Corner { x: *x, y: *y },
        _ => Corner { x: 0, y: 0 },
    }
}

// The corner that edge k leads to: the next of its ring, after the ring's last corner its first.
fn next_corner(lengths: &[u16], k: usize) -> usize {
    let next = k.saturating_add(1);
    let mut first: usize = 0;
    for length in lengths {
        let past = first.saturating_add(usize::from(*length));
        if next < past {
            return next;
        }
        if next == past {
            return first;
        }
        first = past;
    }
    first
}

// Edge k of a figure: from corner k to the next of its ring.
pub fn edge_of(corners: &[u16], lengths: &[u16], k: usize) -> Edge {
    let end = next_corner(lengths, k);
    let from = corner_at(corners, k);
    let to = corner_at(corners, end);
    let upright = from.x == to.x;
    let (at, one, other) = if upright {
        (from.x, from.y, to.y)
    } else {
        (from.y, from.x, to.x)
    };
    Edge {
        start: k,
        end,
        upright,
        at,
        low: one.min(other),
        high: one.max(other),
    }
}

// One corner, and whether the edge leads from it or to it.
fn print_corner(page: &mut Page, k: usize, corner: &[u16], edge: Edge) {
    show!(page, "   corner{k:3}");
    for place in corner {
        show!(page, "{place:8}");
    }
    if k == edge.start {
        show!(page, "   the edge leads from here");
    }
    if k == edge.end {
        show!(page, "   to here");
    }
    show!(page, "\n");
}

// Where the edge lies.
fn print_edge(page: &mut Page, edge: Edge) {
    let way = if edge.upright {
        "upright, at x"
    } else {
        "level, at y"
    };
    show!(
        page,
        "   edge {} is {way} = {}, from {} to {}\n",
        edge.start,
        edge.at,
        edge.low,
        edge.high
    );
}

// Step 2: the corners of all rings, and the edge.
pub fn print_corners(page: &mut Page, corners: &[u16], lengths: &[u16], edge: Edge) {
    show!(page, "\n2. Corners\n\n   corners of each ring");
    print_numbers(page, lengths);
    show!(page, "                  x       y\n");
    for (k, corner) in corners.chunks_exact(2).enumerate() {
        print_corner(page, k, corner, edge);
    }
    print_edge(page, edge);
}
