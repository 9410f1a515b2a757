// The walk over drawing B, in numbers: its lines and cells, its shots, every piece with its entry and cost, and the cuts of the frame as
// they are weighed, by three rules; then two squares that touch, and a frame with a window.
use crate::corners::print_numbers;
use crate::ends::print_shot;
use crate::figures::front;
use crate::page::{Page, show};
use crate::sheet::Sheet;
use cutting::{Cut, Piece, Priced};
use fracture::fracture;
use refusal::Refusal;
use std::fmt::Write;

// A figure of the scope: its corners, and how many each ring has.
#[derive(Clone, Copy)]
struct Worked<'a> {
    corners: &'a [u16],
    lengths: &'a [u16],
}

// Drawing B of the scope: a block of 200 by 200 with a nose of 10 by 100 on its right.
const B: [u16; 16] = [
    0, 0, 200, 0, 200, 50, 210, 50, 210, 150, 200, 150, 200, 200, 0, 200,
];

// Two squares of the scope that touch in a corner, drawn as one outline.
const TOUCHING: [u16; 12] = [0, 0, 10, 0, 10, 20, 20, 20, 20, 10, 0, 10];

// A frame of 100 by 100 with a window of 40 by 40 in its middle: two rings of 4 corners.
const FRAME: [u16; 16] = [
    0, 0, 100, 0, 100, 100, 0, 100, 30, 30, 70, 30, 70, 70, 30, 70,
];

// Room for the costs of the pieces of 3 by 3 cells, and for six shots.
const ENTRIES: usize = 36;

const NUMBERS: usize = 24;

// One row of cells, from left to right: 1 for inside.
fn print_row(page: &mut Page, sheet: &Sheet, j: usize) {
    show!(page, "cells of row {j}:");
    for i in 0..sheet.columns {
        let inside = cutting::lines::cell(&sheet.cells, i, j);
        show!(page, " {}", u8::from(inside));
    }
    show!(page, "\n");
}

// The rings, lines and cells of a figure; the rows of cells the highest first, as one sees the drawing.
fn print_grid(page: &mut Page, worked: Worked<'_>, sheet: &Sheet) {
    show!(page, "corners");
    print_numbers(page, worked.corners);
    show!(page, "corners of each ring");
    print_numbers(page, worked.lengths);
    show!(page, "x lines");
    print_numbers(page, front(&sheet.xs, sheet.columns.saturating_add(1)));
    show!(page, "y lines");
    print_numbers(page, front(&sheet.ys, sheet.rows.saturating_add(1)));
    for j in (0..sheet.rows).rev() {
        print_row(page, sheet, j);
    }
}

// Fractures a figure by a rule, and prints what the call answers.
fn print_answer(
    page: &mut Page,
    worked: Worked<'_>,
    threshold: u32,
    weight: u32,
    table: &mut [u32],
) {
    let mut list = [0u16; NUMBERS];
    show!(page, "rule {threshold} {weight}: ");
    let answer = fracture(
        worked.corners,
        worked.lengths,
        threshold,
        weight,
        table,
        &mut list,
    );
    let Ok(done) = answer else {
        show!(page, "refused\n");
        return;
    };
    show!(
        page,
        "shots {} cost {} sliver {}\n",
        done.shots,
        done.cost,
        done.sliver
    );
    for shot in list.chunks_exact(4).take(done.shots as usize) {
        show!(page, "shot ");
        print_shot(page, shot);
        show!(page, "\n");
    }
}

// One piece of the table: its lines, its entry and its cost.
fn print_piece(page: &mut Page, priced: Priced<'_>, p: Piece) {
    if let Some(entry) = priced.entry_of(p) {
        show!(
            page,
            "piece x lines {} {} y lines {} {}: entry {entry} cost {}\n",
            p.a,
            p.c,
            p.b,
            p.d,
            priced.cost_of(p)
        );
    }
}

// Every piece of B, in the order of entries.
fn print_pieces(page: &mut Page, priced: Priced<'_>) {
    for (a, c) in [(0, 1), (0, 2), (1, 2)] {
        for (b, d) in [(0, 1), (0, 2), (0, 3), (1, 2), (1, 3), (2, 3)] {
            print_piece(page, priced, Piece { a, c, b, d });
        }
    }
}

// One cut of the frame: the costs of its two parts, and together.
fn print_cut(page: &mut Page, priced: Priced<'_>, cut: Cut) {
    let frame = priced.frame();
    match cut {
        Cut::Upright(x) => {
            show!(page, "cut of the frame at x line {x}:");
        }
        Cut::Level(y) => {
            show!(page, "cut of the frame at y line {y}:");
        }
    }
    show!(
        page,
        " {} + {} = {}\n",
        priced.cost_of(frame.low(cut)),
        priced.cost_of(frame.high(cut)),
        priced.weighed(frame, cut)
    );
}

// The cuts of the frame in the tie order.
fn print_cuts(page: &mut Page, priced: Priced<'_>) {
    for x in 1..priced.columns {
        print_cut(page, priced, Cut::Upright(x));
    }
    for y in 1..priced.rows {
        print_cut(page, priced, Cut::Level(y));
    }
}

// The block, by three rules.
fn walk_b(page: &mut Page, table: &mut [u32]) -> Result<(), Refusal> {
    let worked = Worked {
        corners: &B,
        lengths: &[8],
    };
    let sheet = Sheet::new(worked.corners, worked.lengths)?;
    print_grid(page, worked, &sheet);
    print_answer(page, worked, 25, 40, table);
    print_pieces(page, sheet.priced(table));
    print_cuts(page, sheet.priced(table));
    for weight in [10, 9] {
        print_answer(page, worked, 25, weight, table);
        print_cuts(page, sheet.priced(table));
    }
    Ok(())
}

// The frame with a window, by two rules.
fn walk_frame(page: &mut Page, table: &mut [u32]) -> Result<(), Refusal> {
    let worked = Worked {
        corners: &FRAME,
        lengths: &[4, 4],
    };
    let sheet = Sheet::new(worked.corners, worked.lengths)?;
    print_grid(page, worked, &sheet);
    for threshold in [25, 40] {
        print_answer(page, worked, threshold, 40, table);
        print_cuts(page, sheet.priced(table));
    }
    Ok(())
}

// All of it.
pub fn walk_block(page: &mut Page) -> Result<(), Refusal> {
    let mut table = [0u32; ENTRIES];
    walk_b(page, &mut table)?;
    let touching = Worked {
        corners: &TOUCHING,
        lengths: &[6],
    };
    print_answer(page, touching, 0, 40, &mut table);
    walk_frame(page, &mut table)
}
