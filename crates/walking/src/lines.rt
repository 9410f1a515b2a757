// Steps 3 and 4: lines and cells, and the side of the figure along the edge.
use crate::page::{Page, show};
use crate::sheet::{Lies, Sheet, Spot};
use cutting::lines::place;
use outline::MOST_LINES;
use std::fmt::Write;

// The lines of a direction in columns, so many: their numbers, and their places below them.
fn print_lines(page: &mut Page, name: &str, lines: &[u16; MOST_LINES], count: usize) {
    show!(page, "   {name} line");
    for line in 0..count {
        show!(page, "{line:6}");
    }
    show!(page, "\n   {name} =   ");
    for place in lines.iter().take(count) {
        show!(page, "{place:6}");
    }
    show!(page, "\n");
}

// One cell, and left of it a blank or the edge.
fn print_cell(page: &mut Page, sheet: &Sheet, lies: Lies, spot: Spot) {
    let wall = if lies.is_wall(spot.i, spot.j) {
        "|"
    } else {
        " "
    };
    let cell = if sheet.holds(spot) { "#" } else { "." };
    show!(page, "{wall}{cell}");
}

// A row of cells from left to right.
fn print_row(page: &mut Page, sheet: &Sheet, lies: Lies, j: usize) {
    show!(page, "   row{j:3}  ");
    for i in 0..sheet.columns {
        print_cell(page, sheet, lies, Spot { i, j });
    }
    if lies.is_wall(sheet.columns, j) {
        show!(page, "|");
    }
    show!(page, "\n");
}

// Of a level edge the part above or below the column i.
fn print_dash(page: &mut Page, lies: Lies, i: usize) {
    if i < lies.from {
        show!(page, "  ");
    } else if i < lies.to {
        show!(page, " -");
    }
}

// The y line j, where the edge is level and lies on it.
fn print_level(page: &mut Page, sheet: &Sheet, lies: Lies, j: usize) {
    if lies.upright || lies.line != j {
        return;
    }
    show!(page, "           ");
    for i in 0..sheet.columns {
        print_dash(page, lies, i);
    }
    show!(page, "\n");
}

// The rows of cells, the highest first, as one sees the drawing.
fn print_rows(page: &mut Page, sheet: &Sheet, lies: Lies) {
    for j in (0..sheet.rows).rev() {
        print_level(page, sheet, lies, j + 1);
        print_row(page, sheet, lies, j);
    }
    print_level(page, sheet, lies, 0);
}

// Which lines the edge lies on.
fn print_lies(page: &mut Page, lies: Lies) {
    let (own, other) = if lies.upright { ("x", "y") } else { ("y", "x") };
    show!(
        page,
        "   the edge lies on {own} line {}, from {other} line {} to {}\n",
        lies.line,
        lies.from,
        lies.to
    );
}

// Step 3: lines and cells.
pub fn print_grid(page: &mut Page, sheet: &Sheet, lies: Lies) {
    show!(page, "\n3. Lines and cells\n\n");
    print_lines(page, "x", &sheet.xs, sheet.columns.saturating_add(1));
    print_lines(page, "y", &sheet.ys, sheet.rows.saturating_add(1));
    print_lies(page, lies);
    show!(page, "   # inside, . outside, | or - the edge\n");
    print_rows(page, sheet, lies);
}

// Inside or outside, in words of one length.
fn inside(is: bool) -> &'static str {
    if is { "inside " } else { "outside" }
}

// What lies on either side of a part of the edge between two lines, and so which side of the figure it is.
fn print_part(page: &mut Page, sheet: &Sheet, lies: Lies, along: &[u16; MOST_LINES], n: usize) {
    let low = inside(sheet.low_inside(lies, n));
    let high = inside(sheet.high_inside(lies, n));
    show!(
        page,
        "   from{:6} to{:6}   {low}   {high}   ",
        place(along, n),
        place(along, n.saturating_add(1))
    );
    match sheet.side(lies, n) {
        Some(side) => {
            show!(page, "{side}\n");
        }
        None => {
            show!(page, "no wall\n");
        }
    }
}

// Step 4: exposure, the side of the figure along the edge, from its low end to its high end.
pub fn print_exposure(page: &mut Page, sheet: &Sheet, lies: Lies) {
    let (sides, along) = if lies.upright {
        ("left      right", &sheet.ys)
    } else {
        ("below     above", &sheet.xs)
    };
    show!(
        page,
        "\n4. Exposure\n\n                         {sides}     side of the figure\n"
    );
    for n in lies.from..lies.to {
        print_part(page, sheet, lies, along, n);
    }
}
