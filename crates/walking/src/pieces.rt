// Step 5: the pieces that hold the edge, with their entries and costs.
use crate::page::{Page, show};
use crate::sheet::{Lies, Sheet, takes_in};
use cutting::lines::place;
use cutting::{Piece, Priced};
use outline::MOST_LINES;
use std::fmt::Write;

// The rule that shots are charged by.
#[derive(Clone, Copy)]
pub struct Charge {
    pub threshold: u32,
    pub weight: u32,
}

// What the walk leads through: the figure as it is drawn, the table of its costs by the rule, and where the edge lies.
#[derive(Clone, Copy)]
pub struct Walk<'a> {
    pub sheet: &'a Sheet,
    pub table: &'a [u32],
    pub charge: Charge,
    pub lies: Lies,
}

// So many pieces are listed one by one; of more only their number is told.
const MOST_LISTED: usize = 24;

// So many ways there are to name four lines of sixteen.
const FOUR_LINES: usize = 65536;

// Number n of the ways to name four lines, in the order of entries.
fn named(n: usize) -> Piece {
    Piece {
        a: n / 4096 % 16,
        c: n / 256 % 16,
        b: n / 16 % 16,
        d: n % 16,
    }
}

// How far it is from one line to another.
fn extent(lines: &[u16; MOST_LINES], low: usize, high: usize) -> u16 {
    place(lines, high).saturating_sub(place(lines, low))
}

impl<'a> Walk<'a> {
    // The pieces with their costs.
    pub fn priced(self) -> Priced<'a> {
        self.sheet.priced(self.table)
    }

    // Whether four lines are a piece of the grid that holds something of the edge: it takes in a cell that a part of the edge bounds.
    fn is_held(self, p: Piece) -> bool {
        if self.priced().entry_of(p).is_none() {
            return false;
        }
        for n in self.lies.from..self.lies.to {
            if let Some(inner) = self.sheet.inner_cell(self.lies, n)
                && takes_in(p, inner)
            {
                return true;
            }
        }
        false
    }
}

// The lines of a piece, its entry and its cost: each piece on the way has an entry.
pub fn print_piece(page: &mut Page, priced: Priced<'_>, p: Piece) {
    show!(
        page,
        "x lines{:3}{:3}  y lines{:3}{:3}: entry{:6}  cost{:11}",
        p.a,
        p.c,
        p.b,
        p.d,
        priced.entry_of(p).unwrap_or(fracture::ENTRIES),
        priced.cost_of(p)
    );
}

// A shot of this width and height at this cost: whether it is narrow, and how much of its two longer sides counts, which is what makes it
// cost more than 1,000. Gives whether some of them does not.
fn print_shot(page: &mut Page, width: u16, height: u16, cost: u32, charge: Charge) -> bool {
    let narrow = width.min(height);
    let counts = cost.saturating_sub(1000).checked_div(charge.weight);
    match counts {
        Some(counts) if u32::from(narrow) < charge.threshold => {
            show!(
                page,
                "  a sliver, {narrow} nm: 1000 + {} x {counts}",
                charge.weight
            );
            counts < 2 * u32::from(width.max(height))
        }
        _ => {
            show!(page, "  a shot");
            false
        }
    }
}

// What becomes of a piece, where it is one shot. Gives whether it is a sliver with a side that is no wall.
pub fn print_kind(page: &mut Page, walk: Walk<'_>, p: Piece) -> bool {
    if !walk.sheet.is_shot(p) {
        return false;
    }
    let width = extent(&walk.sheet.xs, p.a, p.c);
    let height = extent(&walk.sheet.ys, p.b, p.d);
    print_shot(page, width, height, walk.priced().cost_of(p), walk.charge)
}

// A piece on a line of its own. Gives whether it is a sliver with a side that is no wall.
fn print_held(page: &mut Page, walk: Walk<'_>, p: Piece) -> bool {
    show!(page, "   piece ");
    print_piece(page, walk.priced(), p);
    let spared = print_kind(page, walk, p);
    show!(page, "\n");
    spared
}

// Every piece that holds something of the edge, in the order of entries. Gives whether one is a sliver with a side that is no wall.
fn print_each(page: &mut Page, walk: Walk<'_>) -> bool {
    let mut spared = false;
    for n in 0..FOUR_LINES {
        let p = named(n);
        if walk.is_held(p) {
            let here = print_held(page, walk, p);
            spared = spared || here;
        }
    }
    spared
}

// Step 5: the pieces that hold the edge. Of a large grid their number alone is told: those on the way from the frame follow in step 6.
pub fn print_pieces(page: &mut Page, walk: Walk<'_>) {
    let count = (0..FOUR_LINES).filter(|n| walk.is_held(named(*n))).count();
    show!(
        page,
        "\n5. The pieces that hold the edge\n\n   {count} pieces"
    );
    if MOST_LISTED < count {
        show!(page, "; those on the way from the frame stand in step 6\n");
        return;
    }
    show!(page, "\n");
    // The first mistake that newcomers make.
    if print_each(page, walk) {
        show!(
            page,
            "   Mistake: a narrow shot is charged along all its sides.\n"
        );
        show!(
            page,
            "   It is charged along its two longer sides, and there only where they are walls.\n"
        );
    }
}
