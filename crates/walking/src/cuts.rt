// Step 6: the cuts, from the frame down to the shots that the edge ends up on.
use crate::page::{Page, show};
use crate::pieces::{Walk, print_kind, print_piece};
use crate::sheet::{Sheet, Spot, takes_in};
use cutting::lines::{cell, place};
use cutting::{Cut, Piece, Priced};
use outline::MOST_LINES;
use std::fmt::Write;

// No way from the frame to a shot is longer: each cut takes a line away.
const MOST_LEVELS: usize = 31;

// The name of a cut: its line and the line's place.
fn print_cut_name(page: &mut Page, sheet: &Sheet, cut: Cut) {
    let (name, line, lines) = match cut {
        Cut::Upright(x) => ("x", x, &sheet.xs),
        Cut::Level(y) => ("y", y, &sheet.ys),
    };
    show!(
        page,
        "{name} line{line:3}, {name} ={:6}",
        place(lines, line)
    );
}

// One cut as it is weighed, and whether it is the one that is made.
fn print_cut(page: &mut Page, walk: Walk<'_>, p: Piece, cut: Cut, made: Cut) {
    show!(page, "      cut at ");
    print_cut_name(page, walk.sheet, cut);
    show!(
        page,
        ":{:11} +{:11} ={:11}",
        walk.priced().cost_of(p.low(cut)),
        walk.priced().cost_of(p.high(cut)),
        walk.priced().weighed(p, cut)
    );
    if cut == made {
        show!(page, "  made");
    }
    show!(page, "\n");
}

// Every cut of a piece, in the order in which equals are taken: x lines before y lines, the lower line first.
fn print_each(page: &mut Page, walk: Walk<'_>, p: Piece, made: Cut) {
    for x in p.a.saturating_add(1)..p.c {
        print_cut(page, walk, p, Cut::Upright(x), made);
    }
    for y in p.b.saturating_add(1)..p.d {
        print_cut(page, walk, p, Cut::Level(y), made);
    }
}

// Whether the cells in the column or the row beside a cut change at the line n, which the cut passes.
fn turns_at(sheet: &Sheet, cut: Cut, beside: usize, n: usize) -> bool {
    let Some(before) = n.checked_sub(1) else {
        return false;
    };
    match cut {
        Cut::Upright(_) => cell(&sheet.cells, beside, before) != cell(&sheet.cells, beside, n),
        Cut::Level(_) => cell(&sheet.cells, before, beside) != cell(&sheet.cells, n, beside),
    }
}

// Whether they change there on either side: the cut runs past a wall.
fn changes_at(sheet: &Sheet, cut: Cut, n: usize) -> bool {
    let (Cut::Upright(line) | Cut::Level(line)) = cut;
    line.checked_sub(1).is_some_and(|before| turns_at(sheet, cut, line, n)
        || turns_at(sheet, cut, before, n))
}

// A cut of a piece that runs past a wall, told with the first one; whether it does.
fn print_run(page: &mut Page, sheet: &Sheet, p: Piece, cut: Cut) -> bool {
    let (along, low, high) = match cut {
        Cut::Upright(_) => (&sheet.ys, p.b, p.d),
        Cut::Level(_) => (&sheet.xs, p.a, p.c),
    };
    let Some(wall) = (low.saturating_add(1)..high).find(|n| changes_at(sheet, cut, *n)) else {
        return false;
    };
    show!(
        page,
        "      the cut runs from {} to {}, past the wall at {}\n",
        place(along, low),
        place(along, high),
        place(along, wall)
    );
    true
}

// The mistake that such a cut shows.
fn print_stops(page: &mut Page) {
    show!(page, "      Mistake: a cut stops at the first wall.\n");
    show!(
        page,
        "      It runs across the whole piece, or the parts would be no rectangles.\n"
    );
}

// The cuts of a piece that is no shot. Gives whether the mistake of the first wall has been told, which is told once.
fn print_mixed(page: &mut Page, walk: Walk<'_>, p: Piece, told: bool) -> bool {
    let Some(made) = walk.priced().best_cut(p) else {
        return told;
    };
    print_each(page, walk, p, made);
    if !print_run(page, walk.sheet, p, made) {
        return told;
    }
    if !told {
        print_stops(page);
    }
    true
}

// One piece on the way: its cuts, or that it is a shot.
fn print_level(page: &mut Page, walk: Walk<'_>, p: Piece, told: bool) -> bool {
    let is = if p == walk.priced().frame() {
        "frame"
    } else {
        "part "
    };
    show!(page, "   {is} ");
    print_piece(page, walk.priced(), p);
    print_kind(page, walk, p);
    show!(page, "\n");
    if walk.sheet.is_shot(p) {
        return told;
    }
    print_mixed(page, walk, p, told)
}

// The part of a piece that goes on towards a cell; none where the piece is a shot.
fn part_towards(walk: Walk<'_>, p: Piece, inner: Spot) -> Option<Piece> {
    if walk.sheet.is_shot(p) {
        return None;
    }
    let cut = walk.priced().best_cut(p)?;
    let low = p.low(cut);
    if takes_in(low, inner) {
        return Some(low);
    }
    Some(p.high(cut))
}

// The way from the frame down to the shot that takes in a cell. Pieces that take in the cell before it were told on the way to that.
fn print_way(
    page: &mut Page,
    walk: Walk<'_>,
    inner: Spot,
    before: Option<Spot>,
    stops: bool,
) -> bool {
    let mut told = stops;
    let mut p = walk.priced().frame();
    for _ in 0..MOST_LEVELS {
        if !before.is_some_and(|spot| takes_in(p, spot)) {
            told = print_level(page, walk, p, told);
        }
        match part_towards(walk, p, inner) {
            Some(next) => p = next,
            None => return told,
        }
    }
    told
}

// The ways to the shots of each part of the edge, from its low end to its high end. Gives whether there was one.
fn print_ways(page: &mut Page, walk: Walk<'_>) -> bool {
    let lies = walk.lies;
    let mut told = false;
    let mut before = None;
    for n in lies.from..lies.to {
        if let Some(inner) = walk.sheet.inner_cell(lies, n) {
            told = print_way(page, walk, inner, before, told);
            before = Some(inner);
        }
    }
    before.is_some()
}

// The costs that were found in the table, where they would have cut the frame elsewhere: those of the figure before this one in the
// job, or of this one by weight 0.
fn print_stale(page: &mut Page, walk: Walk<'_>, found: Priced<'_>, earlier: bool) {
    let p = walk.priced().frame();
    let (Some(stale), Some(made)) = (found.best_cut(p), walk.priced().best_cut(p)) else {
        return;
    };
    if stale == made {
        return;
    }
    let whose = if earlier {
        "The figure before this one"
    } else {
        "This figure by weight 0"
    };
    show!(
        page,
        "   Mistake: a cost of an earlier drawing steers the cut.\n   {whose} left its costs in the lent table. By them the frame\n   would be cut at "
    );
    print_cut_name(page, walk.sheet, stale);
    show!(
        page,
        ", for {}. That cut costs {},\n   the one that is made {}: nothing found in a lent buffer has any influence.\n",
        found.weighed(p, stale),
        walk.priced().weighed(p, stale),
        walk.priced().weighed(p, made)
    );
}

// Step 6: the cuts. Beside the costs of the walk stand those that were found in the table.
pub fn print_cuts(page: &mut Page, walk: Walk<'_>, found: Priced<'_>, earlier: bool) {
    show!(page, "\n6. The cuts, from the frame down\n\n");
    if !print_ways(page, walk) {
        show!(page, "   the edge is no wall: no cut leads to it\n");
        return;
    }
    if !walk.sheet.is_shot(walk.priced().frame()) {
        print_stale(page, walk, found, earlier);
    }
}
