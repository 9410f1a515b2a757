// The cuts that lead from the frame to the shots, in the order in which they are made: a piece's own, then those of its low part, then
// those of its high part.
ghost use Rattle.std.specs.Prelude.{◌≤◌};

use crate::sheet::{Grid, Shot, View};
use cutting::{Cut, Piece, Priced};
use std::fmt;
use std::fmt::Write;
use terminal::output::Output;

// Between two pieces that are no shot there is a cut: no figure has more.
const MOST_MADE: usize = 224;

// No more pieces are looked at: those that are cut, and those that are not.
const MOST_TURNS: usize = 449;

// No more pieces wait at once: of each piece that led here one part, and no piece has more than 28 cuts.
const MOST_WAITING: usize = 64;

// Strokes of the cuts by their level, in tenths of a unit. Those deeper are as thin as the last.
const STROKES: [u64; 8] = [90, 64, 48, 36, 28, 22, 17, 13];

// A cut that was made: its line, and how many cuts lead to its piece, none to the frame.
#[derive(Clone, Copy)]
pub struct Made {
    pub line: Shot,
    level: usize,
}

// The cuts that were made, so many at the front of the list. It is fixed, as the next one is, and no Vec: drawing takes no memory, so that
// it cannot run out of it.
#[derive(Clone, Copy)]
pub struct Cuts {
    made: [Made; MOST_MADE],
    count: usize,
    ghost within: { count ≤ 224 },
}

// A piece, and how many cuts lead to it.
#[derive(Clone, Copy)]
struct Leveled {
    piece: Piece,
    level: usize,
}

// The pieces that wait for their turn, so many at the front of the list, the last of them next.
#[derive(Clone, Copy)]
struct Waiting {
    pieces: [Leveled; MOST_WAITING],
    count: usize,
    ghost within: { count ≤ 64 },
}

impl Cuts {
    // No cut yet.
    fn none() -> Cuts {
        let line = Shot::from([0; 4]);
        Cuts {
            made: [Made { line, level: 0 }; MOST_MADE],
            count: 0,
        }
    }

    // One more, where there is room.
    fn keep(&mut self, cut: Made) {
        if self.count < MOST_MADE {
            self.made[self.count] = cut;
            self.count += 1;
        }
    }

    // All of them.
    pub fn all(&self) -> &[Made] {
        &self.made[..self.count]
    }
}

impl Waiting {
    // One piece alone.
    fn with(piece: Piece) -> Waiting {
        Waiting {
            pieces: [Leveled { piece, level: 0 }; MOST_WAITING],
            count: 1,
        }
    }

    // One more, where there is room.
    fn push(&mut self, next: Leveled) {
        if self.count < MOST_WAITING {
            self.pieces[self.count] = next;
            self.count += 1;
        }
    }

    // The last of them, which waits no more.
    fn pop(&mut self) -> Option<Leveled> {
        if self.count == 0 {
            return None;
        }
        self.count -= 1;
        Some(self.pieces[self.count])
    }
}

// The cut that is made of a piece: none where it is outside or a shot, nor where no cut is as cheap as the piece: there it fell into a
// pinwheel.
fn cut_made(priced: Priced<'_>, grid: Grid<'_>, shots: &[[u16; 4]], p: Piece) -> Option<Cut> {
    let paid = priced.cost_of(p);
    if paid == 0 || shots.contains(&grid.shot_of(p)) {
        return None;
    }
    let best = priced.best_cut(p)?;
    if priced.weighed(p, best) != u64::from(paid) {
        return None;
    }
    Some(best)
}

// The cuts from the frame down: the low part of a piece that was cut waits above its high part.
pub fn cuts_of(priced: Priced<'_>, grid: Grid<'_>, shots: &[[u16; 4]]) -> Cuts {
    let mut waiting = Waiting::with(priced.frame());
    let mut cuts = Cuts::none();
    for _ in 0..MOST_TURNS {
        let Some(Leveled { piece, level }) = waiting.pop() else {
            break;
        };
        if let Some(cut) = cut_made(priced, grid, shots, piece) {
            let line = grid.line_of(piece, cut);
            let below = level.saturating_add(1);
            cuts.keep(Made { line, level });
            waiting.push(Leveled {
                piece: piece.high(cut),
                level: below,
            });
            waiting.push(Leveled {
                piece: piece.low(cut),
                level: below,
            });
        }
    }
    cuts
}

// The stroke of a cut of a level: the earlier, the thicker.
fn stroke_of(level: usize) -> u64 {
    STROKES[level.min(7)]
}

// One line in nm, from the left and top end of the frame.
pub fn print_line(out: &mut Output, view: View, line: Shot) -> fmt::Result {
    write!(
        out,
        "<line x1=\"{}\" y1=\"{}\" x2=\"{}\" y2=\"{}\"",
        view.from_left(line.left),
        view.from_top(line.bottom),
        view.from_left(line.right),
        view.from_top(line.top),
    )
}

// Every cut, with its number, told where somebody points at it: not every cut has room for one beside it.
pub fn print_cuts(out: &mut Output, view: View, cuts: &[Made]) -> fmt::Result {
    out.write_str("<g stroke=\"#2f7ed8\" stroke-opacity=\".55\">\n")?;
    for (n, cut) in cuts.iter().enumerate() {
        print_line(out, view, cut.line)?;
        let stroke = view.stroke(stroke_of(cut.level));
        let number = n + 1;
        write!(
            out,
            " stroke-width=\"{stroke}\"><title>cut {number}</title></line>\n",
        )?;
    }
    out.write_str("</g>\n")
}
