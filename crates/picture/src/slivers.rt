// What is charged, in red: of a shot that is a sliver the exposed stretches of its two longer sides; of a square, those of the pair that
// is exposed more (docs/SCOPE.md, "Pieces, slivers, cost").
use crate::cuts::print_line;
use crate::scene::Scene;
use crate::sheet::{Grid, Shot};
use cutting::lines::{cell, line_at, place};
use cutting::sides::Side;
use edge::edge_shots;
use outline::MOST_LINES;
use std::fmt;
use std::fmt::Write;
use terminal::output::Output;

// An edge of a fractured figure has no more runs: 15, of four numbers each.
const MOST_RUNS: usize = 60;

// A stretch of an edge that lies on a side of a shot, from a place along it to another.
#[derive(Clone, Copy)]
struct Run {
    shot: Shot,
    side: Side,
    from: u16,
    to: u16,
}

// Two opposite sides of a shot: upright ones, or level ones; the lines of the grid across them and along them, the places of the two, and
// from where to where they go.
#[derive(Clone, Copy)]
struct Pair<'a> {
    upright: bool,
    across: &'a [u16; MOST_LINES],
    along: &'a [u16; MOST_LINES],
    low: u16,
    high: u16,
    from: u16,
    to: u16,
}

impl<'a> Pair<'a> {
    // Left and right.
    fn upright(grid: Grid<'a>, shot: Shot) -> Pair<'a> {
        Pair {
            upright: true,
            across: grid.xs,
            along: grid.ys,
            low: shot.left,
            high: shot.right,
            from: shot.bottom,
            to: shot.top,
        }
    }

    // Bottom and top.
    fn level(grid: Grid<'a>, shot: Shot) -> Pair<'a> {
        Pair {
            upright: false,
            across: grid.ys,
            along: grid.xs,
            low: shot.bottom,
            high: shot.top,
            from: shot.left,
            to: shot.right,
        }
    }

    // Whether the cell in this column or row beyond a side is inside, between lines n and n + 1 along it; beyond the frame none is.
    fn is_covered(self, grid: Grid<'_>, beyond: Option<usize>, n: usize) -> bool {
        beyond.is_some_and(|beyond| {
            if self.upright {
                cell(grid.cells, beyond, n)
            } else {
                cell(grid.cells, n, beyond)
            }
        })
    }

    // The exposed length of a side, beyond which there is this column or row.
    fn exposed_side(self, grid: Grid<'_>, beyond: Option<usize>) -> u64 {
        let mut length = 0u64;
        for n in line_at(self.along, self.from)..line_at(self.along, self.to) {
            if !self.is_covered(grid, beyond, n) {
                let end = place(self.along, n.saturating_add(1));
                let stretch = end.saturating_sub(place(self.along, n));
                length = length.saturating_add(u64::from(stretch));
            }
        }
        length
    }

    // That of both.
    fn exposed(self, grid: Grid<'_>) -> u64 {
        let before = line_at(self.across, self.low).checked_sub(1);
        let behind = line_at(self.across, self.high);
        self.exposed_side(grid, before)
            .saturating_add(self.exposed_side(grid, Some(behind)))
    }
}

// Whether left and right are the sides of a shot that count: they are longer, or as long as bottom and top and exposed more.
fn upright_counts(grid: Grid<'_>, shot: Shot) -> bool {
    let width = shot.width();
    let height = shot.height();
    if width == height {
        return Pair::level(grid, shot).exposed(grid) < Pair::upright(grid, shot).exposed(grid);
    }
    width < height
}

impl Run {
    // Whether it is charged.
    fn is_charged(self, grid: Grid<'_>, threshold: u32) -> bool {
        self.shot.is_sliver(threshold) && upright_counts(grid, self.shot) == self.side.is_upright()
    }

    // Its line, on the side of the shot.
    fn line(self) -> Shot {
        let upright = |x: u16| Shot {
            left: x,
            bottom: self.from,
            right: x,
            top: self.to,
        };
        let level = |y: u16| Shot {
            left: self.from,
            bottom: y,
            right: self.to,
            top: y,
        };
        match self.side {
            Side::Left => upright(self.shot.left),
            Side::Right => upright(self.shot.right),
            Side::Bottom => level(self.shot.bottom),
            Side::Top => level(self.shot.top),
        }
    }
}

// A run by its four numbers: from where to where, the number of the shot from 1, and that of its side; none where no shot lies there.
fn run_of(shots: &[[u16; 4]], numbers: [usize; 4]) -> Option<Run> {
    let [from, to, number, side] = numbers;
    let side = Side::numbered(side)?;
    let shot = shots.get(number.checked_sub(1)?)?;
    Some(Run {
        shot: Shot::from(*shot),
        side,
        from: u16::try_from(from).ok()?,
        to: u16::try_from(to).ok()?,
    })
}

// One edge of the figure, by the runs that it falls into on the shots: those that are charged.
fn print_edge(out: &mut Output, scene: Scene<'_>, runs: &[[usize; 4]]) -> fmt::Result {
    for numbers in runs {
        if let Some(run) = run_of(scene.shots(), *numbers) {
            if run.is_charged(scene.grid, scene.manner.threshold) {
                print_line(out, scene.view, run.line())?;
                out.write_str("/>\n")?;
            }
        }
    }
    Ok(())
}

// Every edge of the figure, where it is charged.
pub fn print_slivers(out: &mut Output, scene: Scene<'_>) -> fmt::Result {
    let corners = scene.figure.corners;
    let lengths = scene.figure.lengths;
    let stroke = scene.view.stroke(70);
    write!(out, "<g stroke=\"#d62718\" stroke-width=\"{stroke}\">\n")?;
    for edge in 0..corners.len() / 2 {
        let mut runs = [0usize; MOST_RUNS];
        if let Ok(count) = edge_shots(corners, lengths, edge, scene.list, &mut runs) {
            let runs = runs.as_chunks::<4>().0;
            print_edge(out, scene, &runs[..count.min(runs.len())])?;
        }
    }
    out.write_str("</g>\n")
}
