// A figure as it is drawn, and where an edge lies on it.
use crate::corners::Edge;
use cutting::lines::{cell, line_at};
use cutting::sides::Side;
use cutting::{Piece, Priced};
use outline::{MOST_CELLS, MOST_LINES, draw};
use refusal::Refusal;

// The lines of a figure, its cells, and how many columns and rows of these there are.
#[derive(Clone, Copy)]
pub struct Sheet {
    pub xs: [u16; MOST_LINES],
    pub ys: [u16; MOST_LINES],
    pub cells: [u8; MOST_CELLS],
    pub columns: usize,
    pub rows: usize,
}

// A cell by its column and row.
#[derive(Clone, Copy)]
pub struct Spot {
    pub i: usize,
    pub j: usize,
}

// Where an edge lies on the grid: on a line, from a line of the other direction to another.
#[derive(Clone, Copy)]
pub struct Lies {
    pub upright: bool,
    pub line: usize,
    pub from: usize,
    pub to: usize,
}

impl Lies {
    // The cell beside part n of the edge, in the column or the row of a number.
    pub fn spot(self, beside: usize, n: usize) -> Spot {
        if self.upright {
            return Spot { i: beside, j: n };
        }
        Spot { i: n, j: beside }
    }

    // Whether an upright edge lies on x line i beside row j.
    pub fn is_wall(self, i: usize, j: usize) -> bool {
        self.upright && self.line == i && self.from <= j && j < self.to
    }
}

// Whether a piece takes in a cell.
pub fn takes_in(p: Piece, spot: Spot) -> bool {
    p.a <= spot.i && spot.i < p.c && p.b <= spot.j && spot.j < p.d
}

impl Sheet {
    // A figure, drawn.
    pub fn new(corners: &[u16], lengths: &[u16]) -> Result<Sheet, Refusal> {
        let mut xs = [0; MOST_LINES];
        let mut ys = [0; MOST_LINES];
        let mut cells = [0; MOST_CELLS];
        let drawing = draw(corners, lengths, &mut xs, &mut ys, &mut cells)?;
        Ok(Sheet {
            xs,
            ys,
            cells,
            columns: drawing.columns,
            rows: drawing.rows,
        })
    }

    // Its pieces with their costs, by a table.
    pub fn priced<'a>(&self, table: &'a [u32]) -> Priced<'a> {
        Priced {
            columns: self.columns,
            rows: self.rows,
            table,
        }
    }

    // Where an edge lies on the grid.
    pub fn lies_of(&self, edge: Edge) -> Lies {
        if edge.upright {
            return Lies {
                upright: true,
                line: line_at(&self.xs, edge.at),
                from: line_at(&self.ys, edge.low),
                to: line_at(&self.ys, edge.high),
            };
        }
        Lies {
            upright: false,
            line: line_at(&self.ys, edge.at),
            from: line_at(&self.xs, edge.low),
            to: line_at(&self.xs, edge.high),
        }
    }

    // Whether a cell is inside.
    pub fn holds(&self, spot: Spot) -> bool {
        cell(&self.cells, spot.i, spot.j)
    }

    // Whether every cell of a piece is inside, so that it is one shot.
    pub fn is_shot(&self, p: Piece) -> bool {
        (p.a..p.c).all(|i| (p.b..p.d).all(|j| cell(&self.cells, i, j)))
    }

    // Whether the cell on the low side of part n of an edge is inside: left of an upright one, below a level one.
    pub fn low_inside(&self, lies: Lies, n: usize) -> bool {
        lies.line
            .checked_sub(1)
            .is_some_and(|before| self.holds(lies.spot(before, n)))
    }

    // The same of the high side.
    pub fn high_inside(&self, lies: Lies, n: usize) -> bool {
        self.holds(lies.spot(lies.line, n))
    }

    // The side of the figure there; none where it is no wall.
    pub fn side(&self, lies: Lies, n: usize) -> Option<Side> {
        match (self.low_inside(lies, n), self.high_inside(lies, n)) {
            (true, false) if lies.upright => Some(Side::Right),
            (true, false) => Some(Side::Top),
            (false, true) if lies.upright => Some(Side::Left),
            (false, true) => Some(Side::Bottom),
            _ => None,
        }
    }

    // The cell within the figure beside part n of an edge: there is one exactly where the edge is a wall.
    pub fn inner_cell(&self, lies: Lies, n: usize) -> Option<Spot> {
        let beside = match self.side(lies, n)? {
            Side::Left | Side::Bottom => lies.line,
            Side::Right | Side::Top => lies.line.saturating_sub(1),
        };
        Some(lies.spot(beside, n))
    }
}
