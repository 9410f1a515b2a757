// The cuts of a fractured grid, seen again by the cost table: what picture and walk tell of them. Pieces are four numbers of lines here, and
// what is no piece of the grid has no cost.
#![tactic(auto)]

ghost use Rattle.std.specs.Prelude.{◌≡◌, ℕ, ◌+◌, length, get_or, None, Some};
ghost use Rattle.cutting.specs.Steps.{Cheaper};
ghost use Rattle.cutting.specs.Cutting.{low_of, high_of, entry_found, cost_found, weight_of, Cheapest};

use outline::Line;
use table::numbering::entry;

pub mod lines;
pub mod sides;

// A piece: between the x lines a < c and the y lines b < d. Of numbers and not of `Line`s: its lines are reckoned with and printed.
#[derive(Clone, Copy, PartialEq, Eq)]
pub struct Piece {
    pub a: usize,
    pub c: usize,
    pub b: usize,
    pub d: usize,
}

// A cut of a piece, right across it: on an x line, or on a y line.
#[derive(Clone, Copy, PartialEq, Eq)]
pub enum Cut {
    Upright(usize),
    Level(usize),
}

impl Piece {
    // The low part: left of the cut, or below it.
    pub fn low(self, cut: Cut) -> Piece
        ensures { result ≡ low_of self cut }
    {
        match cut {
            Cut::Upright(x) => Piece { c: x, ..self },
            Cut::Level(y) => Piece { d: y, ..self },
        }
    }

    // The high part: right of the cut, or above it.
    pub fn high(self, cut: Cut) -> Piece
        ensures { result ≡ high_of self cut }
    {
        match cut {
            Cut::Upright(x) => Piece { a: x, ..self },
            Cut::Level(y) => Piece { b: y, ..self },
        }
    }
}

// A grid of so many columns and rows, and the cost of each of its pieces.
#[derive(Clone, Copy)]
pub struct Priced<'a> {
    pub columns: usize,
    pub rows: usize,
    pub table: &'a [u32],
}

impl<'a> Priced<'a> {
    // The whole grid.
    pub fn frame(self) -> Piece
        ensures { result ≡ record { a = 0; c = self.entry.columns; b = 0; d = self.entry.rows } }
    {
        Piece {
            a: 0,
            c: self.columns,
            b: 0,
            d: self.rows,
        }
    }

    // The entry of a piece, where its four lines are one of the grid.
    #[tactic(auto, unfolding(crate::specs::Cutting::entry_found))]
    pub fn entry_of(self, p: Piece) -> Option<usize>
        ensures { result ≡ entry_found self.entry.columns self.entry.rows p }
    {
        if 15 < self.columns || 15 < self.rows {
            return None;
        }
        if p.a < p.c && p.c <= self.columns && p.b < p.d && p.d <= self.rows {
            return Some(entry(
                self.columns,
                self.rows,
                Line(p.a),
                Line(p.c),
                Line(p.b),
                Line(p.d),
            ));
        }
        None
    }

    // What a piece costs, as the table has it; 0 where it has no entry.
    #[tactic(auto, unfolding(crate::specs::Cutting::cost_found))]
    pub fn cost_of(self, p: Piece) -> u32
        ensures { result ≡ cost_found self.entry.columns self.entry.rows self.entry.table.now p }
    {
        match self.entry_of(p) {
            Some(at) if at < self.table.len() => self.table[at],
            _ => 0,
        }
    }

    // What the two parts of a cut cost together.
    #[tactic(auto, unfolding(crate::specs::Cutting::weight_of))]
    pub fn weighed(self, p: Piece, cut: Cut) -> u64
        ensures { result ≡ weight_of self.entry.columns self.entry.rows self.entry.table.now p cut }
    {
        u64::from(self.cost_of(p.low(cut))) + u64::from(self.cost_of(p.high(cut)))
    }

    // The cheaper of what was found and one cut more, of equals what was found.
    fn cheaper(self, p: Piece, found: Option<Cut>, cut: Cut) -> Option<Cut>
        ensures { Cheaper (weight_of self.entry.columns self.entry.rows self.entry.table.now p) found cut result }
    {
        match found {
            Some(best) if self.weighed(p, best) <= self.weighed(p, cut) => Some(best),
            _ => Some(cut),
        }
    }

    // The cut whose parts cost least, of equals the first: x lines before y lines, the lower line first.
    pub fn best_cut(self, p: Piece) -> Option<Cut>
        ensures { Cheapest (weight_of self.entry.columns self.entry.rows self.entry.table.now p) p result }
    {
        let mut best = None;
        for x in p.a.saturating_add(1)..p.c {
            best = self.cheaper(p, best, Cut::Upright(x));
        }
        for y in p.b.saturating_add(1)..p.d {
            best = self.cheaper(p, best, Cut::Level(y));
        }
        best
    }
}
