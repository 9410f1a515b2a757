// What is fractured: figures of thirteen sorts, each by a number. Those of two sorts are the rows of the scope, with one ring and with
// windows; the others are made up, and some of them are then spoilt.
use super::document::Row;
use super::made::{Figure, Rings, Shape, drawn};
use super::second::Asked;
use super::{document, made};
use std::ops::Range;

// The sorts. Of one ring: the scope's rows, walks that cross themselves, walks on few lines, which touch themselves, walks along 16
// by 16 lines, combs, staircases, and walks of the first two kinds that are spoilt. Of several rings: the scope's rows with windows,
// windows in windows, squares that touch, rings that cross, rings that come again, and figures of these four that are spoilt.
#[derive(Clone, Copy)]
pub enum Sort {
    Scope,
    CrossingWalks,
    TouchingWalks,
    GridWalks,
    Combs,
    Staircases,
    SpoiltWalks,
    Windows,
    NestedRings,
    TouchingRings,
    CrossingRings,
    RepeatedRings,
    SpoiltRings,
}

// All sorts, as they are run.
pub const SORTS: [Sort; 13] = [
    Sort::Scope,
    Sort::CrossingWalks,
    Sort::TouchingWalks,
    Sort::GridWalks,
    Sort::Combs,
    Sort::Staircases,
    Sort::SpoiltWalks,
    Sort::Windows,
    Sort::NestedRings,
    Sort::TouchingRings,
    Sort::CrossingRings,
    Sort::RepeatedRings,
    Sort::SpoiltRings,
];

impl Sort {
    pub fn name(self) -> &'static str {
        match self {
            Sort::Scope => "the scope",
            Sort::CrossingWalks => "crossing walks",
            Sort::TouchingWalks => "touching walks",
            Sort::GridWalks => "16 by 16 lines",
            Sort::Combs => "combs",
            Sort::Staircases => "staircases",
            Sort::SpoiltWalks => "spoilt walks",
            Sort::Windows => "windows",
            Sort::NestedRings => "nested rings",
            Sort::TouchingRings => "touching rings",
            Sort::CrossingRings => "crossing rings",
            Sort::RepeatedRings => "repeated rings",
            Sort::SpoiltRings => "spoilt rings",
        }
    }

    // The numbers of its figures.
    pub fn figures(self) -> Range<usize> {
        match self {
            Sort::Scope => 0..document::WINDOWS,
            Sort::Windows => document::WINDOWS..document::COUNT,
            _ => 0..60,
        }
    }
}

// ---- spoilt ones

// A number that may be anything, and its place.
#[derive(Clone, Copy)]
struct Stray {
    at: usize,
    value: usize,
}

// What is spoilt of a figure: half of its numbers are missing; there is one too many; one may be anything; there is no ring, or there
// are nine; the first ring has four corners more; it has one of the second's; both are one ring; the first number's line lies on
// that of another, and one may be anything too.
#[derive(Clone, Copy)]
enum Slip {
    Halved,
    OneMore,
    Stray(Stray),
    RingCount(usize),
    FirstLonger,
    FirstTakes,
    FirstJoined,
    Overlaid { on: usize, stray: Option<Stray> },
}

// A figure: a row of the scope, or one that is made up from a number.
#[derive(Clone, Copy)]
enum Source {
    Row(Row),
    Made(Made),
}

// A made-up figure, and what is spoilt of it.
#[derive(Clone, Copy)]
struct Made {
    k: usize,
    figure: Figure,
    slip: Option<Slip>,
}

fn stray_of(k: usize) -> Stray {
    Stray {
        at: drawn(k, 950) % 64,
        value: drawn(k, 952) % 400,
    }
}

// A walk that is spoilt.
fn spoilt_walk(k: usize) -> Made {
    let shape = match k % 2 {
        0 => Shape::CrossingWalk,
        _ => Shape::TouchingWalk,
    };
    let slip = match drawn(k, 951) % 4 {
        0 => Slip::Halved,
        1 => Slip::OneMore,
        _ => Slip::Stray(stray_of(k)),
    };
    Made {
        k,
        figure: Figure::One(shape),
        slip: Some(slip),
    }
}

// What is spoilt of a figure of several rings.
fn ring_slip(k: usize) -> Slip {
    let on = drawn(k, 954) % 4 * 2 + 2;
    match k / 4 % 10 {
        0 => Slip::Halved,
        1 => Slip::OneMore,
        2 | 3 => Slip::Stray(stray_of(k)),
        4 => Slip::RingCount(k / 40 % 2 * 9),
        5 => Slip::FirstLonger,
        6 => Slip::FirstTakes,
        7 => Slip::FirstJoined,
        8 => Slip::Overlaid { on, stray: None },
        _ => Slip::Overlaid {
            on,
            stray: Some(stray_of(k)),
        },
    }
}

// Rings that are spoilt.
fn spoilt_rings(k: usize) -> Made {
    let rings = match k % 4 {
        0 => Rings::Nested,
        1 => Rings::Touching,
        2 => Rings::Crossing,
        _ => Rings::Repeated,
    };
    Made {
        k,
        figure: Figure::Several(rings),
        slip: Some(ring_slip(k)),
    }
}

// A figure as it is made.
fn sound(k: usize, figure: Figure) -> Source {
    Source::Made(Made {
        k,
        figure,
        slip: None,
    })
}

// Figure k of a sort.
fn figure_of(sort: Sort, k: usize) -> Source {
    match sort {
        Sort::Scope | Sort::Windows => Source::Row(document::row_of(k)),
        Sort::CrossingWalks => sound(k, Figure::One(Shape::CrossingWalk)),
        Sort::TouchingWalks => sound(k, Figure::One(Shape::TouchingWalk)),
        Sort::GridWalks => sound(k, Figure::One(Shape::GridWalk)),
        Sort::Combs => sound(k, Figure::One(Shape::Comb)),
        Sort::Staircases => sound(k, Figure::One(Shape::Staircase)),
        Sort::SpoiltWalks => Source::Made(spoilt_walk(k)),
        Sort::NestedRings => sound(k, Figure::Several(Rings::Nested)),
        Sort::TouchingRings => sound(k, Figure::Several(Rings::Touching)),
        Sort::CrossingRings => sound(k, Figure::Several(Rings::Crossing)),
        Sort::RepeatedRings => sound(k, Figure::Several(Rings::Repeated)),
        Sort::SpoiltRings => Source::Made(spoilt_rings(k)),
    }
}

impl Made {
    // How many rings it has.
    fn rings(self) -> usize {
        match self.slip {
            Some(Slip::RingCount(rings)) => rings,
            Some(Slip::FirstJoined) => made::ring_count(self.figure, self.k).saturating_sub(1),
            _ => made::ring_count(self.figure, self.k),
        }
    }

    // How many corners ring r has, of rings that share them out so.
    fn ring_length(self, shares: &[usize; 8], r: usize) -> usize {
        let own = shares[r % 8];
        match (self.slip, r) {
            (Some(Slip::FirstLonger), 0) => own.wrapping_add(4),
            (Some(Slip::FirstTakes), 0) => own.wrapping_add(1),
            (Some(Slip::FirstTakes), 1) => own.saturating_sub(1),
            (Some(Slip::FirstJoined), 0) => own.wrapping_add(shares[1]),
            (Some(Slip::FirstJoined), _) => shares[r.wrapping_add(1) % 8],
            _ => own,
        }
    }

    // The ring lengths, of so many numbers, and more.
    fn lengths(self, numbers: usize) -> [u16; 9] {
        match self.figure {
            Figure::One(_) => [(numbers / 2 % 65536) as u16; 9],
            Figure::Several(rings) => {
                let shares = made::shares(rings, self.k);
                std::array::from_fn(|r| (self.ring_length(&shares, r) % 65536) as u16)
            }
        }
    }

    // How many numbers there are to draw.
    fn size(self) -> usize {
        let own = made::size(self.figure, self.k);
        match self.slip {
            Some(Slip::RingCount(rings)) => rings.wrapping_mul(8),
            Some(Slip::FirstLonger) => own.wrapping_add(8),
            _ => own,
        }
    }

    // How many numbers of them are handed on.
    fn handed_on(self, numbers: usize) -> usize {
        match self.slip {
            Some(Slip::Halved) => numbers / 2,
            Some(Slip::OneMore) => numbers.wrapping_add(1),
            _ => numbers,
        }
    }

    // The number that may be anything.
    fn strays(self) -> Option<Stray> {
        match self.slip {
            Some(Slip::Stray(stray)) => Some(stray),
            Some(Slip::Overlaid { stray, .. }) => stray,
            _ => None,
        }
    }

    // Number i of so many.
    fn number(self, i: usize, numbers: usize) -> usize {
        if let Some(stray) = self.strays()
            && stray.at == i
        {
            return stray.value;
        }
        let own = made::number(self.figure, self.k, i, numbers);
        match self.slip {
            Some(Slip::Overlaid { on, .. })
                if own == made::number(self.figure, self.k, 0, numbers) => {
                made::number(self.figure, self.k, on, numbers)
            }
            _ => own,
        }
    }

    // The corners, zeros behind them.
    fn corners(self, numbers: usize) -> [u16; 128] {
        std::array::from_fn(|i| {
            if i < numbers {
                (self.number(i, numbers) % 65536) as u16
            } else {
                0
            }
        })
    }
}

// ---- the question

// What is asked of a made-up figure. The rule is now and then too high.
fn asked(k: usize) -> Asked {
    let threshold = match drawn(k, 960) % 8 {
        0 => 0,
        1 => 24,
        2 => (drawn(k, 961) % 1002) as u32,
        3 => 101,
        _ => 25,
    };
    let weight = match drawn(k, 970) % 4 {
        0 => drawn(k, 971) % 1002,
        _ => drawn(k, 972) % 60,
    };
    Asked {
        threshold,
        weight: weight as u32,
        entries: 14400,
        room: 900,
    }
}

// ---- drawings

// A figure as it is handed on, what is asked of it, and the row that it is.
#[derive(Clone, Copy)]
pub struct Drawing {
    corners: [u16; 128],
    numbers: usize,
    lengths: [u16; 9],
    rings: usize,
    pub asked: Asked,
    pub row: Option<Row>,
}

impl Drawing {
    // What is handed on of the corners.
    pub fn outline(&self) -> &[u16] {
        &self.corners[..self.numbers.min(128)]
    }

    // What is handed on of the ring lengths.
    pub fn ring_lengths(&self) -> &[u16] {
        &self.lengths[..self.rings.min(9)]
    }
}

fn of_row(row: Row) -> Drawing {
    Drawing {
        corners: std::array::from_fn(|i| {
            if i < row.numbers {
                document::list(row.outline, i)
            } else {
                0
            }
        }),
        numbers: row.numbers,
        lengths: std::array::from_fn(|r| document::list(row.lengths, r)),
        rings: row.rings,
        asked: row.asked,
        row: Some(row),
    }
}

fn of_made(made: Made) -> Drawing {
    let numbers = made.size() % 128;
    let handed_on = made.handed_on(numbers);
    Drawing {
        corners: made.corners(numbers),
        numbers: handed_on,
        lengths: made.lengths(handed_on),
        rings: made.rings(),
        asked: asked(made.k),
        row: None,
    }
}

// Draws figure k of a sort.
pub fn draw(sort: Sort, k: usize) -> Drawing {
    match figure_of(sort, k) {
        Source::Row(row) => of_row(row),
        Source::Made(made) => of_made(made),
    }
}
