// The sheet: 1,000 units wide, and every place on it in thousandths of a unit. So text and strokes have one size, whatever the figure
// measures. What is within the figure is drawn in nm, from its left and top end, and scaled.
ghost use Rattle.std.specs.Prelude.{◌≤◌};

use cutting::lines::place;
use cutting::{Cut, Piece};
use outline::{MOST_CELLS, MOST_LINES};
use std::fmt;
use std::fmt::Write;
use terminal::output::Output;

// The width of the sheet, and of the longer side of the frame on it.
pub const SHEET: u64 = 1000000;

pub const LONGER: u64 = 800000;

// Where the room of the figure begins below the head, and how high that is at least.
pub const HEAD: u64 = 165000;

const LEAST_ROOM: u64 = 200000;

// The grid of the figure: so many columns and rows of cells, the places of its lines, and which cells are inside.
#[derive(Clone, Copy)]
pub struct Grid<'a> {
    pub columns: usize,
    pub rows: usize,
    pub xs: &'a [u16; MOST_LINES],
    pub ys: &'a [u16; MOST_LINES],
    pub cells: &'a [u8; MOST_CELLS],
}

// A shot by its four numbers, or the ends of a line.
#[derive(Clone, Copy, PartialEq, Eq)]
pub struct Shot {
    pub left: u16,
    pub bottom: u16,
    pub right: u16,
    pub top: u16,
}

// The frame in nm, its longer side, where it lies on the sheet, and where the figure's room ends.
#[derive(Clone, Copy)]
pub struct View {
    pub left: u16,
    pub top: u16,
    pub width: u16,
    pub height: u16,
    pub side: u16,
    pub across: u64,
    pub down: u64,
    pub bottom: u64,
}

// A number of thousandths, as a decimal fraction.
#[derive(Clone, Copy)]
pub struct Thousandths(pub u64);

impl fmt::Display for Thousandths {
    fn fmt<W: fmt::Write>(&self, f: &mut fmt::Formatter<W>) -> fmt::Result {
        write!(f, "{}.{:03}", self.0 / 1000, self.0 % 1000)
    }
}

// A number of millionths.
#[derive(Clone, Copy)]
pub struct Millionths(pub u64);

impl fmt::Display for Millionths {
    fn fmt<W: fmt::Write>(&self, f: &mut fmt::Formatter<W>) -> fmt::Result {
        write!(f, "{}.{:06}", self.0 / 1000000, self.0 % 1000000)
    }
}

// So many parts of a number, of a whole; nothing of no whole.
pub fn share(n: u64, parts: u64, whole: u64) -> u64 {
    if whole == 0 {
        return 0;
    }
    n.saturating_mul(parts) / whole
}

// How many digits a number has, a place in nm at most.
pub fn digits(n: u64) -> u64
    ensures { result ≤ 5 }
{
    match n {
        0..=9 => 1,
        10..=99 => 2,
        100..=999 => 3,
        1000..=9999 => 4,
        _ => 5,
    }
}

impl From<[u16; 4]> for Shot {
    fn from(numbers: [u16; 4]) -> Shot {
        let [left, bottom, right, top] = numbers;
        Shot {
            left,
            bottom,
            right,
            top,
        }
    }
}

impl Shot {
    pub fn width(self) -> u16 {
        self.right.saturating_sub(self.left)
    }

    pub fn height(self) -> u16 {
        self.top.saturating_sub(self.bottom)
    }

    // Whether it is a sliver by a threshold: its shorter side is below it.
    pub fn is_sliver(self, threshold: u32) -> bool {
        u32::from(self.width().min(self.height())) < threshold
    }
}

impl Grid<'_> {
    // A piece between four lines, as the shot that it may be.
    pub fn shot_of(self, p: Piece) -> [u16; 4] {
        [
            place(self.xs, p.a),
            place(self.ys, p.b),
            place(self.xs, p.c),
            place(self.ys, p.d),
        ]
    }

    // The line of a cut: right across its piece.
    pub fn line_of(self, p: Piece, cut: Cut) -> Shot {
        let whole = Shot::from(self.shot_of(p));
        match cut {
            Cut::Upright(line) => {
                let x = place(self.xs, line);
                Shot {
                    left: x,
                    right: x,
                    ..whole
                }
            }
            Cut::Level(line) => {
                let y = place(self.ys, line);
                Shot {
                    bottom: y,
                    top: y,
                    ..whole
                }
            }
        }
    }
}

// How long an extent is on the sheet, by the longer side of the frame.
fn drawn(extent: u16, side: u16) -> u64 {
    share(u64::from(extent), LONGER, u64::from(side))
}

impl View {
    // Where the figure lies on the sheet: in the middle of its room.
    pub fn of(grid: Grid<'_>) -> View {
        let left = place(grid.xs, 0);
        let top = place(grid.ys, grid.rows);
        let width = place(grid.xs, grid.columns).saturating_sub(left);
        let height = top.saturating_sub(place(grid.ys, 0));
        let side = width.max(height);
        let high = drawn(height, side);
        let room = high.max(LEAST_ROOM);
        View {
            left,
            top,
            width,
            height,
            side,
            across: SHEET.saturating_sub(drawn(width, side)) / 2,
            down: HEAD.saturating_add(room.saturating_sub(high) / 2),
            bottom: HEAD.saturating_add(room),
        }
    }

    // How far x lies from the left end of the frame, in nm.
    pub fn from_left(self, x: u16) -> u16 {
        x.saturating_sub(self.left)
    }

    // How far y lies from its top end: up in the figure is down in a picture.
    pub fn from_top(self, y: u16) -> u16 {
        self.top.saturating_sub(y)
    }

    // Where x lies on the sheet.
    pub fn x(self, x: u16) -> u64 {
        self.across
            .saturating_add(drawn(self.from_left(x), self.side))
    }

    // Where y lies on it.
    pub fn y(self, y: u16) -> u64 {
        self.down.saturating_add(drawn(self.from_top(y), self.side))
    }

    // Where the frame ends below.
    pub fn foot(self) -> u64 {
        self.down.saturating_add(drawn(self.height, self.side))
    }

    // How many nm a stroke of so many tenths of a unit has.
    pub fn stroke(self, tenths: u64) -> Millionths {
        Millionths(u64::from(self.side).saturating_mul(tenths.saturating_mul(125)))
    }

    // The start of what is drawn in nm: from the left and top end of the frame.
    pub fn print_scaled(self, out: &mut Output) -> fmt::Result {
        let scale = share(LONGER, 1000000, u64::from(self.side));
        let across = Thousandths(self.across);
        let down = Thousandths(self.down);
        write!(
            out,
            "<g transform=\"translate({across} {down}) scale({}.{:09})\">\n",
            scale / 1000000000,
            scale % 1000000000,
        )
    }
}
