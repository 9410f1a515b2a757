// What one piece is, and the fracture of a grid by straight cuts or by pinwheels too: definitions in specs/, laws in proofs/, and a piece,
// the mode and the turn as the code holds them.
#![tactic(auto)]

use outline::Line;

// A piece lies between the x lines a < c and the y lines b < d.
#[derive(Clone, Copy)]
pub struct Piece {
    pub a: Line,
    pub c: Line,
    pub b: Line,
    pub d: Line,
}

// By straight cuts alone, or by pinwheels too.
#[derive(Clone, Copy)]
pub enum Mode {
    Straight,
    Pinwheel,
}

// The turn of a pinwheel: the first or the second term of the paper's equation (3).
#[derive(Clone, Copy)]
pub enum Turn {
    First,
    Second,
}
