// A figure: what depends on its corners alone.
#![tactic(auto)]

ghost use Rattle.std.specs.Prelude.{◌≡◌};
ghost use Rattle.figure.specs.Figure.{figure, fault, shape_no};

use refusal::Refusal;

pub mod edges;
pub mod rings;

// A place in whole nanometres.
#[derive(Clone, Copy, PartialEq, Eq)]
pub struct Place(pub u16);

// A direction: places along x, or along y.
#[derive(Clone, Copy, PartialEq, Eq)]
pub enum Axis {
    X,
    Y,
}

// No figure has more rings.
pub const MOST_RINGS: usize = 8;

// No ring has fewer corners.
pub const LEAST_CORNERS: usize = 4;

// No figure has more corners, in all its rings together.
pub const MOST_CORNERS: usize = 32;

// The highest place, in nm.
pub const MOST_PLACE: u32 = 65535;

// The shape of a figure, from the list x, y, x, y, .. of its corners, ring after ring, and the number of corners of each ring: it is
// right-angled, or refused by the first of 2, 3, 4 whose condition holds. Each of 2, 3, 4 is tried over all rings before the next; 3 is
// told from 4 only where one of them holds.
pub fn shape_of(corners: &[u16], lengths: &[u16]) -> Result<(), Refusal>
    ensures settled { shape_no result ≡ fault (figure corners.now lengths.now) }
{
    if rings::bad_figure(corners, lengths) {
        return Err(Refusal::Length);
    }
    if !rings::crooked(corners, lengths) {
        return Ok(());
    }
    if rings::slanted(corners, lengths) {
        return Err(Refusal::Slanted);
    }
    Err(Refusal::Unturned)
}
