// The sides of a figure or of a shot, as the runs of an edge number them.
ghost use Rattle.std.specs.Prelude.{◌≡◌, ◌<◌, ◌⊎◌, IfSome, IsNone, leb};
ghost use Rattle.cutting.specs.Cutting.{side_no};

use std::fmt;

// A side.
#[derive(Clone, Copy, PartialEq, Eq)]
pub enum Side {
    Left,
    Right,
    Bottom,
    Top,
}

impl fmt::Display for Side {
    fn fmt<W: fmt::Write>(&self, f: &mut fmt::Formatter<W>) -> fmt::Result {
        match self {
            Side::Left => write!(f, "left"),
            Side::Right => write!(f, "right"),
            Side::Bottom => write!(f, "bottom"),
            Side::Top => write!(f, "top"),
        }
    }
}

impl Side {
    // The side of a number; 0 is none.
    pub fn numbered(number: usize) -> Option<Side>
        ensures some { IfSome result (λ side. side_no side ≡ number) }
        ensures none { IsNone result → (number ≡ 0) ⊎ (4 < number) }
    {
        match number {
            1 => Some(Side::Left),
            2 => Some(Side::Right),
            3 => Some(Side::Bottom),
            4 => Some(Side::Top),
            _ => None,
        }
    }

    // Whether it runs along y: left or right.
    pub fn is_upright(self) -> bool
        ensures { result ≡ leb (side_no self) 2 }
    {
        self == Side::Left || self == Side::Right
    }
}
