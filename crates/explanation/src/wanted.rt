// Which number of a job is wanted next, from the numbers that were read before it.
use figure::MOST_CORNERS;
use std::fmt;

// Where in the outlines a number stands: in which outline of how many, in which ring of how many (0 before that is known), with how many
// corners in the rings before it and in the ring itself, and which of its coordinates it is, x and y in turn.
#[derive(Clone, Copy)]
pub struct Spot {
    pub outline: u32,
    pub outlines: u32,
    pub ring: u32,
    pub rings: u32,
    pub before: u32,
    pub corners: u32,
    pub coordinate: u32,
}

// What a number says: the rule and how many outlines there are; of an outline its corners, or 0, which announces rings, their number, and
// the corners of each; then a coordinate; and nothing more.
#[derive(Clone, Copy)]
pub enum Wanted {
    Threshold,
    Weight,
    Outlines,
    Corners(Spot),
    Rings(Spot),
    RingCorners(Spot),
    Coordinate(Spot),
    Nothing,
}

// In which outline a number stands; of an outline of several rings, in which ring too.
impl fmt::Display for Spot {
    fn fmt<W: fmt::Write>(&self, f: &mut fmt::Formatter<W>) -> fmt::Result {
        write!(f, "outline {}", self.outline)?;
        if 1 < self.rings {
            write!(f, ", ring {}", self.ring)?;
        }
        Ok(())
    }
}

// The name of the number, and where it stands.
impl fmt::Display for Wanted {
    fn fmt<W: fmt::Write>(&self, f: &mut fmt::Formatter<W>) -> fmt::Result {
        match *self {
            Wanted::Threshold => f.write_str("threshold"),
            Wanted::Weight => f.write_str("weight"),
            Wanted::Outlines => f.write_str("number of outlines"),
            Wanted::Corners(spot) => write!(f, "{spot}, number of corners"),
            Wanted::Rings(spot) => write!(f, "{spot}, number of rings"),
            Wanted::RingCorners(spot) => write!(f, "{spot}, number of corners"),
            Wanted::Coordinate(spot) => {
                let axis = if spot.coordinate % 2 == 0 { 'x' } else { 'y' };
                let corner = spot.coordinate / 2;
                write!(f, "{spot}, {axis} of corner {corner}")
            }
            Wanted::Nothing => f.write_str("what follows the last outline"),
        }
    }
}

// The first number of an outline, if there is such an outline.
fn outline_begins(outline: u32, outlines: u32) -> Wanted {
    if outlines <= outline {
        return Wanted::Nothing;
    }
    Wanted::Corners(Spot {
        outline,
        outlines,
        ring: 0,
        rings: 0,
        before: 0,
        corners: 0,
        coordinate: 0,
    })
}

impl Spot {
    // How many corners this ring may have, after those of the rings before it.
    pub fn left(self) -> u32 {
        (MOST_CORNERS as u32).saturating_sub(self.before)
    }

    // After the corners of an outline: its first coordinate; or, where 0 announces rings, their number.
    fn after_corners(self, v: u32) -> Wanted {
        if v == 0 {
            return Wanted::Rings(self);
        }
        Wanted::Coordinate(Spot {
            rings: 1,
            corners: v,
            ..self
        })
    }

    // After the number of rings.
    fn after_rings(self, v: u32) -> Wanted {
        Wanted::RingCorners(Spot { rings: v, ..self })
    }

    // After the corners of a ring.
    fn after_ring_corners(self, v: u32) -> Wanted {
        Wanted::Coordinate(Spot {
            corners: v,
            coordinate: 0,
            ..self
        })
    }

    // After the last coordinate of a ring: the next ring, or the next outline.
    fn after_ring(self) -> Wanted {
        let ring = self.ring.saturating_add(1);
        if self.rings <= ring {
            return outline_begins(self.outline.saturating_add(1), self.outlines);
        }
        Wanted::RingCorners(Spot {
            ring,
            before: self.before.saturating_add(self.corners),
            ..self
        })
    }

    // After a coordinate: the next one of the ring, if there is one.
    fn after_coordinate(self) -> Wanted {
        let coordinate = self.coordinate.saturating_add(1);
        if self.corners <= coordinate / 2 {
            return self.after_ring();
        }
        Wanted::Coordinate(Spot { coordinate, ..self })
    }
}

impl Wanted {
    // What is wanted after this number was read.
    pub fn after(self, v: u32) -> Wanted {
        match self {
            Wanted::Threshold => Wanted::Weight,
            Wanted::Weight => Wanted::Outlines,
            Wanted::Outlines => outline_begins(0, v),
            Wanted::Corners(spot) => spot.after_corners(v),
            Wanted::Rings(spot) => spot.after_rings(v),
            Wanted::RingCorners(spot) => spot.after_ring_corners(v),
            Wanted::Coordinate(spot) => spot.after_coordinate(),
            Wanted::Nothing => Wanted::Nothing,
        }
    }
}
