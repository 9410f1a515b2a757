// What lies where on the sheet, so that no number covers another: every number has a spot.

// The middle of a spot, and how far it reaches from there to the side, and up and down.
#[derive(Clone, Copy)]
pub struct Spot {
    pub x: u64,
    pub y: u64,
    pub aside: u64,
    pub above: u64,
}

impl Spot {
    // Its left and right ends.
    pub fn left(self) -> u64 {
        self.x.saturating_sub(self.aside)
    }

    pub fn right(self) -> u64 {
        self.x.saturating_add(self.aside)
    }

    // Its upper and lower ends.
    pub fn top(self) -> u64 {
        self.y.saturating_sub(self.above)
    }

    pub fn bottom(self) -> u64 {
        self.y.saturating_add(self.above)
    }

    // Whether two spots lie on each other.
    pub fn overlaps(self, other: Spot) -> bool {
        self.x.abs_diff(other.x) < self.aside.saturating_add(other.aside)
            && self.y.abs_diff(other.y) < self.above.saturating_add(other.above)
    }
}

// The spots that are taken: by the places of lines, 16 each way; by the numbers of the shots; by those of the cuts.
#[derive(Clone, Copy)]
pub struct Spots {
    pub lines: [Option<Spot>; 32],
    pub shots: [Option<Spot>; 225],
    pub cuts: [Option<Spot>; 224],
}

// Whether one of these lies on a spot.
fn covers(taken: &[Option<Spot>], spot: Spot) -> bool {
    taken
        .iter()
        .any(|other| other.is_some_and(|other| spot.overlaps(other)))
}

// Puts a spot at a place of a list, where there is one.
pub fn take(taken: &mut [Option<Spot>], n: usize, spot: Option<Spot>) {
    if let Some(place) = taken.get_mut(n) {
        *place = spot;
    }
}

impl Spots {
    // Nothing taken.
    pub fn free() -> Spots {
        Spots {
            lines: [None; 32],
            shots: [None; 225],
            cuts: [None; 224],
        }
    }

    // Whether nothing that is taken lies on a spot.
    pub fn is_free(&self, spot: Spot) -> bool {
        !covers(&self.lines, spot) && !covers(&self.shots, spot) && !covers(&self.cuts, spot)
    }
}
