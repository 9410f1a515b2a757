// One side of a shot, divided: the fewest parts that fit, as even as whole nm allow, longer ones first.
ghost use Rattle.std.specs.Prelude.{◌≡◌, ◌<◌, ◌≤◌};
ghost use Rattle.division.specs.Steps.{side_of, edge, Solid, Parted};

// Where a side begins, into how many parts it is divided, and how long they are; the first `longer` of them are 1 nm longer.
#[derive(Clone, Copy)]
pub struct Side {
    pub low: u32,
    pub count: u32,
    pub length: u32,
    pub longer: u32,
}

// The two sides of a shot.
#[derive(Clone, Copy)]
pub struct Sides {
    pub x: Side,
    pub y: Side,
}

// A side from low to high, divided into the fewest parts of at most `largest` nm.
fn side_of(low: u16, high: u16, largest: u32) -> Side
    requires { (low < high) × ((0 < largest) × (largest ≤ 65535)) }
    ensures { (result ≡ side_of largest low high) × (edge result result.count ≤ 65535) }
{
    let from = u32::from(low);
    let side = u32::from(high) - from;
    let count = (side + (largest - 1)) / largest;
    Side {
        low: from,
        count,
        length: side / count,
        longer: side % count,
    }
}

// The two sides of the shot number k of a list, divided.
pub fn sides_of(shots: &[u16], k: usize, largest: u32) -> Sides
    requires { Solid shots.now k largest }
    ensures { Parted shots.now k largest result.x result.y }
{
    let at = 4 * k;
    let x = side_of(shots[at], shots[at + 2], largest);
    let y = side_of(shots[at + 1], shots[at + 3], largest);
    Sides { x, y }
}

// Where the i-th part begins, and the one before it ends.
pub fn edge_at(side: Side, i: u32) -> u16
    requires { edge side i ≤ 65535 }
    ensures { result ≡ edge side i }
{
    (side.low + (i * side.length + i.min(side.longer))) as u16
}
