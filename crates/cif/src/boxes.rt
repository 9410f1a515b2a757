// Box lines: `B length width x y;`, with the doubled sides and the doubled centre of a shot.
ghost use Rattle.std.specs.Prelude.{◌<◌, ◌≤◌, length};
ghost use Rattle.cif.specs.Steps.{StandsTold, LineTold, SpanTold, BoxTold};

use crate::numeral::two;

// The four numbers of a box line, with the place past the line.
#[derive(Clone, Copy, PartialEq, Eq)]
pub struct Fields {
    pub length: u32,
    pub width: u32,
    pub x: u32,
    pub y: u32,
    pub next: usize,
}

// The low and the high end of a shot in one direction, in whole nanometres.
#[derive(Clone, Copy, PartialEq, Eq)]
pub struct Span {
    pub low: u16,
    pub high: u16,
}

// The four numbers of a shot.
#[derive(Clone, Copy, PartialEq, Eq)]
pub struct Sides {
    pub x_low: u16,
    pub y_low: u16,
    pub x_high: u16,
    pub y_high: u16,
}

// The shot whose box stands at a place, with the place past it.
#[derive(Clone, Copy, PartialEq, Eq)]
pub struct Boxed {
    pub sides: Sides,
    pub next: usize,
}

// The highest place, in nm (figure's limit; cif does not know figures).
const MOST_PLACE: u32 = 65535;

// Whether some bytes stand at a place.
pub fn stands(text: &[u8], at: usize, word: &[u8]) -> bool
    requires { at ≤ length text.now }
    ensures { StandsTold text.now at word.now result }
{
    text[at..].starts_with(word)
}

// The box line at a place, whatever its numbers are.
fn line(text: &[u8], at: usize) -> Option<Fields>
    requires { at ≤ length text.now }
    ensures { LineTold text.now at result }
{
    if !stands(text, at, b"B") {
        return None;
    }
    let sides = two(text, at + 1)?;
    let centre = two(text, sides.next)?;
    if !stands(text, centre.next, b";\n") {
        return None;
    }
    Some(Fields {
        length: sides.first,
        width: sides.second,
        x: centre.first,
        y: centre.second,
        next: centre.next + 2,
    })
}

// The ends of a doubled side about a doubled centre: the side is even and above 0, and the ends are whole and in range.
fn ends(side: u32, centre: u32) -> Option<Span>
    requires { (side < 1000000) × (centre < 1000000) }
    ensures { SpanTold side centre result }
{
    let half = side / 2;
    if side % 2 != 0 {
        return None;
    }
    if half == 0 {
        return None;
    }
    if centre < half {
        return None;
    }
    let twice = centre - half;
    if twice % 2 != 0 {
        return None;
    }
    let high = (centre + half) / 2;
    if MOST_PLACE < high {
        return None;
    }
    Some(Span {
        low: (twice / 2) as u16,
        high: high as u16,
    })
}

// The shot whose box stands at a place.
pub fn box_at(text: &[u8], at: usize) -> Option<Boxed>
    requires { at ≤ length text.now }
    ensures { BoxTold text.now at result }
{
    let fields = line(text, at)?;
    let across = ends(fields.length, fields.x)?;
    let along = ends(fields.width, fields.y)?;
    Some(Boxed {
        sides: Sides {
            x_low: across.low,
            y_low: along.low,
            x_high: across.high,
            y_high: along.high,
        },
        next: fields.next,
    })
}
