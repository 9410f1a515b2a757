// Figures that are made up from seeds: of one ring, which is a walk, a comb or a staircase; and of two to eight rings.

// A number from a seed and a turn.
pub fn drawn(seed: usize, turn: usize) -> usize {
    let a = seed % 1048576 * 7919 + turn % 1024 * 104729 + 12345;
    let b = (a * 1103515245 + 12345) % 2147483648;
    let c = (b / 4096 + b * 69069 + 1) % 2147483648;
    let d = (c * 1103515245 + 12345) % 2147483648;
    d / 1024
}

// The shape of a ring: a walk that crosses itself, one on few lines, which touches itself, one along 16 by 16 lines; a comb; a
// staircase; and the squares of figures of several rings, that lie in one another or touch.
#[derive(Clone, Copy)]
pub enum Shape {
    CrossingWalk,
    TouchingWalk,
    GridWalk,
    Comb,
    Staircase,
    Window,
    Square,
}

// How several rings lie: windows in windows, squares that touch, rings of several lengths that cross, and rings that come again.
#[derive(Clone, Copy)]
pub enum Rings {
    Nested,
    Touching,
    Crossing,
    Repeated,
}

// A figure of one ring or of several.
#[derive(Clone, Copy)]
pub enum Figure {
    One(Shape),
    Several(Rings),
}

// How many numbers a figure has: four to a turn of a walk and to a step, eight to a tooth of a comb and to a square.
pub fn size(figure: Figure, k: usize) -> usize {
    match figure {
        Figure::One(Shape::CrossingWalk) => drawn(k, 900) % 14 * 4 + 8,
        Figure::One(Shape::TouchingWalk) => drawn(k, 900) % 7 * 8 + 8,
        Figure::One(Shape::GridWalk) => 64,
        Figure::One(Shape::Comb) => drawn(k, 920) % 7 * 8 + 16,
        Figure::One(Shape::Staircase) => drawn(k, 940) % 14 * 4 + 12,
        Figure::One(Shape::Window | Shape::Square) => 8,
        Figure::Several(Rings::Crossing) => 64,
        Figure::Several(_) => drawn(k, 980) % 7 * 8 + 16,
    }
}

// ---- one ring

// How deep a ring lies among windows in windows. The rings of a figure have seeds that follow one another; each has a depth of its
// own, in any order.
fn depth(seed: usize) -> usize {
    let figure = seed / 8;
    let odd = drawn(figure, 992) % 4 * 2 + 1;
    (seed % 8)
        .wrapping_mul(odd)
        .wrapping_add(drawn(figure, 993))
        % 8
}

// The line that a walk goes along at a turn, of the x (way 0) or the y (way 1). Neighbours differ in being odd. A square is a walk
// of two turns.
fn walk_line(shape: Shape, seed: usize, way: usize, turn: usize) -> usize {
    let t = turn % 32;
    let w = way % 2;
    let any = drawn(seed, t * 2 + w) % 8;
    let odd = drawn(seed, 901 + w) % 8 * 2 + 1;
    match shape {
        Shape::CrossingWalk => any * 2 + t % 2,
        Shape::TouchingWalk => any % 2 * 2 + t % 2,
        Shape::Window if t % 2 == 0 => depth(seed),
        Shape::Window => 15usize.saturating_sub(depth(seed)),
        Shape::Square => drawn(seed, 990 + w) % 4 + t % 2,
        _ => t.wrapping_mul(odd).wrapping_add(drawn(seed, 903 + w)) % 16,
    }
}

// The y of a comb's corner: teeth of any height on a back.
fn comb_line(seed: usize, next: usize, tooth: usize) -> usize {
    match next {
        0 => 0,
        _ if next % 2 == 1 => drawn(seed, tooth % 16 + 930) % 12 + 2,
        _ => 1,
    }
}

// The line of number i of a ring of so many. A corner's x is the next turn's, and its y is this turn's.
fn line(shape: Shape, seed: usize, i: usize, numbers: usize) -> usize {
    let v = i % 128 / 2;
    let here = v / 2;
    let next = if v * 2 + 2 < numbers {
        v.div_ceil(2)
    } else {
        0
    };
    match (shape, i % 2) {
        (Shape::Comb, 0) => here,
        (Shape::Comb, _) => comb_line(seed, next, v / 4),
        (Shape::Staircase, 0) if next == 0 => 0,
        (Shape::Staircase, 0) => (numbers / 4).saturating_sub(next),
        (Shape::Staircase, _) => here,
        (_, 0) => walk_line(shape, seed, 0, next),
        _ => walk_line(shape, seed, 1, here),
    }
}

// ---- several rings

// How rings share out the corners of a figure: a line for each number of rings, and all 32 corners of those that cross. Others have
// rings of four corners, as in the last line.
const SHARES: [[usize; 8]; 7] = [
    [4, 28, 0, 0, 0, 0, 0, 0],
    [8, 20, 4, 0, 0, 0, 0, 0],
    [4, 8, 8, 12, 0, 0, 0, 0],
    [12, 4, 4, 4, 8, 0, 0, 0],
    [4, 4, 8, 8, 4, 4, 0, 0],
    [4, 4, 4, 4, 4, 8, 4, 0],
    [4, 4, 4, 4, 4, 4, 4, 4],
];

// How many rings a figure has.
pub fn ring_count(figure: Figure, k: usize) -> usize {
    match figure {
        Figure::One(_) => 1,
        Figure::Several(_) => drawn(k, 980) % 7 + 2,
    }
}

// How many corners the rings of a figure of several have.
pub fn shares(rings: Rings, k: usize) -> [usize; 8] {
    match rings {
        Rings::Crossing => SHARES[drawn(k, 980) % 7],
        _ => [4; 8],
    }
}

// A ring of a figure, how many corners lie before its own, and how many it has.
#[derive(Clone, Copy)]
struct Ring {
    number: usize,
    before: usize,
    length: usize,
}

// The ring that has corner v of a figure.
fn ring_of(rings: Rings, k: usize, v: usize) -> Ring {
    let mut ring = Ring {
        number: 0,
        before: 0,
        length: 0,
    };
    let mut before: usize = 0;
    for (number, length) in shares(rings, k).iter().enumerate() {
        if before <= v {
            ring = Ring {
                number,
                before,
                length: *length,
            };
        }
        before = before.wrapping_add(*length);
    }
    ring
}

// The corner that stands for corner v of a ring, since rings begin at any corner and go round either way.
fn turned(seed: usize, v: usize, length: usize) -> usize {
    let back = drawn(seed, 995) % 2 == 1;
    let along = if back {
        length.saturating_sub(v.wrapping_add(1))
    } else {
        v
    };
    let on = along.wrapping_add(drawn(seed, 996) % 4);
    if on < length { on } else { on - length }
}

// The seed of a ring: that of its figure and its number, or one of three where rings come again.
fn ring_seed(rings: Rings, k: usize, ring: usize) -> usize {
    let number = match rings {
        Rings::Repeated => drawn(k, ring % 8 + 981) % 3,
        _ => ring,
    };
    k.wrapping_mul(8).wrapping_add(number)
}

// Rings that cross are walks, combs and staircases.
const CROSSING: [Shape; 3] = [Shape::CrossingWalk, Shape::Comb, Shape::Staircase];

// The shape of a ring of several.
fn ring_shape(rings: Rings, seed: usize) -> Shape {
    match rings {
        Rings::Nested => Shape::Window,
        Rings::Touching => Shape::Square,
        Rings::Crossing => CROSSING[drawn(seed, 994) % 3],
        Rings::Repeated => Shape::CrossingWalk,
    }
}

// The line of number i of a figure of several rings.
fn ring_line(rings: Rings, k: usize, i: usize) -> usize {
    let ring = ring_of(rings, k, i / 2);
    let seed = ring_seed(rings, k, ring.number);
    let v = turned(
        k.wrapping_mul(8).wrapping_add(ring.number),
        (i / 2).saturating_sub(ring.before),
        ring.length,
    );
    line(
        ring_shape(rings, seed),
        seed,
        v.wrapping_mul(2).wrapping_add(i % 2),
        ring.length.wrapping_mul(2),
    )
}

// ---- numbers

// From line to line of a figure it is one of these: some are as wide as a threshold.
const STEPS: [usize; 6] = [1, 5, 24, 25, 100, 4000];

// Number i of a figure of so many: even steps, from an offset.
pub fn number(figure: Figure, k: usize, i: usize, numbers: usize) -> usize {
    let way = i % 2;
    let step = STEPS[drawn(k, 910 + way) % 6];
    let offset = drawn(k, 912 + way) % 50;
    let line = match figure {
        Figure::One(shape) => line(shape, k, i, numbers),
        Figure::Several(rings) => ring_line(rings, k, i),
    };
    line.wrapping_mul(step).wrapping_add(offset)
}
