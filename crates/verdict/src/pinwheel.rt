// The verdict of a piece by pinwheels too, and the search for a pinwheel: turn by turn the first one, by its lines j, l, k, m, whose five parts
// cost together what the piece costs. Only a piece that no straight cut serves is searched, so there is one to be found; each search hands
// back one line, and the lines are found one after the other. All of it stands apart from straight cuts, so that those have no room to make
// for it.
ghost use Rattle.std.specs.Prelude.{◌≡◌, ◌+◌, ◌<◌};
ghost use Rattle.outline.specs.Grid.{Grid};
ghost use Rattle.rule.specs.declared.Rule.{Rule};
ghost use Rattle.piece.specs.declared.Mode.TheVariants.{Pinwheel};
ghost use Rattle.piece.specs.Piece.{box};
ghost use Rattle.piece.specs.Meant.{meant};
ghost use Rattle.piece.specs.Cuts.{wheel};
ghost use Rattle.table.specs.Entry.{Valid};
ghost use Rattle.verdict.specs.Memory.{Costed, Judgeable};
ghost use Rattle.verdict.specs.Verdict.{placed, wheel_in, verdict_of};
ghost use Rattle.verdict.specs.Search.{FirstLine};
ghost use Rattle.verdict.specs.Pinwheels.{weight_of, Addable, Small, Huntable, Lines, Meets, WithM, WithK, WithL, Leading, Turnable, FirstWheel};

use super::{Numbered, Plan, all_inside, first_cut};
use outline::Line;
use piece::{Piece, Turn};
use table::numbering::entry;

// The five parts of a pinwheel, in the order of equation (3): four arms and the inner piece.
#[derive(Clone, Copy)]
pub struct Wheel {
    pub first: Numbered,
    pub second: Numbered,
    pub third: Numbered,
    pub fourth: Numbered,
    pub inner: Numbered,
}

// What becomes of a piece: nothing of it is inside, or all of it is one shot, or it is cut, into its low and its high part, or it falls into
// the parts of a pinwheel.
#[derive(Clone, Copy)]
pub enum Turned {
    Outside,
    Shot,
    Cut(Numbered, Numbered),
    Wheel(Wheel),
}

// What is sought: the pinwheels of a piece of one turn that cost so much.
#[derive(Clone, Copy)]
struct Sought {
    pub plan: Plan,
    pub piece: Piece,
    pub turn: Turn,
    pub cost: u32,
}

// The piece of four lines, with its entry.
fn numbered(plan: Plan, a: Line, c: Line, b: Line, d: Line) -> Numbered
    requires { Small plan × Valid plan.columns plan.rows (box a.0 c.0 b.0 d.0) }
    ensures { result ≡ placed plan.columns plan.rows (box a.0 c.0 b.0 d.0) }
{
    let columns = plan.columns;
    let rows = plan.rows;
    let at = entry(columns, rows, a, c, b, d);
    Numbered {
        piece: Piece { a, c, b, d },
        entry: at,
    }
}

// The parts of a pinwheel.
fn wheel_of(s: Sought, j: Line, l: Line, k: Line, m: Line) -> Wheel
    requires { Lines s j.0 l.0 k.0 m.0 }
    ensures { result ≡ wheel_in s.plan.columns s.plan.rows (meant s.piece) (wheel s.turn j.0 l.0 k.0 m.0) }
{
    let plan = s.plan;
    let a = s.piece.a;
    let c = s.piece.c;
    let b = s.piece.b;
    let d = s.piece.d;
    let turn = s.turn;
    let inner = numbered(plan, j, l, k, m);
    match turn {
        Turn::First => {
            let first = numbered(plan, a, l, b, k);
            let second = numbered(plan, l, c, b, m);
            let third = numbered(plan, a, j, k, d);
            let fourth = numbered(plan, j, c, m, d);
            Wheel {
                first,
                second,
                third,
                fourth,
                inner,
            }
        }
        Turn::Second => {
            let first = numbered(plan, a, j, b, m);
            let second = numbered(plan, j, c, b, k);
            let third = numbered(plan, a, l, m, d);
            let fourth = numbered(plan, l, c, k, d);
            Wheel {
                first,
                second,
                third,
                fourth,
                inner,
            }
        }
    }
}

// What the table has for the five parts together.
fn weight_of(costs: &[u32], w: Wheel) -> u32
    requires { Addable costs.now w }
    ensures { result ≡ weight_of costs.now w }
{
    let first = w.first.entry;
    let second = w.second.entry;
    let third = w.third.entry;
    let fourth = w.fourth.entry;
    let inner = w.inner.entry;
    costs[first] + costs[second] + costs[third] + costs[fourth] + costs[inner]
}

// The lowest m with the other three lines given. Each line has a loop of its own: of one search that takes a test the proof did not learn
// what the test says of a line.
fn first_m(costs: &[u32], s: Sought, j: Line, l: Line, k: Line) -> Option<Line>
    requires huntable { Huntable costs.now s }
    requires a_lt_j { (s.piece.a.0 < j.0) × ((j.0 < l.0) × ((l.0 < s.piece.c.0) × ((s.piece.b.0 < k.0) × (k.0 < s.piece.d.0)))) }
    ensures { FirstLine (Meets costs.now s j.0 l.0 k.0) (k.0 + 1) s.piece.d.0 result }
{
    for m in k.0 + 1..s.piece.d.0 {
        let wheel = wheel_of(s, j, l, k, Line(m));
        if weight_of(costs, wheel) == s.cost {
            return Some(Line(m));
        }
    }
    None
}

// The lowest k with j and l given.
fn first_k(costs: &[u32], s: Sought, j: Line, l: Line) -> Option<Line>
    requires huntable { Huntable costs.now s }
    requires a_lt_j { (s.piece.a.0 < j.0) × ((j.0 < l.0) × (l.0 < s.piece.c.0)) }
    ensures { FirstLine (WithM costs.now s j.0 l.0) (s.piece.b.0 + 1) s.piece.d.0 result }
{
    for k in s.piece.b.0 + 1..s.piece.d.0 {
        if first_m(costs, s, j, l, Line(k)).is_some() {
            return Some(Line(k));
        }
    }
    None
}

// The lowest l with j given.
fn first_l(costs: &[u32], s: Sought, j: Line) -> Option<Line>
    requires huntable { Huntable costs.now s }
    requires a_lt_j { (s.piece.a.0 < j.0) × (j.0 < s.piece.c.0) }
    ensures { FirstLine (WithK costs.now s j.0) (j.0 + 1) s.piece.c.0 result }
{
    for l in j.0 + 1..s.piece.c.0 {
        if first_k(costs, s, j, Line(l)).is_some() {
            return Some(Line(l));
        }
    }
    None
}

// The lowest j.
fn first_j(costs: &[u32], s: Sought) -> Option<Line>
    requires { Huntable costs.now s }
    ensures { FirstLine (WithL costs.now s) (s.piece.a.0 + 1) s.piece.c.0 result }
{
    for j in s.piece.a.0 + 1..s.piece.c.0 {
        if first_l(costs, s, Line(j)).is_some() {
            return Some(Line(j));
        }
    }
    None
}

// The pinwheel of the lowest j, then the lowest l, then k, then m.
fn lowest_wheel(costs: &[u32], s: Sought) -> Option<Wheel>
    requires { Huntable costs.now s }
    ensures { Leading costs.now s result }
{
    let j = first_j(costs, s)?;
    let l = first_l(costs, s, j)?;
    let k = first_k(costs, s, j, l)?;
    let m = first_m(costs, s, j, l, k)?;
    Some(wheel_of(s, j, l, k, m))
}

// The first pinwheel of a piece that costs so much: of the first turn, else of the second.
fn first_wheel(costs: &[u32], plan: Plan, piece: Piece, cost: u32) -> Wheel
    requires { Turnable costs.now plan piece cost }
    ensures { FirstWheel costs.now plan piece cost result }
{
    let first = Sought {
        plan,
        piece,
        turn: Turn::First,
        cost,
    };
    if let Some(wheel) = lowest_wheel(costs, first) {
        return wheel;
    }
    let second = Sought {
        plan,
        piece,
        turn: Turn::Second,
        cost,
    };
    lowest_wheel(costs, second).unwrap()
}

// The verdict of a piece by pinwheels too: as by straight cuts, and where no straight cut costs what the piece costs the first such pinwheel.
pub fn judge(costs: &[u32], cells: &[u8], plan: Plan, p: Numbered) -> Turned
    requires { Judgeable Pinwheel costs.now cells.now plan p }
    ensures { (g : Grid) (r : Rule) → Costed Pinwheel g r costs.now cells.now plan → result ≡ verdict_of Pinwheel g r (meant p.piece) }
{
    let piece = p.piece;
    let entry = p.entry;
    let cost = costs[entry];
    if cost == 0 {
        return Turned::Outside;
    }
    if all_inside(cells, piece) {
        return Turned::Shot;
    }
    match first_cut(costs, plan, p) {
        Some(parts) => Turned::Cut(parts.low, parts.high),
        None => Turned::Wheel(first_wheel(costs, plan, piece, cost)),
    }
}
