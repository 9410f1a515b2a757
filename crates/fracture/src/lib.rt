// From a figure to its shots: the fill, the delivery, and the calls; by pinwheels too in `pinwheel`.
#![tactic(auto)]

ghost use Rattle.std.specs.Prelude.{◌≡◌, true};
ghost use Rattle.rule.specs.Rules.{in_range};
ghost use Rattle.figure.specs.Figure.{figure};
ghost use Rattle.outline.specs.Grid.{Grid, memory};
ghost use Rattle.piece.specs.declared.Mode.TheVariants.{Straight, Pinwheel};
ghost use Rattle.demands.specs.Promise.{asked, gridded, ruled, outcome};
ghost use Rattle.demands.specs.Demands.{Words};
ghost use Rattle.demands.specs.Cuts.{ahead};
ghost use Rattle.fracture.specs.Delivery.{Laid, Fillable};
ghost use Rattle.fracture.specs.Told.{told, by_default, ahead_told};

use delivery::deliver;
use manner::{Grids, Manner, StraightCuts};
use outline::{Drawing, MOST_CELLS, MOST_LINES, draw};
use pinwheel::Pinwheels;
use refusal::Refusal;
use rule::Rule;
use table::numbering::{entries, pair_count};
use verdict::Plan;

mod delivery;
mod manner;
mod pinwheel;

// Room that is enough for every figure, whatever it is asked: entries of the table, one for each piece of 16 by 16 lines.
pub const ENTRIES: usize = 14400;

// And numbers of the list, four for each of 225 shots.
pub const NUMBERS: usize = 900;

// What a fracture answers: how many shots, their cost in thousandths of a shot, their sliver length in nm, and how many cuts were weighed.
#[derive(Clone, Copy, PartialEq, Eq)]
pub struct Fractured {
    pub shots: u32,
    pub cost: u32,
    pub sliver: u32,
    pub cuts: u32,
}

// Why there is none, and how many shots there are where the list is too short for them, else 0.
#[derive(Clone, Copy, PartialEq, Eq)]
pub struct Denial {
    pub why: Refusal,
    pub needed: u32,
}

// No shots were counted.
impl From<Refusal> for Denial {
    ghost from_gives = { λ why denial. denial ≡ record { why = why; needed = 0 } };

    fn from(why: Refusal) -> Denial {
        Denial { why, needed: 0 }
    }
}

// The fracture of the grid of a figure by a rule in range: 6, 7 or the shots.
fn fracture_grid<M: Manner>(
    columns: usize,
    rows: usize,
    xs: &[u16; MOST_LINES],
    ys: &[u16; MOST_LINES],
    cells: &[u8],
    rule: Rule,
    table: &mut [u32],
    list: &mut [u16],
) -> Result<Fractured, Denial>
    requires { Fillable (memory columns rows xs.now ys.now cells.now) rule }
    ensures { (g : Grid) → Laid g (memory columns rows xs.now ys.now cells.now) → told result table.new list.new ≡ gridded M.mode g rule table.old list.old }
{
    if table.len() < entries(columns, rows) {
        return Err(Refusal::Table.into());
    }
    M::fill(xs, ys, cells, columns, rows, rule, table);
    let pairs = pair_count(rows);
    let plan = Plan {
        columns,
        rows,
        pairs,
        rule,
    };
    deliver::<M>(table, cells, xs, ys, list, plan)
}

impl Grids for StraightCuts {
    fn of_grid(
        columns: usize,
        rows: usize,
        xs: &[u16; MOST_LINES],
        ys: &[u16; MOST_LINES],
        cells: &[u8],
        rule: Rule,
        table: &mut [u32],
        list: &mut [u16],
    ) -> Result<Fractured, Denial> {
        fracture_grid::<StraightCuts>(columns, rows, xs, ys, cells, rule, table, list)
    }
}

// The fracture of a figure by a rule in range: 2 to 7 or the shots. The corners are 16-bit numbers by their type, which `words` says.
fn fracture_by<M: Grids>(
    corners: &[u16],
    lengths: &[u16],
    rule: Rule,
    table: &mut [u32],
    list: &mut [u16],
) -> Result<Fractured, Denial>
    requires { in_range rule.threshold rule.weight ≡ true }
    ensures settled { told result table.new list.new ≡ ruled M.mode (figure corners.now lengths.now) rule table.old list.old }
    ensures words { Words (figure corners.now lengths.now) }
{
    let mut xs = [0u16; MOST_LINES];
    let mut ys = [0u16; MOST_LINES];
    let mut cells = [0u8; MOST_CELLS];
    let Drawing { columns, rows } = draw(corners, lengths, &mut xs, &mut ys, &mut cells)?;
    M::of_grid(columns, rows, &xs, &ys, &cells, rule, table, list)
}

// Fractures a figure, given as x, y, x, y, .. of its corners, ring after ring, and the number of corners of each ring, by a
// threshold in nm and a weight in thousandths of a shot per nm. It leaves the cost of every piece at the front of the table and the
// shots at the front of the list, and touches nothing beyond.
pub fn fracture(
    corners: &[u16],
    lengths: &[u16],
    threshold: u32,
    weight: u32,
    table: &mut [u32],
    list: &mut [u16],
) -> Result<Fractured, Denial>
    ensures settled { told result table.new list.new ≡ outcome (asked Straight corners.now lengths.now threshold weight table.old list.old) }
{
    let rule = Rule::new(threshold, weight)?;
    fracture_by::<StraightCuts>(corners, lengths, rule, table, list)
}

// The same by the default preset.
pub fn fracture_default(
    corners: &[u16],
    lengths: &[u16],
    table: &mut [u32],
    list: &mut [u16],
) -> Result<Fractured, Denial>
    ensures settled { told result table.new list.new ≡ outcome (by_default corners.now lengths.now table.old list.old) }
{
    let rule = Rule::preset(Rule::DEFAULT_PRESET)?;
    fracture_by::<StraightCuts>(corners, lengths, rule, table, list)
}

// Fewer numbers have no pinwheel: two corners and more lie on each line, so seven have three lines each way at most.
const FEW_NUMBERS: usize = 16;

// The same as `fracture`, by pinwheels beside straight cuts: a piece may also fall into four arms around an inner piece. No drawing costs
// more so than by straight cuts, and one of few corners costs the same: it is handed on.
pub fn fracture_pinwheel(
    corners: &[u16],
    lengths: &[u16],
    threshold: u32,
    weight: u32,
    table: &mut [u32],
    list: &mut [u16],
) -> Result<Fractured, Denial>
    ensures settled { told result table.new list.new ≡ outcome (asked Pinwheel corners.now lengths.now threshold weight table.old list.old) }
{
    if corners.len() < FEW_NUMBERS {
        return fracture(corners, lengths, threshold, weight, table, list);
    }
    let rule = Rule::new(threshold, weight)?;
    fracture_by::<Pinwheels>(corners, lengths, rule, table, list)
}

// How many cuts the fracture of a figure will weigh, without a rule, a table or a list; or 2 to 5.
pub fn cuts(corners: &[u16], lengths: &[u16]) -> Result<u32, Refusal>
    ensures settled { ahead_told result ≡ ahead (figure corners.now lengths.now) }
{
    let mut xs = [0u16; MOST_LINES];
    let mut ys = [0u16; MOST_LINES];
    let mut cells = [0u8; MOST_CELLS];
    let drawing = draw(corners, lengths, &mut xs, &mut ys, &mut cells)?;
    Ok(count::cuts(&cells, drawing.columns, drawing.rows))
}
