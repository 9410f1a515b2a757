// The fracture of a figure by pinwheels beside straight cuts: another fill and another emission, and grids of few rows apart.
ghost use Rattle.std.specs.Prelude.{◌≡◌, ◌≤◌};
ghost use Rattle.rule.specs.declared.Rule.{Rule};
ghost use Rattle.outline.specs.Grid.{Grid, memory};
ghost use Rattle.piece.specs.declared.Mode.TheVariants.{Pinwheel};
ghost use Rattle.demands.specs.Promise.{gridded};
ghost use Rattle.fracture.specs.Delivery.{Laid, Fillable, Sizes};
ghost use Rattle.fracture.specs.Told.{told};

use crate::delivery::deliver;
use crate::manner::{Grids, Manner, StraightCuts};
use crate::{Denial, Fractured, fracture_grid};
use emission::pinwheel::emit;
use lowering::lower;
use outline::MOST_LINES;
use refusal::Refusal;
use rule::Rule;
use table::numbering::{entries, pair_count};
use verdict::{Numbered, Plan};
use wheels::fill;

// A grid of so many columns and rows at most is filled by straight cuts and then lowered, which takes no store.
const FEW: usize = 5;

// The pinwheels of a grid: none, or those of few columns and rows, or of more columns, or of more rows.
#[derive(Clone, Copy)]
enum Turns {
    None,
    Few,
    Wide,
    High,
}

// By pinwheels beside straight cuts.
pub struct Pinwheels;

impl Manner for Pinwheels {
    ghost mode = { Pinwheel };

    fn fill(
        xs: &[u16],
        ys: &[u16],
        cells: &[u8],
        columns: usize,
        rows: usize,
        rule: Rule,
        table: &mut [u32],
    ) {
        fill(xs, ys, cells, columns, rows, rule, table);
    }

    fn emit(
        costs: &[u32],
        cells: &[u8],
        xs: &[u16; MOST_LINES],
        ys: &[u16; MOST_LINES],
        list: &mut [u16],
        plan: Plan,
        at: usize,
        p: Numbered,
    ) -> usize {
        emit(costs, cells, xs, ys, list, plan, at, p)
    }
}

// The fracture of a grid of few columns and rows: its table by straight cuts is lowered, which needs no store.
fn fracture_few(
    columns: usize,
    rows: usize,
    xs: &[u16; MOST_LINES],
    ys: &[u16; MOST_LINES],
    cells: &[u8],
    rule: Rule,
    table: &mut [u32],
    list: &mut [u16],
) -> Result<Fractured, Denial>
    requires fillable { Fillable (memory columns rows xs.now ys.now cells.now) rule }
    requires le_columns { (3 ≤ columns) × ((3 ≤ rows) × (rows ≤ 5)) }
    ensures { (g : Grid) → Laid g (memory columns rows xs.now ys.now cells.now) → told result table.new list.new ≡ gridded Pinwheel g rule table.old list.old }
{
    if table.len() < entries(columns, rows) {
        return Err(Refusal::Table.into());
    }
    fill::fill(xs, ys, cells, columns, rows, rule, table);
    let pairs = pair_count(rows);
    let plan = Plan {
        columns,
        rows,
        pairs,
        rule,
    };
    lower(table, cells, plan);
    deliver::<Pinwheels>(table, cells, xs, ys, list, plan)
}

// What a grid of this size has of pinwheels. With fewer than three columns or rows of cells there is none; the rest goes by the fill.
fn turns_of(columns: usize, rows: usize) -> Turns
    ensures { Sizes result columns rows }
{
    if columns < 3 {
        return Turns::None;
    }
    if rows < 3 {
        return Turns::None;
    }
    if FEW < columns {
        return Turns::Wide;
    }
    if FEW < rows {
        return Turns::High;
    }
    Turns::Few
}

// The fracture of the grid of a figure, by its size. Where there is no pinwheel straight cuts give the same. Grids of more columns and
// grids of more rows go by the pinwheel fill, whose store lies in its own frame: a call of another size makes no room for it.
fn fracture_sized(
    columns: usize,
    rows: usize,
    xs: &[u16; MOST_LINES],
    ys: &[u16; MOST_LINES],
    cells: &[u8],
    rule: Rule,
    table: &mut [u32],
    list: &mut [u16],
) -> Result<Fractured, Denial>
    requires { Fillable (memory columns rows xs.now ys.now cells.now) rule }
    ensures { (g : Grid) → Laid g (memory columns rows xs.now ys.now cells.now) → told result table.new list.new ≡ gridded Pinwheel g rule table.old list.old }
{
    let turns = turns_of(columns, rows);
    match turns {
        Turns::None => fracture_grid::<StraightCuts>(
            columns, rows, xs, ys, cells, rule, table, list,
        ),
        Turns::Few => fracture_few(columns, rows, xs, ys, cells, rule, table, list),
        Turns::Wide => fracture_grid::<Pinwheels>(columns, rows, xs, ys, cells, rule, table, list),
        Turns::High => fracture_grid::<Pinwheels>(columns, rows, xs, ys, cells, rule, table, list),
    }
}

impl Grids for Pinwheels {
    fn of_grid(
        columns: usize,
        rows: usize,
        xs: &[u16; MOST_LINES],
        ys: &[u16; MOST_LINES],
        cells: &[u8],
        rule: Rule,
        table: &mut [u32],
        list: &mut [u16],
    ) -> Result<Fractured, Denial> {
        fracture_sized(columns, rows, xs, ys, cells, rule, table, list)
    }
}
