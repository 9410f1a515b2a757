// A figure, its shots and how they came about, as a picture (SVG) for people.
#![tactic(auto)]

mod cuts;
mod labels;
mod legend;
pub mod scene;
mod sheet;
mod shots;
mod slivers;
mod spots;

use cuts::{Made, cuts_of, print_cuts};
use cutting::Priced;
use fracture::{Denial, ENTRIES, Fractured, NUMBERS, fracture, fracture_pinwheel};
use labels::{place_cuts, place_numbers, print_cut_labels, print_labels};
use legend::{print_foot, print_head, print_places, print_sheet};
use outline::{MOST_CELLS, MOST_LINES, draw};
use refusal::Refusal;
use scene::{Figure, Manner, Scene};
use sheet::Grid;
use shots::{print_figure, print_shots};
use slivers::print_slivers;
use spots::Spots;
use std::fmt;
use std::fmt::Write;
use terminal::output::Output;

// What is drawn in nm: shots, cuts, the figure, and what is charged.
fn print_scaled(out: &mut Output, scene: Scene<'_>, cuts: &[Made]) -> fmt::Result {
    let view = scene.view;
    let figure = scene.figure;
    view.print_scaled(out)?;
    print_shots(out, view, scene.shots(), scene.manner.threshold)?;
    print_cuts(out, view, cuts)?;
    print_figure(out, view, figure.corners, figure.lengths)?;
    print_slivers(out, scene)?;
    out.write_str("</g>\n")
}

// The numbers of lines, cuts and shots, each where it covers no other.
fn print_numbers(out: &mut Output, scene: Scene<'_>, cuts: &[Made]) -> fmt::Result {
    let view = scene.view;
    let shots = scene.shots();
    let mut spots = Spots::free();
    print_places(out, view, scene.grid, &mut spots)?;
    place_numbers(view, shots, &mut spots);
    place_cuts(view, cuts, &mut spots);
    print_cut_labels(out, cuts.len(), &spots)?;
    print_labels(out, view, shots, &spots, scene.manner.threshold)
}

// The whole picture.
fn print_picture(out: &mut Output, scene: Scene<'_>, cuts: &[Made]) -> fmt::Result {
    print_sheet(out, scene.view)?;
    print_head(out, scene)?;
    print_scaled(out, scene, cuts)?;
    print_numbers(out, scene, cuts)?;
    print_foot(out, scene.view, scene.manner)
}

// A fracture by straight cuts, or by pinwheels too.
fn fracture_by(
    figure: Figure<'_>,
    manner: Manner,
    table: &mut [u32],
    list: &mut [u16],
) -> Result<Fractured, Denial> {
    let Manner {
        threshold,
        weight,
        pinwheels,
    } = manner;
    if pinwheels {
        return fracture_pinwheel(
            figure.corners,
            figure.lengths,
            threshold,
            weight,
            table,
            list,
        );
    }
    fracture(
        figure.corners,
        figure.lengths,
        threshold,
        weight,
        table,
        list,
    )
}

// The picture of a figure that was fractured, with its cost table and its shots at the front of a list.
fn draw_fractured(
    figure: Figure<'_>,
    manner: Manner,
    told: Fractured,
    table: &[u32],
    list: &[u16],
    out: &mut Output,
) -> Result<(), Refusal> {
    let mut xs = [0u16; MOST_LINES];
    let mut ys = [0u16; MOST_LINES];
    let mut cells = [0u8; MOST_CELLS];
    let drawing = draw(figure.corners, figure.lengths, &mut xs, &mut ys, &mut cells)?;
    let columns = drawing.columns;
    let rows = drawing.rows;
    let grid = Grid {
        columns,
        rows,
        xs: &xs,
        ys: &ys,
        cells: &cells,
    };
    let priced = Priced {
        columns,
        rows,
        table,
    };
    let Some(list) = list.get(..4 * told.shots as usize) else {
        return Ok(());
    };
    let scene = Scene::on(grid, figure, manner, told, list);
    let cuts = cuts_of(priced, grid, scene.shots());
    // The output gives no error: it keeps in mind whether a write failed.
    let _printed = print_picture(out, scene, cuts.all());
    Ok(())
}

// Fractures a figure and draws it: the figure with its shots and their numbers, the cuts in the order in which they are made, what is
// charged in red, a scale and a legend. Where it is refused, nothing is printed.
pub fn draw_picture(figure: Figure<'_>, manner: Manner, out: &mut Output) -> Result<(), Refusal> {
    let mut table = [0u32; ENTRIES];
    let mut list = [0u16; NUMBERS];
    let told = fracture_by(figure, manner, &mut table, &mut list).map_err(|denial| denial.why)?;
    draw_fractured(figure, manner, told, &table, &list, out)
}
