// Runs every row of the scope's table of drawings, the worked figures with windows, and some hundred made-up figures, by the
// library and by a second fracturer that is written another way, and compares answer by answer, shot by shot and cost by cost.
#![tactic(auto)]

mod document;
mod drawings;
mod made;
mod second;

use document::Row;
use drawings::{Drawing, SORTS, Sort};
use fracture::{Denial, ENTRIES, Fractured, NUMBERS};
use second::{Answer, Asked, Pieces, Solved};

// What the library answered, and whether all of it was the same as the second's and the scope's.
#[derive(Clone, Copy)]
struct Compared {
    told: Answer,
    same: bool,
}

// ---- the library's answer

fn answered(by: Result<Fractured, Denial>) -> Answer {
    match by {
        Ok(done) => Answer {
            number: 0,
            shots: done.shots,
            cost: done.cost,
            sliver: done.sliver,
        },
        Err(denial) => Answer {
            number: u32::from(denial.why),
            shots: denial.needed,
            cost: 0,
            sliver: 0,
        },
    }
}

// ---- comparison

// Whether the library's list is the second's and, of a row, the scope's.
fn same_list(list: &[u16], own: &Solved, pieces: &Pieces, row: Option<Row>, shots: u32) -> bool {
    for (i, number) in list.iter().enumerate().take(shots as usize % 256 * 4) {
        if second::listed(own, pieces, i) != Some(u32::from(*number)) {
            return false;
        }
        if let Some(row) = row
            && document::list(row.shots, i) != *number
        {
            return false;
        }
    }
    true
}

// Whether the library's table has the second's costs, which stand in the same order with gaps.
fn same_costs(table: &[u32], pieces: &Pieces) -> bool {
    let mut entries = table.iter();
    for p in 0..65536 {
        if let Some(cost) = second::cost(pieces, p)
            && entries.next() != Some(&cost)
        {
            return false;
        }
    }
    true
}

// Whether the second answers the same, with the same list and costs if there are any; and so does the scope of a row. Of a figure
// that is no row it says nothing.
fn agrees(drawing: &Drawing, told: Answer, table: &[u32], list: &[u16]) -> bool {
    let mut pieces: Pieces = [None; 65536];
    let row = drawing.row;
    let other = second::fracture(
        drawing.outline(),
        drawing.ring_lengths(),
        drawing.asked,
        &mut pieces,
    );
    if told != second::told(&other) || row.is_some_and(|row| row.answer != told) {
        return false;
    }
    match other {
        Ok(own) => { same_list(list, &own, &pieces, row, told.shots) && same_costs(table, &pieces) }
        Err(_) => true,
    }
}

// Fractures a figure by the library, and compares.
fn compare(drawing: &Drawing) -> Compared {
    let asked = drawing.asked;
    let mut table = [0u32; ENTRIES];
    let mut list = [0u16; NUMBERS];
    let entries = asked.entries.min(ENTRIES);
    let room = asked.room.min(NUMBERS);
    let told = answered(fracture::fracture(
        drawing.outline(),
        drawing.ring_lengths(),
        asked.threshold,
        asked.weight,
        &mut table[..entries],
        &mut list[..room],
    ));
    let same = agrees(drawing, told, &table, &list);
    Compared { told, same }
}

// ---- figures of all sorts

// Prints what came of a row.
fn print_row<R: Print>(rt: &R, k: usize, asked: Asked, compared: Compared) {
    let told = compared.told;
    let judged = if compared.same {
        "the same"
    } else {
        "DIFFERENT"
    };
    let _told = println!(rt;
        "row {k} rule {} {}: number {} shots {} cost {} sliver {}, {judged}",
        asked.threshold, asked.weight, told.number, told.shots, told.cost, told.sliver
    );
}

// Runs a figure, and prints what came of it if it is a row.
fn run<R: Print>(rt: &R, sort: Sort, k: usize) -> Compared {
    let drawing = drawings::draw(sort, k);
    let compared = compare(&drawing);
    if drawing.row.is_some() {
        print_row(rt, k, drawing.asked, compared);
    }
    compared
}

// Runs the figures of a sort, and prints what came of them.
fn report<R: Print>(rt: &R, sort: Sort) {
    let figures = sort.figures();
    let name = sort.name();
    let count = figures.end.saturating_sub(figures.start);
    let mut fractured: usize = 0;
    let mut shots: u32 = 0;
    let mut different: usize = 0;
    for k in figures {
        let compared = run(rt, sort, k);
        fractured = fractured.wrapping_add(usize::from(compared.told.is_fracture()));
        shots = shots.wrapping_add(compared.told.shots);
        different = different.wrapping_add(usize::from(!compared.same));
    }
    let _told = println!(rt;
        "{name}: {count} outlines, {fractured} fractured, {shots} shots, {different} different"
    );
}

fn main(rt: HostRuntime) {
    for sort in SORTS {
        report(&rt, sort);
    }
}
