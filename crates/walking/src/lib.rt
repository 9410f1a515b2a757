// The newcomers' walk: one edge of a drawing, from the bytes of its job to the shots that it ends up on. docs/WALK.md tells it.
//   walk                the walk over drawing B, by three rules, in numbers
//   walk JOB K EDGE     the walk of edge number EDGE of figure K of a job, step by step
#![tactic(auto)]

mod block;
mod corners;
mod cuts;
mod ends;
pub mod figures;
mod lines;
mod page;
mod pieces;
mod sheet;

ghost use Rattle.std.specs.Prelude.{◌≤◌};

use block::walk_block;
use corners::{Edge, edge_of, print_bytes, print_corners};
use cuts::print_cuts;
use edge::edge_shots;
use ends::{print_runs, print_shots};
use explanation::{figures as reasons, jobs};
use figures::{Figure, Wording, front};
use fracture::{Denial, ENTRIES, Fractured, NUMBERS, fracture};
use job::read::{Part, locate, whole};
use job::{Header, MOST_BYTES};
use lines::{print_exposure, print_grid};
use page::{Page, show};
use pieces::{Charge, Walk, print_pieces};
use refusal::{Fault, Refusal};
use sheet::Sheet;
use std::fmt::Write;
use std::rt::Stderr;
use table::numbering::entries;
use terminal::arguments::{is_argument, number_argument, read_argument};
use terminal::errors::{complain, say};
use terminal::host::Host;
use terminal::status::Status;

// An edge of a fractured figure has no more runs: 15, of four numbers each.
const MOST_RUNS: usize = 60;

// One edge of figure k of a job that was read, and where the figure's bytes lie, which the walk shows.
#[derive(Clone, Copy)]
struct Asked<'a> {
    job: &'a [u8],
    header: Header,
    k: usize,
    part: Part,
    figure: &'a Figure,
    edge: Edge,
}

// How many entries the table of a grid has.
fn entries_of(sheet: &Sheet) -> usize {
    if sheet.columns <= 15 && sheet.rows <= 15 {
        return entries(sheet.columns, sheet.rows);
    }
    0
}

// Fractures a figure of the job by a weight.
fn fractured(
    figure: &Figure,
    header: Header,
    weight: u32,
    table: &mut [u32],
    list: &mut [u16],
) -> Result<Fractured, Denial> {
    fracture(
        figure.corners(),
        figure.lengths(),
        header.threshold,
        weight,
        table,
        list,
    )
}

impl Asked<'_> {
    // The figure before this one in the job, where there is one and its grid has no fewer entries.
    fn earlier(self, entries: usize) -> Option<Figure> {
        let before = self.k.checked_sub(1)?;
        let figure = Figure::taken(self.job, before).ok()?;
        let sheet = Sheet::new(figure.corners(), figure.lengths()).ok()?;
        if entries_of(&sheet) < entries {
            return None;
        }
        Some(figure)
    }

    // Leaves the costs of that figure in the table: whether there are any.
    fn earlier_costs(self, entries: usize, table: &mut [u32], list: &mut [u16]) -> bool {
        self.earlier(entries).is_some_and(|figure| {
            fractured(&figure, self.header, self.header.weight, table, list).is_ok()
        })
    }

    // The runs of the edge on some shots, and how many they are.
    fn runs(self, list: &[u16], runs: &mut [usize]) -> usize {
        edge_shots(
            self.figure.corners(),
            self.figure.lengths(),
            self.edge.start,
            list,
            runs,
        )
        .unwrap_or(0)
    }
}

// Steps 5 to 8: the figure is fractured, and the edge followed from the frame to its shots. No figure that was drawn is refused, by the
// rule of a job that was read.
fn walk_down(page: &mut Page, asked: Asked<'_>, sheet: &Sheet) -> Result<(), Denial> {
    let mut table = [0u32; ENTRIES];
    let mut found = [0u32; ENTRIES];
    let mut list = [0u16; NUMBERS];
    let mut runs = [0usize; MOST_RUNS];
    let weight = asked.header.weight;
    let charge = Charge {
        threshold: asked.header.threshold,
        weight,
    };
    let fewest = fractured(asked.figure, asked.header, 0, &mut found, &mut list)?;
    let earlier = asked.earlier_costs(entries_of(sheet), &mut found, &mut list);
    let done = fractured(asked.figure, asked.header, weight, &mut table, &mut list)?;
    let shots = front(&list, 4 * (done.shots as usize));
    let count = asked.runs(shots, &mut runs);
    let walk = Walk {
        sheet,
        table: &table,
        charge,
        lies: sheet.lies_of(asked.edge),
    };
    print_pieces(page, walk);
    print_cuts(page, walk, sheet.priced(&found), earlier);
    print_shots(page, shots, asked.k, done, fewest, charge);
    print_runs(page, shots, &runs[..count.saturating_mul(4).min(MOST_RUNS)]);
    Ok(())
}

// The walk of one edge of a figure that was drawn.
fn walk_drawn(page: &mut Page, asked: Asked<'_>, sheet: &Sheet) -> Result<(), Denial> {
    let figure = asked.figure;
    let lies = sheet.lies_of(asked.edge);
    print_bytes(page, asked.job, asked.header, asked.part, asked.k);
    print_corners(page, figure.corners(), figure.lengths(), asked.edge);
    print_grid(page, sheet, lies);
    print_exposure(page, sheet, lies);
    walk_down(page, asked, sheet)?;
    show!(page, "\n");
    Ok(())
}

// A job that is refused, told in words.
fn refuse_job(err: Stderr, job: &[u8], fault: Fault) -> Status {
    say(err, b"walk: job ");
    jobs::explain(err, job, fault);
    Status::Refused
}

// A figure with nothing to walk, told in words.
fn refuse_figure(err: Stderr, k: usize, figure: &Figure, why: Refusal) -> Status {
    say(err, b"walk: ");
    reasons::explain(err, k, why, figure.corners(), figure.lengths());
    Status::Refused
}

// The number of a figure of the job; that it has none of that number is told.
fn figure_number(err: Stderr, header: Header, asked: Option<usize>) -> Result<usize, Status> {
    let wording = Wording {
        wanted: b"walk: the number of a figure is wanted, from 0\n",
        none: b"walk: no figure ",
        has: b": the job has ",
    };
    wording.number(err, asked, header.outlines as usize)
}

// The number of an edge of the figure, in the same way.
fn edge_number(err: Stderr, figure: &Figure, asked: Option<usize>) -> Result<usize, Status> {
    let wording = Wording {
        wanted: b"walk: the number of an edge is wanted, from 0\n",
        none: b"walk: no edge ",
        has: b": the figure has ",
    };
    wording.number(err, asked, figure.corners().len() / 2)
}

// The walk of an edge of a figure of a job, both by their numbers; or the status where there is no such edge, which was told.
fn walk_job(
    page: &mut Page,
    job: &[u8],
    k: Option<usize>,
    number: Option<usize>,
) -> Result<(), Status> {
    let err = page.console().err;
    let header = whole(job).map_err(|fault| refuse_job(err, job, fault))?;
    let k = figure_number(err, header, k)?;
    let figure = Figure::taken(job, k).map_err(|fault| refuse_job(err, job, fault))?;
    let part = locate(job, header.next, k).map_err(|fault| refuse_job(err, job, fault))?;
    let sheet = Sheet::new(figure.corners(), figure.lengths()).map_err(|why| refuse_figure(
        err, k, &figure, why,
    ))?;
    let number = edge_number(err, &figure, number)?;
    let edge = edge_of(figure.corners(), figure.lengths(), number);
    let asked = Asked {
        job,
        header,
        k,
        part,
        figure: &figure,
        edge,
    };
    walk_drawn(page, asked, &sheet).map_err(|denial| refuse_figure(err, k, &figure, denial.why))
}

// The walk that three words ask for, the first of them by its number. One byte more than the longest job is read, so that a longer one
// shows.
fn walk_asked<H: Host>(host: &H, page: &mut Page, first: usize) -> Result<(), Status>
    requires { first ≤ 2 }
{
    let mut job = [0u8; MOST_BYTES + 1];
    let n = read_argument(host, b"walk", first, &mut job).map_err(|_| Status::Failed)?;
    walk_job(
        page,
        &job[..n],
        number_argument(host, first + 1),
        number_argument(host, first + 2),
    )
}

// What the words are.
fn help(page: &mut Page) {
    show!(
        page,
        "walk                the walk over drawing B, by three rules, in numbers\n\
walk JOB K EDGE     the walk of edge EDGE of figure K of a job, both numbered from 0, step by step;\n\
\x20                   JOB is a file, or - for standard input\n\
Ends with 0; 1 where the job or the figure is refused; 2 where there is no such figure or edge, or where\n\
reading or writing fails. docs/WALK.md tells what it shows.\n"
    );
}

// The whole run, with its status: refused where the job or the figure is; failed where the words ask for nothing that there is, or reading
// or writing failed. The words stand behind the program's name, the first of them as argument 1, or behind a word more, as argument 2.
fn walk_by<H: Host>(host: &H, first: usize) -> Status
    requires { first ≤ 2 }
{
    let mut page = Page::new(host.console());
    let words = host.word_count();
    if words <= first {
        // The drawings of the block are sound.
        let _drawn = walk_block(&mut page);
        return page.ended();
    }
    if is_argument(host, first, b"--help") {
        help(&mut page);
        return page.ended();
    }
    if words != first + 3 {
        return complain(
            page.console().err,
            b"walk: a job, the number of a figure and the number of an edge are wanted, or nothing\n",
        );
    }
    match walk_asked(host, &mut page, first) {
        Ok(()) => page.ended(),
        Err(status) => status,
    }
}

// The walk as a part of another program, behind its word.
pub fn walk_within<H: Host>(host: &H) -> Status {
    walk_by(host, 2)
}

// The walk as a program.
pub fn pw_walk<H: Host>(host: &H) -> Status {
    walk_by(host, 1)
}
