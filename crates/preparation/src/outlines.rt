// The outlines of a job that was accepted: the job is opened once, each outline is picked out of its bytes by the index, fractured by the
// job's rule, and printed.
ghost use Rattle.std.specs.Prelude.{length, take as List·take, ◌⊎◌, true, ◌||◌, ◌≡◌, ◌≤◌, ◌<◌};
ghost use Rattle.job.specs.Calls.{checked, check_told};
ghost use Rattle.piece.specs.declared.Mode.TheVariants.{Straight};
ghost use Rattle.demands.specs.Promise.{outcome};
ghost use Rattle.fracture.specs.Told.{told};
ghost use Rattle.terminal.specs.Output.{Remembers};
ghost use Rattle.preparation.specs.Outlines.{Indexed, Admitted, said, is_refused, any_refused, Fronts};

use crate::lines::print_listed_outline;
use explanation::figures;
use figure::{MOST_CORNERS, MOST_RINGS};
use fracture::{Denial, Fractured, fracture};
use index::opening::open;
use index::picking::pick;
use job::read::{Job, header};
use job::unpack::{Unpacked, unpack};
use refusal::Fault;
use std::rt::Stderr;
use terminal::output::Output;

// What became of one outline or of several: the output after their lines, and whether one was refused.
#[derive(Clone, Copy)]
pub struct Ran {
    pub out: Output,
    pub refused: bool,
}

// The first n numbers of a list.
fn front(list: &[u16], n: usize) -> &[u16]
    requires { n ≤ length list.now }
    ensures { result.now ≡ List·take n list.now }
{
    &list[..n]
}

// What the job says before its outlines, or why it is refused and where, with an index beside it: the job is read once.
pub fn begin(job: &[u8], index: &mut [u16]) -> Result<Job, Fault>
    requires { 255 ≤ length index.old }
    ensures { (check_told result ≡ checked job.now) × Indexed result job.now index.new }
{
    let outlines = open(job, index)?;
    let said = header(job)?;
    Ok(Job {
        threshold: said.threshold,
        weight: said.weight,
        outlines,
    })
}

// Unpacks outline k of a job that was accepted to the front of two lists. Picking its bytes is not refused, nor, where both lists have
// room, is unpacking them.
fn unpack_outline(
    job: &[u8],
    index: &[u16],
    k: usize,
    header: Job,
    corners: &mut [u16],
    lengths: &mut [u16],
) -> Unpacked
    requires admitted { Admitted job.now index.now header }
    requires k_lt_outlines { k < header.outlines }
    requires in_bounds { (64 ≤ length corners.old) × (8 ≤ length lengths.old) }
    ensures { Fronts (said job.now k) result.corners result.rings corners.new lengths.new }
{
    let count = header.outlines as usize;
    let part = pick(job, index, count, k).unwrap();
    unpack(part, corners, lengths).unwrap()
}

// The fracture of outline k, as the job says it; a refusal is explained at once.
fn fracture_outline(
    err: Stderr,
    job: &[u8],
    index: &[u16],
    k: usize,
    header: Job,
    table: &mut [u32],
    list: &mut [u16],
) -> Result<Fractured, Denial>
    requires admitted { Admitted job.now index.now header }
    requires k_lt_outlines { k < header.outlines }
    ensures { told result table.new list.new ≡ outcome (record { mode = Straight; figure = said job.now k; threshold = header.threshold; weight = header.weight; table = table.old; list = list.old }) }
{
    let mut corners = [0u16; 2 * MOST_CORNERS];
    let mut lengths = [0u16; MOST_RINGS];
    let unpacked = unpack_outline(job, index, k, header, &mut corners, &mut lengths);
    let outline = front(&corners, 2 * (unpacked.corners as usize));
    let rings = front(&lengths, unpacked.rings as usize);
    let answer = fracture(outline, rings, header.threshold, header.weight, table, list);
    if let Err(denial) = answer {
        figures::explain(err, k, denial.why, outline, rings);
    }
    answer
}

// Outline k, fractured and printed.
fn run_outline(
    job: &[u8],
    index: &[u16],
    k: usize,
    header: Job,
    table: &mut [u32],
    list: &mut [u16],
    out: Output,
) -> Ran
    requires admitted { Admitted job.now index.now header }
    requires k_lt_outlines { k < header.outlines }
    requires in_bounds { (14400 ≤ length table.old) × (900 ≤ length list.old) }
    ensures refused_value { result.refused ≡ is_refused job.now k }
    ensures remembers { Remembers out result.out }
{
    let answer = fracture_outline(out.console.err, job, index, k, header, table, list);
    Ran {
        out: print_listed_outline(out, k, answer, list),
        refused: answer.is_err(),
    }
}

// Whether one or the other was refused. A call of its own: the proof of the loop takes its value by its promise.
fn either(one: bool, other: bool) -> bool
    ensures { result ≡ (one || other) }
{
    one || other
}

// Each outline in turn, until a write fails.
pub fn run_outlines(
    job: &[u8],
    index: &[u16],
    header: Job,
    table: &mut [u32],
    list: &mut [u16],
    out: Output,
) -> Ran
    requires admitted { Admitted job.now index.now header }
    requires in_bounds { (14400 ≤ length table.old) × (900 ≤ length list.old) }
    ensures fact { (result.out.failed ≡ true) ⊎ (result.refused ≡ any_refused job.now header.outlines) }
    ensures remembers { Remembers out result.out }
{
    let count = header.outlines;
    let mut next = out;
    let mut refused = false;
    for k in 0..count {
        let ran = run_outline(job, index, k as usize, header, table, list, next);
        next = ran.out;
        refused = either(refused, ran.refused);
        if next.failed {
            break;
        }
    }
    Ran { out: next, refused }
}
