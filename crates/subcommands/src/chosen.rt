// One figure of a job: word 2 names the job or the drawing, word 3 the figure.
use crate::lines::figure_number;
use crate::sources::{figure_of, front, header_of, read_job};
use explanation::figures;
use job::{Header, MOST_BYTES};
use refusal::Refusal;
use std::rt::Stderr;
use terminal::host::Host;
use terminal::status::Status;
use walking::figures::Figure;

// The figure with its number, and what its job says before its outlines.
#[derive(Clone, Copy)]
pub struct Chosen {
    pub k: usize,
    pub header: Header,
    pub figure: Figure,
}

// The figure that words 2 and 3 name; or the status where there is none, which was told.
pub fn choose<H: Host>(host: &H) -> Result<Chosen, Status> {
    let mut buffer = [0u8; MOST_BYTES + 1];
    let n = read_job(host, 2, &mut buffer)?;
    let job = front(&buffer, n);
    let err = host.console().err;
    let header = header_of(err, job)?;
    let k = figure_number(host, 3, header.outlines)?;
    let figure = figure_of(err, job, k)?;
    Ok(Chosen { k, header, figure })
}

// A figure that is refused, told in words.
pub fn refuse_figure(err: Stderr, k: usize, figure: &Figure, why: Refusal) -> Status {
    figures::explain(err, k, why, figure.corners(), figure.lengths());
    Status::Refused
}
