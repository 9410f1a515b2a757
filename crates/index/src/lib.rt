// An index beside a job: the offset of each outline, so that one is picked without the outlines before it being read. Opening a job,
// picking by its index, and writing the job and its index anew with an outline more or one less.
#![tactic(auto)]

pub mod changing;
mod noting;
pub mod opening;
pub mod picking;
