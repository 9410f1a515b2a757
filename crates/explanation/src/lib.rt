// Why something was refused, in words: a line on standard error for each refusal, beside the numbers that go to standard output.
#![tactic(auto)]

pub mod figures;
pub mod jobs;
pub mod texts;
mod wanted;
