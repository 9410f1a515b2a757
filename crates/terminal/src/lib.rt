// What our programs share: standard input, output and error, the words that a program is started with, the files that these name, and how
// a program ends.
#![tactic(auto)]

pub mod arguments;
pub mod console;
pub mod errors;
pub mod given;
pub mod host;
pub mod input;
pub mod output;
mod reason;
pub mod status;
mod waiting;
