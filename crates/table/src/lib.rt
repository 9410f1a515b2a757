// The cost table: the entry of each piece, and the steps that the fills of it share.
#![tactic(auto)]

pub mod numbering;
pub mod runs;
pub mod sides;
