// The strips of one width, side by side: their vertical cuts, and their way back into the table. What lanes
// and side stores are, the crate `table` says (`LANES`, `SIDE`).
#![tactic(auto)]

pub mod storing;
pub mod weighing;
