// Eight strips at a time, in short numbers: the cuts of their pieces weighed, and each piece settled. The store has the costs of the
// strips of all widths side by side, in units of the weight: LANES numbers for each width and pair of y lines.
#![tactic(auto)]

mod cuts;
mod judging;
pub mod settling;
pub mod storing;
