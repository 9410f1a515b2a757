// Settling the strips of one width, side by side: the last step of the fill by widths, in either mode (crate `wheels` has the loop).
#![tactic(auto)]

mod lanes;
pub mod settling;
