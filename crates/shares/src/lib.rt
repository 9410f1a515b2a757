// The shares of cells and the sums of strips once more (crate `tally`), in short numbers: 16 bits, as many again to a vector. Sides
// are measured only where the rule counts them, so that lengths which no shot pays for do not count against the room there is.
// No type parameter for both: in 32 bits a sum is exact and the caller shows that it fits, here it wraps in lanes that nobody reads, and counts
// only by the rule.
#![tactic(auto)]

pub mod growing;
pub mod measuring;
