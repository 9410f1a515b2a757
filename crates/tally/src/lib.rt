// The sums of the strips of one width, side by side: inside cells and exposed sides, row by row.
#![tactic(auto)]

pub mod growing;
pub mod measuring;

// The sums of strips stand in four runs, one behind the other: inside cells, and exposed bottoms, tops and flanks. In each run the strip in
// lane a has its number of the row j at LANES * j + a.
pub const BOTTOMS: usize = 256;

pub const TOPS: usize = 512;

pub const FLANKS: usize = 768;

pub const SUMS: usize = 1024;

// The shares of cells stand in five runs: whether a cell is inside, and its exposed bottom, top, left and right side. In each run the cell
// (i, j) has its number at ROW * j + i, so that there are as many numbers as lanes from each cell of a row on.
pub const ROW: usize = 32;

pub const CELL_BOTTOMS: usize = 512;

pub const CELL_TOPS: usize = 1024;

pub const CELL_LEFTS: usize = 1536;

pub const CELL_RIGHTS: usize = 2048;

pub const SHARES: usize = 2560;
