// The drawings of the scope's table and the worked figures with several rings, and what is said of each.
use super::second::{Answer, Asked};

// Rows 0 to 19 are the scope's; those from 20 on have rings, or ring lengths that are refused.
pub const WINDOWS: usize = 20;

// How many rows there are.
pub const COUNT: usize = 33;

// A row: outline and how many numbers it has; what is asked; what is to be answered, and the shot list; at last the ring lengths and how
// many there are. Outline, shots and ring lengths are numbers of lists.
#[derive(Clone, Copy)]
pub struct Row {
    pub outline: usize,
    pub numbers: usize,
    pub asked: Asked,
    pub answer: Answer,
    pub shots: usize,
    pub lengths: usize,
    pub rings: usize,
}

// The rows, a number in each column: outline, numbers; threshold, weight, entries and list lent; number, shots, cost and sliver length,
// shot list; ring lengths, rings.
const ROWS: [[u32; 13]; COUNT] = [
    [0, 12, 25, 40, 14400, 900, 0, 2, 5200, 80, 13, 44, 1],
    [0, 12, 20, 40, 14400, 900, 0, 2, 2000, 0, 13, 44, 1],
    [2, 16, 25, 40, 14400, 900, 0, 3, 3000, 0, 14, 45, 1],
    [2, 16, 25, 10, 14400, 900, 0, 2, 3000, 100, 16, 45, 1],
    [2, 16, 25, 9, 14400, 900, 0, 2, 2900, 100, 16, 45, 1],
    [2, 16, 25, 11, 14400, 900, 0, 3, 3000, 0, 14, 45, 1],
    [4, 8, 25, 40, 14400, 900, 0, 1, 9000, 200, 17, 46, 1],
    [4, 8, 24, 40, 14400, 900, 0, 1, 1000, 0, 17, 46, 1],
    [5, 8, 25, 40, 14400, 900, 0, 1, 1800, 20, 18, 46, 1],
    [6, 12, 0, 40, 14400, 900, 0, 2, 2000, 0, 19, 44, 1],
    [8, 16, 0, 0, 14400, 900, 5, 0, 0, 0, 13, 45, 1],
    [8, 16, 1000, 1000, 14400, 900, 5, 0, 0, 0, 13, 45, 1],
    [10, 8, 0, 0, 14400, 900, 3, 0, 0, 0, 13, 46, 1],
    [10, 8, 1000, 1000, 14400, 900, 3, 0, 0, 0, 13, 46, 1],
    [11, 10, 0, 0, 14400, 900, 4, 0, 0, 0, 13, 47, 1],
    [11, 10, 1000, 1000, 14400, 900, 4, 0, 0, 0, 13, 47, 1],
    [0, 12, 25, 40, 8, 900, 6, 0, 0, 0, 13, 44, 1],
    [0, 12, 25, 40, 9, 900, 0, 2, 5200, 80, 13, 44, 1],
    [0, 12, 25, 40, 14400, 7, 7, 2, 0, 0, 13, 44, 1],
    [0, 12, 25, 40, 14400, 8, 0, 2, 5200, 80, 13, 44, 1],
    // The frame, with thresholds 25 and 40; its window first; two squares and eight.
    [21, 16, 25, 40, 14400, 900, 0, 4, 4000, 0, 37, 46, 2],
    [21, 16, 40, 40, 14400, 900, 0, 4, 21600, 440, 37, 46, 2],
    [22, 16, 25, 40, 14400, 900, 0, 4, 4000, 0, 37, 46, 2],
    [24, 16, 25, 40, 14400, 900, 0, 1, 2600, 40, 39, 46, 2],
    [26, 64, 25, 40, 14400, 900, 0, 8, 11200, 80, 40, 46, 8],
    // Refused: a square twice, frame and window as one ring, no ring, lengths of 3, of 5, of 65535 and 5, a 4 before a 3, a 3 before
    // three corners.
    [20, 16, 25, 40, 14400, 900, 5, 0, 0, 0, 37, 46, 2],
    [21, 16, 25, 40, 14400, 900, 3, 0, 0, 0, 37, 45, 1],
    [20, 8, 25, 40, 14400, 900, 2, 0, 0, 0, 37, 46, 0],
    [20, 8, 25, 40, 14400, 900, 2, 0, 0, 0, 37, 48, 1],
    [20, 8, 25, 40, 14400, 900, 2, 0, 0, 0, 37, 47, 1],
    [20, 8, 25, 40, 14400, 900, 2, 0, 0, 0, 37, 49, 2],
    [34, 16, 25, 40, 14400, 900, 3, 0, 0, 0, 37, 46, 2],
    [35, 14, 25, 40, 14400, 900, 2, 0, 0, 0, 37, 50, 2],
];

// The lists, eight numbers to a line: a ring of four corners, or two shots. What is longer goes on in the next line, and ends where
// its numbers are counted out.
const LISTS: [[u16; 8]; 51] = [
    // Outlines: 0 L, 2 B, 4 the bar of 24, 5 the square of 10, 6 two squares at a corner, 8 the unit square twice over, 10 the
    // slanted one, 11 the one with a corner on a straight edge.
    [0, 0, 100, 0, 100, 20, 60, 20],
    [60, 80, 0, 80, 0, 0, 0, 0],
    [0, 0, 200, 0, 200, 50, 210, 50],
    [210, 150, 200, 150, 200, 200, 0, 200],
    [0, 0, 100, 0, 100, 24, 0, 24],
    [0, 0, 10, 0, 10, 10, 0, 10],
    [0, 0, 10, 0, 10, 20, 20, 20],
    [20, 10, 0, 10, 0, 0, 0, 0],
    [0, 0, 1, 0, 1, 1, 0, 1],
    [0, 0, 1, 0, 1, 1, 0, 1],
    [0, 0, 10, 0, 10, 10, 5, 5],
    [0, 0, 10, 0, 20, 0, 20, 10],
    [0, 10, 0, 0, 0, 0, 0, 0],
    // The shots that the scope gives: 13 L, 14 B in three, 16 B in two (from its cost and sliver length), 17 the bar, 18 the
    // square, 19 the two squares.
    [0, 0, 60, 80, 60, 0, 100, 20],
    [0, 0, 200, 50, 0, 50, 210, 150],
    [0, 150, 200, 200, 0, 0, 0, 0],
    [0, 0, 200, 200, 200, 50, 210, 150],
    [0, 0, 100, 24, 0, 0, 0, 0],
    [0, 0, 10, 10, 0, 0, 0, 0],
    [0, 0, 10, 10, 10, 10, 20, 20],
    // Figures of rings: 20 the square of 100 twice, 21 that square and a window, 22 the window first, 24 two squares that share a
    // side, 26 eight squares of 5, 34 a ring that goes back on itself and a slanted one, 35 the slanted one and three corners.
    [0, 0, 100, 0, 100, 100, 0, 100],
    [0, 0, 100, 0, 100, 100, 0, 100],
    [30, 30, 70, 30, 70, 70, 30, 70],
    [0, 0, 100, 0, 100, 100, 0, 100],
    [0, 0, 10, 0, 10, 10, 0, 10],
    [10, 0, 20, 0, 20, 10, 10, 10],
    [0, 0, 5, 0, 5, 5, 0, 5],
    [10, 0, 15, 0, 15, 5, 10, 5],
    [20, 0, 25, 0, 25, 5, 20, 5],
    [30, 0, 35, 0, 35, 5, 30, 5],
    [40, 0, 45, 0, 45, 5, 40, 5],
    [50, 0, 55, 0, 55, 5, 50, 5],
    [60, 0, 65, 0, 65, 5, 60, 5],
    [70, 0, 75, 0, 75, 5, 70, 5],
    [0, 0, 10, 0, 20, 0, 10, 0],
    [0, 0, 10, 0, 10, 10, 5, 5],
    [20, 0, 30, 0, 30, 10, 0, 0],
    // Their shots: 37 the frame, 39 the two squares, 40 the eight squares.
    [0, 0, 30, 100, 30, 0, 70, 30],
    [30, 70, 70, 100, 70, 0, 100, 100],
    [0, 0, 20, 10, 0, 0, 0, 0],
    [0, 0, 5, 5, 10, 0, 15, 5],
    [20, 0, 25, 5, 30, 0, 35, 5],
    [40, 0, 45, 5, 50, 0, 55, 5],
    [60, 0, 65, 5, 70, 0, 75, 5],
    // Ring lengths: 44 six corners, 45 eight, 46 rings of four, 47 five, 48 three, 49 what in 16 bits adds up to four, 50 four and
    // three.
    [6, 0, 0, 0, 0, 0, 0, 0],
    [8, 0, 0, 0, 0, 0, 0, 0],
    [4, 4, 4, 4, 4, 4, 4, 4],
    [5, 0, 0, 0, 0, 0, 0, 0],
    [3, 0, 0, 0, 0, 0, 0, 0],
    [65535, 5, 0, 0, 0, 0, 0, 0],
    [4, 3, 0, 0, 0, 0, 0, 0],
];

// A row by its number.
pub fn row_of(k: usize) -> Row {
    let [
        outline,
        numbers,
        threshold,
        weight,
        entries,
        room,
        number,
        shots,
        cost,
        sliver,
        listed,
        lengths,
        rings,
    ] = ROWS[k % COUNT];
    Row {
        outline: outline as usize,
        numbers: numbers as usize,
        asked: Asked {
            threshold,
            weight,
            entries: entries as usize,
            room: room as usize,
        },
        answer: Answer {
            number,
            shots,
            cost,
            sliver,
        },
        shots: listed as usize,
        lengths: lengths as usize,
        rings: rings as usize,
    }
}

// A number of a list.
pub fn list(n: usize, i: usize) -> u16 {
    LISTS[n.wrapping_add(i / 8) % 51][i % 8]
}
