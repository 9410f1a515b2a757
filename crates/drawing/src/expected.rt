// What was expected in a bad line of a drawing.
use std::fmt;

//   Rule          the rule, before all else
//   Numbers       a rule of two numbers, 0 to 1,000
//   Once          no second rule
//   Figure        the word figure, before a ring or a corner
//   Ring          the word ring, before a corner
//   Corner        a corner of two numbers, 0 to 65,535
//   Alone         nothing behind the word figure or ring
//   Corners(n)    a ring of 4 to 32 corners, where this one has n
//   Rings         a figure of 1 to 8 rings and 32 corners in all
//   Figures       no figure more than 255
//   Bytes         a figure with which the job has no more than 4,096 bytes
//   Room          a job that the buffer has room for
//   Known         a rule, figure, ring or corner, and no other word
#[derive(Clone, Copy, PartialEq, Eq)]
pub enum Expected {
    Rule,
    Numbers,
    Once,
    Figure,
    Ring,
    Corner,
    Alone,
    Corners(u32),
    Rings,
    Figures,
    Bytes,
    Room,
    Known,
}

// The first bad line, numbered from 1, and what was expected there.
#[derive(Clone, Copy, PartialEq, Eq)]
pub struct BadLine {
    pub line: usize,
    pub expected: Expected,
}

impl Expected {
    // The same of a line.
    pub(crate) fn at(self, line: usize) -> BadLine {
        BadLine {
            line,
            expected: self,
        }
    }
}

// The words, without the line's end.
impl fmt::Display for Expected {
    fn fmt<W: fmt::Write>(&self, f: &mut fmt::Formatter<W>) -> fmt::Result {
        match *self {
            Expected::Rule => f.write_str("the rule comes first, as: rule 25 40"),
            Expected::Numbers => f.write_str("a rule is two numbers of 0 to 1000, as: rule 25 40"),
            Expected::Once => f.write_str("there is one rule, before all figures"),
            Expected::Figure => f.write_str(
                "a line with the word figure comes before the rings of a figure",
            ),
            Expected::Ring => f.write_str(
                "a line with the word ring comes before the corners of a ring",
            ),
            Expected::Corner => f.write_str("a corner is two numbers of 0 to 65535, as: 10 20"),
            Expected::Alone => f.write_str("the words figure and ring stand alone in their lines"),
            Expected::Corners(n) => write!(f, "a ring has 4 to 32 corners, and this one has {n}"),
            Expected::Rings => f.write_str("a figure has 1 to 8 rings, and 32 corners in all"),
            Expected::Figures => f.write_str("a job has at most 255 figures"),
            Expected::Bytes => f.write_str(
                "a job has at most 4096 bytes, and this figure does not fit them",
            ),
            Expected::Room => f.write_str("the job has more bytes than there is room for"),
            Expected::Known => f.write_str(
                "a line is a rule, the word figure, the word ring, or a corner",
            ),
        }
    }
}
