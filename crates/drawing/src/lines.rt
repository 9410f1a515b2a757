// The lines of a drawing, and what each says.
ghost use Rattle.std.specs.Prelude.{length, ◌<◌, ◌≤◌};
ghost use Rattle.std.specs.Iterator.{at_most};

use crate::expected::{BadLine, Expected};
use job::MOST_OUTLINES;
use terminal::arguments::number_of;

// The greatest threshold, and the greatest weight (the rule's limits; a drawing knows no rules).
const MOST_OF_RULE: usize = 1000;

// A line of a text, with its number from 1.
#[derive(Clone, Copy)]
pub struct Line<'a> {
    pub number: usize,
    pub text: &'a [u8],
}

// The lines of a text that are left, and the number of the first of them.
#[derive(Clone, Copy)]
pub struct Lines<'a> {
    pub text: &'a [u8],
    pub number: usize,
}

// All lines of a text.
pub fn lines_of(text: &[u8]) -> Lines<'_> {
    Lines { text, number: 1 }
}

// How many bytes the first line has, with its line feed where it has one.
fn first_length(text: &[u8]) -> usize
    requires { 0 < length text.now }
    ensures some { 0 < result }
    ensures within { result ≤ length text.now }
{
    match text.iter().position(|byte| *byte == b'\n') {
        Some(feed) => feed + 1,
        None => text.len(),
    }
}

impl<'a> Iterator for Lines<'a> {
    type Item = Line<'a>;

    ghost remaining = { λ s. at_most (length s.text.now) };

    fn next(&mut self) -> Option<Line<'a>> {
        if self.text.is_empty() {
            return None;
        }
        let number = self.number;
        let (text, left) = self.text.split_at(first_length(self.text));
        self.text = left;
        self.number = number.saturating_add(1);
        Some(Line { number, text })
    }
}

// What a line says: a rule, that a figure or a ring begins, or a corner.
#[derive(Clone, Copy, PartialEq, Eq)]
pub enum Says {
    Rule(u32, u32),
    Figure,
    Ring,
    Corner(u16, u16),
}

// What stands in a line before its end and before a comment.
fn meant(line: &[u8]) -> &[u8] {
    let fed = line.strip_suffix(b"\n").unwrap_or(line);
    let ended = fed.strip_suffix(b"\r").unwrap_or(fed);
    match ended.iter().position(|byte| *byte == b'#') {
        Some(comment) => &ended[..comment],
        None => ended,
    }
}

// The number that a word says, if there is a word that says one.
fn number(word: Option<&[u8]>) -> Option<usize> {
    number_of(word?)
}

// A number of a rule.
fn part_of_rule(word: Option<&[u8]>) -> Option<u32> {
    let n = number(word)?;
    if MOST_OF_RULE < n {
        return None;
    }
    u32::try_from(n).ok()
}

// A coordinate.
fn place(word: Option<&[u8]>) -> Option<u16> {
    u16::try_from(number(word)?).ok()
}

// The rule that two words say, with none behind them.
fn rule_of(
    one: Option<&[u8]>,
    two: Option<&[u8]>,
    behind: Option<&[u8]>,
) -> Result<Says, Expected> {
    match (part_of_rule(one), part_of_rule(two), behind) {
        (Some(threshold), Some(weight), None) => Ok(Says::Rule(threshold, weight)),
        _ => Err(Expected::Numbers),
    }
}

// The corner that they say.
fn corner_of(
    one: Option<&[u8]>,
    two: Option<&[u8]>,
    behind: Option<&[u8]>,
) -> Result<Says, Expected> {
    match (place(one), place(two), behind) {
        (Some(x), Some(y), None) => Ok(Says::Corner(x, y)),
        _ => Err(Expected::Corner),
    }
}

// What a word says that has to stand alone.
fn alone(says: Says, behind: Option<&[u8]>) -> Result<Says, Expected> {
    match behind {
        None => Ok(says),
        Some(_) => Err(Expected::Alone),
    }
}

// What a line says: nothing where no word stands in it; else the first word decides, and what may stand behind it. Whatever does not begin
// with a letter is meant as a corner.
pub fn said(line: &[u8]) -> Result<Option<Says>, Expected> {
    let mut words = meant(line)
        .split(|byte| *byte == b' ' || *byte == b'\t')
        .filter(|word| !word.is_empty());
    let Some(first) = words.next() else {
        return Ok(None);
    };
    let second = words.next();
    let third = words.next();
    let says = match first {
        b"rule" => rule_of(second, third, words.next())?,
        b"figure" => alone(Says::Figure, second)?,
        b"ring" => alone(Says::Ring, second)?,
        _ if first[0].is_ascii_alphabetic() => {
            return Err(Expected::Known);
        }
        _ => corner_of(Some(first), second, third)?,
    };
    Ok(Some(says))
}

// How many of the lines begin a figure; a job has no more than 255, and no more are counted.
pub fn count_figures(lines: Lines<'_>) -> u32 {
    let begun = lines
        .filter(|line| said(line.text) == Ok(Some(Says::Figure)))
        .count();
    u32::try_from(begun).map_or(MOST_OUTLINES, |figures| figures.min(MOST_OUTLINES))
}

// The rule, which stands in the first line that says something, that line's number, and the lines behind it.
#[derive(Clone, Copy)]
pub struct Ruled<'a> {
    pub threshold: u32,
    pub weight: u32,
    pub line: usize,
    pub behind: Lines<'a>,
}

// The rule of a drawing; where no line says anything, it is missing one line past the last. No `for`, which would take the lines: those
// behind the rule are handed on.
pub fn rule_in(text: &[u8]) -> Result<Ruled<'_>, BadLine> {
    let mut lines = lines_of(text);
    while let Some(line) = lines.next() {
        match said(line.text) {
            Ok(None) => {}
            Ok(Some(Says::Rule(threshold, weight))) => {
                return Ok(Ruled {
                    threshold,
                    weight,
                    line: line.number,
                    behind: lines,
                });
            }
            Err(Expected::Numbers) => {
                return Err(Expected::Numbers.at(line.number));
            }
            _ => {
                return Err(Expected::Rule.at(line.number));
            }
        }
    }
    Err(Expected::Rule.at(lines.number))
}
