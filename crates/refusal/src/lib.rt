// The one table of refusal numbers: every call, the C interface and the programs take their number from here.
#![tactic(auto)]

ghost use Rattle.std.specs.Prelude.{◌≡◌};
ghost use Rattle.refusal.specs.Refusals.{refusal_no};

// Why the answer is no, in the order of the numbers, 1 to 23. A call that tells more than the reason (the shots that there are, the
// offset of a fault) tells it beside.
#[derive(Clone, Copy, PartialEq, Eq)]
pub enum Refusal {
    Rule,
    Length,
    Slanted,
    Unturned,
    Empty,
    Table,
    List,
    Ends,
    Padded,
    Range,
    Extra,
    Long,
    Missing,
    Room,
    Preset,
    Record,
    Unclosed,
    Extent,
    Largest,
    Full,
    Shots,
    Text,
    Edge,
}

// Why bytes are refused, and the offset of the byte at fault; 0 where none is.
#[derive(Clone, Copy, PartialEq, Eq)]
pub struct Fault {
    pub why: Refusal,
    pub at: usize,
}

impl Refusal {
    // Shown by the byte at a place.
    pub fn at(self, place: usize) -> Fault
        ensures { result ≡ record { why = self; at = place } }
    {
        Fault {
            why: self,
            at: place,
        }
    }
}

// No byte is at fault.
impl From<Refusal> for Fault {
    ghost from_gives = { λ why fault. fault ≡ record { why = why; at = 0 } };

    fn from(why: Refusal) -> Fault {
        Fault { why, at: 0 }
    }
}

// The number of a refusal, as docs/SCOPE.md has it.
impl From<Refusal> for u32 {
    ghost from_gives = { λ why n. n ≡ refusal_no why };

    fn from(why: Refusal) -> u32 {
        match why {
            Refusal::Rule => 1,
            Refusal::Length => 2,
            Refusal::Slanted => 3,
            Refusal::Unturned => 4,
            Refusal::Empty => 5,
            Refusal::Table => 6,
            Refusal::List => 7,
            Refusal::Ends => 8,
            Refusal::Padded => 9,
            Refusal::Range => 10,
            Refusal::Extra => 11,
            Refusal::Long => 12,
            Refusal::Missing => 13,
            Refusal::Room => 14,
            Refusal::Preset => 15,
            Refusal::Record => 16,
            Refusal::Unclosed => 17,
            Refusal::Extent => 18,
            Refusal::Largest => 19,
            Refusal::Full => 20,
            Refusal::Shots => 21,
            Refusal::Text => 22,
            Refusal::Edge => 23,
        }
    }
}
