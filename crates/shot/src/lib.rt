// The four numbers of a shot, and refusal 21 of a list of them. All else is definitions in specs/ and laws in proofs/.
#![tactic(auto)]

ghost use Rattle.std.specs.Prelude.{◌≡◌};
ghost use Rattle.shot.specs.Bad.{shot_of, empty, bad_shots};

// Whether a shot has no area: its high x or y is not above its low one.
fn empty(x_low: u16, y_low: u16, x_high: u16, y_high: u16) -> bool
    ensures { result ≡ empty (shot_of x_low y_low x_high y_high) }
{
    x_high <= x_low || y_high <= y_low
}

// 21: the length of the list is no multiple of four, or one of its shots is empty. By places and not by fours: no law says
// yet that the library's chunks are the list's shots.
pub fn bad_shots(list: &[u16]) -> bool
    ensures { result ≡ bad_shots list.now }
{
    if list.len() % 4 != 0 {
        return true;
    }
    for at in (0..list.len()).step_by(4) {
        if empty(list[at], list[at + 1], list[at + 2], list[at + 3]) {
            return true;
        }
    }
    false
}
