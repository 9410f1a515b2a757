// The rings of a figure, and refusals 2, 3 and 4 over all of them.
ghost use Rattle.std.specs.Prelude.{◌≡◌, false, ◌<◌, ◌/◌, List, Bool, length};
ghost use Rattle.figure.specs.Corners.{any, corners, slanted};
ghost use Rattle.figure.specs.Figure.{figure, rings, bad_figure};
ghost use Rattle.figure.specs.Steps.{crooked};

use crate::{LEAST_CORNERS, MOST_CORNERS, MOST_RINGS, edges};

// 2: a bad ring count, ring length or total.
pub fn bad_figure(corners: &[u16], lengths: &[u16]) -> bool
    ensures { result ≡ bad_figure (figure corners.now lengths.now) }
{
    let count = lengths.len();
    if count == 0 {
        return true;
    }
    if MOST_RINGS < count {
        return true;
    }
    let mut total: usize = 0;
    for &length in lengths {
        let n = usize::from(length);
        if n < LEAST_CORNERS {
            return true;
        }
        if MOST_CORNERS < n {
            return true;
        }
        total += n;
    }
    MOST_CORNERS < total || corners.len() != 2 * total
}

// A test of one ring.
trait RingTest {
    ghost use Rattle.figure.specs.Corners.{Corner};

    ghost test: { List Corner → Bool };

    fn holds(ring: &[u16]) -> bool
        requires { 0 < length ring.now / 2 }
        ensures { result ≡ test (corners ring.now) };
}

// The test of refusal 3: an edge changes both coordinates.
struct Slant;

impl RingTest for Slant {
    ghost test = { slanted };

    fn holds(ring: &[u16]) -> bool {
        edges::slanted(ring)
    }
}

// The test of 3 and 4 together: a ring is not right_angled.
struct Crook;

impl RingTest for Crook {
    ghost test = { crooked };

    fn holds(ring: &[u16]) -> bool {
        edges::crooked(ring)
    }
}

// Whether a test holds of some ring: ring after ring.
fn any<T: RingTest>(corners: &[u16], lengths: &[u16]) -> bool
    requires { bad_figure (figure corners.now lengths.now) ≡ false }
    ensures { result ≡ any T.test (rings (figure corners.now lengths.now)) }
{
    let mut from: usize = 0;
    for &length in lengths {
        let to = from + 2 * usize::from(length);
        if T::holds(&corners[from..to]) {
            return true;
        }
        from = to;
    }
    false
}

// 3: an edge of a ring changes both coordinates.
pub fn slanted(corners: &[u16], lengths: &[u16]) -> bool
    requires { bad_figure (figure corners.now lengths.now) ≡ false }
    ensures { result ≡ any slanted (rings (figure corners.now lengths.now)) }
{
    any::<Slant>(corners, lengths)
}

// 3 or 4: a ring is not right_angled.
pub fn crooked(corners: &[u16], lengths: &[u16]) -> bool
    requires { bad_figure (figure corners.now lengths.now) ≡ false }
    ensures { result ≡ any crooked (rings (figure corners.now lengths.now)) }
{
    any::<Crook>(corners, lengths)
}
