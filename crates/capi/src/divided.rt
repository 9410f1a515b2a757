// The C interface of fractures with a largest side.
ghost use Rattle.std.specs.Prelude.{◌≡◌};
ghost use Rattle.piece.specs.declared.Mode.TheVariants.{Straight, Pinwheel};
ghost use Rattle.demands.specs.Promise.{asked};
ghost use Rattle.division.specs.Promise.{divided_outcome};
ghost use Rattle.capi.specs.Lent.{fracture_lent};

use super::lend;
use division::fracture_divided;
use piece::Mode;

// Shots, cost, sliver length and cuts weighed, with the shots divided by a largest side; or 1, 19, 2 to 7.
#[unsafe(no_mangle)]
pub extern "C" fn pw_fracture_divided(
    corners: &[u16],
    rings: &[u16],
    threshold: u32,
    weight: u32,
    largest: u32,
    table: &mut [u32],
    list: &mut [u16],
    shots: &mut u32,
    cost: &mut u32,
    sliver: &mut u32,
    cuts: &mut u32,
) -> u32
    ensures settled { fracture_lent result shots.new cost.new sliver.new cuts.new table.new list.new ≡ divided_outcome (asked Straight corners.now rings.now threshold weight table.old list.old) largest }
{
    let mode = Mode::Straight;
    let answer = fracture_divided(
        corners, rings, threshold, weight, mode, largest, table, list,
    );
    lend(answer, shots, cost, sliver, cuts)
}

// The same by pinwheels too.
#[unsafe(no_mangle)]
pub extern "C" fn pw_fracture_pinwheel_divided(
    corners: &[u16],
    rings: &[u16],
    threshold: u32,
    weight: u32,
    largest: u32,
    table: &mut [u32],
    list: &mut [u16],
    shots: &mut u32,
    cost: &mut u32,
    sliver: &mut u32,
    cuts: &mut u32,
) -> u32
    ensures settled { fracture_lent result shots.new cost.new sliver.new cuts.new table.new list.new ≡ divided_outcome (asked Pinwheel corners.now rings.now threshold weight table.old list.old) largest }
{
    let wheels = Mode::Pinwheel;
    let told = fracture_divided(
        corners, rings, threshold, weight, wheels, largest, table, list,
    );
    lend(told, shots, cost, sliver, cuts)
}
