// Steps 7 and 8: the shots, and those that the edge ends up on.
use crate::page::{Page, show};
use crate::pieces::Charge;
use cutting::sides::Side;
use fracture::Fractured;
use std::fmt::Write;

// The four numbers of a shot, as the job program prints them.
pub fn print_shot(page: &mut Page, shot: &[u16]) {
    let mut before = "";
    for place in shot {
        show!(page, "{before}{place}");
        before = " ";
    }
}

// The shot of a number, counted from 1, of a list; nothing where there is none.
fn print_numbered(page: &mut Page, list: &[u16], number: usize) {
    let shot = number
        .checked_sub(1)
        .and_then(|before| list.chunks_exact(4).nth(before));
    if let Some(shot) = shot {
        print_shot(page, shot);
    }
}

// What so many shots with a sliver of this length cost by a weight.
fn price(of: Fractured, weight: u32) -> u64 {
    let sliver = u64::from(weight).saturating_mul(u64::from(of.sliver));
    sliver.saturating_add(1000 * u64::from(of.shots))
}

// The mistake that is shown where fewer shots would do, and would cost more.
fn print_fewest(page: &mut Page, done: Fractured, fewest: Fractured, charge: Charge) {
    let dear = price(fewest, charge.weight);
    if done.shots <= fewest.shots || dear <= u64::from(done.cost) {
        return;
    }
    show!(
        page,
        "   Mistake: fewest shots is best.\n   {} shots would do, with a sliver length of {}: 1000 x {} + {} x {} = {dear}, and not {}\n",
        fewest.shots,
        fewest.sliver,
        fewest.shots,
        charge.weight,
        fewest.sliver,
        done.cost
    );
}

// Step 7: the shots of figure k.
pub fn print_shots(
    page: &mut Page,
    list: &[u16],
    k: usize,
    done: Fractured,
    fewest: Fractured,
    charge: Charge,
) {
    show!(
        page,
        "\n7. The shots\n\n   outline {k} shots {} cost {} sliver {}\n",
        done.shots,
        done.cost,
        done.sliver
    );
    for (n, shot) in list.chunks_exact(4).enumerate() {
        show!(page, "   shot{:4}   ", n + 1);
        print_shot(page, shot);
        show!(page, "\n");
    }
    print_fewest(page, done, fewest, charge);
}

// The shot of a number and its side, where a run ends up.
fn print_landing(page: &mut Page, list: &[u16], shot: usize, side: Option<Side>) {
    let Some(side) = side else {
        show!(page, "no wall, so on no shot");
        return;
    };
    show!(page, "{side} side of shot {shot}, printed as ");
    print_numbered(page, list, shot);
}

// One run of the edge on a new line: from, to, the number of the shot and its side.
fn print_run(page: &mut Page, list: &[u16], run: &[usize]) {
    if let [from, to, shot, side] = run {
        show!(page, "\n   from{from:6} to{to:6}: ");
        print_landing(page, list, *shot, Side::numbered(*side));
    }
}

// Step 8: the runs of the edge, from its low end to its high end.
pub fn print_runs(page: &mut Page, list: &[u16], runs: &[usize]) {
    show!(page, "\n8. The edge and its shots\n");
    for run in runs.chunks_exact(4) {
        print_run(page, list, run);
    }
}
