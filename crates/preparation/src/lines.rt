// The lines that the job program prints (docs/SCOPE.md, docs/JOB.md), and its help.
ghost use Rattle.std.specs.Prelude.{length, ◌*◌, ◌≡◌, ◌≤◌};
ghost use Rattle.terminal.specs.Output.{Remembers};
ghost use Rattle.preparation.specs.Lines.{Listed};

use fracture::{Denial, Fractured};
use refusal::{Fault, Refusal};
use terminal::output::{Output, print, print_number};

// The scope's number of a refusal, to print.
fn number_of(why: Refusal) -> u64 {
    u64::from(u32::from(why))
}

// The line of a job that is sound: how many outlines it has.
pub fn print_job(out: Output, outlines: u32) -> Output
    ensures { Remembers out result }
{
    let counted = print_number(out, b"job ", u64::from(outlines));
    print(counted, b"\n")
}

// The one line of a refused job.
pub fn print_refused(out: Output, fault: Fault) -> Output
    ensures { Remembers out result }
{
    let refused = print_number(out, b"job refused ", number_of(fault.why));
    let placed = print_number(refused, b" at ", fault.at as u64);
    print(placed, b"\n")
}

// The line of a shot, by its four numbers.
fn print_shot(out: Output, shot: &[u16]) -> Output
    requires { length shot.now ≡ 4 }
    ensures { Remembers out result }
{
    let [x_low, y_low, x_high, y_high] = shot else {
        unreachable!();
    };
    let left = print_number(out, b"", u64::from(*x_low));
    let low = print_number(left, b" ", u64::from(*y_low));
    let right = print_number(low, b" ", u64::from(*x_high));
    let high = print_number(right, b" ", u64::from(*y_high));
    print(high, b"\n")
}

// The lines of so many shots of a list.
fn print_shots(out: Output, list: &[u16], shots: u32) -> Output
    requires { 4 * shots ≤ length list.now }
    ensures { Remembers out result }
{
    let listed = &list[..4 * (shots as usize)];
    let mut next = out;
    for shot in listed.chunks_exact(4) {
        next = print_shot(next, shot);
    }
    next
}

// The rest of the lines of an outline that was fractured, whose shots the list holds.
pub fn print_listed(out: Output, done: Fractured, list: &[u16]) -> Output
    requires { 4 * done.shots ≤ length list.now }
    ensures { Remembers out result }
{
    let counted = print_number(out, b" shots ", u64::from(done.shots));
    let priced = print_number(counted, b" cost ", u64::from(done.cost));
    let measured = print_number(priced, b" sliver ", u64::from(done.sliver));
    let ended = print(measured, b"\n");
    print_shots(ended, list, done.shots)
}

// The same beside any list: of a shorter one the shots that stand whole in it. It prints the numbers by itself: through a function of both
// the programs would copy the output once more for each outline.
pub fn print_done(out: Output, done: Fractured, list: &[u16]) -> Output
    ensures { Remembers out result }
{
    let shots = (done.shots as usize).min(list.len() / 4);
    let counted = print_number(out, b" shots ", u64::from(done.shots));
    let priced = print_number(counted, b" cost ", u64::from(done.cost));
    let measured = print_number(priced, b" sliver ", u64::from(done.sliver));
    let ended = print(measured, b"\n");
    print_shots(ended, list, shots as u32)
}

// The rest of the line of an outline that was refused.
fn print_reason(out: Output, why: Refusal) -> Output
    ensures { Remembers out result }
{
    let told = print_number(out, b" refused ", number_of(why));
    print(told, b"\n")
}

// The lines of outline k; where it was fractured, the list holds its shots.
pub fn print_listed_outline(
    out: Output,
    k: usize,
    answer: Result<Fractured, Denial>,
    list: &[u16],
) -> Output
    requires { Listed answer (length list.now) }
    ensures { Remembers out result }
{
    let named = print_number(out, b"outline ", k as u64);
    match answer {
        Ok(done) => print_listed(named, done, list),
        Err(denial) => print_reason(named, denial.why),
    }
}

// The same beside any list: of a shorter one the shots that stand whole in it.
pub fn print_outline(
    out: Output,
    k: usize,
    answer: Result<Fractured, Denial>,
    list: &[u16],
) -> Output
    ensures { Remembers out result }
{
    let named = print_number(out, b"outline ", k as u64);
    match answer {
        Ok(done) => print_done(named, done, list),
        Err(denial) => print_reason(named, denial.why),
    }
}

// The help: what the words mean, and the status.
pub fn print_help(out: Output) -> Output {
    let named = print(
        out,
        b"prep [FILE]: fractures the outlines of a job and prints their shots\n",
    );
    let given = print(named, b"FILE is the job; nothing or - is standard input\n");
    let ended = print(
        given,
        b"status 0: every outline was fractured; 1: the job or an outline was refused; 2: reading or writing failed\n",
    );
    print(
        ended,
        b"standard error says in words why something was refused\n",
    )
}
