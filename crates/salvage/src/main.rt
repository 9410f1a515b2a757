// What is left of a job, as the kit builds it: it gives no status back, and ends with 0 whatever was refused, lost or failed.
#![tactic(auto)]

fn main(rt: HostRuntime) {
    rescue::pw_salvage_run(&rt);
}
