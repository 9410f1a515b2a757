// The job program as the kit builds it: it gives no status back, and ends with 0 whatever was refused or failed.
#![tactic(auto)]

fn main(rt: HostRuntime) {
    preparation::pw_prep(&rt);
}
