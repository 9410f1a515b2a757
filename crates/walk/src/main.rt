// The newcomers' walk as the kit builds it: it gives no status back.
#![tactic(auto)]

fn main(rt: HostRuntime) {
    walking::pw_walk(&rt);
}
