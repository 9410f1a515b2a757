// The program for what people do with figures, as the kit builds it: it gives no status back.
#![tactic(auto)]

fn main(rt: HostRuntime) {
    subcommands::pw_pinarewhemi(&rt);
}
