// The three streams of a program. Each is a handle without bytes, which only `main`'s runtime or a start in C can give.
use std::rt::{HostRuntime, Stderr, Stdin, Stdout};

// The streams; and the system's clock, by which is waited where one of them is not ready. Where there is none, it is tried again at once.
#[derive(Clone, Copy)]
pub struct Console {
    pub input: Stdin,
    pub out: Stdout,
    pub err: Stderr,
    pub clock: Option<HostRuntime>,
}
