// Waiting for a stream that is not ready.
use std::io::{Error, ErrorKind};
use std::rt::HostRuntime;
use std::thread::sleep;
use std::time::Duration;

// How often one read or write is tried. Each try waits a millisecond where nothing is ready, so that a stream which stays so for
// ten minutes counts as one that failed.
pub const PATIENCE: u32 = 600000;

// Waits a millisecond, where there is a clock.
fn nap(clock: Option<HostRuntime>) {
    if let Some(rt) = clock {
        sleep(&rt, Duration::from_millis(1));
    }
}

// Whether the read or write that has just failed is worth another try: at once where a signal interrupted it; a little later where the
// stream does not block and is not ready.
pub fn worth_another(why: Error, clock: Option<HostRuntime>) -> bool {
    match why.kind() {
        ErrorKind::Interrupted => true,
        ErrorKind::WouldBlock => {
            nap(clock);
            true
        }
        _ => false,
    }
}
