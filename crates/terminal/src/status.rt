// How a program ends.
ghost use Rattle.std.specs.Prelude.{◌≡◌};
ghost use Rattle.terminal.specs.Status.{status_no};

// All was done; the job, or something of it, was refused; reading or writing failed, or the words ask for nothing that there is.
#[derive(Clone, Copy, PartialEq, Eq)]
pub enum Status {
    Done,
    Refused,
    Failed,
}

// The number that the system is told.
impl From<Status> for u32 {
    ghost from_gives = { λ status n. n ≡ status_no status };

    fn from(status: Status) -> u32 {
        match status {
            Status::Done => 0,
            Status::Refused => 1,
            Status::Failed => 2,
        }
    }
}
