// What the walk prints: each word is written at once, so that it stands before what is told on standard error.
use std::fmt;
use std::fmt::Write;
use terminal::console::Console;
use terminal::errors::complain;
use terminal::output::{Output, close, nothing_yet, write_now};
use terminal::status::Status;

// Standard output. A write that fails is not told where it fails, but at the end.
#[derive(Drop)]
pub struct Page {
    out: Output,
}

impl Page {
    // Nothing printed yet.
    pub fn new(console: Console) -> Page {
        Page {
            out: nothing_yet(console),
        }
    }

    // The streams.
    pub fn console(&self) -> Console {
        self.out.console
    }

    // The end of the walk: where writing some of it failed, that is told.
    pub fn ended(&self) -> Status {
        if close(self.out) {
            return Status::Done;
        }
        complain(self.out.console.err, b"walk: writing failed\n")
    }
}

impl Write for Page {
    fn write_str(&mut self, text: &str) -> fmt::Result {
        write_now(&mut self.out, text.as_bytes());
        Ok(())
    }
}

// Prints text with values in it.
macro_rules! show {
    ($page:expr, $($what:tt)*) => {
        let _shown = write!($page, $($what)*);
    };
}

pub(crate) use show;
