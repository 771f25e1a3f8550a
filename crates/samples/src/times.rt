//! How long each of several runs takes, as lines of text. It is a report of the clock: nothing else depends on it.

use std::alloc::{AllocError, Global};
use std::rt::Clock;
use std::time::Duration;

/// The times of runs, one after the other.
#[derive(Drop)]
pub(crate) struct Times {
    alloc: Global,
    start: Duration,
    lines: Vec<u8>,
}

impl Times {
    pub(crate) fn new(alloc: Global) -> Times {
        Times {
            alloc,
            start: Duration::ZERO,
            lines: Vec::new(alloc),
        }
    }

    /// Starts the time of a run.
    pub(crate) fn begin<C: Clock>(&mut self, clock: &C) {
        self.start = clock.monotonic().unwrap_or(Duration::ZERO);
    }

    /// Ends the time of a run: its nanoseconds become a line. They are 0 if the clock cannot be read.
    pub(crate) fn end<C: Clock>(&mut self, clock: &C) -> Result<(), AllocError> {
        let end = clock.monotonic().unwrap_or(self.start);
        let time = nanoseconds(end.saturating_sub(self.start));
        let line = format!(in self.alloc; "nanoseconds {time}\n")?;
        self.lines.extend_from_slice(line.as_bytes())
    }

    /// Returns a line for each run.
    pub(crate) fn lines(&self) -> &[u8] {
        self.lines.as_slice()
    }
}

fn nanoseconds(time: Duration) -> u64 {
    let whole = time.as_secs().saturating_mul(1_000_000_000);
    whole.saturating_add(u64::from(time.subsec_nanos()))
}
