//! The clock of a thread.

use std::time::{Clock, Instant};

/// Monotonic clock, in milliseconds since a thread began. While it can't be read, it stands still.
#[derive(Drop)]
pub(crate) struct SteadyClock<'a, R> {
    rt: &'a R,
    start: Option<Instant>,
    last: u64,
}

impl<'a, R: Clock> SteadyClock<'a, R> {
    pub(crate) fn new(rt: &'a R) -> SteadyClock<'a, R> {
        SteadyClock {
            rt,
            start: Instant::now(rt).ok(),
            last: 0,
        }
    }

    pub(crate) fn now(&mut self) -> u64 {
        if let (Some(start), Ok(now)) = (self.start, Instant::now(self.rt)) {
            let since = now.saturating_duration_since(start).as_millis();
            self.last = u64::try_from(since).unwrap_or(self.last);
        }
        self.last
    }
}
