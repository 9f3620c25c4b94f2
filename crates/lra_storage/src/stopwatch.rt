//! A stopwatch.

use std::rt::LibcRuntime;
use std::time::Instant;

/// Clock that reads the time and does nothing else: code that gets no runtime can have it.
#[derive(Clone, Copy)]
pub struct Stopwatch {
    rt: LibcRuntime,
}

/// Runtime that makes stopwatches.
pub trait Timed {
    /// Makes a stopwatch that reads the runtime's clock.
    fn stopwatch(&self) -> Stopwatch;
}

impl Timed for LibcRuntime {
    fn stopwatch(&self) -> Stopwatch {
        Stopwatch { rt: *self }
    }
}

impl Stopwatch {
    /// Returns the time, if the clock can be read.
    pub fn now(&self) -> Option<Instant> {
        Instant::now(&self.rt).ok()
    }
}
