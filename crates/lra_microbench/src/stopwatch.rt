//! A stopwatch that can't fail.

use std::num::nearest_u64_to_f64;
use std::time::{Clock, Instant};

/// Time since a beginning. It is infinite if the clock can't be read, so that a caller needn't handle an error.
#[derive(Clone, Copy)]
pub struct Stopwatch {
    start: Option<Instant>,
}

impl Stopwatch {
    pub fn start<R: Clock>(rt: &R) -> Stopwatch {
        Stopwatch {
            start: Instant::now(rt).ok(),
        }
    }

    /// Returns the seconds since the start.
    pub fn seconds<R: Clock>(self, rt: &R) -> f64 {
        let Some(start) = self.start else {
            return f64::INFINITY;
        };
        match start.elapsed(rt) {
            Ok(time) => time.as_secs_f64(),
            Err(_) => f64::INFINITY,
        }
    }
}

/// Returns the nanoseconds of each call.
pub fn nanoseconds_each(seconds: f64, calls: u64) -> f64 {
    seconds * 1e9 / nearest_u64_to_f64(calls)
}

/// Returns the number of calls a second.
pub fn a_second(seconds: f64, calls: u64) -> f64 {
    nearest_u64_to_f64(calls) / seconds
}
