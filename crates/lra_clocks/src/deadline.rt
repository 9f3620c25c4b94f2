//! Deadlines: moments until which something may take.

ghost use Rattle.std.specs.Prelude.{◌≤◌, ◌<◌, ◌*◌, IfOk};
ghost use Rattle.std.specs.Duration.{as_nanos};
ghost use Rattle.std.specs.Time.{instant_nanos};

use std::io;
use std::io::ErrorKind;
use std::time::{Clock, Duration, Instant};

/// Returns the moment that is so many seconds from now. The contract says only how early it can be, since nothing is
/// known of the moment that a clock returns as now.
pub fn seconds_on<R: Clock>(clock: &R, secs: u64) -> io::Result<Instant>
    ensures { IfOk result (λ end. secs * 1_000_000_000 ≤ instant_nanos end) }
{
    let now = Instant::now(clock)?;
    match now.checked_add(Duration::from_secs(secs)) {
        Some(end) => Ok(end),
        None => Err(io::Error::from(ErrorKind::TimedOut)),
    }
}

/// Returns the time until a moment, or `TimedOut` once none is left: a socket accepts no time-out of zero.
pub fn time_until<R: Clock>(clock: &R, end: Instant) -> io::Result<Duration>
    ensures some { IfOk result (λ left. 0 < as_nanos left) }
    ensures most { IfOk result (λ left. as_nanos left ≤ instant_nanos end) }
{
    let left = end.saturating_duration_since(Instant::now(clock)?);
    if left.is_zero() {
        return Err(io::Error::from(ErrorKind::TimedOut));
    }
    Ok(left)
}
