//! The system's clocks.

ghost use Rattle.std.specs.Prelude.{◌≡◌, ◌+◌, ◌-◌, ◌/◌, max, unwrap_or, Some, IfSome};
ghost use Rattle.std.specs.Duration.{as_nanos};
ghost use Rattle.std.specs.Time.{instant_nanos};

use crate::clock::Clock;
use std::time;
use std::time::{Duration, Instant, SystemTime, UNIX_EPOCH};

/// Returns the milliseconds since 1970, or nothing where the system's clock can't be read.
pub fn milliseconds<R: time::Clock>(rt: &R) -> Option<u64> {
    let since = SystemTime::now(rt).ok()?.duration_since(UNIX_EPOCH).ok()?;
    u64::try_from(since.as_millis()).ok()
}

/// Returns the moment that follows another: the one that was read, unless that is earlier.
fn later(last: u64, read: Option<u64>) -> u64
    ensures { result ≡ max last (unwrap_or read last) }
{
    match read {
        Some(moment) if last < moment => moment,
        _ => last,
    }
}

/// Moment, and what the steady clock returned at that moment.
#[derive(Clone, Copy)]
struct Anchor {
    moment: u64,
    told: Instant,
}

impl Anchor {
    /// Returns the moment at which the steady clock returns `now`.
    fn moment_at(&self, now: Instant) -> Option<u64>
        ensures { IfSome result (λ moment. moment ≡ self.now.moment + (instant_nanos now - instant_nanos self.now.told)
            / 1_000_000) }
    {
        let passed = now.saturating_duration_since(self.told);
        self.moment.checked_add(milliseconds_of(passed)?)
    }
}

/// Returns how many whole milliseconds some time has.
fn milliseconds_of(time: Duration) -> Option<u64>
    ensures { IfSome result (λ count. count ≡ as_nanos time / 1_000_000) }
{
    u64::try_from(time.as_millis()).ok()
}

/// System's clock, in milliseconds since 1970. It goes on by the system's steady clock from the moment that it was
/// given. Where the system's clock is ahead of that, it goes on from there. So it stands still only where neither can
/// be read. Where the system's clock was set back, or is behind the moment that was given, it goes on at the steady
/// clock's pace.
#[derive(Drop)]
pub struct SystemClock<'a, R> {
    rt: &'a R,
    last: u64,
    anchor: Option<Anchor>,
}

impl<'a, R: time::Clock> SystemClock<'a, R> {
    /// Makes a clock that goes on from a moment.
    pub fn new(rt: &'a R, moment: u64) -> SystemClock<'a, R>
        ensures { result.last ≡ moment }
    {
        let mut clock = SystemClock {
            rt,
            last: moment,
            anchor: None,
        };
        clock.set(moment);
        clock
    }

    /// Sets the moment that the clock goes on from.
    fn set(&mut self, moment: u64)
        ensures { self.new.last ≡ self.old.last }
    {
        self.anchor = match Instant::now(self.rt) {
            Ok(told) => Some(Anchor { moment, told }),
            Err(_) => None,
        };
    }

    /// Returns the moment by the steady clock.
    fn steady(&self) -> Option<u64> {
        let now = Instant::now(self.rt).ok()?;
        self.anchor?.moment_at(now)
    }
}

impl<R: time::Clock> Clock for SystemClock<'_, R> {
    ghost use Rattle.std.specs.Prelude.{◌≡◌, ◌≤◌};

    ghost tells = { λ before moment after. (before.last ≤ moment) × (after.last ≡ moment) };

    fn now(&mut self) -> u64 {
        let steady = later(self.last, self.steady());
        let moment = later(steady, milliseconds(self.rt));
        if steady < moment {
            self.set(moment);
        }
        self.last = moment;
        moment
    }
}
