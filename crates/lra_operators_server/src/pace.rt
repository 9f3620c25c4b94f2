//! The part of a processor's time that the operators' server may take.

ghost use Rattle.std.specs.Prelude.{◌≡◌, ◌+◌, ◌-◌, ◌*◌, ◌/◌, min};
ghost use Rattle.std.specs.Duration.{as_nanos, max_nanos};
ghost use Rattle.std.specs.Time.{instant_nanos};

use std::time::{Duration, Instant};

/// Divisor of the time that passes: a twentieth of it is forgiven.
const SHARE: u32 = 20;

/// Time that may be taken at once, in milliseconds, before the server slows down. So it answers the pages of one
/// operator without a rest.
const AT_ONCE: u64 = 200;

/// Longest rest, in milliseconds.
const LONGEST: u64 = 500;

/// Processor time that was taken and isn't forgiven yet. A twentieth of the time that passes is forgiven.
#[derive(Drop)]
pub(crate) struct Pace {
    taken: Duration,
    until: Instant,
}

impl Pace {
    /// Makes the state of a moment by which nothing was taken.
    pub(crate) fn new(now: Instant) -> Pace
        ensures none { as_nanos result.taken ≡ 0 }
        ensures until { result.until ≡ now }
    {
        Pace {
            taken: Duration::ZERO,
            until: now,
        }
    }

    /// Notes the time that was taken between two moments. Returns how long to rest until no more is left than may be
    /// taken at once, or half a second at most.
    pub(crate) fn rest(&mut self, begun: Instant, now: Instant) -> Duration
        ensures until { self.new.until ≡ now }
        ensures taken { as_nanos self.new.taken
            ≡ min (as_nanos self.old.taken - (instant_nanos now - instant_nanos self.old.until) / 20
            + (instant_nanos now - instant_nanos begun)) max_nanos }
        ensures rest { as_nanos result ≡ min (min ((as_nanos self.new.taken - 200_000_000) * 20) max_nanos)
            500_000_000 }
    {
        let forgiven = now.saturating_duration_since(self.until) / SHARE;
        let took = now.saturating_duration_since(begun);
        self.taken = self.taken.saturating_sub(forgiven).saturating_add(took);
        self.until = now;
        let beyond = self.taken.saturating_sub(Duration::from_millis(AT_ONCE));
        let rest = beyond.saturating_mul(SHARE);
        let longest = Duration::from_millis(LONGEST);
        if rest < longest { rest } else { longest }
    }
}
