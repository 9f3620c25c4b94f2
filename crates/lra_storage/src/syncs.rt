//! Syncs of journals: the time that each takes, and the writes that it makes durable.

ghost use Rattle.std.specs.Prelude.{◌≡◌, ◌+◌, ◌-◌, ◌^◌, min, cond, nat_eq};

use crate::histogram::Histogram;
use crate::stopwatch::Stopwatch;
use std::alloc::{AllocError, Global};
use std::sync::Arc;
use std::sync::atomic::{AtomicU64, Ordering};
use std::time::Instant;

/// Ends of the classes of how long a sync takes, in microseconds.
pub const TIMES: [u64; 12] = [
    100, 500, 1_000, 5_000, 10_000, 50_000, 100_000, 500_000, 1_000_000, 5_000_000, 10_000_000,
    30_000_000,
];

/// Ends of the classes of how many writes a sync makes durable.
pub const WRITES: [u64; 10] = [1, 2, 5, 10, 20, 50, 100, 200, 500, 1_000];

/// Largest number of syncs under way that are told apart. A service has fewer threads.
const MOST_UNDER_WAY: usize = 64;

/// Figures of the syncs of a service's journals. Each journal has at most one sync under way.
#[derive(Drop)]
pub struct Syncs {
    stopwatch: Stopwatch,
    /// Microseconds of each sync that made a write durable.
    times: Histogram,
    /// Number of writes that each of these syncs made durable.
    writes: Histogram,
    /// Moment from which `under_way` counts.
    opened: Option<Instant>,
    /// Marks of the syncs under way: when each began, in milliseconds since `opened` and one more, or 0 for a free
    /// place.
    under_way: Vec<AtomicU64>,
}

/// Sync that is under way: the moment at which it began, and its place, if it has one.
#[derive(Clone, Copy)]
pub struct Begun {
    moment: Option<Instant>,
    place: Option<usize>,
}

/// Returns how many milliseconds lie between two moments.
fn millis_between(from: Instant, to: Instant) -> u64 {
    u64::try_from(to.saturating_duration_since(from).as_millis()).unwrap_or(u64::MAX)
}

/// Returns the mark of a sync that began so many milliseconds after the first moment: 0 is the mark of none.
fn mark_of(began: u64) -> u64
    ensures { result ≡ min (2 ^ 64 - 1) (began + 1) }
{
    began.saturating_add(1)
}

/// Returns how long a sync of that mark has been under way, at so many milliseconds after the first moment.
fn age_at(mark: u64, now: u64) -> u64
    ensures { result ≡ cond (nat_eq mark 0) 0 (now - (mark - 1)) }
{
    if mark == 0 {
        0
    } else {
        now.saturating_sub(mark - 1)
    }
}

impl Syncs {
    /// Makes the figures of journals of which none was synced.
    pub fn new(alloc: Global, stopwatch: Stopwatch) -> Result<Syncs, AllocError> {
        let mut under_way = Vec::new(alloc);
        for _place in 0..MOST_UNDER_WAY {
            under_way.push(AtomicU64::new(0))?;
        }
        Ok(Syncs {
            stopwatch,
            times: Histogram::new(alloc, &TIMES)?,
            writes: Histogram::new(alloc, &WRITES)?,
            opened: stopwatch.now(),
            under_way,
        })
    }

    /// Returns the microseconds that each sync took which made a write durable.
    pub fn times(&self) -> &Histogram {
        &self.times
    }

    /// Returns the number of writes that each of these syncs made durable.
    pub fn writes(&self) -> &Histogram {
        &self.writes
    }

    /// Records how long it is since a moment, if the clock can be read.
    fn add_time(&self, began: Option<Instant>) {
        let (Some(began), Some(now)) = (began, self.stopwatch.now()) else {
            return;
        };
        let passed = now.saturating_duration_since(began).as_micros();
        if let Ok(micros) = u64::try_from(passed) {
            self.times.add(&TIMES, micros);
        }
    }

    /// Returns how many milliseconds have passed since the first moment, if the clock can be read.
    fn passed(&self) -> Option<u64> {
        Some(millis_between(self.opened?, self.stopwatch.now()?))
    }

    /// Returns how many milliseconds the oldest sync that is under way has taken, or 0 if none is.
    pub fn age(&self) -> u64 {
        let Some(now) = self.passed() else {
            return 0;
        };
        let mut oldest = 0;
        for mark in &self.under_way {
            oldest = age_at(mark.load(Ordering::SeqCst), now).max(oldest);
        }
        oldest
    }

    /// Records that a sync begins, and returns its place, if the clock can be read and a place is free.
    fn note_begin(&self) -> Option<usize> {
        let mark = mark_of(self.passed()?);
        for (place, free) in self.under_way.iter().enumerate() {
            if free
                .compare_exchange(0, mark, Ordering::SeqCst, Ordering::SeqCst)
                .is_ok()
            {
                return Some(place);
            }
        }
        None
    }

    /// Records that the sync of a place isn't under way any more.
    fn note_end(&self, place: usize) {
        if let Some(mark) = self.under_way.get(place) {
            mark.store(0, Ordering::SeqCst);
        }
    }

    /// Records a sync that began then, has succeeded, and made so many writes durable, if it made any.
    fn add(&self, began: Option<Instant>, writes: u64) {
        if writes > 0 {
            self.writes.add(&WRITES, writes);
            self.add_time(began);
        }
    }
}

/// Records that a sync begins, if figures are kept.
pub fn begin(syncs: &Option<Arc<Syncs>>) -> Begun {
    match syncs {
        Some(syncs) => Begun {
            place: syncs.note_begin(),
            moment: syncs.stopwatch.now(),
        },
        None => Begun {
            place: None,
            moment: None,
        },
    }
}

/// Records that a sync has ended. If it succeeded, `kept` is the number of writes that it made durable.
pub fn end(syncs: &Option<Arc<Syncs>>, begun: Begun, kept: Option<u64>) {
    let Some(syncs) = syncs else {
        return;
    };
    if let Some(place) = begun.place {
        syncs.note_end(place);
    }
    if let Some(writes) = kept {
        syncs.add(begun.moment, writes);
    }
}
