//! Back-off of callbacks whose members were silent.

ghost use Rattle.std.specs.Prelude.{◌≡◌};
ghost use Rattle.lra_callbacks.specs.inner.SilentMembers as spec;

use crate::silences::SilentMembers;
use lra_core::Errand;
use lra_model::Outcome;
use std::alloc::Global;
use std::collections::BTreeSet;
use std::sync::atomic::{AtomicU64, Ordering};

/// Least number of milliseconds between two asks of a silent member once its office's clock has no more than that to go
/// until the greatest moment.
const LAST_PAUSE_MS: u64 = 10_000;

/// Returns whether an office's clock at a moment is so near the greatest one that pauses end there: asks would follow
/// each other at once.
fn is_near_end(moment: u64) -> bool
    ensures { result ≡ spec.is_near_end moment }
{
    u64::MAX - moment <= LAST_PAUSE_MS
}

/// Returns the least number of milliseconds between two asks of a silent member, by the pause that the journal's owner
/// set and the moment of the office's clock.
fn pause_at(told: u64, moment: u64) -> u64
    ensures { result ≡ spec.pause_at told moment }
{
    if is_near_end(moment) {
        told.max(LAST_PAUSE_MS)
    } else {
        told
    }
}

/// Returns the outcome that an outcome counts as at a moment of the office's clock.
fn heard_at(outcome: Outcome, moment: u64) -> Outcome
    ensures { result ≡ spec.heard_at outcome moment }
{
    match outcome {
        Outcome::Accepted if is_near_end(moment) => Outcome::Silent,
        _ => outcome,
    }
}

/// Back-off of a journal's callbacks: the members that were silent, and the callbacks that wait since their members
/// were. A journal that is nearly full, or near the end of its clock, asks silent members less often. All moments are
/// in milliseconds. All but the office's are by one steady clock.
#[derive(Drop)]
pub(crate) struct Sparing<'a> {
    /// Least number of milliseconds between two asks of a silent member. The owner of the journal may change it.
    least_pause: &'a AtomicU64,
    /// The moment of the office's clock that was read last.
    office: u64,
    silences: SilentMembers,
    /// Callbacks that wait, by the moment until which they wait and the slot of their errands.
    waiting: BTreeSet<(u64, usize)>,
}

impl<'a> Sparing<'a> {
    /// Makes a back-off in which no member was silent.
    pub(crate) fn new(alloc: Global, least_pause: &'a AtomicU64) -> Sparing<'a> {
        Sparing {
            least_pause,
            office: 0,
            silences: SilentMembers::new(alloc),
            waiting: BTreeSet::new(alloc),
        }
    }

    /// Returns the least number of milliseconds between two asks of a silent member.
    fn pause(&self) -> u64 {
        pause_at(self.least_pause.load(Ordering::SeqCst), self.office)
    }

    /// Notes the moment of the office's clock.
    pub(crate) fn tell_office(&mut self, moment: u64)
        ensures { self.new.office ≡ moment }
    {
        self.office = moment;
    }

    /// Returns whether there is any back-off.
    pub(crate) fn is_on(&self) -> bool {
        self.pause() > 0
    }

    /// Returns the number of callbacks that wait.
    pub(crate) fn count(&self) -> usize {
        self.waiting.len()
    }

    /// Defers a callback if its errand's member is in back-off at a moment. Returns whether it does: it doesn't if
    /// memory is refused.
    pub(crate) fn holds(&mut self, key: usize, errand: &Errand, now: u64) -> bool {
        match self.silences.until(errand, self.pause()) {
            Some(until) if now < until => self.waiting.insert((until, key)).is_ok(),
            _ => false,
        }
    }

    /// Defers a callback until a moment, of which the greatest never comes. Returns whether it does: it doesn't if
    /// memory is refused.
    pub(crate) fn holds_until(&mut self, key: usize, until: u64) -> bool {
        self.waiting.insert((until, key)).is_ok()
    }

    /// Returns the moment at which the first callback's wait ends.
    pub(crate) fn first(&self) -> Option<u64> {
        match self.waiting.first() {
            Some((until, _)) => Some(*until),
            None => None,
        }
    }

    /// Takes a callback whose wait has ended at a moment, if there is one.
    pub(crate) fn release(&mut self, now: u64) -> Option<usize> {
        if now < self.first()? {
            return None;
        }
        let (_, key) = self.waiting.pop_first()?;
        Some(key)
    }

    /// Notes the outcome of an errand at a moment. A member that is still at it is asked again like a silent one, so
    /// near the end of the office's clock it backs off like a silent one.
    pub(crate) fn note(&mut self, errand: &Errand, outcome: Outcome, now: u64) {
        self.silences
            .note(errand, heard_at(outcome, self.office), now);
    }
}
