//! The room that a nearly full journal keeps for the ends of its actions.

ghost use Rattle.std.specs.Prelude.{◌≡◌};
ghost use Rattle.lra_registry.specs.inner.Marks as spec;

use crate::journal::ServedJournal;
use lra_rotation::{Counts, Mark, is_near_limit, least_pause};
use std::sync::atomic::Ordering;

/// Returns the mark that is reached once silent members are called after that many milliseconds at least, if any.
fn mark_at(pause: u64) -> Option<Mark>
    ensures { result ≡ spec.mark_at pause }
{
    if pause == 0 {
        None
    } else if pause == u64::MAX {
        Some(Mark::Never)
    } else {
        Some(Mark::Seldom)
    }
}

/// Returns the mark that is reached once a journal is closed, if any, by whether it was closed, and whether its bytes
/// and its entries are near their limits.
fn closing_mark(was_closed: bool, by_bytes: bool, by_entries: bool) -> Option<Mark>
    ensures { result ≡ spec.closing_mark was_closed by_bytes by_entries }
{
    if by_bytes && !by_entries && !was_closed {
        Some(Mark::Bytes)
    } else {
        None
    }
}

impl<B: Drop> ServedJournal<B> {
    /// Sets the least back-off of the journal's silent members, by its entries and their limit. Returns the mark that a
    /// changed back-off has reached, if any.
    pub fn spare(&self, limit: &Counts) -> Option<Mark> {
        let pause = least_pause(self.count_entries(), limit.entries);
        if self.worker_slot.least_pause.swap(pause, Ordering::SeqCst) == pause {
            return None;
        }
        mark_at(pause)
    }

    /// Returns whether the journal's entries or bytes are near their limit.
    pub fn is_near_end(&self, limit: &Counts) -> bool {
        is_near_limit(self.count_entries(), limit.entries)
            || is_near_limit(self.bytes(), limit.bytes)
    }

    /// Closes the journal to new work. Returns the mark of bytes, if they alone are near their limit and the journal
    /// was open.
    pub fn close_to_new_work(&self, limit: &Counts) -> Option<Mark> {
        let was_reserved = self.is_reserved.swap(true, Ordering::SeqCst);
        closing_mark(
            was_reserved,
            is_near_limit(self.bytes(), limit.bytes),
            is_near_limit(self.count_entries(), limit.entries),
        )
    }

    /// Returns whether the journal is closed to new work.
    pub fn is_reserved(&self) -> bool {
        self.is_reserved.load(Ordering::SeqCst)
    }
}
