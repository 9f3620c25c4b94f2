//! A set of journals that threads note and forget.

use lra_ids::Instance;
use lra_model::Memory;
use std::alloc::Global;
use std::sync::atomic::{AtomicU64, Ordering};

/// Number of journals that a set has room for.
const ROOM: usize = 64;

/// Journals that threads noted and didn't forget since, by the numbers of their instances.
#[derive(Drop)]
pub(crate) struct NotedJournals {
    /// Number plus 1 of a journal, or 0, at each place.
    places: Vec<AtomicU64>,
}

/// Returns what stands at a journal's place.
fn mark_of(journal: Instance) -> u64 {
    journal.number().saturating_add(1)
}

impl NotedJournals {
    /// Makes an empty set.
    pub(crate) fn new(alloc: Global) -> Result<NotedJournals, Memory> {
        let mut places = Vec::new(alloc);
        for _ in 0..ROOM {
            places.push(AtomicU64::new(0))?;
        }
        Ok(NotedJournals { places })
    }

    /// Notes a journal. Where 64 others are noted, it takes the last one's place.
    pub(crate) fn note(&self, journal: Instance) {
        if self.has(journal) {
            return;
        }
        let mark = mark_of(journal);
        for place in self.places.as_slice() {
            if place
                .compare_exchange(0, mark, Ordering::SeqCst, Ordering::SeqCst)
                .is_ok()
            {
                return;
            }
        }
        if let Some(last) = self.places.as_slice().last() {
            last.store(mark, Ordering::SeqCst);
        }
    }

    /// Forgets a journal.
    pub(crate) fn forget(&self, journal: Instance) {
        let mark = mark_of(journal);
        for place in self.places.as_slice() {
            // Another journal's place stays as it is.
            let _ = place.compare_exchange(mark, 0, Ordering::SeqCst, Ordering::SeqCst);
        }
    }

    /// Returns whether a journal is noted.
    pub(crate) fn has(&self, journal: Instance) -> bool {
        let mark = mark_of(journal);
        self.places
            .as_slice()
            .iter()
            .any(|place| place.load(Ordering::SeqCst) == mark)
    }

    /// Returns one of the journals that are noted.
    pub(crate) fn any(&self) -> Option<Instance> {
        for place in self.places.as_slice() {
            if let Some(number) = place.load(Ordering::SeqCst).checked_sub(1) {
                return Instance::new(number);
            }
        }
        None
    }
}
