//! Figures of a service that operators get beside its history.

use lra_audits::LONGEST;
use lra_commands::Limits;
use lra_core::Opening;
use lra_opening::is_new;
use lra_operators_server::{ProcessStatistics, Tallies};
use lra_overview::Facts;
use lra_storage::JournalFile;
use std::sync::Arc;

/// State of a journal when it was opened, and its limits.
#[derive(Clone, Copy)]
pub(crate) struct JournalAtStart {
    entries: u64,
    /// Flag, set if its first line is yet to be written.
    is_new: bool,
    limits: Limits,
}

/// Returns the state of an opened journal with these limits.
pub(crate) fn begun_from(opening: &Opening, limits: Limits) -> JournalAtStart {
    JournalAtStart {
        entries: opening.count_entries(),
        is_new: is_new(opening),
        limits,
    }
}

/// Tallies of a service, and the size of its journal.
#[derive(Drop)]
pub(crate) struct ServiceStatistics {
    pub(crate) file: Arc<JournalFile>,
    pub(crate) begun: JournalAtStart,
    pub(crate) tallies: Tallies,
}

/// State of a running service beside its journal.
#[derive(Clone, Copy)]
pub(crate) struct Now {
    pub(crate) moment: u64,
    pub(crate) began: u64,
    pub(crate) has_failed: bool,
    pub(crate) is_ending: bool,
    pub(crate) connections: u64,
    pub(crate) callbacks: u64,
}

impl ServiceStatistics {
    /// Returns the number of entries that the journal has.
    fn count(&self) -> u64 {
        let first = u64::from(self.begun.is_new);
        let lines = self.file.entries().saturating_sub(first);
        self.begun.entries.saturating_add(lines)
    }

    /// Returns all figures of the service.
    pub(crate) fn facts(&self, now: Now, process_statistics: ProcessStatistics) -> Facts {
        let limits = self.begun.limits;
        Facts {
            moment: now.moment,
            began: now.began,
            has_failed: now.has_failed,
            is_ending: now.is_ending,
            journals: 1,
            bytes: self.file.bytes(),
            most_bytes: LONGEST as u64,
            entries: self.count(),
            most_entries: limits.entries,
            most_actions: limits.actions,
            most_members: limits.members,
            connections: now.connections,
            callbacks: now.callbacks,
            virtual_bytes: process_statistics.virtual_bytes,
            resident_bytes: process_statistics.resident_bytes,
            processor_ticks: process_statistics.ticks,
            lags: false,
            sync_age: self.tallies.sync_age(),
            sync_limit: self.tallies.sync_limit(),
            lost_workers: self.tallies.lost_workers(),
            lost_callback_workers: self.tallies.lost_callback_workers(),
            standing: self.tallies.standing(),
        }
    }
}
