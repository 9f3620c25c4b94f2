//! The counts of a simulation.

use anyhow::Result;
use lra_model::ActionStatus;
use std::io::Print;

/// Number of actions that ended in each way.
#[derive(Clone, Copy, Default)]
pub struct Ends {
    pub closed: u64,
    pub cancelled: u64,
    pub failed_to_close: u64,
    pub failed_to_cancel: u64,
    pub unended: u64,
}

impl Ends {
    /// Counts an action of this status.
    pub fn count(&mut self, status: ActionStatus) {
        let count = match status {
            ActionStatus::Closed => &mut self.closed,
            ActionStatus::Cancelled => &mut self.cancelled,
            ActionStatus::FailedToClose => &mut self.failed_to_close,
            ActionStatus::FailedToCancel => &mut self.failed_to_cancel,
            _ => &mut self.unended,
        };
        *count = count.saturating_add(1);
    }

    fn print<R: Print>(&self, rt: &R) -> Result<()> {
        let Ends {
            closed,
            cancelled,
            failed_to_close,
            failed_to_cancel,
            unended,
        } = *self;
        println!(rt;
            "ends      closed {closed}, cancelled {cancelled}, failed to close {failed_to_close}, \
             failed to cancel {failed_to_cancel}, unended {unended}"
        )?;
        Ok(())
    }
}

/// Counts of what happened in the world, and of what the journals contain at the end.
#[derive(Clone, Copy, Default)]
pub struct Counts {
    pub events: u64,
    /// Requests, replies, asks and reports that were sent, and those of them that were lost.
    pub messages: u64,
    pub lost: u64,
    pub refused: u64,
    pub asks: u64,
    pub silences: u64,
    pub reports: u64,
    pub crashes: u64,
    /// Bytes lost in crashes because they weren't synced, and bytes of torn lines that openings cut.
    pub unsynced: u64,
    pub torn: u64,
    pub entries: u64,
    pub bytes: u64,
    pub actions: u64,
    pub members: u64,
    pub ends: Ends,
    /// Answered starts, joins and ends that were found in the journals.
    pub starts: u64,
    pub joins: u64,
    pub ended: u64,
}

/// Adds one to a count.
pub fn add_one(count: &mut u64) {
    *count = count.saturating_add(1);
}

/// Adds to a count.
pub fn add(count: &mut u64, more: usize) {
    *count = count.saturating_add(more as u64);
}

impl Counts {
    /// Prints the counts of what happened.
    pub fn print_events<R: Print>(&self, rt: &R) -> Result<()> {
        let Counts {
            events,
            messages,
            lost,
            refused,
            ..
        } = *self;
        println!(rt; "events    {events}, messages {messages}, lost {lost}, refusals {refused}")?;
        let Counts {
            asks,
            silences,
            reports,
            ..
        } = *self;
        println!(rt; "asks      {asks}, silences {silences}, reports {reports}")?;
        let Counts {
            crashes,
            unsynced,
            torn,
            ..
        } = *self;
        println!(rt;
            "crashes   {crashes}, bytes lost that weren't synced {unsynced}, bytes cut of torn lines {torn}"
        )?;
        Ok(())
    }

    /// Prints the counts of what the journals contain.
    pub fn print_journals<R: Print>(&self, rt: &R) -> Result<()> {
        let Counts {
            actions,
            members,
            entries,
            bytes,
            ..
        } = *self;
        println!(rt;
            "journals  actions {actions}, members {members}, entries {entries}, bytes {bytes}"
        )?;
        self.ends.print(rt)?;
        let Counts {
            starts,
            joins,
            ended,
            ..
        } = *self;
        println!(rt;
            "answered  starts {starts}, joins {joins}, ends {ended}: all in the journals"
        )?;
        Ok(())
    }
}
