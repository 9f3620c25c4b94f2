//! Observations of a journal, for the rotation.

ghost use Rattle.std.specs.Prelude.{◌≡◌, ◌+◌, ◌-◌, ◌^◌, ◌||◌, min, true, false, None, Some};
ghost use Rattle.lra_rotation.specs.Limits.{longer_pause};

use crate::journal::ServedJournal;
use crate::scanning::{Scan, ScanKind, Scanned};
use lra_model::Memory;
use lra_rotation::{Counts, Observation, has_reached, longer_pause};
use lra_sessions::JournalSession;
use std::alloc::Global;
use std::io::ErrorKind;
use std::sync::{Arc, Wait};

/// Milliseconds until a scan that found something left to be done goes on.
const RESCAN: u64 = 5_000;

/// Bounds by which the journals of a folder are observed.
#[derive(Clone, Copy, PartialEq, Eq)]
pub struct JournalBounds {
    /// Counts of the newest journal at which the next one replaces it.
    pub most: Counts,
    /// Counts that a journal may have at most.
    pub limit: Counts,
    /// Milliseconds that a journal stays after its last entry.
    pub remember: u64,
    /// Mark that the service ends once all journals are done, so that the newest is scanned too.
    pub drains: bool,
}

/// A journal, with what was observed of it.
#[derive(Drop)]
pub struct JournalMonitor<B> {
    pub journal: Arc<ServedJournal<B>>,
    /// Number of actions and members at the last check.
    actions: u64,
    members: u64,
    /// Number of bytes at the last check, and the moment since which the journal has had them, in milliseconds.
    bytes: u64,
    since: u64,
    /// Mark that the next journal is to replace it.
    is_full: bool,
    /// Scan of the journal, once it has bytes.
    scan: Option<Scan>,
    /// Moment from which on the scan goes on, if it found something that is left to be done, in milliseconds.
    rescan: u64,
    /// Mark that the journal has left the set. Its file is closed, so it stays as it was.
    has_left: bool,
    /// Reason why the last try to withdraw or archive the journal failed, if it did.
    why: Option<ErrorKind>,
    /// Milliseconds of the pause until the next try, and the moment from which on it may be made.
    pause: u64,
    retry: u64,
}

impl<B: Drop> JournalMonitor<B> {
    /// Returns a journal of which nothing was observed yet, at a moment.
    pub fn new(journal: Arc<ServedJournal<B>>, now: u64) -> JournalMonitor<B>
        ensures journal { (result.journal ≡ journal) × (result.since ≡ now) }
        ensures open { (result.is_full ≡ false) × (result.has_left ≡ false) × (result.scan ≡ None) }
    {
        JournalMonitor {
            journal,
            actions: 0,
            members: 0,
            bytes: 0,
            since: now,
            is_full: false,
            scan: None,
            rescan: 0,
            has_left: false,
            why: None,
            pause: 0,
            retry: 0,
        }
    }

    /// Records that a try to withdraw or archive the journal failed at a moment. The next one comes after a pause,
    /// which is longer each time. Returns whether the reason is another one than before.
    pub fn put_off(&mut self, why: ErrorKind, now: u64) -> bool
        ensures pause { self.new.pause ≡ longer_pause self.old.pause }
        ensures retry { self.new.retry ≡ min (2 ^ 64 - 1) (now + longer_pause self.old.pause) }
        ensures why { self.new.why ≡ Some why }
        ensures same { self.new.journal ≡ self.old.journal }
    {
        self.pause = longer_pause(self.pause);
        self.retry = now.saturating_add(self.pause);
        let is_new = self.why != Some(why);
        self.why = Some(why);
        is_new
    }

    /// Records that the next journal is to replace this one, though it hasn't reached the counts for that.
    pub fn give_way(&mut self)
        ensures full { self.new.is_full ≡ true }
        ensures same { self.new.journal ≡ self.old.journal }
    {
        self.is_full = true;
    }

    /// Ends writing to the journal's file for good, if it has as many bytes as at the last check. Returns whether it
    /// did: then the journal has left the set.
    pub fn leave(&mut self) -> bool {
        self.has_left = self.journal.file.close_at(self.bytes);
        self.has_left
    }

    /// Returns the journal.
    pub fn into_journal(self) -> Arc<ServedJournal<B>>
        ensures { result ≡ self.journal }
    {
        let JournalMonitor {
            journal,
            actions: _,
            members: _,
            bytes: _,
            since: _,
            is_full: _,
            scan: _,
            rescan: _,
            has_left: _,
            why: _,
            pause: _,
            retry: _,
        } = self;
        journal
    }

    /// Records how many bytes the journal has. Returns whether their number has changed.
    fn has_moved(&mut self, now: u64) -> bool {
        let bytes = self.journal.bytes();
        if bytes == self.bytes {
            return false;
        }
        self.bytes = bytes;
        self.since = now;
        self.scan = Some(Scan::new());
        self.rescan = 0;
        self.why = None;
        self.pause = 0;
        self.retry = 0;
        true
    }
}

impl<B: JournalSession + Drop> JournalMonitor<B> {
    /// Counts the journal's actions, members, entries and bytes.
    fn counts<R: Wait>(&mut self, rt: &R) -> Counts {
        self.actions = self.journal.count(rt, ScanKind::Action, self.actions);
        self.members = self.journal.count(rt, ScanKind::Member, self.members);
        Counts {
            actions: self.actions,
            members: self.members,
            entries: self.journal.count_entries(),
            bytes: self.journal.bytes(),
        }
    }

    /// Continues the scan of the journal. Returns whether it has found that nothing is left to be done. Where something
    /// is left, the scan stays there for a while: operators may give a member up, which appends nothing.
    fn is_settled<R: Wait>(&mut self, rt: &R, now: u64) -> bool {
        if now < self.rescan {
            return false;
        }
        let Some(scan) = &mut self.scan else {
            return false;
        };
        match scan.go_on(rt, &self.journal) {
            Scanned::Further => false,
            Scanned::Busy => {
                self.rescan = now.saturating_add(RESCAN);
                false
            }
            Scanned::Settled => self.journal.under_way() == 0 && self.journal.bytes() == self.bytes,
        }
    }

    /// Returns whether nothing is left to be done in the journal. It is scanned for that only once its last entry is so
    /// old that the answer matters.
    fn is_done<R: Wait>(&mut self, rt: &R, now: u64, quiet: u64, remember: u64) -> bool {
        self.has_left || (remember <= quiet && self.is_settled(rt, now))
    }

    /// Returns what is observed of the journal at a moment. One that has left the set is free once no thread has a
    /// session of it any more: then its coordinator is ended.
    pub fn observe<R: Wait>(
        &mut self,
        rt: &R,
        now: u64,
        bounds: &JournalBounds,
        is_newest: bool,
    ) -> Observation
        ensures { result.instance ≡ self.old.journal.value.instance }
    {
        let instance = self.journal.instance.number();
        let has_moved = self.has_moved(now);
        if is_newest && has_moved && has_reached(&self.counts(rt), &bounds.most) {
            self.is_full = true;
        }
        let quiet = now.saturating_sub(self.since);
        let is_scanned = !has_moved && (bounds.drains || !is_newest);
        Observation {
            instance,
            is_full: self.is_full,
            is_near_end: self.journal.is_near_end(&bounds.limit),
            is_settled: is_scanned && self.is_done(rt, now, quiet, bounds.remember),
            is_free: self.has_left && self.journal.close(rt),
            is_waiting: now < self.retry,
            quiet,
        }
    }
}

/// Returns whether an observation says more than that there is a journal. The rotation reads a missing observation as
/// one that doesn't.
fn matters(observation: &Observation) -> bool
    ensures { result ≡ (observation.now.is_full || observation.now.is_near_end || observation.now.is_settled
        || observation.now.is_waiting) }
{
    observation.is_full
        || observation.is_near_end
        || observation.is_settled
        || observation.is_waiting
}

/// Returns what is observed of journals at a moment, the newest last, for those of which it matters. So a step takes
/// time by their number, however many others there are. If `waits` is set, the newest waits; if `lags` is set, the
/// others do.
pub fn observe_all<R: Wait, B: JournalSession + Drop>(
    rt: &R,
    alloc: Global,
    monitors: &mut Vec<JournalMonitor<B>>,
    now: u64,
    bounds: &JournalBounds,
    waits: bool,
    lags: bool,
) -> Result<Vec<Observation>, Memory> {
    let mut observations = Vec::new(alloc);
    let newest = monitors.len().saturating_sub(1);
    for place in 0..monitors.len() {
        if let Some(monitor) = monitors.get_mut(place) {
            let is_newest = place == newest;
            let mut observation = monitor.observe(rt, now, bounds, is_newest);
            let is_held = if is_newest { waits } else { lags };
            observation.is_waiting = observation.is_waiting || is_held;
            if matters(&observation) {
                observations.push(observation)?;
            }
        }
    }
    Ok(observations)
}
