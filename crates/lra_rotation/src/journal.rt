//! Journals that are served, observations of them, and the workers that answer for them.

/// Journal that is served.
#[derive(Clone, Copy, PartialEq, Eq)]
pub struct RotationJournal {
    pub instance: u64,
    /// Flag, set if nothing is begun in it any more.
    pub is_closed: bool,
    /// Version of the set that was the first without it, once it is to be archived.
    pub left: Option<u64>,
    /// Flag, set if it couldn't be withdrawn or archived.
    pub stays: bool,
}

/// Observation of a journal.
#[derive(Clone, Copy, PartialEq, Eq)]
pub struct Observation {
    pub instance: u64,
    /// Flag, set if it has as much as it is to have, so that the next one takes its place.
    pub is_full: bool,
    /// Flag, set if it has hardly any room left, or its disk has failed: what was begun is ended, and nothing is begun.
    pub is_near_end: bool,
    /// Flag, set if all its actions have ended, and its members want nothing.
    pub is_settled: bool,
    /// Flag, set if no carrier works for it, and no call that came in is at work in it.
    pub is_free: bool,
    /// Flag, set if a step on it failed lately, and the pause after that hasn't passed. The newest waits while the next
    /// one does: if a step that makes that failed lately, or it has no callback worker yet.
    pub is_waiting: bool,
    /// Number of milliseconds since its last entry.
    pub quiet: u64,
}

/// Worker that answers, with the set that it follows.
#[derive(Clone, Copy, PartialEq, Eq)]
pub struct RotationWorker {
    pub number: u64,
    /// Version of the set: it has a session in each journal of that, and in no other.
    pub seen: u64,
}
