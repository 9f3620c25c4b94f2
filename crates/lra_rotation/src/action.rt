//! Actions of a rotation, the stage of the next journal, and answers to who accepts new work.

/// Stage of the next journal.
#[derive(Clone, Copy, PartialEq, Eq)]
pub enum Stage {
    /// No journal is being prepared.
    Idle,
    /// Instance that is noted on disk, and isn't used yet.
    Noted(u64),
    /// Instance of a journal that is prepared under another name.
    Prepared(u64),
    /// Instance of a journal that has its name, and accepts nothing yet.
    Named(u64),
}

/// Action that is done next.
#[derive(Clone, Copy, PartialEq, Eq)]
pub enum RotationAction {
    /// Removal of a journal that was being prepared when the service before ended.
    Remove(u64),
    /// Note of an instance on disk, before it is used.
    Note(u64),
    /// Preparation of an instance's journal, under another name.
    Prepare(u64),
    /// Change of a prepared journal's name to its own.
    Name(u64),
    /// Switch to a journal that accepts new work from then on.
    Switch(u64),
    /// End of all new work in a journal.
    Close(u64),
    /// Removal of a journal from the set that is served, since it is done, once its file is closed for good.
    Withdraw(u64),
    /// Move of a journal to those that have ended.
    Archive(u64),
    /// End of the service, once all is done.
    End,
    /// End of the service, since the journals are another service's.
    Fail,
}

/// Change of a journal that is served.
#[derive(Clone, Copy, PartialEq, Eq)]
pub enum Change {
    /// Nothing is begun in the journal any more.
    Close,
    /// The journal leaves the set, whose version is this one from then on.
    Leave(u64),
    /// The journal couldn't be withdrawn or archived.
    Stay,
}

/// Journal that accepts new work that names none, or the reason why no journal does.
#[derive(Clone, Copy, PartialEq, Eq)]
pub enum NewWork {
    /// The newest journal, of this instance, accepts it.
    Accepted(u64),
    /// The service is over.
    Over,
    /// The service drains.
    Draining,
    /// The newest journal has no room left, or its disk has failed, and the next one isn't there yet.
    Full,
    /// There is no journal yet.
    NoJournal,
    /// The worker doesn't have the set that is served now.
    Behind,
}

/// Result of a step.
#[derive(Clone, Copy, PartialEq, Eq)]
pub enum StepResult {
    /// Nothing was to be done.
    Nothing,
    /// The action was done.
    Done(RotationAction),
    /// The action has failed.
    Failed(RotationAction),
}
