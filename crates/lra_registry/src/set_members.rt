//! The journals that a connection worker serves.

ghost use Rattle.std.specs.Prelude.{◌≡◌, [], false, cond, None, Some, IfSome};
ghost use Rattle.lra_journal_router.specs.JournalRouters.{HaveBase, KeepsBase, Moved, base_of};

use crate::journal::ServedJournal;
use crate::journal_registry::{JournalRegistry, NO_VERSION};
use lra_clocks::{Clock, SystemClock};
use lra_journal_router::{Membership, add_member, remove_member};
use lra_journal_sets::JournalSet;
use lra_model::Instance;
use lra_sessions::JournalSession;
use std::alloc::Global;
use std::sync::{Arc, Wait};
use std::time;

/// Membership of a connection worker's journal set. Journals of the registry join the set, each with a clerk of its
/// own, and archived journals leave it.
#[derive(Drop)]
pub struct SetMembers<'s, 'a, R: Wait, B> {
    rt: &'a R,
    journal_registry: &'s JournalRegistry<B>,
    /// Number of the connection worker.
    worker: u32,
    /// Instances of the journals in the set.
    mine: Vec<Instance>,
    /// Version of the registry that the set follows.
    seen: u64,
    /// Mark that the set couldn't follow the last change of the registry.
    is_behind: bool,
    clock: SystemClock<'a, R>,
}

impl<'s, 'a, R: Wait, B> SetMembers<'s, 'a, R, B> {
    /// Returns the membership of a connection worker, without journals.
    pub fn new(
        rt: &'a R,
        alloc: Global,
        journal_registry: &'s JournalRegistry<B>,
        worker: u32,
        clock: SystemClock<'a, R>,
    ) -> SetMembers<'s, 'a, R, B>
        ensures worker { result.worker ≡ worker }
        ensures none { (result.mine.items ≡ []) × (result.seen ≡ NO_VERSION) × (result.is_behind ≡ false) }
    {
        SetMembers {
            rt,
            journal_registry,
            worker,
            mine: Vec::new(alloc),
            seen: NO_VERSION,
            is_behind: false,
            clock,
        }
    }
}

/// Returns whether a journal of that instance is among these.
fn is_among<B: Drop>(journals: &[Arc<ServedJournal<B>>], instance: Instance) -> bool {
    journals
        .iter()
        .any(|journal| journal.instance.number() == instance.number())
}

/// Returns a version, if it is followed.
fn followed(is_followed: bool, version: u64) -> Option<u64>
    ensures { result ≡ cond is_followed (Some version) None }
{
    if is_followed { Some(version) } else { None }
}

impl<R: Wait + time::Clock, B: JournalSession + Drop> SetMembers<'_, '_, R, B> {
    /// Enrols a clerk of a journal, and records the journal as one of the set.
    fn enrol(&mut self, journal: &ServedJournal<B>) -> Option<B> {
        self.mine.reserve(1).ok()?;
        let session = journal.fork(self.rt, self.clock.now())?;
        self.mine.push(journal.instance).ok()?;
        Some(session)
    }

    /// Returns a set of the oldest journal alone, if a clerk of it can be enrolled. The others join at the first poll.
    pub fn begin(&mut self, alloc: Global) -> Option<JournalSet<B>>
        ensures base { IfSome result (λ journal_set. HaveBase (base_of journal_set) journal_set) }
    {
        let (_version, journals) = self.journal_registry.all(self.rt).ok()?;
        let session = self.enrol(journals.first()?)?;
        JournalSet::new(alloc, session).ok()
    }

    /// Adds a journal that is newer than all in the set. Returns whether it did.
    #[tactic(auto, using(crate::proofs::Grows::steps))]
    fn join(&mut self, journal_set: &mut JournalSet<B>, journal: &ServedJournal<B>) -> bool
        ensures moved { Moved journal_set.old journal_set.new }
        ensures base { KeepsBase journal_set.old journal_set.new }
    {
        let Some(session) = self.enrol(journal) else {
            return false;
        };
        match add_member(journal_set, session) {
            Ok(()) => true,
            Err(session) => {
                journal.take_back(self.rt, session);
                self.mine.pop();
                false
            }
        }
    }

    /// Adds the journals that are newer than all in the set. Returns whether all of these have joined.
    #[tactic(auto, using(crate::proofs::Grows::steps))]
    fn join_all(
        &mut self,
        journal_set: &mut JournalSet<B>,
        journals: &[Arc<ServedJournal<B>>],
    ) -> bool
        ensures moved { Moved journal_set.old journal_set.new }
        ensures base { KeepsBase journal_set.old journal_set.new }
    {
        for journal in journals {
            if journal.instance.number() > journal_set.newest().number()
                && !self.join(journal_set, journal)
            {
                return false;
            }
        }
        true
    }

    /// Removes the journals that have left the registry. The set's newest journal stays until a newer one has joined.
    #[tactic(auto, using(crate::proofs::Grows::steps))]
    fn leave_all(&mut self, journal_set: &mut JournalSet<B>, journals: &[Arc<ServedJournal<B>>])
        ensures moved { Moved journal_set.old journal_set.new }
        ensures base { KeepsBase journal_set.old journal_set.new }
    {
        let newest = journal_set.newest().number();
        for instance in &self.mine {
            if !is_among(journals, *instance) {
                drop(remove_member(journal_set, *instance));
            }
        }
        self.mine.retain(|instance| instance.number() == newest || is_among(journals, *instance));
    }

    /// Adds and removes journals. Returns the version that the set follows now, if it follows one.
    #[tactic(auto, using(crate::proofs::Grows::steps))]
    fn catch_up(&mut self, journal_set: &mut JournalSet<B>) -> Option<u64>
        ensures moved { Moved journal_set.old journal_set.new }
        ensures base { KeepsBase journal_set.old journal_set.new }
    {
        let Ok((version, journals)) = self.journal_registry.all(self.rt) else {
            return None;
        };
        let follows = self.join_all(journal_set, &journals);
        self.leave_all(journal_set, &journals);
        followed(follows, version)
    }

    /// Records which version the set follows, if it follows one.
    fn note(&mut self, followed: Option<u64>) {
        if let Some(version) = followed {
            self.seen = version;
            self.journal_registry.follow(self.worker, version);
        }
        let is_behind = followed.is_none();
        if is_behind != self.is_behind {
            self.is_behind = is_behind;
            if is_behind {
                self.journal_registry.fall_behind();
            } else {
                self.journal_registry.catch_up();
            }
        }
    }
}

impl<R: Wait + time::Clock, B: JournalSession + Drop> Membership<B> for SetMembers<'_, '_, R, B> {
    // Journals may join and leave at any time, so the contract says nothing of the result.
    ghost tells = { λ named lacks. Unit {0} };

    #[tactic(auto, using(crate::proofs::Grows::steps))]
    fn look(&mut self, journal_set: &mut JournalSet<B>) {
        if self.journal_registry.version() == self.seen {
            return;
        }
        let followed = self.catch_up(journal_set);
        self.note(followed);
    }

    fn lacks_any(&self) -> bool {
        self.is_behind || self.journal_registry.lacks_any(self.seen)
    }

    fn lacks(&self, named: Option<Instance>) -> bool {
        match named {
            Some(instance) => self.journal_registry.lacks(self.rt, instance, self.seen),
            None => self.is_behind,
        }
    }
}
