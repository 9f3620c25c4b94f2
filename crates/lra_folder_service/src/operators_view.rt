//! The operators' view of all journals.

ghost use Rattle.std.specs.Prelude.{◌≡◌};

use crate::folder_state::FolderState;
use lra_audits::LONGEST;
use lra_clocks::{Clock as SteadyClock, SystemClock};
use lra_commands::{CounterFault, Limits, Order, Query, QueryResult, Refusal, Told};
use lra_ids::Base;
use lra_journal_factory::GivenUpNotes;
use lra_journal_folder::GivenUp;
use lra_model::{Instance, Memory};
use lra_operators_server::{Given, OperatorsServer, ProcessStatistics, Tallies, operators_order};
use lra_outcomes::Attempt;
use lra_overview::{Facts, Overview};
use lra_registry::{NO_VERSION, ServedJournal};
use lra_sessions::JournalSession;
use std::alloc::Global;
use std::sync::{Arc, Wait};
use std::time::Clock;

/// Operators' server, if there is one, and what it reports beside the histories.
#[derive(Drop)]
pub(crate) struct OperatorsContext<'a> {
    pub(crate) operators_server: Option<&'a OperatorsServer>,
    pub(crate) base: &'a Base,
    pub(crate) limits: Limits,
    pub(crate) tallies: Tallies,
    /// Notes of the members that operators have given up.
    pub(crate) notes: GivenUpNotes,
}

impl OperatorsContext<'_> {
    /// Returns how many threads answer operators.
    pub(crate) fn threads(&self) -> u32 {
        if self.operators_server.is_some() {
            1
        } else {
            0
        }
    }

    /// Returns the process statistics, if there is an operators' server.
    fn process_statistics(&self) -> ProcessStatistics {
        match self.operators_server {
            Some(operators_server) => operators_server.process_statistics(),
            None => ProcessStatistics::none(),
        }
    }
}

/// Journal with a clerk of the operators' thread.
#[derive(Drop)]
struct JournalDesk<B> {
    journal: Arc<ServedJournal<B>>,
    session: B,
}

/// Operators' view, with a clerk of each journal of the registry.
#[derive(Drop)]
pub(crate) struct FolderView<'b, 's, 'a, R: Wait, H, B> {
    folder_state: &'b FolderState<'s, 'a, R, H, B>,
    /// Journals with their clerks, the newest last.
    desks: Vec<JournalDesk<B>>,
    /// Version of the registry that the view follows.
    seen: u64,
    /// Mark that the view couldn't follow the last change of the registry.
    is_behind: bool,
    clock: SystemClock<'a, R>,
    given: Given,
}

/// Returns whether a journal of that instance is among these.
fn is_among<B: Drop>(journals: &[Arc<ServedJournal<B>>], instance: Instance) -> bool {
    journals.iter().any(|journal| journal.instance == instance)
}

/// Returns the position of a journal's desk, if there is one.
fn place_of<B: Drop>(desks: &[JournalDesk<B>], instance: Instance) -> Option<usize> {
    desks
        .iter()
        .position(|desk| desk.journal.instance == instance)
}

/// Adds a clerk of a journal, enrolled at a moment. Returns whether it did.
fn join<R: Wait, B: JournalSession + Drop>(
    rt: &R,
    desks: &mut Vec<JournalDesk<B>>,
    journal: &Arc<ServedJournal<B>>,
    moment: u64,
) -> bool {
    if desks.reserve(1).is_err() {
        return false;
    }
    let Ok(theirs) = Arc::try_clone(journal) else {
        return false;
    };
    let Some(session) = theirs.fork(rt, moment) else {
        drop(theirs);
        return false;
    };
    desks
        .push(JournalDesk {
            journal: theirs,
            session,
        })
        .is_ok()
}

/// Adds a clerk of each journal that has none, enrolled at a moment. Returns whether all have one.
fn join_all<R: Wait, B: JournalSession + Drop>(
    rt: &R,
    desks: &mut Vec<JournalDesk<B>>,
    journals: &[Arc<ServedJournal<B>>],
    moment: u64,
) -> bool {
    for journal in journals {
        if place_of(desks, journal.instance).is_none() && !join(rt, desks, journal, moment) {
            return false;
        }
    }
    true
}

impl<'b, 's, 'a: 's, R: Wait + Clock, H, B> FolderView<'b, 's, 'a, R, H, B> {
    /// Returns a view that has no clerk yet, and has given no order.
    pub(crate) fn new(
        alloc: Global,
        folder_state: &'b FolderState<'s, 'a, R, H, B>,
        clock: SystemClock<'a, R>,
    ) -> FolderView<'b, 's, 'a, R, H, B> {
        FolderView {
            folder_state,
            desks: Vec::new(alloc),
            seen: NO_VERSION,
            is_behind: false,
            clock,
            given: Given::new(),
        }
    }
}

impl<'s, 'a: 's, R: Wait + Clock, H, B: JournalSession + Drop> FolderView<'_, 's, 'a, R, H, B> {
    /// Returns how many callbacks are under way.
    fn under_way(&self) -> u64 {
        let mut all: u64 = 0;
        for desk in self.desks.as_slice() {
            all = all.saturating_add(desk.journal.under_way());
        }
        all
    }

    /// Returns whether the coordinator of any journal is known to have stopped.
    fn has_stopped(&self) -> bool {
        let tallies = &self.folder_state.operators_context.tallies;
        self.desks
            .iter()
            .any(|desk| tallies.has_stopped(desk.journal.instance))
    }

    /// Returns how many bytes and entries the newest journal has.
    fn sizes(&self) -> (u64, u64) {
        match self.desks.as_slice().last() {
            Some(desk) => (desk.journal.bytes(), desk.journal.count_entries()),
            None => (0, 0),
        }
    }

    /// Gives an order to a journal. Returns its reply only once all is durable.
    fn give_at(
        &mut self,
        place: usize,
        moment: u64,
        order: &Order<'static>,
    ) -> Result<Told, CounterFault>
        ensures { self.new.given ≡ self.old.given }
    {
        let Some(desk) = self.desks.get_mut(place) else {
            return Err(CounterFault::Refused(Refusal::NoSuchAction));
        };
        let told = desk.session.give(moment, order)?;
        desk.journal.wake_workers();
        if self.folder_state.sync_all() {
            Ok(told)
        } else {
            Err(CounterFault::Refused(Refusal::Stopped))
        }
    }

    /// Returns the reply of a journal's coordinator to a query.
    fn query_at(&mut self, place: usize, query: Query) -> Result<QueryResult, CounterFault>
        ensures { self.new.given ≡ self.old.given }
    {
        let Some(desk) = self.desks.get_mut(place) else {
            return Err(CounterFault::Refused(Refusal::NoSuchAction));
        };
        match desk.session.query(query) {
            Some(known) => Ok(known),
            None => Err(CounterFault::Refused(Refusal::NoSuchAction)),
        }
    }

    /// Marks a member as given up: it isn't notified any more that its action has ended. Fails unless the notes have
    /// that durably.
    fn give_up_at(&self, journal: &ServedJournal<B>, member: u64) -> Result<(), Refusal> {
        let rt = self.folder_state.rt;
        if journal.outcomes.give_up(rt, member).is_err() {
            return Err(Refusal::Memory);
        }
        let given = GivenUp {
            journal: journal.instance,
            member,
        };
        if self
            .folder_state
            .operators_context
            .notes
            .add(rt, self.folder_state.alloc, given)
        {
            journal.wake_workers();
            Ok(())
        } else {
            journal.outcomes.take_up(rt, member);
            Err(Refusal::Stopped)
        }
    }

    /// Returns the refusal for an instance that has no desk. If a journal of it may exist by now, or still, the refusal
    /// doesn't say that there is none.
    fn lacking(&self, instance: Instance) -> CounterFault {
        CounterFault::Refused(if self
            .folder_state
            .journal_registry
            .lacks(self.folder_state.rt, instance, self.seen)
        {
            Refusal::Stopped
        } else {
            Refusal::NoSuchAction
        })
    }
}

impl<'s, 'a: 's, R: Wait + Clock, H, B: JournalSession + Drop> Overview
    for FolderView<'_, 's, 'a, R, H, B> {
    ghost orders = { λ w. w.given.log.items };

    fn instance(&self, place: u64) -> Option<Instance> {
        let place = usize::try_from(place).ok()?;
        Some(self.desks.get(place)?.journal.instance)
    }

    fn base(&self) -> &Base {
        self.folder_state.operators_context.base
    }

    fn catch_up(&mut self) {
        if self.folder_state.journal_registry.version() == self.seen {
            return;
        }
        let Ok((version, journals)) = self.folder_state.journal_registry.all(self.folder_state.rt)
        else {
            self.is_behind = true;
            return;
        };
        self.desks
            .retain(|desk| is_among(&journals, desk.journal.instance));
        let moment = self.clock.now();
        self.is_behind = !join_all(self.folder_state.rt, &mut self.desks, &journals, moment);
        if !self.is_behind {
            self.seen = version;
        }
    }

    fn facts(&mut self) -> Facts {
        let (bytes, entries) = self.sizes();
        let limits = self.folder_state.operators_context.limits;
        let process_statistics = self.folder_state.operators_context.process_statistics();
        Facts {
            moment: self.clock.now(),
            began: self.folder_state.began(),
            has_failed: self.folder_state.has_failed() || self.has_stopped(),
            is_ending: self.folder_state.ending.is_asked()
                || self.folder_state.journal_registry.is_draining(),
            journals: self.desks.len() as u64,
            bytes,
            most_bytes: LONGEST as u64,
            entries,
            most_entries: limits.entries,
            most_actions: limits.actions,
            most_members: limits.members,
            connections: self.folder_state.load(),
            callbacks: self.under_way(),
            virtual_bytes: process_statistics.virtual_bytes,
            resident_bytes: process_statistics.resident_bytes,
            processor_ticks: process_statistics.ticks,
            lags: self.is_behind || self.folder_state.journal_registry.lags(),
            sync_age: self.folder_state.operators_context.tallies.sync_age(),
            sync_limit: self.folder_state.operators_context.tallies.sync_limit(),
            lost_workers: self.folder_state.operators_context.tallies.lost_workers(),
            lost_callback_workers: self
                .folder_state
                .operators_context
                .tallies
                .lost_callback_workers(),
            standing: self.folder_state.operators_context.tallies.standing(),
        }
    }

    fn put_tallies(&mut self, page: &mut Vec<u8>) -> Result<(), Memory> {
        self.folder_state.operators_context.tallies.put(page)
    }

    fn query(&mut self, instance: Instance, query: Query) -> Result<QueryResult, CounterFault> {
        match place_of(&self.desks, instance) {
            Some(place) => self.query_at(place, query),
            None => Err(self.lacking(instance)),
        }
    }

    fn attempt(
        &mut self,
        alloc: Global,
        instance: Instance,
        member: u64,
    ) -> Result<Option<Attempt>, Memory> {
        let Some(place) = place_of(&self.desks, instance) else {
            return Ok(None);
        };
        let Some(desk) = self.desks.get(place) else {
            return Ok(None);
        };
        desk.journal
            .outcomes
            .find(self.folder_state.rt, alloc, member)
    }

    fn has_given_up(&self, instance: Instance, member: u64) -> bool {
        let Some(place) = place_of(&self.desks, instance) else {
            return false;
        };
        match self.desks.get(place) {
            Some(desk) => desk
                .journal
                .outcomes
                .is_given_up(self.folder_state.rt, member),
            None => false,
        }
    }

    fn give(&mut self, instance: Instance, order: &Order<'_>) -> Result<Told, CounterFault> {
        let Some(own) = operators_order(order) else {
            return Err(CounterFault::Refused(Refusal::NotAsked));
        };
        let Some(place) = place_of(&self.desks, instance) else {
            return Err(self.lacking(instance));
        };
        self.given.note(instance, &own);
        let moment = self.clock.now();
        self.give_at(place, moment, &own)
    }

    fn end_asking(&mut self, instance: Instance, member: u64) -> Result<(), CounterFault> {
        let Some(place) = place_of(&self.desks, instance) else {
            return Err(self.lacking(instance));
        };
        let _known = self.query_at(place, Query::MemberStatus { member })?;
        match self.desks.get(place) {
            Some(desk) => self
                .give_up_at(&desk.journal, member)
                .map_err(CounterFault::Refused),
            None => Err(CounterFault::Refused(Refusal::NoSuchMember)),
        }
    }
}
