//! Members that are still to be told how their action ended.

ghost use Rattle.std.specs.Prelude.{◌≡◌};
ghost use Rattle.lra_overview.specs.Standings as spec;

use crate::faults::Trouble;
use crate::overview::Overview;
use lra_commands::{Listing, Query, QueryResult, Row, Want};
use lra_ids::Instance;
use std::alloc::Global;

/// Largest number of queries that one count asks about the actions that were read before, and as many again about the
/// others.
const MOST: u64 = 4_096;

/// Returns whether a member of an action that has ended is still to be told so, or to be forgotten: it is being asked,
/// or is to be asked, and operators haven't given it up.
pub fn is_untold(ask: Option<u64>, want: Option<Want>, is_given_up: bool) -> bool
    ensures { result ≡ spec.is_untold ask want is_given_up }
{
    (ask.is_some() || want.is_some()) && !is_given_up
}

/// Outcome of reading an action and its members.
#[derive(Clone, Copy)]
enum Looked {
    /// There is no action at that place.
    Missing,
    /// No query is left for this count. The next count goes on from there.
    Cut,
    /// The action has ended, with the outermost one above it, and each of its members knows.
    Done,
    /// The action or the outermost one above it hasn't ended, or so many of its members are untold.
    Open(u64),
}

/// Progress of reading actions, which goes on from count to count.
#[derive(Clone, Copy)]
struct Look {
    /// Number of queries that are left for this count.
    left: u64,
    /// Place of the next member to read, of the action under way.
    from: u64,
    /// Number of members before it that are untold.
    untold: u64,
}

/// Progress of reading that hasn't begun.
const AFRESH: Look = Look {
    left: 0,
    from: 0,
    untold: 0,
};

impl Look {
    /// Takes one of the queries that are left. Returns whether there was one.
    fn take(&mut self) -> bool {
        if self.left == 0 {
            return false;
        }
        self.left -= 1;
        true
    }

    /// Reads the members of an action, from the place on where the last count stopped. Returns whether all were read.
    fn add_members<O: Overview>(
        &mut self,
        overview: &mut O,
        instance: Instance,
        action: u64,
    ) -> Result<bool, Trouble>
        ensures { O.orders overview.new ≡ O.orders overview.old }
    {
        let of = Listing::Members { action };
        for _row in 0..u64::MAX {
            if !self.take() {
                return Ok(false);
            }
            let place = self.from;
            match overview.query(instance, Query::Row { of, place })? {
                QueryResult::Row {
                    place,
                    row: Row::Member {
                        member,
                        ask,
                        want,
                        ..
                    },
                } => {
                    if is_untold(ask, want, overview.has_given_up(instance, member)) {
                        self.untold = self.untold.saturating_add(1);
                    }
                    self.from = place.saturating_add(1);
                }
                QueryResult::Further(next) => self.from = next,
                _ => return Ok(true),
            }
        }
        Ok(true)
    }

    /// Ends reading an action, once all its members were read.
    fn finish(&mut self) -> Looked {
        let untold = self.untold;
        self.from = 0;
        self.untold = 0;
        if untold == 0 {
            Looked::Done
        } else {
            Looked::Open(untold)
        }
    }

    /// Reads the actions above one, from its parent on. Returns whether all of them have ended, if queries were left to
    /// find that out: the members of an action are told how it ended only then.
    fn have_ended<O: Overview>(
        &mut self,
        overview: &mut O,
        instance: Instance,
        parent: Option<u64>,
    ) -> Result<Option<bool>, Trouble>
        ensures { O.orders overview.new ≡ O.orders overview.old }
    {
        let of = Listing::Actions { status: None };
        let mut next = parent;
        for _level in 0..u64::MAX {
            let Some(action) = next else {
                return Ok(Some(true));
            };
            if !self.take() {
                return Ok(None);
            }
            let place = action.saturating_sub(1);
            match overview.query(instance, Query::Row { of, place })? {
                QueryResult::Row {
                    row: Row::Action { status, parent, .. },
                    ..
                } => {
                    if !status.has_ended() {
                        return Ok(Some(false));
                    }
                    next = parent;
                }
                _ => return Ok(Some(true)),
            }
        }
        Ok(Some(true))
    }

    /// Reads the action at a place, and its members if it has ended, with the outermost one above it.
    fn look<O: Overview>(
        &mut self,
        overview: &mut O,
        instance: Instance,
        place: u64,
    ) -> Result<Looked, Trouble>
        ensures { O.orders overview.new ≡ O.orders overview.old }
    {
        if !self.take() {
            return Ok(Looked::Cut);
        }
        let of = Listing::Actions { status: None };
        match overview.query(instance, Query::Row { of, place })? {
            QueryResult::Row {
                row: Row::Action {
                    action,
                    status,
                    parent,
                },
                ..
            } => {
                if !status.has_ended() {
                    return Ok(Looked::Open(0));
                }
                match self.have_ended(overview, instance, parent)? {
                    Some(true) => {}
                    Some(false) => return Ok(Looked::Open(0)),
                    None => return Ok(Looked::Cut),
                }
                if !self.add_members(overview, instance, action)? {
                    return Ok(Looked::Cut);
                }
                Ok(self.finish())
            }
            _ => Ok(Looked::Missing),
        }
    }
}

/// Action that each count reads again.
#[derive(Clone, Copy)]
struct Kept {
    place: u64,
    /// Number of its members that were untold when it was read last.
    untold: u64,
}

/// Counts of the members that are untold. An action that has ended, with the outermost one above it, and of which each
/// member knows, is read only once.
#[derive(Drop)]
pub(crate) struct Telling {
    /// Other actions that were read.
    kept: Vec<Kept>,
    /// Index of the next of them to read, and the progress of reading it.
    next: usize,
    again: Look,
    /// Place from which on no action was read, and the progress of reading the one there.
    behind: u64,
    ahead: Look,
}

impl Telling {
    /// Makes the counts of no action.
    pub(crate) fn new(alloc: Global) -> Telling {
        Telling {
            kept: Vec::new(alloc),
            next: 0,
            again: AFRESH,
            behind: 0,
            ahead: AFRESH,
        }
    }

    /// Notes the outcome of reading the next kept action. Returns whether this count goes on.
    fn note(&mut self, looked: Looked) -> bool {
        match looked {
            Looked::Cut => return false,
            Looked::Open(untold) => {
                if let Some(kept) = self.kept.get_mut(self.next) {
                    kept.untold = untold;
                }
                self.next = self.next.saturating_add(1);
            }
            Looked::Done | Looked::Missing => {
                if self.next < self.kept.len() {
                    self.kept.swap_remove(self.next);
                }
            }
        }
        true
    }

    /// Returns the place of the kept action that is next.
    fn next_place(&mut self) -> Option<u64> {
        if self.next >= self.kept.len() {
            self.next = 0;
        }
        self.kept.get(self.next).map(|kept| kept.place)
    }

    /// Reads the kept actions again, each once.
    fn look_again<O: Overview>(
        &mut self,
        overview: &mut O,
        instance: Instance,
    ) -> Result<(), Trouble>
        ensures { O.orders overview.new ≡ O.orders overview.old }
    {
        self.again.left = MOST;
        for _action in 0..self.kept.len() {
            let Some(place) = self.next_place() else {
                return Ok(());
            };
            let looked = self.again.look(overview, instance, place)?;
            if !self.note(looked) {
                return Ok(());
            }
        }
        Ok(())
    }

    /// Reads actions that weren't read before.
    fn look_ahead<O: Overview>(
        &mut self,
        overview: &mut O,
        instance: Instance,
    ) -> Result<(), Trouble>
        ensures { O.orders overview.new ≡ O.orders overview.old }
    {
        self.ahead.left = MOST;
        for _action in 0..u64::MAX {
            let place = self.behind;
            match self.ahead.look(overview, instance, place)? {
                Looked::Cut | Looked::Missing => return Ok(()),
                Looked::Done => {}
                Looked::Open(untold) => self.kept.push(Kept { place, untold })?,
            }
            self.behind = place.saturating_add(1);
        }
        Ok(())
    }

    /// Returns how many members of the kept actions are untold.
    fn total(&self) -> u64 {
        let mut total: u64 = 0;
        for kept in self.kept.as_slice() {
            total = total.saturating_add(kept.untold);
        }
        total
    }

    /// Returns how many members are untold, of the actions that were read so far. One count asks some thousands of
    /// queries at most, and the next one goes on from there.
    pub(crate) fn count<O: Overview>(
        &mut self,
        overview: &mut O,
        instance: Instance,
    ) -> Result<u64, Trouble>
        ensures { O.orders overview.new ≡ O.orders overview.old }
    {
        self.look_again(overview, instance)?;
        self.look_ahead(overview, instance)?;
        Ok(self.total())
    }
}
