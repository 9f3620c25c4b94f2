//! Queries that count what a journal has, and find whether anything of it is left to be done.

ghost use Rattle.std.specs.Prelude.{◌≡◌, None};

use crate::journal::ServedJournal;
use lra_commands::{Listing, Query, QueryResult, Row};
use lra_rotation::{is_done_with, is_settled};
use lra_sessions::JournalSession;
use std::sync::Wait;

/// Number of queries that a scan makes at once, before the rotation manager does anything else.
const MOST_AT_ONCE: u64 = 8_192;

/// Kind of a journal's parts that are numbered from 1 on, without gaps.
#[derive(Clone, Copy, PartialEq, Eq)]
pub(crate) enum ScanKind {
    Action,
    Member,
}

impl<B: JournalSession + Drop> ServedJournal<B> {
    /// Returns whether the journal has an action or a member with that number.
    fn has<R: Wait>(&self, rt: &R, kind: ScanKind, number: u64) -> bool {
        let query = match kind {
            ScanKind::Action => Query::ActionStatus { action: number },
            ScanKind::Member => Query::MemberStatus { member: number },
        };
        matches!(
            self.query(rt, query),
            Some(QueryResult::ActionIs(_) | QueryResult::MemberIs(_))
        )
    }

    /// Returns whether a row is of a member that operators have given up.
    fn has_given_up<R: Wait>(&self, rt: &R, row: &Row) -> bool {
        match row {
            Row::Member { member, .. } => self.outcomes.is_given_up(rt, *member),
            Row::Action { .. } => false,
        }
    }

    /// Returns how many actions or members the journal has. It has the known number of them at least.
    pub(crate) fn count<R: Wait>(&self, rt: &R, kind: ScanKind, known: u64) -> u64 {
        let mut count = known;
        let mut step = 1u64;
        for _ in 0..u64::MAX {
            let next = count.saturating_add(step);
            if self.has(rt, kind, next) {
                count = next;
                step = step.saturating_mul(2);
            } else if step > 1 {
                step = 1;
            } else {
                return count;
            }
        }
        count
    }
}

/// Result of a scan so far.
#[derive(Clone, Copy, PartialEq, Eq)]
pub(crate) enum Scanned {
    /// The scan isn't at its end.
    Further,
    /// Something is left to be done.
    Busy,
    /// Nothing is left to be done.
    Settled,
}

/// Scan of all actions of a journal and all their members, one after another.
#[derive(Clone, Copy, PartialEq, Eq)]
pub(crate) struct Scan {
    /// The position of the next action.
    actions: u64,
    /// The action whose members are scanned, and the position of the next member.
    members: Option<(u64, u64)>,
}

impl Scan {
    /// Returns a scan at its beginning.
    pub fn new() -> Scan
        ensures { (result.actions ≡ 0) × (result.members ≡ None) }
    {
        Scan {
            actions: 0,
            members: None,
        }
    }

    /// Checks the next action.
    fn step_action<R: Wait, B: JournalSession + Drop>(
        &mut self,
        rt: &R,
        journal: &ServedJournal<B>,
    ) -> Scanned {
        let query = Query::Row {
            of: Listing::Actions { status: None },
            place: self.actions,
        };
        match journal.query(rt, query) {
            Some(QueryResult::Row { place, row }) if is_settled(&row) => {
                if let Row::Action { action, .. } = row {
                    self.members = Some((action, 0));
                }
                self.actions = place.saturating_add(1);
                Scanned::Further
            }
            Some(QueryResult::NoMore) => Scanned::Settled,
            _ => Scanned::Busy,
        }
    }

    /// Checks the member at that position of an action.
    fn step_member<R: Wait, B: JournalSession + Drop>(
        &mut self,
        rt: &R,
        journal: &ServedJournal<B>,
        action: u64,
        place: u64,
    ) -> Scanned {
        let query = Query::Row {
            of: Listing::Members { action },
            place,
        };
        match journal.query(rt, query) {
            Some(QueryResult::Row { place, row })
                if is_done_with(&row, journal.has_given_up(rt, &row)) => {
                self.members = Some((action, place.saturating_add(1)));
                Scanned::Further
            }
            Some(QueryResult::NoMore) => {
                self.members = None;
                Scanned::Further
            }
            _ => Scanned::Busy,
        }
    }

    /// Continues the scan for a while.
    pub fn go_on<R: Wait, B: JournalSession + Drop>(
        &mut self,
        rt: &R,
        journal: &ServedJournal<B>,
    ) -> Scanned {
        for _ in 0..MOST_AT_ONCE {
            let scanned = match self.members {
                Some((action, place)) => self.step_member(rt, journal, action, place),
                None => self.step_action(rt, journal),
            };
            if scanned != Scanned::Further {
                return scanned;
            }
        }
        Scanned::Further
    }
}
