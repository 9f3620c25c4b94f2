//! Members that hold up ends.

ghost use Rattle.std.specs.Prelude.{◌≡◌};
ghost use Rattle.lra_overview.specs.Counts.{no_overdue, overdue_in_both};
ghost use Rattle.lra_overview.specs.Standings as spec;

use crate::attempts::is_at_it;
use crate::census::{Census, STRETCH};
use crate::faults::Trouble;
use crate::overview::Overview;
use lra_commands::{Listing, Query, QueryResult, Row, Want};
use lra_ids::Instance;
use lra_model::ActionStatus;
use std::alloc::Global;

/// Largest number of queries for one count.
const MOST: u64 = 1_000;

/// Number of times that a member is asked in vain before it counts as one that doesn't answer.
const IN_VAIN: u64 = 3;

/// Numbers of members that hold up actions which are closing or cancelling. Members that are being asked aren't among
/// them.
#[derive(Clone, Copy)]
pub struct Overdue {
    /// Number of those that were asked in vain three times or more. They are silent, or their answers bring them no
    /// further.
    pub silent: u64,
    /// Number of those that were asked in vain less often, and are to be asked by now.
    pub waiting: u64,
    /// Number of those that answered last that they are at it.
    pub at_it: u64,
}

/// Way in which a member that isn't being asked holds up an end.
#[derive(Clone, Copy, PartialEq, Eq)]
pub enum Standing {
    /// The member answered last that it is at it.
    AtIt,
    /// The member was asked in vain three times or more.
    Silent,
    /// The member was asked in vain less often, and is to be asked by now.
    Waiting,
    /// The member is to be asked later, and doesn't hold the end up yet.
    Timely,
}

/// Returns how a member holds up an end at a moment. `repeats` says how often it was asked in vain, `due` from which
/// moment on it is to be asked, and `is_at_it` whether it answered last that it is at it.
pub fn standing_of(repeats: u64, due: u64, moment: u64, is_at_it: bool) -> Standing
    ensures { result ≡ spec.standing_of repeats due moment is_at_it }
{
    if is_at_it {
        Standing::AtIt
    } else if repeats >= IN_VAIN {
        Standing::Silent
    } else if due <= moment {
        Standing::Waiting
    } else {
        Standing::Timely
    }
}

impl Overdue {
    /// Returns counts of 0.
    pub fn none() -> Overdue
        ensures { result ≡ no_overdue }
    {
        Overdue {
            silent: 0,
            waiting: 0,
            at_it: 0,
        }
    }

    /// Adds the counts of another journal.
    pub fn add(&mut self, others: &Overdue)
        ensures { self.new ≡ overdue_in_both self.old others.now }
    {
        self.silent = self.silent.saturating_add(others.silent);
        self.waiting = self.waiting.saturating_add(others.waiting);
        self.at_it = self.at_it.saturating_add(others.at_it);
    }

    /// Adds a member, by the way in which it holds up an end.
    fn add_member(&mut self, standing: Standing) {
        match standing {
            Standing::AtIt => self.at_it = self.at_it.saturating_add(1),
            Standing::Silent => self.silent = self.silent.saturating_add(1),
            Standing::Waiting => self.waiting = self.waiting.saturating_add(1),
            Standing::Timely => {}
        }
    }
}

/// Count under way: the members that were found, and the number of queries that are left.
#[derive(Clone, Copy)]
struct Tally {
    alloc: Global,
    moment: u64,
    found: Overdue,
    left: u64,
}

impl Tally {
    /// Returns the first row of a listing at or after a place, among the rows that one query reads. Returns none if no
    /// query is left.
    fn row<O: Overview>(
        &mut self,
        overview: &mut O,
        instance: Instance,
        of: Listing,
        place: u64,
    ) -> Result<QueryResult, Trouble>
        ensures { O.orders overview.new ≡ O.orders overview.old }
    {
        if self.left == 0 {
            return Ok(QueryResult::NoMore);
        }
        self.left -= 1;
        Ok(overview.query(instance, Query::Row { of, place })?)
    }

    /// Returns how a member with a want holds up an end. A member that was never asked in vain has answered nothing.
    fn standing<O: Overview>(
        &self,
        overview: &mut O,
        instance: Instance,
        member: u64,
        want: &Want,
    ) -> Result<Standing, Trouble>
        ensures { O.orders overview.new ≡ O.orders overview.old }
    {
        let is_at_it = want.repeats > 0 && is_at_it(self.alloc, overview, instance, member)?;
        Ok(standing_of(want.repeats, want.due, self.moment, is_at_it))
    }

    /// Adds the members of an action.
    fn add_members<O: Overview>(
        &mut self,
        overview: &mut O,
        instance: Instance,
        action: u64,
    ) -> Result<(), Trouble>
        ensures { O.orders overview.new ≡ O.orders overview.old }
    {
        let of = Listing::Members { action };
        let mut from = 0;
        for _row in 0..u64::MAX {
            match self.row(overview, instance, of, from)? {
                QueryResult::Row {
                    place,
                    row: Row::Member {
                        member,
                        want: Some(want),
                        ..
                    },
                } => {
                    let standing = self.standing(overview, instance, member, &want)?;
                    self.found.add_member(standing);
                    from = place.saturating_add(1);
                }
                QueryResult::Row { place, .. } => from = place.saturating_add(1),
                QueryResult::Further(next) => from = next,
                _ => return Ok(()),
            }
        }
        Ok(())
    }

    /// Adds the members of those actions of a stretch that have a status.
    fn add_stretch<O: Overview>(
        &mut self,
        overview: &mut O,
        instance: Instance,
        status: ActionStatus,
        start: u64,
    ) -> Result<(), Trouble>
        ensures { O.orders overview.new ≡ O.orders overview.old }
    {
        let of = Listing::Actions {
            status: Some(status),
        };
        let mut from = start;
        for _row in 0..STRETCH {
            match self.row(overview, instance, of, from)? {
                QueryResult::Row {
                    place,
                    row: Row::Action { action, .. },
                } if place.saturating_sub(start) < STRETCH => {
                    self.add_members(overview, instance, action)?;
                    from = place.saturating_add(1);
                }
                _ => return Ok(()),
            }
        }
        Ok(())
    }
}

/// Counts the members that hold up ends at a moment, of the actions that a census found to be closing or cancelling. It
/// goes by stretches, the oldest first, and asks a thousand queries at most.
pub(crate) fn count_overdue<O: Overview>(
    alloc: Global,
    overview: &mut O,
    instance: Instance,
    census: &Census,
    moment: u64,
) -> Result<Overdue, Trouble>
    ensures { O.orders overview.new ≡ O.orders overview.old }
{
    let mut tally = Tally {
        alloc,
        moment,
        found: Overdue::none(),
        left: MOST,
    };
    for start in census.ending() {
        tally.add_stretch(overview, instance, ActionStatus::Closing, *start)?;
        tally.add_stretch(overview, instance, ActionStatus::Cancelling, *start)?;
    }
    Ok(tally.found)
}
