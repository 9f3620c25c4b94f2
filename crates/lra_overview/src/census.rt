//! Counts of the actions that have each status. Actions that can't change any more are counted only once.

ghost use Rattle.std.specs.Prelude.{◌≡◌};

use crate::faults::Trouble;
use crate::overview::Overview;
use crate::shares::{NONE, Shares, add, add_shares, count_ended, count_ending, count_failed};
use crate::untold::Telling;
use lra_commands::{Listing, Query, QueryResult, Row};
use lra_ids::Instance;
use lra_model::ActionStatus;
use std::alloc::Global;

/// Number of rows that one query reads. So many actions, one after another, are a stretch.
pub(crate) const STRETCH: u64 = 256;

/// Statuses in the order in which the census asks for them: most actions of a stretch have the first of them.
const ASKED: [ActionStatus; 7] = [
    ActionStatus::Closed,
    ActionStatus::Active,
    ActionStatus::Cancelled,
    ActionStatus::Closing,
    ActionStatus::Cancelling,
    ActionStatus::FailedToClose,
    ActionStatus::FailedToCancel,
];

/// Stretch in which some actions may still change.
#[derive(Clone, Copy)]
struct OpenStretch {
    /// Place where it begins.
    place: u64,
    /// Flag, set if an action in it is known to be nested in another. It may have closed, and be cancelled with that
    /// one.
    is_nested: bool,
}

/// Counts of a journal's actions. A stretch in which no action can change any more is counted once: all have ended, and
/// none is nested in one of a stretch before it that may change. The others are counted again each time.
#[derive(Drop)]
pub struct Census {
    /// Stretches in which some actions may still change, in their order.
    open: Vec<OpenStretch>,
    /// Places where the stretches begin in which some actions were closing or cancelling at the last count.
    ending: Vec<u64>,
    /// Place from which on no stretch is whole, or none was counted.
    behind: u64,
    /// Numbers of actions of each status, in stretches that aren't open.
    ended: Shares,
    /// Number of actions that had ended as failed by the last count, and the number of times that one was found to.
    failed: u64,
    failures: u64,
    /// Counts of the members that are still to be told how their action ended.
    telling: Telling,
}

/// Number of rows of a stretch that belong to a listing, and the place where the next stretch begins, if there is one.
#[derive(Clone, Copy)]
struct Part {
    count: u64,
    next: Option<u64>,
}

/// Numbers of actions of a stretch that have each status, and the place where the next stretch begins, if there is one.
#[derive(Clone, Copy)]
struct Stretch {
    shares: Shares,
    next: Option<u64>,
}

impl Stretch {
    /// Returns whether the stretch is whole, and all its actions have ended.
    fn is_over(&self) -> bool {
        self.next.is_some() && count_ended(&self.shares) == STRETCH
    }
}

/// Counts the actions of a stretch that have a status, or all of them.
fn count_at<O: Overview>(
    overview: &mut O,
    instance: Instance,
    status: Option<ActionStatus>,
    place: u64,
) -> Result<Part, Trouble>
    ensures { O.orders overview.new ≡ O.orders overview.old }
{
    let of = Listing::Actions { status };
    match overview.query(instance, Query::Count { of, place })? {
        QueryResult::Counted { count, next } => Ok(Part { count, next }),
        _ => Ok(Part {
            count: 0,
            next: None,
        }),
    }
}

/// Adds how many actions of a stretch have each status. Stops once `rows` actions are found.
fn add_stretch<O: Overview>(
    overview: &mut O,
    instance: Instance,
    place: u64,
    rows: u64,
    shares: &mut Shares,
) -> Result<(), Trouble>
    ensures { O.orders overview.new ≡ O.orders overview.old }
{
    let mut left = rows;
    for status in &ASKED {
        if left == 0 {
            return Ok(());
        }
        let part = count_at(overview, instance, Some(*status), place)?;
        add(shares, *status, part.count);
        left = left.saturating_sub(part.count);
    }
    Ok(())
}

/// Counts the actions of a stretch, by their status.
fn count_stretch<O: Overview>(
    overview: &mut O,
    instance: Instance,
    place: u64,
) -> Result<Stretch, Trouble>
    ensures { O.orders overview.new ≡ O.orders overview.old }
{
    let part = count_at(overview, instance, None, place)?;
    let mut shares = NONE;
    add_stretch(overview, instance, place, part.count, &mut shares)?;
    Ok(Stretch {
        shares,
        next: part.next,
    })
}

/// Returns whether an action of a whole stretch is nested in another.
fn has_nested<O: Overview>(
    overview: &mut O,
    instance: Instance,
    place: u64,
) -> Result<bool, Trouble>
    ensures { O.orders overview.new ≡ O.orders overview.old }
{
    let of = Listing::Actions { status: None };
    for row in 0..STRETCH {
        let place = place.saturating_add(row);
        match overview.query(instance, Query::Row { of, place })? {
            QueryResult::Row {
                row: Row::Action {
                    parent: Some(_),
                    ..
                },
                ..
            } => return Ok(true),
            QueryResult::Row { .. } => {}
            _ => return Ok(false),
        }
    }
    Ok(false)
}

impl OpenStretch {
    /// Returns whether an action of the stretch may still change, though all have ended: one is nested, and `is_first`
    /// doesn't say that all actions before the stretch have ended for good.
    fn may_change<O: Overview>(
        &mut self,
        overview: &mut O,
        instance: Instance,
        is_first: bool,
    ) -> Result<bool, Trouble>
        ensures { O.orders overview.new ≡ O.orders overview.old }
    {
        if is_first {
            return Ok(false);
        }
        if !self.is_nested {
            self.is_nested = has_nested(overview, instance, self.place)?;
        }
        Ok(self.is_nested)
    }
}

impl Census {
    /// Makes a census that has counted nothing.
    pub fn new(alloc: Global) -> Census {
        Census {
            open: Vec::new(alloc),
            ending: Vec::new(alloc),
            behind: 0,
            ended: NONE,
            failed: 0,
            failures: 0,
            telling: Telling::new(alloc),
        }
    }

    /// Counts the open stretches again. Those whose actions have all ended for good become closed, and aren't counted
    /// again.
    fn count_open<O: Overview>(
        &mut self,
        overview: &mut O,
        instance: Instance,
        shares: &mut Shares,
    ) -> Result<(), Trouble>
        ensures { O.orders overview.new ≡ O.orders overview.old }
    {
        let mut kept: usize = 0;
        for at in 0..self.open.len() {
            let Some(mut open) = self.open.get(at).copied() else {
                return Ok(());
            };
            let stretch = count_stretch(overview, instance, open.place)?;
            if stretch.is_over() && !open.may_change(overview, instance, kept == 0)? {
                add_shares(&mut self.ended, &stretch.shares);
                continue;
            }
            self.note_ending(open.place, &stretch)?;
            add_shares(shares, &stretch.shares);
            if let Some(slot) = self.open.get_mut(kept) {
                *slot = open;
            }
            kept = kept.saturating_add(1);
        }
        self.open.truncate(kept);
        Ok(())
    }

    /// Notes a stretch if some of its actions are closing or cancelling.
    fn note_ending(&mut self, place: u64, stretch: &Stretch) -> Result<(), Trouble> {
        if count_ending(&stretch.shares) > 0 {
            self.ending.push(place)?;
        }
        Ok(())
    }

    /// Notes a stretch that is whole. Adds its counts to `shares` if they may still change.
    fn note<O: Overview>(
        &mut self,
        overview: &mut O,
        instance: Instance,
        place: u64,
        stretch: &Stretch,
        shares: &mut Shares,
    ) -> Result<(), Trouble>
        ensures { O.orders overview.new ≡ O.orders overview.old }
    {
        let mut open = OpenStretch {
            place,
            is_nested: false,
        };
        if stretch.is_over() && !open.may_change(overview, instance, self.open.is_empty())? {
            add_shares(&mut self.ended, &stretch.shares);
        } else {
            self.open.push(open)?;
            add_shares(shares, &stretch.shares);
        }
        Ok(())
    }

    /// Counts the actions after the stretches that were counted before.
    fn count_behind<O: Overview>(
        &mut self,
        overview: &mut O,
        instance: Instance,
        shares: &mut Shares,
    ) -> Result<(), Trouble>
        ensures { O.orders overview.new ≡ O.orders overview.old }
    {
        for _part in 0..u64::MAX {
            let place = self.behind;
            let stretch = count_stretch(overview, instance, place)?;
            self.note_ending(place, &stretch)?;
            let Some(next) = stretch.next else {
                add_shares(shares, &stretch.shares);
                return Ok(());
            };
            self.note(overview, instance, place, &stretch, shares)?;
            self.behind = next;
        }
        Ok(())
    }

    /// Counts all actions, by their status.
    fn try_count<O: Overview>(
        &mut self,
        overview: &mut O,
        instance: Instance,
    ) -> Result<Shares, Trouble>
        ensures { O.orders overview.new ≡ O.orders overview.old }
    {
        let mut shares = NONE;
        self.ending.clear();
        self.count_open(overview, instance, &mut shares)?;
        self.count_behind(overview, instance, &mut shares)?;
        add_shares(&mut shares, &self.ended);
        self.note_failed(count_failed(&shares));
        Ok(shares)
    }

    /// Notes how many actions have ended as failed now. One that had may be cancelled since with the action above it.
    fn note_failed(&mut self, failed: u64) {
        let found = failed.saturating_sub(self.failed);
        self.failures = self.failures.saturating_add(found);
        self.failed = failed;
    }

    /// Returns how many times an action was found to have ended as failed. It never decreases.
    pub(crate) fn failures(&self) -> u64 {
        self.failures
    }

    /// Counts the actions that have each status now. If that fails, the next count starts from the first action.
    pub(crate) fn count<O: Overview>(
        &mut self,
        overview: &mut O,
        instance: Instance,
    ) -> Result<Shares, Trouble>
        ensures { O.orders overview.new ≡ O.orders overview.old }
    {
        let counted = self.try_count(overview, instance);
        if counted.is_err() {
            self.open.clear();
            self.behind = 0;
            self.ended = NONE;
        }
        counted
    }

    /// Returns how many members are still to be told how their action ended, of those that were read so far.
    pub(crate) fn count_untold<O: Overview>(
        &mut self,
        overview: &mut O,
        instance: Instance,
    ) -> Result<u64, Trouble>
        ensures { O.orders overview.new ≡ O.orders overview.old }
    {
        self.telling.count(overview, instance)
    }

    /// Returns the places where the stretches begin in which some actions were closing or cancelling at the last count,
    /// in their order.
    pub(crate) fn ending(&self) -> &[u64] {
        self.ending.as_slice()
    }

    /// Returns the first place, from one on, at which there may be an action that hasn't ended.
    pub(crate) fn first_open(&self, from: u64) -> u64 {
        if from >= self.behind {
            return from;
        }
        for open in self.open.as_slice() {
            if open.place.saturating_add(STRETCH) > from {
                return from.max(open.place);
            }
        }
        self.behind
    }
}
