//! Counts of actions and members.

ghost use Rattle.std.specs.Prelude.{◌≡◌, ◌≤◌, ◌<◌, ◌+◌, ◌^◌, None};
ghost use Rattle.lra_overview.specs.Counts.{no_overdue, overdue_in_both, no_totals, totals_with, summed};

use crate::census::Census;
use crate::faults::Trouble;
use crate::overdue::{Overdue, count_overdue};
use crate::overview::Overview;
use crate::shares::{NONE, Shares, add_shares};
use crate::unended::list_unended;
use lra_commands::{CounterFault, Query, QueryResult, Refusal};
use lra_ids::Instance;
use std::alloc::Global;

/// Largest number of bits of the number of an action or of a member. A journal's number of bytes has no more bits
/// either.
const MOST_BITS: u32 = 31;

/// Counts of actions and members, at some moment.
#[derive(Clone, Copy)]
pub struct Counts {
    pub shares: Shares,
    pub actions: u64,
    pub members: u64,
    /// First action that hasn't ended.
    pub oldest: Option<u64>,
    /// Numbers of members that hold up ends.
    pub overdue: Overdue,
    /// Number of members that are still to be told how their action ended.
    pub untold: u64,
    /// Number of times that an action was found to have ended as failed.
    pub failures: u64,
}

impl Counts {
    /// Returns counts of 0.
    pub fn none() -> Counts
        ensures numbers { (result.actions ≡ 0) × (result.members ≡ 0) × (result.untold ≡ 0) × (result.failures ≡ 0) }
        ensures oldest { result.oldest ≡ None }
        ensures overdue { result.overdue ≡ no_overdue }
    {
        Counts {
            shares: NONE,
            actions: 0,
            members: 0,
            oldest: None,
            overdue: Overdue::none(),
            untold: 0,
            failures: 0,
        }
    }

    /// Adds the counts of another journal.
    pub fn add(&mut self, others: &Counts)
        ensures actions { self.new.actions ≡ summed self.old.actions others.now.actions }
        ensures members { self.new.members ≡ summed self.old.members others.now.members }
        ensures oldest { self.new.oldest ≡ self.old.oldest }
        ensures overdue { self.new.overdue ≡ overdue_in_both self.old.overdue others.now.overdue }
        ensures untold { self.new.untold ≡ summed self.old.untold others.now.untold }
        ensures failures { self.new.failures ≡ summed self.old.failures others.now.failures }
    {
        add_shares(&mut self.shares, &others.shares);
        self.actions = self.actions.saturating_add(others.actions);
        self.members = self.members.saturating_add(others.members);
        self.overdue.add(&others.overdue);
        self.untold = self.untold.saturating_add(others.untold);
        self.failures = self.failures.saturating_add(others.failures);
    }
}

/// Returns a total that never decreases: the sum of a base, for journals that left, and the current number.
pub fn grown(base: u64, current: u64) -> u64
    ensures keeps { base ≤ result }
    ensures has { current ≤ result }
    ensures sum { base + current < 2 ^ 64 → result ≡ base + current }
    ensures summed { result ≡ summed base current }
{
    base.saturating_add(current)
}

/// Total numbers of actions and members that there ever were, and of times that an action was found to have ended as
/// failed, of some journals.
/// They never decrease.
#[derive(Clone, Copy)]
pub struct Totals {
    pub actions: u64,
    pub members: u64,
    pub failed: u64,
}

impl Totals {
    ghost use Rattle.std.specs.Prelude.{◌≤◌};

    /// Returns the totals of no journal.
    pub fn none() -> Totals
        ensures { result ≡ no_totals }
    {
        Totals {
            actions: 0,
            members: 0,
            failed: 0,
        }
    }

    /// Adds the counts of a journal, or of several.
    pub fn add(&mut self, counts: &Counts)
        ensures actions { self.old.actions ≤ self.new.actions }
        ensures members { self.old.members ≤ self.new.members }
        ensures failed { self.old.failed ≤ self.new.failed }
        ensures sums { self.new ≡ totals_with self.old counts.now }
    {
        self.actions = grown(self.actions, counts.actions);
        self.members = grown(self.members, counts.members);
        self.failed = grown(self.failed, counts.failures);
    }
}

/// Returns whether the action or member of a query exists, by the answer to the query.
fn is_there(asked: Result<QueryResult, CounterFault>) -> Result<bool, Trouble> {
    match asked {
        Ok(_) => Ok(true),
        Err(CounterFault::Refused(Refusal::NoSuchAction | Refusal::NoSuchMember)) => Ok(false),
        Err(fault) => Err(Trouble::from(fault)),
    }
}

/// Counts the members, whose numbers begin at 1.
fn count_members<O: Overview>(overview: &mut O, instance: Instance) -> Result<u64, Trouble>
    ensures { O.orders overview.new ≡ O.orders overview.old }
{
    let mut found: u64 = 0;
    for bit in 0..MOST_BITS {
        let member = found | (1u64 << (MOST_BITS - 1 - bit));
        if is_there(overview.query(instance, Query::MemberStatus { member }))? {
            found = member;
        }
    }
    Ok(found)
}

/// Counts the actions, whose numbers begin at 1.
fn count_actions<O: Overview>(overview: &mut O, instance: Instance) -> Result<u64, Trouble>
    ensures { O.orders overview.new ≡ O.orders overview.old }
{
    let mut found: u64 = 0;
    for bit in 0..MOST_BITS {
        let action = found | (1u64 << (MOST_BITS - 1 - bit));
        if is_there(overview.query(instance, Query::ActionStatus { action }))? {
            found = action;
        }
    }
    Ok(found)
}

/// Returns the first action that hasn't ended. The census says where to find it.
fn oldest<O: Overview>(
    alloc: Global,
    overview: &mut O,
    instance: Instance,
    census: &Census,
) -> Result<Option<u64>, Trouble>
    ensures { O.orders overview.new ≡ O.orders overview.old }
{
    let listed = list_unended(alloc, overview, instance, census, 0, 1)?;
    let first = listed.rows.as_slice().first().map(|row| row.action);
    drop(listed);
    Ok(first)
}

/// Counts the actions, the members, the members that hold up ends at a moment, and those that are still to be told how
/// their action ended. Each query reads 256 rows at most. The census goes on from its earlier counts.
pub fn count_all<O: Overview>(
    alloc: Global,
    overview: &mut O,
    instance: Instance,
    census: &mut Census,
    moment: u64,
) -> Result<Counts, Trouble>
    ensures { O.orders overview.new ≡ O.orders overview.old }
{
    let actions = count_actions(overview, instance)?;
    let members = count_members(overview, instance)?;
    let shares = census.count(overview, instance)?;
    let oldest = oldest(alloc, overview, instance, census)?;
    let overdue = count_overdue(alloc, overview, instance, census, moment)?;
    let untold = census.count_untold(overview, instance)?;
    Ok(Counts {
        shares,
        actions,
        members,
        oldest,
        overdue,
        untold,
        failures: census.failures(),
    })
}
