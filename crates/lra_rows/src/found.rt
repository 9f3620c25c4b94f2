//! Reads of the rows: actions, members, asks, clerks and counts.

ghost use Rattle.std.specs.Prelude.{◌≡◌, length, ◌&&◌};
ghost use Rattle.lra_model.specs.History as history;
ghost use Rattle.lra_model.specs.Actions as words;
ghost use Rattle.lra_laws.specs.Snapshots.{StandsFor};
ghost use Rattle.lra_laws.specs.Rows.{stands_as};
ghost use Rattle.lra_rows.specs.Found.{found_action, found_member, found_addresses, found_ask};
ghost use Rattle.lra_rows.specs.inner.Held as held;

use crate::endpoint::{Repeats, stage_of};
use crate::lists::{at, lent};
use crate::packed_addresses::PackedAddresses;
use crate::rows::Rows;
use lra_model::{ActionStatus, AskKind, Direction, MemberStatus, Outcome};
use lra_states::{MemberState, way_asked};

/// An action, as it is now.
#[derive(Clone, Copy)]
pub struct ActionRow {
    pub parent: Option<u64>,
    /// The limit in force in milliseconds, where 0 is none.
    pub limit: u64,
    /// The moment that the limit counts from.
    pub since: u64,
    /// The depth at which it is nested: 1 where it has no parent.
    pub depth: u64,
    pub status: ActionStatus,
}

/// A member, as it is now.
#[derive(Clone, Copy)]
pub struct MemberRow {
    pub action: u64,
    pub status: MemberStatus,
    /// The outcome that decided completion: the first reply or report of it that was done or failed, or done where the
    /// member was skipped. Later ones change nothing.
    pub completion: Option<Outcome>,
    /// The outcome that decided compensation, likewise.
    pub compensation: Option<Outcome>,
    /// The ask of it that is outstanding.
    pub outstanding: Option<u64>,
    /// The kind of ask that it wants next.
    pub want: Option<AskKind>,
    /// The number of attempts at that ask with no final answer; 0 where it wants nothing.
    pub k: u64,
    /// The moment of the last such attempt's outcome.
    pub last: Option<u64>,
}

/// An ask that was made.
#[derive(Clone, Copy)]
pub struct AskRow {
    pub member: u64,
    pub kind: AskKind,
    pub direction: Direction,
    /// True where neither its reply nor a restart came after it.
    pub outstanding: bool,
}

/// Returns whether the ask of that number is the one that the member's row has.
fn stands_as(number: u64, row: &MemberState) -> bool
    ensures { result ≡ stands_as number row.now }
{
    match row.asked.get() {
        Some(asked) => asked.number == number,
        None => false,
    }
}

/// Returns the moment of the last of some repeats, if there is one.
fn last_of(repeats: Repeats) -> Option<u64>
    ensures { result ≡ held.last_of repeats }
{
    if repeats.count == 0 {
        None
    } else {
        Some(repeats.last)
    }
}

impl Rows {
    ghost use Rattle.std.specs.Prelude.{◌≡◌, length};
    ghost use Rattle.std.specs.Option.{option_copied};
    ghost use Rattle.lra_model.specs.History as history;
    ghost use Rattle.lra_model.specs.History.{History};
    ghost use Rattle.lra_model.specs.Actions as words;
    ghost use Rattle.lra_model.specs.Members.{members_under};
    ghost use Rattle.lra_laws.specs.Rows.{void_asks};
    ghost use Rattle.lra_laws.specs.Snapshots.{StandsFor};
    ghost use Rattle.lra_rows.specs.Found.{found_action, found_member, found_addresses, found_ask};
    ghost use Rattle.lra_rows.specs.inner.Held as held;

    fn held_action(&self, number: u64) -> Option<ActionRow>
        ensures { result ≡ held.held_action self.now.snapshot number }
    {
        let row = at(&self.actions, number)?;
        let nesting = lent(&self.nestings, number)?;
        Some(ActionRow {
            parent: row.parent,
            limit: row.limit.length,
            since: row.limit.since,
            depth: nesting.depth,
            status: row.status,
        })
    }

    /// Returns the action of that number, if it is there.
    pub fn action(&self, number: u64) -> Option<ActionRow>
        ensures { (J : History) → StandsFor self.now.snapshot J → result ≡ found_action J number }
    {
        self.held_action(number)
    }

    fn outstanding(&self, row: &MemberState) -> Option<u64>
        ensures { result ≡ held.held_outstanding self.now.snapshot row.now }
    {
        match row.asked.get() {
            Some(asked) if self.void < asked.number => Some(asked.number),
            _ => None,
        }
    }

    fn held_repeats(&self, number: u64, row: &MemberState) -> Repeats
        ensures { result ≡ held.held_repeats self.now.snapshot number row.now }
    {
        let Some(kind) = self.want(row) else {
            return Repeats::NONE;
        };
        self.endpoints
            .repeats(number, stage_of(kind, way_asked(kind, row.status)))
    }

    fn held_member(&self, number: u64) -> Option<MemberRow>
        ensures { result ≡ held.held_member self.now.snapshot number }
    {
        let row = at(&self.members, number)?;
        let repeats = self.held_repeats(number, &row);
        Some(MemberRow {
            action: row.action,
            status: row.status,
            completion: row.completed_as,
            compensation: row.compensated_as,
            outstanding: self.outstanding(&row),
            want: self.want(&row),
            k: repeats.count,
            last: last_of(repeats),
        })
    }

    /// Returns the member of that number, if it is there.
    pub fn member(&self, number: u64) -> Option<MemberRow>
        ensures { (J : History) → StandsFor self.now.snapshot J → result ≡ found_member J number }
    {
        self.held_member(number)
    }

    fn held_addresses(&self, number: u64) -> Option<&PackedAddresses>
        ensures { option_copied result ≡ held.held_addresses self.now.snapshot number }
    {
        self.endpoints.addresses(number)
    }

    /// Returns the addresses that a member joined with, if it is there.
    pub fn addresses(&self, number: u64) -> Option<&PackedAddresses>
        ensures { (J : History) → StandsFor self.now.snapshot J → option_copied result ≡ found_addresses J number }
    {
        self.held_addresses(number)
    }

    fn held_standing(&self, number: u64, member: u64) -> bool
        ensures { result ≡ held.held_standing self.now.snapshot number member }
    {
        if number <= self.void {
            return false;
        }
        match at(&self.members, member) {
            Some(row) => stands_as(number, &row),
            None => false,
        }
    }

    fn held_ask(&self, number: u64) -> Option<AskRow>
        ensures { result ≡ held.held_ask self.now.snapshot number }
    {
        let asked = self.asks.at(number)?;
        Some(AskRow {
            member: asked.member,
            kind: asked.kind,
            direction: asked.direction,
            outstanding: self.held_standing(number, asked.member),
        })
    }

    /// Returns the ask of that number, if it was made.
    pub fn ask(&self, number: u64) -> Option<AskRow>
        ensures { (J : History) → StandsFor self.now.snapshot J → result ≡ found_ask J number }
    {
        self.held_ask(number)
    }

    fn held_children(&self, number: u64) -> &[u64]
        ensures { result.now ≡ held.held_children self.now.snapshot number }
    {
        match lent(&self.nestings, number) {
            Some(nesting) => &nesting.children,
            None => &[],
        }
    }

    /// Returns the numbers of the actions nested directly in an action, rising.
    pub fn children(&self, number: u64) -> &[u64]
        ensures { (J : History) → StandsFor self.now.snapshot J → result.now ≡ words.children J number }
    {
        self.held_children(number)
    }

    fn held_members(&self, number: u64) -> &[u64]
        ensures { result.now ≡ held.held_members self.now.snapshot number }
    {
        match lent(&self.nestings, number) {
            Some(nesting) => &nesting.members,
            None => &[],
        }
    }

    /// Returns the numbers of an action's members, those that left among them, rising.
    pub fn members(&self, number: u64) -> &[u64]
        ensures { (J : History) → StandsFor self.now.snapshot J → result.now ≡ words.members_of J number }
    {
        self.held_members(number)
    }

    fn held_under(&self, number: u64) -> &[u64]
        ensures { result.now ≡ held.held_under self.now.snapshot number }
    {
        match lent(&self.nestings, number) {
            Some(nesting) => &nesting.under,
            None => &[],
        }
    }

    /// Returns the numbers of the members of an outermost action and of all below it, those that left among them,
    /// rising; none of a nested one.
    pub fn under(&self, number: u64) -> &[u64]
        ensures { (J : History) → StandsFor self.now.snapshot J → result.now ≡ members_under J number }
    {
        self.held_under(number)
    }

    fn held_clerk(&self, number: u32) -> bool
        ensures { result ≡ held.held_clerk self.now.snapshot number }
    {
        0 < number && u64::from(number) <= self.clerks
    }

    /// Returns whether a clerk is enrolled.
    pub fn is_clerk(&self, number: u32) -> bool
        ensures { (J : History) → StandsFor self.now.snapshot J → result ≡ history.is_among (history.clerks J) number }
    {
        self.held_clerk(number)
    }

    /// Returns the number of entries.
    pub fn count_entries(&self) -> u64
        ensures { (J : History) → StandsFor self.now.snapshot J → result ≡ length J }
    {
        self.entries
    }

    /// Returns the number of clerks that are enrolled.
    pub fn count_clerks(&self) -> u64
        ensures { (J : History) → StandsFor self.now.snapshot J → result ≡ length (history.clerks J) }
    {
        self.clerks
    }

    /// Returns the number of actions that were started.
    pub fn count_actions(&self) -> u64
        ensures { (J : History) → StandsFor self.now.snapshot J → result ≡ length (history.actions J) }
    {
        self.actions.len() as u64
    }

    /// Returns the number of members that joined.
    pub fn count_members(&self) -> u64
        ensures { (J : History) → StandsFor self.now.snapshot J → result ≡ length (history.members J) }
    {
        self.members.len() as u64
    }

    /// Returns the number of asks that were made.
    pub fn count_asks(&self) -> u64
        ensures { (J : History) → StandsFor self.now.snapshot J → result ≡ length (history.asks J) }
    {
        self.asked
    }

    /// Returns the number of asks that were made before the last restart, which made them void.
    pub fn count_void(&self) -> u64
        ensures { (J : History) → StandsFor self.now.snapshot J → result ≡ void_asks J }
    {
        self.void
    }

    /// Returns the moment of the last entry; 0 where there is none.
    pub fn last_moment(&self) -> u64
        ensures { (J : History) → StandsFor self.now.snapshot J → result ≡ history.last_moment J }
    {
        self.moment
    }
}
