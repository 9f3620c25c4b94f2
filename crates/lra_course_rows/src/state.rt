//! The forward state of a history: a row for each action and for each member, and the member of each ask.

ghost use Rattle.std.specs.Prelude.{◌≡◌, ◌-◌, ◌<◌, SomeIff, Some, None, [], length};
ghost use Rattle.std.specs.Option.{option_and_then};
ghost use Rattle.lra_laws.specs.Rows.{State, new_top};
ghost use Rattle.lra_model.specs.Tests as tests;
ghost use Rattle.lra_laws.specs.inner.RowFacts.{facts_by, member_asked};
ghost use Rattle.lra_laws.specs.Rows.{row_at};
ghost use Rattle.lra_states.specs.inner.Changes.{with_row};

use lra_model::{Outcome, suits};
use lra_states::{ActionState, MemberState};
use std::alloc::Global;
use std::collections::HashMap;
use std::marker::Model;

/// The auditor's state of a history.
#[derive(Drop)]
pub struct Rows {
    /// The moment of the last entry.
    pub(crate) moment: u64,
    /// The number of enrolled clerks.
    pub(crate) clerks: u64,
    /// The number of asks that were made.
    pub(crate) asks: u64,
    /// Asks up to this number are void.
    pub(crate) void: u64,
    pub(crate) actions: Vec<ActionState>,
    pub(crate) members: Vec<MemberState>,
    /// The member of each ask that its row still holds.
    pub(crate) holders: HashMap<u64, u64>,
}

impl Model for Rows {
    ghost use Rattle.std.specs.Prelude.{nat_eq};
    ghost use Rattle.std.specs.HashMap.{get};
    ghost use Rattle.lra_laws.specs.Rows.{State};
    ghost use Rattle.lra_course_rows.specs.inner.Holders.{IsIndex};

    ghost Value = { State };

    ghost view = { λ r. record {
      moment = r.moment;
      clerks = r.clerks;
      asks = r.asks;
      void = r.void;
      actions = r.actions.items;
      members = r.members.items;
    } };

    ghost invariant = { λ r. IsIndex r.asks r.members.items (get nat_eq r.holders) };
}

/// Returns an action's row, if it is there.
pub(crate) fn action_at(rows: &[ActionState], number: u64) -> Option<ActionState>
    ensures { result ≡ row_at rows.now number }
{
    let place = number.checked_sub(1)?;
    rows.get(place as usize).copied()
}

/// Returns a member's row, if it is there.
pub(crate) fn member_at(rows: &[MemberState], number: u64) -> Option<MemberState>
    ensures { result ≡ row_at rows.now number }
{
    let place = number.checked_sub(1)?;
    rows.get(place as usize).copied()
}

/// Replaces an action's row, if there is one.
pub(crate) fn set_action(rows: &mut Vec<ActionState>, number: u64, row: ActionState)
    ensures { rows.new.items ≡ with_row number row rows.old.items }
{
    if let Some(place) = number.checked_sub(1)
        && (place as usize) < rows.len()
    {
        rows[place as usize] = row;
    }
}

/// Replaces a member's row, if there is one.
pub(crate) fn set_member(rows: &mut Vec<MemberState>, number: u64, row: MemberState)
    ensures { rows.new.items ≡ with_row number row rows.old.items }
{
    if let Some(place) = number.checked_sub(1)
        && (place as usize) < rows.len()
    {
        rows[place as usize] = row;
    }
}

impl Rows {
    ghost use Rattle.lra_course_rows.specs.Start.{no_entries};

    /// Returns the state before the first entry.
    pub fn new(alloc: Global) -> Rows
        ensures { result ≡ no_entries }
    {
        Rows {
            moment: 0,
            clerks: 0,
            asks: 0,
            void: 0,
            actions: Vec::new(alloc),
            members: Vec::new(alloc),
            holders: HashMap::new(alloc),
        }
    }

    /// Returns the moment of the last entry.
    pub fn moment(&self) -> u64
        ensures { result ≡ self.now.moment }
    {
        self.moment
    }

    /// Returns the number of enrolled clerks.
    pub fn clerks(&self) -> u64
        ensures { result ≡ self.now.clerks }
    {
        self.clerks
    }

    /// Returns the number of asks that were made.
    pub fn asks(&self) -> u64
        ensures { result ≡ self.now.asks }
    {
        self.asks
    }

    /// Returns the number of the last ask that is void.
    pub fn void(&self) -> u64
        ensures { result ≡ self.now.void }
    {
        self.void
    }

    /// Returns the rows of the actions.
    pub fn actions(&self) -> &[ActionState]
        ensures { result.now ≡ self.now.actions }
    {
        self.actions.as_slice()
    }

    /// Returns the rows of the members.
    pub fn members(&self) -> &[MemberState]
        ensures { result.now ≡ self.now.members }
    {
        self.members.as_slice()
    }

    /// Returns the number of actions.
    pub fn count_actions(&self) -> u64
        ensures { result ≡ length self.now.actions }
    {
        self.actions.len() as u64
    }

    /// Returns the number of members.
    pub fn count_members(&self) -> u64
        ensures { result ≡ length self.now.members }
    {
        self.members.len() as u64
    }

    /// Returns an action's row, if it is there.
    pub fn action(&self, number: u64) -> Option<ActionState>
        ensures { result ≡ row_at self.now.actions number }
    {
        action_at(&self.actions, number)
    }

    /// Returns a member's row, if it is there.
    pub fn member(&self, number: u64) -> Option<MemberState>
        ensures { result ≡ row_at self.now.members number }
    {
        member_at(&self.members, number)
    }

    /// Returns the row of the member that was asked, if the ask is outstanding.
    pub(crate) fn member_asked(&self, ask: u64) -> Option<MemberState>
        ensures { result ≡ member_asked self.now ask }
    {
        if ask <= self.void {
            return None;
        }
        match self.holders.get(&ask) {
            Some(member) => self.member(*member),
            None => None,
        }
    }

    /// Returns whether the ask is outstanding and may have that outcome.
    pub fn may_reply(&self, ask: u64, outcome: Outcome) -> bool
        ensures { result ≡ tests.may_reply (facts_by self.now) ask outcome }
    {
        let Some(row) = self.member_asked(ask) else {
            return false;
        };
        match row.asked.get() {
            Some(asked) => suits(asked.kind, outcome),
            None => false,
        }
    }

    /// Returns the number of the outermost action above a new one: its own number where it has no parent.
    pub(crate) fn new_top(&self, action: u64, parent: Option<u64>) -> u64
        ensures { result ≡ new_top self.now action parent }
    {
        match parent {
            Some(parent) => match self.action(parent) {
                Some(row) => row.top,
                None => action,
            },
            None => action,
        }
    }
}
