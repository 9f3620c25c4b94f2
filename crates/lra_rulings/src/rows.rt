//! The rows of a history, as the rules read them.

ghost use Rattle.std.specs.Prelude.{◌≡◌, ◌-◌, ◌<◌, Some, None, length};
ghost use Rattle.lra_laws.specs.Rows.{State, row_at};

use lra_states::{ActionState, MemberState};
use std::marker::Model;

/// The state of a history, borrowed.
#[derive(Drop)]
pub struct RowsRef<'a> {
    /// The moment of the last entry.
    pub moment: u64,
    /// The number of enrolled clerks.
    pub clerks: u64,
    /// The number of asks that were made.
    pub asks: u64,
    /// Asks up to this number are void.
    pub void: u64,
    pub actions: &'a [ActionState],
    pub members: &'a [MemberState],
}

impl<'a> Model for RowsRef<'a> {
    ghost use Rattle.lra_laws.specs.Rows.{State};

    ghost Value = { State };

    ghost view = { λ r. record {
      moment = r.moment;
      clerks = r.clerks;
      asks = r.asks;
      void = r.void;
      actions = r.actions.now;
      members = r.members.now;
    } };
}

impl RowsRef<'_> {
    pub(crate) fn count_actions(&self) -> u64
        ensures { result ≡ length self.now.actions }
    {
        self.actions.len() as u64
    }

    pub(crate) fn count_members(&self) -> u64
        ensures { result ≡ length self.now.members }
    {
        self.members.len() as u64
    }

    /// Returns an action's row, if it is there.
    pub(crate) fn action(&self, number: u64) -> Option<ActionState>
        ensures { result ≡ row_at self.now.actions number }
    {
        let place = number.checked_sub(1)?;
        self.actions.get(place as usize).copied()
    }

    /// Returns a member's row, if it is there.
    pub(crate) fn member(&self, number: u64) -> Option<MemberState>
        ensures { result ≡ row_at self.now.members number }
    {
        let place = number.checked_sub(1)?;
        self.members.get(place as usize).copied()
    }
}
