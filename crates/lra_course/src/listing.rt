//! An account of a journal: each action and each member of its history.

ghost use Rattle.std.specs.Prelude.{◌≡◌, length};
ghost use Rattle.lra_laws.specs.Rows.{row_at};
ghost use Rattle.lra_course.specs.ListedRows.{listed_by};

use lra_course_rows::Rows;
use lra_model::{ActionStatus, MemberStatus, Rule};
use std::marker::Model;

/// An action, its parent and its status.
#[derive(Clone, Copy, PartialEq, Eq)]
pub struct ListedAction {
    pub action: u64,
    pub parent: Option<u64>,
    pub status: ActionStatus,
}

/// A member, its action and its status.
#[derive(Clone, Copy, PartialEq, Eq)]
pub struct ListedMember {
    pub member: u64,
    pub action: u64,
    pub status: MemberStatus,
}

/// The actions and the members of a legal history, each in the order of their numbers, which begin with 1.
#[derive(Drop)]
pub struct Listing {
    rows: Rows,
}

impl Model for Listing {
    ghost use Rattle.lra_course.specs.Listed.{Listed};
    ghost use Rattle.lra_course.specs.ListedRows.{listed_by};

    ghost Value = { Listed };

    ghost view = { λ l. listed_by l.rows };
}

impl Listing {
    pub(crate) fn of(rows: Rows) -> Listing
        ensures { result ≡ listed_by rows }
    {
        Listing { rows }
    }

    /// Returns the number of actions.
    pub fn action_count(&self) -> u64
        ensures { result ≡ length self.now.actions }
    {
        self.rows.count_actions()
    }

    /// Returns the number of members.
    pub fn member_count(&self) -> u64
        ensures { result ≡ length self.now.members }
    {
        self.rows.count_members()
    }

    /// Returns the action of a number, if it is there.
    pub fn action(&self, number: u64) -> Option<ListedAction>
        ensures { result ≡ row_at self.now.actions number }
    {
        let row = self.rows.action(number)?;
        Some(ListedAction {
            action: number,
            parent: row.parent,
            status: row.status,
        })
    }

    /// Returns the member of a number, if it is there.
    pub fn member(&self, number: u64) -> Option<ListedMember>
        ensures { result ≡ row_at self.now.members number }
    {
        let row = self.rows.member(number)?;
        Some(ListedMember {
            member: number,
            action: row.action,
            status: row.status,
        })
    }
}

/// The account of a journal: the listing of its history, or its first fault.
#[derive(Drop)]
pub enum Account {
    /// The history is legal.
    Sound(Listing),
    /// The first line at fault, counted from 1, and the first rule that it breaks.
    Unsound { line: u64, rule: Rule },
}
