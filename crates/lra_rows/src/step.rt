//! The writes of an entry: what it wrote over, and what it added.

use crate::endpoint::Repeats;
use lra_model::AskKind;
use lra_states::{ActionState, MemberState};
use std::marker::Model;

/// A row's number, and what stood there.
pub(crate) type Written<T> = (u64, T);

/// The counts of a history: its entries, clerks and asks, and the moment of its last entry.
#[derive(Clone, Copy)]
pub(crate) struct Counts {
    pub(crate) entries: u64,
    pub(crate) moment: u64,
    pub(crate) clerks: u64,
    pub(crate) asked: u64,
    pub(crate) void: u64,
}

impl Model for Counts {
    ghost use Rattle.lra_rows.specs.Steps as steps;

    ghost Value = { steps.Counts };

    ghost view = { λ c. record {
      entries = c.entries;
      moment = c.moment;
      clerks = c.clerks;
      asks = c.asked;
      void =
          c.void;
    } };

    ghost inverse = { λ c. record {
      entries = c.entries;
      moment = c.moment;
      clerks = c.clerks;
      asked = c.asks;
      void =
          c.void;
    } };
}

/// A member's repeats in a stage, as they were.
#[derive(Clone, Copy)]
pub(crate) struct Repeated {
    pub(crate) member: u64,
    pub(crate) stage: AskKind,
    pub(crate) repeats: Repeats,
}

impl Model for Repeated {
    ghost use Rattle.lra_rows.specs.Steps as steps;

    ghost Value = { steps.Repeated };

    ghost view = { λ r. record { member = r.member; stage = r.stage; repeats = r.repeats } };

    ghost inverse = { λ r. record { member = r.member; stage = r.stage; repeats = r.repeats } };
}

/// The row that an entry added at the end of the lists.
#[derive(Clone, Copy)]
pub(crate) enum Added {
    Nothing,
    Action { parent: Option<u64> },
    Member { action: u64, top: u64 },
    Ask,
}

/// The writes of an entry: what it wrote over, and what it added.
#[derive(Clone, Copy)]
pub(crate) struct Writes {
    pub(crate) member: Option<Written<MemberState>>,
    pub(crate) action: Option<Written<ActionState>>,
    /// Written after the action's row.
    pub(crate) parent: Option<Written<ActionState>>,
    pub(crate) repeats: Option<Repeated>,
    pub(crate) added: Added,
}

impl Model for Writes {
    ghost use Rattle.lra_rows.specs.Steps as steps;

    ghost Value = { steps.Writes };

    ghost view = { λ w. record {
      member = w.member;
      action = w.action;
      parent = w.parent;
      repeats = w.repeats;
      added =
          w.added;
    } };

    ghost inverse = { λ w. record {
      member = w.member;
      action = w.action;
      parent = w.parent;
      repeats = w.repeats;
      added = w.added;
    } };
}

impl Writes {
    pub(crate) const NONE: Writes = Writes {
        member: None,
        action: None,
        parent: None,
        repeats: None,
        added: Added::Nothing,
    };
}

/// An entry that was applied: what it wrote over and added, so that it can be undone.
#[derive(Clone, Copy)]
pub struct Step {
    pub(crate) before: Counts,
    pub(crate) writes: Writes,
}

impl Model for Step {
    ghost use Rattle.lra_rows.specs.Steps as steps;

    ghost Value = { steps.Step };

    ghost view = { λ s. record { before = s.before; writes = s.writes } };

    ghost inverse = { λ s. record { before = s.before; writes = s.writes } };
}
