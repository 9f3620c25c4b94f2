//! The state of a member and of an action that the rules read.

ghost use Rattle.std.specs.Prelude.{◌≡◌, Some, None};
ghost use Rattle.lra_model.specs.Tests as tests;

use lra_model::{ActionStatus, AskKind, Direction, MemberStatus, Outcome};
use std::marker::Model;

/// A limit in milliseconds, where 0 is none, and the moment that it counts from.
#[derive(Clone, Copy)]
pub struct Limit {
    pub length: u64,
    pub since: u64,
}

impl Model for Limit {
    ghost use Rattle.lra_model.specs.Actions as words;

    ghost Value = { words.Limit };

    ghost view = { λ l. record { length_of = l.length; since = l.since } };

    ghost inverse = { λ l. record { length = l.length_of; since = l.since } };
}

/// The presence of each address of a member.
#[derive(Clone, Copy)]
pub struct Presence {
    pub compensate: bool,
    pub complete: bool,
    pub status: bool,
    pub forget: bool,
    pub after: bool,
}

impl Model for Presence {
    ghost use Rattle.lra_model.specs.Addresses as texts;

    ghost Value = { texts.Presence };

    ghost view = { λ p. record {
      compensate = p.compensate;
      complete = p.complete;
      status = p.status;
      forget = p.forget;
      after = p.after;
    } };

    ghost inverse = { λ p. record {
      compensate = p.compensate;
      complete = p.complete;
      status = p.status;
      forget =
          p.forget;
      after = p.after;
    } };
}

/// An ask that its member hasn't answered. A restart may have made it void.
#[derive(Clone, Copy)]
pub struct Standing {
    pub number: u64,
    pub kind: AskKind,
    pub direction: Direction,
}

impl Model for Standing {
    ghost use Rattle.lra_laws.specs.Rows as rows;

    ghost Value = { rows.Standing };

    ghost view = { λ s. record { number = s.number; kind = s.kind; direction = s.direction } };

    ghost inverse = { λ s. record { number = s.number; kind = s.kind; direction = s.direction } };
}

/// The unanswered ask of a member, if there is one. It takes fewer bytes than an `Option` of the ask.
#[derive(Clone, Copy)]
pub struct Awaited {
    number: u64,
    kind: AskKind,
    direction: Direction,
    is_there: bool,
}

impl Model for Awaited {
    ghost use Rattle.std.specs.Prelude.{Option};
    ghost use Rattle.lra_laws.specs.Rows.{Standing};

    ghost Value = { Option Standing };

    ghost use Rattle.lra_states.specs.inner.Standings.{awaited, kept, IsKept, kept_awaited};

    ghost view = { awaited };

    ghost invariant = { IsKept };

    ghost inverse = { kept };

    ghost inverse_ok = { kept_awaited };
}

impl Awaited {
    /// Returns the value of a member without an unanswered ask.
    pub fn none() -> Awaited
        ensures { result ≡ None }
    {
        Awaited {
            number: 0,
            kind: AskKind::Complete,
            direction: Direction::Completion,
            is_there: false,
        }
    }

    /// Returns the value of a member with this unanswered ask.
    pub fn of(asked: Standing) -> Awaited
        ensures { result ≡ Some asked }
    {
        Awaited {
            number: asked.number,
            kind: asked.kind,
            direction: asked.direction,
            is_there: true,
        }
    }

    /// Returns the ask, if there is one.
    pub fn get(self) -> Option<Standing>
        ensures { result ≡ self }
    {
        if !self.is_there {
            return None;
        }
        Some(Standing {
            number: self.number,
            kind: self.kind,
            direction: self.direction,
        })
    }
}

/// The state of a member that the rules read. There may be very many members: the wide fields come first, so that few
/// bytes are lost between them.
#[derive(Clone, Copy)]
pub struct MemberState {
    pub action: u64,
    pub asked: Awaited,
    pub addresses: Presence,
    pub status: MemberStatus,
    /// The last reply in completion.
    pub completion: Option<Outcome>,
    /// The last reply in compensation.
    pub compensation: Option<Outcome>,
    /// The outcome that decided completion, done or failed.
    pub completed_as: Option<Outcome>,
    /// The outcome that decided compensation, done or failed.
    pub compensated_as: Option<Outcome>,
    pub has_forgotten: bool,
    pub was_told: bool,
}

const _: () = prove!(size_of::<MemberState>() == 40);

impl Model for MemberState {
    ghost use Rattle.lra_laws.specs.Rows as rows;

    ghost Value = { rows.MemberRow };

    ghost view = { λ r. record {
      action = r.action;
      addresses = r.addresses;
      status = r.status;
      completion = r.completion;
      compensation = r.compensation;
      completed_as = r.completed_as;
      compensated_as = r.compensated_as;
      asked = r.asked;
      has_forgotten = r.has_forgotten;
      was_told = r.was_told;
    } };

    ghost inverse = { λ r. record {
      action = r.action;
      addresses = r.addresses;
      status = r.status;
      completion = r.completion;
      compensation = r.compensation;
      completed_as = r.completed_as;
      compensated_as = r.compensated_as;
      asked = r.asked;
      has_forgotten = r.has_forgotten;
      was_told = r.was_told;
    } };
}

/// Returns whether a member's last reply in a direction was Accepted: the member goes on by itself.
pub fn was_accepted(reply: Option<Outcome>) -> bool
    ensures { result ≡ tests.was_accepted reply }
{
    matches!(reply, Some(Outcome::Accepted))
}

/// The state of an action that the rules read, with counts of its staying members and of its nested actions by their
/// status.
#[derive(Clone, Copy)]
pub struct ActionState {
    pub parent: Option<u64>,
    pub top: u64,
    pub status: ActionStatus,
    pub limit: Limit,
    /// Staying members that a Closing action waits for.
    pub completing: u64,
    /// Staying members that a Cancelling action waits for.
    pub compensating: u64,
    /// Staying members that haven't completed.
    pub uncompleted: u64,
    /// Staying members that haven't compensated.
    pub uncompensated: u64,
    /// Nested actions that haven't ended.
    pub unended: u64,
    /// Nested actions that haven't ended cancelled.
    pub uncancelled: u64,
    /// Nested actions that ended in failure.
    pub failed: u64,
}

impl Model for ActionState {
    ghost use Rattle.lra_laws.specs.Rows as rows;

    ghost Value = { rows.ActionRow };

    ghost view = { λ r. record {
      parent = r.parent;
      top = r.top;
      status = r.status;
      limit = r.limit;
      completing = r.completing;
      compensating = r.compensating;
      uncompleted = r.uncompleted;
      uncompensated = r.uncompensated;
      unended = r.unended;
      uncancelled = r.uncancelled;
      failed = r.failed;
    } };

    ghost inverse = { λ r. record {
      parent = r.parent;
      top = r.top;
      status = r.status;
      limit = r.limit;
      completing = r.completing;
      compensating = r.compensating;
      uncompleted = r.uncompleted;
      uncompensated = r.uncompensated;
      unended = r.unended;
      uncancelled = r.uncancelled;
      failed = r.failed;
    } };
}
