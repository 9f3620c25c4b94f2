//! The statuses of actions and of members.

ghost use Rattle.std.specs.Prelude.{◌≡◌, IfSome, Some};

use crate::naming::{Named, find_by_name};

/// The status of an action (MicroProfile LRA 2.0, LRAStatus).
#[derive(Clone, Copy, Debug, PartialEq, Eq)]
pub enum ActionStatus {
    Active,
    Closing,
    Closed,
    FailedToClose,
    Cancelling,
    Cancelled,
    FailedToCancel,
}

/// The status of a member (MicroProfile LRA 2.0, ParticipantStatus; `Left` is this project's own).
#[derive(Clone, Copy, Debug, PartialEq, Eq)]
pub enum MemberStatus {
    Active,
    Completing,
    Completed,
    FailedToComplete,
    Compensating,
    Compensated,
    FailedToCompensate,
    Left,
}

/// The end of a member, as it reports it.
#[derive(Clone, Copy, Debug, PartialEq, Eq)]
pub enum Ending {
    Completed,
    FailedToComplete,
    Compensated,
    FailedToCompensate,
}

impl ActionStatus {
    ghost use Rattle.lra_model.specs.Names.{action_status_name};
    ghost use Rattle.lra_model.specs.Words as words;

    /// Returns its word in a journal.
    pub const fn name(self) -> &'static str
        ensures { result.now ≡ action_status_name self }
    {
        match self {
            ActionStatus::Active => "Active",
            ActionStatus::Closing => "Closing",
            ActionStatus::Closed => "Closed",
            ActionStatus::FailedToClose => "FailedToClose",
            ActionStatus::Cancelling => "Cancelling",
            ActionStatus::Cancelled => "Cancelled",
            ActionStatus::FailedToCancel => "FailedToCancel",
        }
    }

    /// Returns the status of this name, if there is one.
    pub fn from_name(text: &[u8]) -> Option<Self>
        ensures found { IfSome result (λ status. text.now ≡ action_status_name status) }
        ensures only { (status : ActionStatus) → text.now ≡ action_status_name status → result ≡ Some status }
    {
        let values = [
            ActionStatus::Active,
            ActionStatus::Closing,
            ActionStatus::Closed,
            ActionStatus::FailedToClose,
            ActionStatus::Cancelling,
            ActionStatus::Cancelled,
            ActionStatus::FailedToCancel,
        ];
        find_by_name(&values, text)
    }

    /// Returns whether it is Active, so that its client may close or cancel it.
    pub const fn is_active(self) -> bool
        ensures { result ≡ words.is_active self }
    {
        matches!(self, ActionStatus::Active)
    }

    /// Returns whether its members are being completed.
    pub const fn is_closing(self) -> bool
        ensures { result ≡ words.is_closing self }
    {
        matches!(self, ActionStatus::Closing)
    }

    /// Returns whether its members are being compensated.
    pub const fn is_cancelling(self) -> bool
        ensures { result ≡ words.is_cancelling self }
    {
        matches!(self, ActionStatus::Cancelling)
    }

    /// Returns whether it has closed without failure.
    pub const fn is_closed(self) -> bool
        ensures { result ≡ words.is_closed self }
    {
        matches!(self, ActionStatus::Closed)
    }

    /// Returns whether it has ended, well or in failure.
    pub const fn has_ended(self) -> bool
        ensures { result ≡ words.has_ended self }
    {
        match self {
            ActionStatus::Closed
            | ActionStatus::FailedToClose
            | ActionStatus::Cancelled
            | ActionStatus::FailedToCancel => true,
            _ => false,
        }
    }

    /// Returns whether it has ended in failure.
    pub const fn has_failed(self) -> bool
        ensures { result ≡ words.has_failed self }
    {
        matches!(
            self,
            ActionStatus::FailedToClose | ActionStatus::FailedToCancel
        )
    }

    /// Returns whether a Cancelling parent cancels it.
    pub const fn is_cancellable(self) -> bool
        ensures { result ≡ words.is_cancellable self }
    {
        matches!(
            self,
            ActionStatus::Active | ActionStatus::Closed | ActionStatus::FailedToClose
        )
    }

    /// Returns whether it is the same status as another.
    pub const fn is_same(self, other: ActionStatus) -> bool
        ensures { result ≡ words.same_status self other }
    {
        match self {
            ActionStatus::Active => matches!(other, ActionStatus::Active),
            ActionStatus::Closing => matches!(other, ActionStatus::Closing),
            ActionStatus::Closed => matches!(other, ActionStatus::Closed),
            ActionStatus::FailedToClose => matches!(other, ActionStatus::FailedToClose),
            ActionStatus::Cancelling => matches!(other, ActionStatus::Cancelling),
            ActionStatus::Cancelled => matches!(other, ActionStatus::Cancelled),
            ActionStatus::FailedToCancel => matches!(other, ActionStatus::FailedToCancel),
        }
    }
}

impl Named for ActionStatus {
    ghost use Rattle.lra_model.specs.Names.{action_status_name};

    ghost name_of = { action_status_name };

    fn name(self) -> &'static str {
        ActionStatus::name(self)
    }
}

impl MemberStatus {
    ghost use Rattle.lra_model.specs.Names.{member_status_name};
    ghost use Rattle.lra_model.specs.Words as words;

    /// Returns its word in a journal.
    pub const fn name(self) -> &'static str
        ensures { result.now ≡ member_status_name self }
    {
        match self {
            MemberStatus::Active => "Active",
            MemberStatus::Completing => "Completing",
            MemberStatus::Completed => "Completed",
            MemberStatus::FailedToComplete => "FailedToComplete",
            MemberStatus::Compensating => "Compensating",
            MemberStatus::Compensated => "Compensated",
            MemberStatus::FailedToCompensate => "FailedToCompensate",
            MemberStatus::Left => "Left",
        }
    }

    /// Returns the status of this name, if there is one.
    pub fn from_name(text: &[u8]) -> Option<Self>
        ensures found { IfSome result (λ status. text.now ≡ member_status_name status) }
        ensures only { (status : MemberStatus) → text.now ≡ member_status_name status → result ≡ Some status }
    {
        let values = [
            MemberStatus::Active,
            MemberStatus::Completing,
            MemberStatus::Completed,
            MemberStatus::FailedToComplete,
            MemberStatus::Compensating,
            MemberStatus::Compensated,
            MemberStatus::FailedToCompensate,
            MemberStatus::Left,
        ];
        find_by_name(&values, text)
    }

    /// Returns whether it is Active: its member hasn't left, and was asked neither to complete nor to compensate.
    pub const fn is_untouched(self) -> bool
        ensures { result ≡ words.is_untouched self }
    {
        matches!(self, MemberStatus::Active)
    }

    pub const fn is_completing(self) -> bool
        ensures { result ≡ words.is_completing self }
    {
        matches!(self, MemberStatus::Completing)
    }

    pub const fn is_completed(self) -> bool
        ensures { result ≡ words.is_completed self }
    {
        matches!(self, MemberStatus::Completed)
    }

    pub const fn is_compensating(self) -> bool
        ensures { result ≡ words.is_compensating self }
    {
        matches!(self, MemberStatus::Compensating)
    }

    /// Returns whether its member failed to complete or to compensate.
    pub const fn has_failed(self) -> bool
        ensures { result ≡ words.member_has_failed self }
    {
        matches!(
            self,
            MemberStatus::FailedToComplete | MemberStatus::FailedToCompensate
        )
    }

    /// Returns whether it has left its action.
    pub const fn has_gone(self) -> bool
        ensures { result ≡ words.has_gone self }
    {
        matches!(self, MemberStatus::Left)
    }
}

impl Named for MemberStatus {
    ghost use Rattle.lra_model.specs.Names.{member_status_name};

    ghost name_of = { member_status_name };

    fn name(self) -> &'static str {
        MemberStatus::name(self)
    }
}

impl Ending {
    ghost use Rattle.lra_model.specs.Names.{ending_name};

    /// Returns its word in a journal.
    pub const fn name(self) -> &'static str
        ensures { result.now ≡ ending_name self }
    {
        match self {
            Ending::Completed => "Completed",
            Ending::FailedToComplete => "FailedToComplete",
            Ending::Compensated => "Compensated",
            Ending::FailedToCompensate => "FailedToCompensate",
        }
    }

    /// Returns the ending of this name, if there is one.
    pub fn from_name(text: &[u8]) -> Option<Self>
        ensures found { IfSome result (λ ending. text.now ≡ ending_name ending) }
        ensures only { (ending : Ending) → text.now ≡ ending_name ending → result ≡ Some ending }
    {
        let values = [
            Ending::Completed,
            Ending::FailedToComplete,
            Ending::Compensated,
            Ending::FailedToCompensate,
        ];
        find_by_name(&values, text)
    }
}

impl Named for Ending {
    ghost use Rattle.lra_model.specs.Names.{ending_name};

    ghost name_of = { ending_name };

    fn name(self) -> &'static str {
        Ending::name(self)
    }
}
