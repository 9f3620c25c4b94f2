//! The kinds and outcomes of asks to members, and the causes for which actions are closed or cancelled.

ghost use Rattle.std.specs.Prelude.{◌≡◌, IfSome, Some};
ghost use Rattle.lra_model.specs.Words.{outcome_suits};

use crate::naming::{Named, find_by_name};

/// The kind of an ask to a member.
#[derive(Clone, Copy, Debug, PartialEq, Eq)]
pub enum AskKind {
    Complete,
    Compensate,
    Status,
    Forget,
    After,
}

/// The direction of an ask, a reply or a report.
#[derive(Clone, Copy, Debug, PartialEq, Eq)]
pub enum Direction {
    Completion,
    Compensation,
    Neither,
}

/// The outcome of an ask.
#[derive(Clone, Copy, Debug, PartialEq, Eq)]
pub enum Outcome {
    Done,
    Accepted,
    Failed,
    Silent,
}

/// The cause that closed or cancelled an action.
#[derive(Clone, Copy, Debug, PartialEq, Eq)]
pub enum Cause {
    Client,
    Parent,
    Limit,
}

impl AskKind {
    ghost use Rattle.lra_model.specs.Names.{ask_kind_name};

    /// Returns its word in a journal.
    pub const fn name(self) -> &'static str
        ensures { result.now ≡ ask_kind_name self }
    {
        match self {
            AskKind::Complete => "complete",
            AskKind::Compensate => "compensate",
            AskKind::Status => "status",
            AskKind::Forget => "forget",
            AskKind::After => "after",
        }
    }

    /// Returns the kind of this name, if there is one.
    pub fn from_name(text: &[u8]) -> Option<Self>
        ensures found { IfSome result (λ kind. text.now ≡ ask_kind_name kind) }
        ensures only { (kind : AskKind) → text.now ≡ ask_kind_name kind → result ≡ Some kind }
    {
        let values = [
            AskKind::Complete,
            AskKind::Compensate,
            AskKind::Status,
            AskKind::Forget,
            AskKind::After,
        ];
        find_by_name(&values, text)
    }
}

impl Named for AskKind {
    ghost use Rattle.lra_model.specs.Names.{ask_kind_name};

    ghost name_of = { ask_kind_name };

    fn name(self) -> &'static str {
        AskKind::name(self)
    }
}

impl Direction {
    ghost use Rattle.lra_model.specs.Names.{direction_name};

    /// Returns its word.
    pub const fn name(self) -> &'static str
        ensures { result.now ≡ direction_name self }
    {
        match self {
            Direction::Completion => "completion",
            Direction::Compensation => "compensation",
            Direction::Neither => "neither",
        }
    }

    /// Returns the direction of this name, if there is one.
    pub fn from_name(text: &[u8]) -> Option<Self>
        ensures found { IfSome result (λ direction. text.now ≡ direction_name direction) }
        ensures only { (direction : Direction) → text.now ≡ direction_name direction → result ≡ Some direction }
    {
        let values = [
            Direction::Completion,
            Direction::Compensation,
            Direction::Neither,
        ];
        find_by_name(&values, text)
    }
}

impl Named for Direction {
    ghost use Rattle.lra_model.specs.Names.{direction_name};

    ghost name_of = { direction_name };

    fn name(self) -> &'static str {
        Direction::name(self)
    }
}

impl Outcome {
    ghost use Rattle.lra_model.specs.Names.{outcome_name};
    ghost use Rattle.lra_model.specs.Words.{is_decisive};

    /// Returns its word in a journal.
    pub const fn name(self) -> &'static str
        ensures { result.now ≡ outcome_name self }
    {
        match self {
            Outcome::Done => "done",
            Outcome::Accepted => "accepted",
            Outcome::Failed => "failed",
            Outcome::Silent => "silent",
        }
    }

    /// Returns the outcome of this name, if there is one.
    pub fn from_name(text: &[u8]) -> Option<Self>
        ensures found { IfSome result (λ outcome. text.now ≡ outcome_name outcome) }
        ensures only { (outcome : Outcome) → text.now ≡ outcome_name outcome → result ≡ Some outcome }
    {
        let values = [
            Outcome::Done,
            Outcome::Accepted,
            Outcome::Failed,
            Outcome::Silent,
        ];
        find_by_name(&values, text)
    }

    /// Returns whether it decides a direction.
    pub const fn is_decisive(self) -> bool
        ensures { result ≡ is_decisive self }
    {
        matches!(self, Outcome::Done | Outcome::Failed)
    }
}

impl Named for Outcome {
    ghost use Rattle.lra_model.specs.Names.{outcome_name};

    ghost name_of = { outcome_name };

    fn name(self) -> &'static str {
        Outcome::name(self)
    }
}

impl Cause {
    ghost use Rattle.lra_model.specs.Names.{cause_name};

    /// Returns its word in a journal.
    pub const fn name(self) -> &'static str
        ensures { result.now ≡ cause_name self }
    {
        match self {
            Cause::Client => "client",
            Cause::Parent => "parent",
            Cause::Limit => "limit",
        }
    }

    /// Returns the cause of this name, if there is one.
    pub fn from_name(text: &[u8]) -> Option<Self>
        ensures found { IfSome result (λ cause. text.now ≡ cause_name cause) }
        ensures only { (cause : Cause) → text.now ≡ cause_name cause → result ≡ Some cause }
    {
        let values = [Cause::Client, Cause::Parent, Cause::Limit];
        find_by_name(&values, text)
    }
}

impl Named for Cause {
    ghost use Rattle.lra_model.specs.Names.{cause_name};

    ghost name_of = { cause_name };

    fn name(self) -> &'static str {
        Cause::name(self)
    }
}

/// Returns whether an ask of this kind may have this outcome. Asks to complete, to compensate and for a status may have
/// any outcome. Asks to forget and notices of the end may have Done and Silent alone.
pub fn suits(kind: AskKind, outcome: Outcome) -> bool
    ensures { result ≡ outcome_suits kind outcome }
{
    match kind {
        AskKind::Complete | AskKind::Compensate | AskKind::Status => true,
        AskKind::Forget | AskKind::After => matches!(outcome, Outcome::Done | Outcome::Silent),
    }
}
