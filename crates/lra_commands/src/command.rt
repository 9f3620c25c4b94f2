//! The commands that clerks give to a coordinator, and its answers.

use lra_model::{ActionStatus, Ending, MemberStatus, Outcome, Uris};

/// A command that a clerk gives to the coordinator. `E` is the type of errands, each of which carries a request to a
/// member.
#[derive(Debug, Drop)]
pub enum Command<'a, E> {
    /// To have a number as a clerk.
    Enrol,
    /// To start an action. A limit is in milliseconds, and 0 is none.
    Start { parent: Option<u64>, limit: u64 },
    /// To let a member join an action.
    Join { action: u64, uris: &'a Uris },
    /// To let a member leave its action.
    Leave { action: u64, member: u64 },
    /// To close an action.
    Close { action: u64 },
    /// To cancel an action.
    Cancel { action: u64 },
    /// To cancel an action whose limit has passed.
    Tick,
    /// To ask a member for what is due.
    NextAsk,
    /// To record the outcome of an ask.
    Record { errand: &'a E, outcome: Outcome },
    /// To record what a member reports of itself.
    Report { member: u64, ending: Ending },
    /// To make every outstanding ask void.
    Restart,
    /// To set an action's limit anew, in milliseconds from now.
    Renew { action: u64, limit: u64 },
    /// To read an action's status.
    Status { action: u64 },
    /// To read a member's status.
    MemberStatus { member: u64 },
}

/// The coordinator's answer where it doesn't refuse.
#[derive(Clone, Copy, Debug, PartialEq, Eq)]
pub enum Told {
    /// The new clerk's number.
    Clerk(u32),
    /// The new action's number.
    Action(u64),
    /// The new member's number.
    Member(u64),
    /// The member that has joined this action with these addresses before.
    AlreadyMember(u64),
    Left,
    /// The action's status, once its close or cancel was written.
    Now(ActionStatus),
    /// The action's status, where it was closed or cancelled before.
    Already(ActionStatus),
    /// The action that was cancelled because its limit had passed.
    Fired(u64),
    /// Nothing is due.
    Idle,
    /// The number of the ask.
    Asked(u64),
    Recorded,
    /// The member's status, once its report was written.
    MemberNow(MemberStatus),
    /// The member's status, where the reported direction was decided before.
    MemberAlready(MemberStatus),
    Restarted,
    Renewed,
    /// The action's status.
    ActionIs(ActionStatus),
    /// The member's status.
    MemberIs(MemberStatus),
}
