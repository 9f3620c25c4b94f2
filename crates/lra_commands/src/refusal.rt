//! Why a command is refused.

ghost use Rattle.std.specs.Prelude.{◌≡◌};
ghost use Rattle.lra_commands.specs.Names.{resource_name, refusal_name};

use lra_model::ActionStatus;
use std::alloc::{AllocError, AllocFailed};
use std::error::Error;
use std::fmt;

/// The resource that there may be too much of.
#[derive(Clone, Copy, Debug, PartialEq, Eq)]
pub enum Resource {
    Clerks,
    Actions,
    Members,
    Entries,
}

/// Why a command is refused. After a refusal the coordinator is as it was.
#[derive(Clone, Copy, Debug, PartialEq, Eq)]
pub enum Refusal {
    NoSuchClerk,
    /// The journal is of version 1, which has no renewed limits.
    OldJournal,
    /// The action, or the parent of a new one.
    NoSuchAction,
    NoSuchMember,
    WrongAction,
    HasLeft,
    /// The action's status doesn't allow it.
    NotActive(ActionStatus),
    /// A text is no address, or the member has none that it needs.
    BadAddresses,
    /// The limit would pass after 2^64 - 1 milliseconds.
    LimitTooFar,
    TooDeep,
    /// The entries that would be written don't fit into the coordinator's limits.
    Full(Resource),
    /// The ask isn't outstanding, or the member isn't asked for what it reports.
    NotAsked,
    /// The journal's writer has failed.
    Stopped,
    Memory,
}

impl From<AllocError> for Refusal {
    ghost use Rattle.std.specs.Prelude.{◌≡◌};
    ghost use Rattle.lra_commands.specs.declared.refusal.Refusal.TheVariants.{Memory};

    ghost from_gives = { λ _ refusal. refusal ≡ Memory };

    fn from(_error: AllocError) -> Refusal {
        Refusal::Memory
    }
}

impl<T: Drop> From<AllocFailed<T>> for Refusal {
    ghost use Rattle.std.specs.Prelude.{◌≡◌};
    ghost use Rattle.lra_commands.specs.declared.refusal.Refusal.TheVariants.{Memory};

    ghost from_gives = { λ _ refusal. refusal ≡ Memory };

    fn from(_error: AllocFailed<T>) -> Refusal {
        Refusal::Memory
    }
}

impl Resource {
    /// Returns its word in a script's output and in an HTTP body.
    pub const fn name(self) -> &'static str
        ensures { result.now ≡ resource_name self }
    {
        match self {
            Resource::Clerks => "Clerks",
            Resource::Actions => "Actions",
            Resource::Members => "Members",
            Resource::Entries => "Entries",
        }
    }
}

impl Refusal {
    /// Returns its word in a script's output and in an HTTP body.
    pub const fn name(self) -> &'static str
        ensures { result.now ≡ refusal_name self }
    {
        match self {
            Refusal::NoSuchClerk => "NoSuchClerk",
            Refusal::OldJournal => "OldJournal",
            Refusal::NoSuchAction => "NoSuchAction",
            Refusal::NoSuchMember => "NoSuchMember",
            Refusal::WrongAction => "WrongAction",
            Refusal::HasLeft => "HasLeft",
            Refusal::NotActive(_) => "NotActive",
            Refusal::BadAddresses => "BadAddresses",
            Refusal::LimitTooFar => "LimitTooFar",
            Refusal::TooDeep => "TooDeep",
            Refusal::Full(_) => "Full",
            Refusal::NotAsked => "NotAsked",
            Refusal::Stopped => "Stopped",
            Refusal::Memory => "Memory",
        }
    }

    /// Returns the text that is shown to a person.
    const fn text(self) -> &'static str {
        match self {
            Refusal::NoSuchClerk => "the clerk isn't enrolled",
            Refusal::OldJournal => "the journal is of version 1",
            Refusal::NoSuchAction => "the action isn't there",
            Refusal::NoSuchMember => "the member isn't there",
            Refusal::WrongAction => "the member is another action's",
            Refusal::HasLeft => "the member has left",
            Refusal::NotActive(_) => "the action isn't active",
            Refusal::BadAddresses => "the addresses don't fit",
            Refusal::LimitTooFar => "the limit is too far off",
            Refusal::TooDeep => "the action would be nested too deep",
            Refusal::Full(_) => "the coordinator is full",
            Refusal::NotAsked => "this wasn't asked",
            Refusal::Stopped => "the journal can't be written",
            Refusal::Memory => "out of memory",
        }
    }
}

impl fmt::Display for Refusal {
    fn fmt<W: fmt::Write>(&self, f: &mut fmt::Formatter<W>) -> fmt::Result {
        f.write_str(self.text())
    }
}

impl Error for Refusal {}
