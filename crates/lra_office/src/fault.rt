//! Why an office doesn't do a command.

use lra_commands::Refusal;
use lra_model::Rule;
use std::alloc::AllocError;
use thiserror::Error;

/// Why no new office is made.
#[derive(Clone, Copy, Debug, PartialEq, Eq, Error)]
pub enum StartFault {
    /// The header of its journal can't be written.
    #[error("the journal can't be written")]
    Stopped,
    #[error("out of memory")]
    Memory,
}

/// Why an office can't go on from a journal.
#[derive(Clone, Copy, Debug, PartialEq, Eq, Error)]
pub enum ReopenFault {
    /// It isn't sound: the first line at fault, and the first rule that it breaks.
    #[error("line {line} breaks a rule")]
    Unsound { line: u64, rule: Rule },
    /// It passes the limits, or does once a clerk has enrolled and restarted.
    #[error("the journal passes the limits")]
    Full,
    /// The clerk's entries can't be written.
    #[error("the journal can't be written")]
    Stopped,
    #[error("out of memory")]
    Memory,
}

impl From<AllocError> for ReopenFault {
    ghost use Rattle.std.specs.Prelude.{◌≡◌};
    ghost use Rattle.lra_office.specs.declared.fault.ReopenFault.TheVariants.{Memory};

    ghost from_gives = { λ _ fault. fault ≡ Memory };

    fn from(_error: AllocError) -> ReopenFault {
        ReopenFault::Memory
    }
}

/// Why a command isn't done.
#[derive(Clone, Copy, Debug, PartialEq, Eq, Error)]
pub enum OfficeRefusal {
    /// The coordinator refused it, or its journal can't be written.
    #[error("{0}")]
    Refused(Refusal),
    /// No ticket is left, so that no command can be given any more.
    #[error("the lock is worn")]
    Worn,
}

/// Why a command that doesn't wait isn't done.
#[derive(Clone, Copy, Debug, PartialEq, Eq, Error)]
pub enum TryRefusal {
    /// The coordinator refused it, or its journal can't be written.
    #[error("{0}")]
    Refused(Refusal),
    /// Another holds the lock, or waits for it.
    #[error("the lock is another's")]
    Busy,
    /// No ticket is left, so that no command can be given any more.
    #[error("the lock is worn")]
    Worn,
}
