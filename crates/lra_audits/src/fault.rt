//! The errors of a run.

ghost use Rattle.std.specs.Prelude.{◌≡◌};
ghost use Rattle.lra_audits.specs.declared.fault.RunFault.TheVariants.{Memory};

use lra_auditor::AuditorFault;
use std::alloc::AllocError;
use thiserror::Error;

/// The error of a run over a reader and a writer.
#[derive(Clone, Copy, Debug, PartialEq, Eq, Error)]
pub enum RunFault {
    #[error("the input can't be read")]
    Read,
    #[error("the output can't be written")]
    Write,
    /// More than 2^30 bytes.
    #[error("the input is too long")]
    TooLong,
    #[error("out of memory")]
    Memory,
    /// The input was read once and found sound, and can't be read a second time, or isn't sound then.
    #[error("the input can't be read again")]
    Changed,
    /// A line that a script can't have, counted from 1.
    #[error("line {0} of the script is bad")]
    Line(u64),
}

impl From<AllocError> for RunFault {
    ghost from_gives = { λ _ fault. fault ≡ Memory };

    fn from(_error: AllocError) -> RunFault {
        RunFault::Memory
    }
}

impl From<AuditorFault> for RunFault {
    ghost from_gives = { λ _ fault. fault ≡ Memory };

    fn from(_fault: AuditorFault) -> RunFault {
        RunFault::Memory
    }
}
