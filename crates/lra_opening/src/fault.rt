//! Faults for which nothing is served.

ghost use Rattle.std.specs.Prelude.{◌≡◌, IfOk, string_bytes};
ghost use Rattle.lra_opening.specs.Faults.{fault_line, enrol_fault, IsOfNoScript};

use lra_audits::{RunFault, error_line};
use lra_commands::Refusal;
use lra_model::Memory;
use lra_office::OfficeRefusal;
use std::alloc::{AllocError, AllocFailed, Global};
use thiserror::Error;

/// Why nothing is served, or is served any more.
#[derive(Clone, Copy, Debug, PartialEq, Eq, Error)]
pub enum ServeFault {
    /// Fault that keeps a run from an answer: here its input is the journal's file.
    #[error(transparent)]
    Run(RunFault),
    /// Another holds its lock, or it can't be created, cut, locked or written.
    #[error("the file can't be written")]
    File,
    /// It is no base, or can't be bound; the clock can't be read, stands before 1970, or is past what an instance can
    /// be; the journal passes the limits; or all connection workers have ended.
    #[error("the address can't be served")]
    Address,
}

impl From<RunFault> for ServeFault {
    ghost use Rattle.std.specs.Prelude.{◌≡◌};
    ghost use Rattle.lra_opening.specs.declared.fault.ServeFault.TheVariants as served;

    ghost from_gives = { λ cause fault. fault ≡ served.Run cause };

    fn from(fault: RunFault) -> ServeFault {
        ServeFault::Run(fault)
    }
}

impl From<AllocError> for ServeFault {
    ghost use Rattle.std.specs.Prelude.{◌≡◌};
    ghost use Rattle.lra_audits.specs.declared.fault.RunFault.TheVariants.{Memory};
    ghost use Rattle.lra_opening.specs.declared.fault.ServeFault.TheVariants as served;

    ghost from_gives = { λ _ fault. fault ≡ served.Run Memory };

    fn from(_error: AllocError) -> ServeFault {
        ServeFault::Run(RunFault::Memory)
    }
}

impl<T: Drop> From<AllocFailed<T>> for ServeFault {
    ghost use Rattle.std.specs.Prelude.{◌≡◌};
    ghost use Rattle.lra_audits.specs.declared.fault.RunFault.TheVariants.{Memory};
    ghost use Rattle.lra_opening.specs.declared.fault.ServeFault.TheVariants as served;

    ghost from_gives = { λ _ fault. fault ≡ served.Run Memory };

    fn from(_failed: AllocFailed<T>) -> ServeFault {
        ServeFault::Run(RunFault::Memory)
    }
}

/// Returns why nothing is served, from the refusal that keeps a clerk from being enrolled.
pub fn enrol_fault(refusal: OfficeRefusal) -> ServeFault
    ensures fault { result ≡ enrol_fault refusal }
    ensures other { IsOfNoScript result }
{
    match refusal {
        OfficeRefusal::Refused(Refusal::Memory) => ServeFault::Run(RunFault::Memory),
        OfficeRefusal::Refused(Refusal::Stopped) => ServeFault::File,
        _ => ServeFault::Address,
    }
}

/// Returns the line on standard error for a fault. Standard output is written `-`.
pub fn fault_line(
    alloc: Global,
    fault: ServeFault,
    address: &str,
    file: &str,
) -> Result<String, Memory>
    ensures { IfOk result (λ text. string_bytes text ≡ fault_line fault address.now file.now) }
{
    match fault {
        ServeFault::Run(fault) => error_line(alloc, fault, file),
        ServeFault::File => format!(in alloc; "lra: cannot write {file}\n"),
        ServeFault::Address => format!(in alloc; "lra: cannot serve {address}\n"),
    }
}
