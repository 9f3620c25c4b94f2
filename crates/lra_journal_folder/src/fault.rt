//! Reasons why a folder isn't served.

ghost use Rattle.std.specs.Prelude.{◌≡◌, IfOk, string_bytes};
ghost use Rattle.std.specs.IoError.{error_kind, raw_os_error};
ghost use Rattle.lra_files.specs.Faults.{fault_of, number_of};
ghost use Rattle.lra_journal_folder.specs.Faults as spec;
ghost use Rattle.lra_journal_folder.specs.Faults.{IsOfJournal, IsOfSystem};

use lra_audits::RunFault;
use lra_files::{FileFault, file_fault};
use lra_opening::{ServeFault, fault_line};
use std::alloc::{AllocError, AllocFailed, Global};
use std::io::Error;

/// Reason why a folder isn't served, or is served no more.
#[derive(Drop)]
pub enum RollingFault {
    /// Fault of the file of that path.
    Of { fault: ServeFault, path: String },
    /// Fault of the folder itself.
    Here(ServeFault),
    /// Fault with its line for standard error.
    Told(String),
}

impl From<ServeFault> for RollingFault {
    ghost use Rattle.std.specs.Prelude.{◌≡◌};
    ghost use Rattle.lra_journal_folder.specs.declared.fault.RollingFault.TheVariants as rolling;

    ghost from_gives = { λ cause fault. fault ≡ rolling.Here cause };

    fn from(fault: ServeFault) -> RollingFault {
        RollingFault::Here(fault)
    }
}

impl From<AllocError> for RollingFault {
    ghost use Rattle.std.specs.Prelude.{◌≡◌};
    ghost use Rattle.lra_audits.specs.declared.fault.RunFault.TheVariants.{Memory};
    ghost use Rattle.lra_opening.specs.declared.fault.ServeFault.TheVariants as served;
    ghost use Rattle.lra_journal_folder.specs.declared.fault.RollingFault.TheVariants as rolling;

    ghost from_gives = { λ _ fault. fault ≡ rolling.Here (served.Run Memory) };

    fn from(_error: AllocError) -> RollingFault {
        RollingFault::Here(ServeFault::Run(RunFault::Memory))
    }
}

impl<T: Drop> From<AllocFailed<T>> for RollingFault {
    ghost use Rattle.std.specs.Prelude.{◌≡◌};
    ghost use Rattle.lra_audits.specs.declared.fault.RunFault.TheVariants.{Memory};
    ghost use Rattle.lra_opening.specs.declared.fault.ServeFault.TheVariants as served;
    ghost use Rattle.lra_journal_folder.specs.declared.fault.RollingFault.TheVariants as rolling;

    ghost from_gives = { λ _ fault. fault ≡ rolling.Here (served.Run Memory) };

    fn from(_failed: AllocFailed<T>) -> RollingFault {
        RollingFault::Here(ServeFault::Run(RunFault::Memory))
    }
}

/// Returns a fault of the file of that path. Where memory is refused it is a fault of the folder.
pub fn fault_at(alloc: Global, fault: ServeFault, path: &str) -> RollingFault {
    match String::from_str(alloc, path) {
        Ok(path) => RollingFault::Of { fault, path },
        Err(_) => RollingFault::Here(ServeFault::Run(RunFault::Memory)),
    }
}

/// Returns the line about a journal that has no room for the entries of a start.
fn full_line(alloc: Global, path: &str) -> Result<String, AllocError>
    ensures { IfOk result (λ line. string_bytes line ≡ spec.full_line path.now) }
{
    format!(in alloc; "lra: {path} is full\n")
}

/// Returns the line about a file for which too many others are open.
fn crowded_line(alloc: Global, path: &str) -> Result<String, AllocError>
    ensures { IfOk result (λ line. string_bytes line ≡ spec.crowded_line path.now) }
{
    format!(in alloc; "lra: too many files are open for {path}\n")
}

/// Returns the fault of the journal at a path that a start doesn't open. It names the path, if there is memory for that
/// and the fault concerns the journal.
pub fn journal_fault(alloc: Global, fault: ServeFault, path: &str) -> RollingFault
    ensures { IsOfJournal fault path.now result }
{
    match fault {
        ServeFault::Address => match full_line(alloc, path) {
            Ok(line) => RollingFault::Told(line),
            Err(_) => RollingFault::Here(ServeFault::Run(RunFault::Memory)),
        },
        ServeFault::File => match String::from_str(alloc, path) {
            Ok(path) => RollingFault::Of {
                fault: ServeFault::File,
                path,
            },
            Err(_) => RollingFault::Here(ServeFault::Run(RunFault::Memory)),
        },
        ServeFault::Run(cause) => RollingFault::Here(ServeFault::Run(cause)),
    }
}

/// Returns the fault of the file at a path, by the system's reason. If that is another than want of memory or of files,
/// it is the given fault.
fn reason_fault(alloc: Global, reason: FileFault, fault: ServeFault, path: &str) -> RollingFault
    ensures { IsOfSystem reason fault path.now result }
{
    match reason {
        FileFault::Memory => RollingFault::Here(ServeFault::Run(RunFault::Memory)),
        FileFault::TooManyOpen => match crowded_line(alloc, path) {
            Ok(line) => RollingFault::Told(line),
            Err(_) => RollingFault::Here(ServeFault::Run(RunFault::Memory)),
        },
        FileFault::Other => match String::from_str(alloc, path) {
            Ok(path) => RollingFault::Of { fault, path },
            Err(_) => RollingFault::Here(ServeFault::Run(RunFault::Memory)),
        },
    }
}

/// Returns the fault of the file at a path, by the error of opening, making, reading or writing it. If that is another
/// than want of memory or of files, it is the given fault.
pub fn error_fault(alloc: Global, error: &Error, fault: ServeFault, path: &str) -> RollingFault
    ensures { IsOfSystem (fault_of (error_kind error.now) (number_of (raw_os_error error.now))) fault path.now result }
{
    reason_fault(alloc, file_fault(error), fault, path)
}

/// Returns the fault with that line.
pub fn told(line: Result<String, AllocError>) -> RollingFault {
    match line {
        Ok(line) => RollingFault::Told(line),
        Err(_) => RollingFault::Here(ServeFault::Run(RunFault::Memory)),
    }
}

/// Returns the line on standard error for a fault of a folder that is served at an address.
pub fn rolling_line(
    alloc: Global,
    fault: RollingFault,
    address: &str,
    folder: &str,
) -> Result<String, AllocError> {
    match fault {
        RollingFault::Of { fault, path } => fault_line(alloc, fault, address, path.as_str()),
        RollingFault::Here(fault) => fault_line(alloc, fault, address, folder),
        RollingFault::Told(line) => Ok(line),
    }
}
