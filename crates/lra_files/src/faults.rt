//! Reasons why the system gives no file.

ghost use Rattle.std.specs.Prelude.{◌≡◌};
ghost use Rattle.std.specs.IoError.{error_kind, raw_os_error};
ghost use Rattle.lra_files.specs.Faults as spec;

use std::io;
use std::io::ErrorKind;

/// Reason why a file isn't opened, made, written or read.
#[derive(Clone, Copy, PartialEq, Eq)]
pub enum FileFault {
    /// Too many files are open: in this process, or on the whole machine.
    TooManyOpen,
    /// Memory is refused.
    Memory,
    /// Another reason: it isn't there, for example, or may not be opened, or its disk is full.
    Other,
}

/// Returns whether an error of that kind says that memory is refused.
fn is_of_memory(kind: ErrorKind) -> bool
    ensures { result ≡ spec.is_of_memory kind }
{
    kind == ErrorKind::OutOfMemory
}

/// Returns the reason by an error's kind, and by the number that the system has for the error, or 0.
fn fault_of(kind: ErrorKind, number: u32) -> FileFault
    ensures { result ≡ spec.fault_of kind number }
{
    if is_of_memory(kind) {
        FileFault::Memory
    } else if number == 23 {
        FileFault::TooManyOpen
    } else if number == 24 {
        FileFault::TooManyOpen
    } else {
        FileFault::Other
    }
}

/// Returns the number that the system has for an error, or 0 if the error isn't the system's.
fn number_of(error: &io::Error) -> u32
    ensures { result ≡ spec.number_of (raw_os_error error.now) }
{
    match error.raw_os_error() {
        Some(code) => code.unsigned_abs(),
        None => 0,
    }
}

/// Returns the reason that an error of the system or of std gives.
pub fn file_fault(error: &io::Error) -> FileFault
    ensures { result ≡ spec.fault_of (error_kind error.now) (spec.number_of (raw_os_error error.now)) }
{
    fault_of(error.kind(), number_of(error))
}
