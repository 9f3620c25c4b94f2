//! The lines that a program prints on standard error.

ghost use Rattle.std.specs.Prelude.{◌≡◌, IfOk, string_bytes};
ghost use Rattle.lra_audits.specs.Faults.{error_line};

use crate::fault::RunFault;
use lra_auditor::Memory;
use std::alloc::Global;

/// Returns the line on standard error for a fault in a run on this input. Standard output is named `-`.
pub fn error_line(alloc: Global, fault: RunFault, input: &str) -> Result<String, Memory>
    ensures { IfOk result (λ text. string_bytes text ≡ error_line fault input.now) }
{
    match fault {
        RunFault::Read => format!(in alloc; "lra: cannot read {input}\n"),
        RunFault::Write => String::from_str(alloc, "lra: cannot write -\n"),
        RunFault::TooLong => String::from_str(alloc, "lra: input too long\n"),
        RunFault::Memory => String::from_str(alloc, "lra: out of memory\n"),
        RunFault::Changed => format!(in alloc; "lra: cannot read {input} again\n"),
        RunFault::Line(number) => format!(in alloc; "lra: bad script line {number}\n"),
    }
}
