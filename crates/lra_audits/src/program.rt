//! The program on a system, which opens files, and prints faults on standard error.

ghost use Rattle.std.specs.Prelude.{◌≡◌, IfOk, IfErr};

use crate::errors::error_line;
use crate::fault::RunFault;
use std::alloc::AllocError;
use std::fs;
use std::rt::Files;

/// The status of a run with a fault.
const FAULT: u8 = 2;

/// Opens the file of a name.
pub fn open_file<R: Files>(rt: &R, name: &str) -> Result<R::File, RunFault>
    ensures { IfErr result (λ fault. fault ≡ RunFault.Read) }
{
    fs::open(rt, name).map_err(|_| RunFault::Read)
}

/// Prints the line of a fault on standard error, or that there was no memory for it. Returns the program's status.
pub fn tell<R: Eprint>(rt: &R, line: Result<String, AllocError>) -> u8
    ensures { result ≡ FAULT }
{
    let _ = match line {
        Ok(line) => eprint!(rt; "{line}"),
        Err(_) => eprintln!(rt; "lra: out of memory"),
    };
    FAULT
}

/// Returns the status of a run on this input: what the run returned, or that of its fault, which is printed.
pub fn settle<R: AllocGlobal + Eprint>(rt: &R, outcome: Result<u8, RunFault>, input: &str) -> u8
    ensures answered { IfOk outcome (λ status. result ≡ status) }
    ensures fault { IfErr outcome (λ _. result ≡ FAULT) }
{
    match outcome {
        Ok(status) => status,
        Err(fault) => tell(rt, error_line(rt.alloc(), fault, input)),
    }
}
