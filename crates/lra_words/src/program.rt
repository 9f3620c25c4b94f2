//! The reader of a program's words from the system. It writes to standard error if it fails.

ghost use Rattle.std.specs.Prelude.{◌≡◌, IfErr};

use std::rt::Env;
use std::{env, io};

/// The exit status of a run that has no result.
const FAULT: u8 = 2;

/// Writes `lra: usage` to standard error, and returns the program's exit status.
pub fn tell_usage<R: Eprint>(rt: &R) -> u8
    ensures { result ≡ FAULT }
{
    let _ = eprintln!(rt; "lra: usage");
    FAULT
}

/// Returns the words of the command line, without the program's own name. If they can't be read, writes the fault to
/// standard error and returns the program's exit status.
pub fn words_of<R: AllocGlobal + Env + Eprint>(rt: &R) -> Result<Vec<String>, u8>
    ensures { IfErr result (λ status. status ≡ FAULT) }
{
    match read_words(rt) {
        Ok(words) => Ok(words),
        Err(error) if error.kind() == io::ErrorKind::OutOfMemory => {
            let _ = eprintln!(rt; "lra: out of memory");
            Err(FAULT)
        }
        Err(_) => Err(tell_usage(rt)),
    }
}

fn read_words<R: AllocGlobal + Env>(rt: &R) -> io::Result<Vec<String>> {
    let mut words = Vec::new(rt.alloc());
    for word in env::args(rt)?.skip(1) {
        words.push(word)?;
    }
    Ok(words)
}
