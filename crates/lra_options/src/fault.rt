//! Reasons why options are refused.

ghost use Rattle.std.specs.Prelude.{◌≡◌, IfErr, IfOk};
ghost use Rattle.lra_options.specs.declared.fault.OptionsFault.TheVariants.{Memory, Wrong};

use std::alloc::{AllocError, AllocFailed, Global};
use thiserror::Error;

/// Why nothing is served by some options.
#[derive(Debug, Drop, Error)]
pub enum OptionsFault {
    #[error("out of memory")]
    Memory,
    /// Description of what is wrong, and with which option.
    #[error("{0}")]
    Wrong(String),
    /// Help was asked for, which is this.
    #[error("{0}")]
    Help(String),
}

impl From<AllocError> for OptionsFault {
    ghost from_gives = { λ _ fault. fault ≡ Memory };

    fn from(_error: AllocError) -> OptionsFault {
        OptionsFault::Memory
    }
}

impl<T: Drop> From<AllocFailed<T>> for OptionsFault {
    ghost from_gives = { λ _ fault. fault ≡ Memory };

    fn from(_failed: AllocFailed<T>) -> OptionsFault {
        OptionsFault::Memory
    }
}

/// Returns the lines of a text, up to an empty line, as one line.
pub(crate) fn one_line(alloc: Global, text: &str) -> Result<String, AllocError> {
    let mut line = String::new(alloc);
    for part in text.lines() {
        let part = part.trim();
        if part.is_empty() {
            return Ok(line);
        }
        if !line.is_empty() {
            line.push(' ')?;
        }
        line.push_str(part)?;
    }
    Ok(line)
}

/// Returns the fault with that text, or the one of memory where there is no memory for it.
pub fn wrong(text: Result<String, AllocError>) -> OptionsFault
    ensures ok { IfOk text (λ told. result ≡ Wrong told) }
    ensures err { IfErr text (λ _. result ≡ Memory) }
{
    match text {
        Ok(text) => OptionsFault::Wrong(text),
        Err(_) => OptionsFault::Memory,
    }
}
