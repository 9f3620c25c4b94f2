//! Reasons why a journal can't be followed any more, and their lines.

use lra_model::Memory;
use std::alloc::Global;

/// Reason why a journal can't be followed any more.
#[derive(Clone, Copy, PartialEq, Eq)]
pub(crate) enum Lost {
    /// The file has fewer bytes than were read.
    Shrunk,
    /// The name stands for another file, or for none.
    Replaced,
}

/// Returns the line on standard error for a journal that is lost.
pub(crate) fn lost_line(alloc: Global, file: &str, lost: Lost) -> Result<String, Memory> {
    match lost {
        Lost::Shrunk => format!(in alloc; "lra: {file} has become shorter\n"),
        Lost::Replaced => format!(in alloc; "lra: {file} isn't the file that was read any more\n"),
    }
}
