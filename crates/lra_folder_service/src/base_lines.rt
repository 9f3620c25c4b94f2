//! Lines that report a new base of identifiers.

use std::alloc::{AllocError, Global};

/// Returns the line that reports a new base of identifiers, and whether those of the old base are still read.
pub(crate) fn base_line(
    alloc: Global,
    before: &str,
    base: &str,
    is_read: bool,
) -> Result<String, AllocError> {
    let end = if is_read {
        ""
    } else {
        ": those are unknown in a request's body unless --also-base names it"
    };
    format!(in alloc; "lra: identifiers began with {before}, and begin with {base} now{end}\n")
}

/// Returns that line without the bases, where the new base has a secret.
pub(crate) fn secret_line(alloc: Global, is_read: bool) -> Result<String, AllocError> {
    let end = if is_read {
        ""
    } else {
        ": those of before are unknown in a request's body unless --also-base names what they began with"
    };
    format!(in alloc; "lra: identifiers begin otherwise than they did{end}\n")
}
