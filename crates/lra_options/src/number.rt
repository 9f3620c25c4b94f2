//! Numbers in texts.

use crate::fault::{OptionsFault, wrong};
use lra_settings::Parameter;
use std::alloc::Global;

/// Reads a number in decimal digits. Returns nothing for other texts, and for numbers of more than 64 bits.
pub(crate) fn number_in(text: &str) -> Option<u64> {
    if !text.bytes().all(|byte| byte.is_ascii_digit()) {
        return None;
    }
    text.parse::<u64>().ok()
}

/// Returns the fault of a text that is no number in its range. `place` names the option, or the file and its key.
pub(crate) fn out_of_range(
    alloc: Global,
    place: &str,
    text: &str,
    least: u64,
    most: u64,
) -> OptionsFault {
    wrong(format!(in alloc; "{place}: {text} is not from {least} to {most}"))
}

/// Reads a parameter from a text. `place` names the option, or the file and its key, in a fault.
pub(crate) fn value_in(
    alloc: Global,
    parameter: Parameter,
    place: &str,
    text: &str,
) -> Result<u64, OptionsFault> {
    match number_in(text) {
        Some(value) if parameter.fits(value) => Ok(value),
        _ => Err(out_of_range(alloc, place, text, parameter.least(), parameter.most())),
    }
}
