//! Lines of a service's configuration, in TOML.

use crate::toml_lines::{put_number, put_texts};
use lra_audits::put;
use lra_ids::Base;
use lra_opening::ServeFault;
use lra_settings::{Parameter, Settings};
use std::alloc::Global;
use std::io::Write;

/// Writes a line of the older bases, if there are any.
pub fn put_olders<W: Write>(
    alloc: Global,
    olders: &[Base],
    writer: &mut W,
) -> Result<(), ServeFault> {
    let mut texts = Vec::new(alloc);
    for base in olders {
        texts.push(base.as_str())?;
    }
    put_texts(alloc, "also-base", &texts, writer)
}

/// Writes a line for each setting, but none for a default limit or a time to send again that isn't set, for traces that
/// aren't passed on, or for chunked bodies that aren't accepted.
pub fn put_settings<W: Write>(
    alloc: Global,
    settings: &Settings,
    writer: &mut W,
) -> Result<(), ServeFault> {
    for parameter in &Parameter::ALL {
        let value = settings.get(*parameter);
        if parameter.fits(value) {
            put_number(alloc, parameter.name(), value, writer)?;
        }
    }
    let line = if settings.stop_at_eof {
        "stop-at-eof = true\n"
    } else {
        "stop-at-eof = false\n"
    };
    put(writer, line.as_bytes())?;
    if settings.trace_context {
        put(writer, b"trace-context = true\n")?;
    }
    if settings.chunked {
        put(writer, b"chunked = true\n")?;
    }
    Ok(())
}
