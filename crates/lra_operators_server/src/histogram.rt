//! The text of a histogram as a measure.

use lra_model::Memory;
use lra_overview::{Kind, describe, put, put_number, put_parts};
use lra_storage::Histogram;

/// Quantity that a histogram measures. Neither `name` nor `help` needs escapes.
#[derive(Clone, Copy)]
pub(crate) struct Measured {
    pub(crate) name: &'static str,
    pub(crate) help: &'static str,
    /// Upper ends of the classes.
    pub(crate) ends: &'static [u64],
    /// Number of counted units in one unit of the text.
    pub(crate) parts: u64,
}

/// Adds an amount to a page, in the unit of the text.
fn put_amount(page: &mut Vec<u8>, amount: u64, parts: u64) -> Result<(), Memory> {
    if parts == 1 {
        put_number(page, amount)
    } else {
        put_parts(page, amount, parts)
    }
}

/// Adds the line of one class: how many amounts were no more than its end.
fn put_class(
    page: &mut Vec<u8>,
    measured: &Measured,
    end: Option<u64>,
    count: u64,
) -> Result<(), Memory> {
    put(page, measured.name)?;
    put(page, "_bucket{le=\"")?;
    match end {
        Some(end) => put_amount(page, end, measured.parts)?,
        None => put(page, "+Inf")?,
    }
    put(page, "\"} ")?;
    put_number(page, count)?;
    put(page, "\n")
}

/// Adds the lines of all classes. Returns how many amounts there were in all.
fn put_classes(
    page: &mut Vec<u8>,
    measured: &Measured,
    histogram: &Histogram,
) -> Result<u64, Memory> {
    let mut all: u64 = 0;
    for (class, end) in measured.ends.iter().enumerate() {
        all = all.saturating_add(histogram.count(class));
        put_class(page, measured, Some(*end), all)?;
    }
    all = all.saturating_add(histogram.count(measured.ends.len()));
    put_class(page, measured, None, all)?;
    Ok(all)
}

/// Adds a histogram to a page, as a measure.
pub(crate) fn put_histogram(
    page: &mut Vec<u8>,
    measured: &Measured,
    histogram: &Histogram,
) -> Result<(), Memory> {
    describe(page, measured.name, Kind::Histogram, measured.help)?;
    let all = put_classes(page, measured, histogram)?;
    put(page, measured.name)?;
    put(page, "_sum ")?;
    put_amount(page, histogram.sum(), measured.parts)?;
    put(page, "\n")?;
    put(page, measured.name)?;
    put(page, "_count ")?;
    put_number(page, all)?;
    put(page, "\n")
}
