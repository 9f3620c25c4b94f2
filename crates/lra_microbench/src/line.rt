//! Lines that benchmarks print.

use anyhow::Result;
use std::io::Print;

/// One figure.
#[derive(Clone, Copy)]
pub struct Line<'a> {
    /// Name of what was measured.
    pub what: &'a str,
    /// Size of the input, in the unit `of`.
    pub size: u64,
    pub of: &'a str,
    pub figure: f64,
    pub unit: &'a str,
    /// Ratio of two measured times.
    pub ratio: f64,
}

impl Line<'_> {
    pub fn print<R: Print>(self, rt: &R) -> Result<()> {
        let Line {
            what,
            size,
            of,
            figure,
            unit,
            ratio,
        } = self;
        println!(rt; "{what:<24}{size:>9} {of}: {figure:11.1} {unit}, ratio {ratio:.2}")?;
        Ok(())
    }
}
