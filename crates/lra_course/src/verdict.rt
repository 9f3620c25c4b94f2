//! The result of an audit.

use lra_model::Rule;
use lra_totals::Summary;

/// The result of an audit.
#[derive(Drop)]
pub enum Verdict {
    /// The history is legal.
    Sound(Summary),
    /// The first line at fault, counted from 1, and the first rule that it breaks.
    Unsound { line: u64, rule: Rule },
}
