//! Totals of a history, by its rows: how many actions ended, how, and by whose failure.
#![tactic(auto)]

mod summary;
mod totals;

pub use lra_model::Memory;
pub use summary::summarize;
pub use totals::{FailedEnd, FailedEnds, Summary};
