//! The rows of a history, and the rows after an entry that breaks no rule.
#![tactic(auto)]

mod advance;
mod state;

pub use lra_model::Memory;
pub use state::Rows;
