//! The first rule that an entry breaks, by the rows of the history before it.
#![tactic(auto)]

mod broken;
mod lawful;
mod plain;
mod rows;

pub use lra_model::{Memory, Rule, Version};
pub use rows::RowsRef;
