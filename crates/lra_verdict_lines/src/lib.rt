//! The lines that a program prints of a verdict, and the status that it returns.
#![tactic(auto)]

mod lines;

pub use lines::{line_of_fault, report, status};
pub use lra_model::Memory;
