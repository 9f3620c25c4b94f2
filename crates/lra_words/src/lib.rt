//! The words of a command line: how they are read, and which journal they ask to audit.
#![tactic(auto)]

mod asked;
mod program;

pub use asked::{Usage, read_audit};
pub use program::{tell_usage, words_of};
