//! The outcomes of the last callbacks of a journal's members, where they didn't advance the members.
#![tactic(auto)]

mod attempt;
mod attempt_table;
mod outcomes;
mod reply;
mod telling;

pub use attempt::Attempt;
pub use attempt_table::MOST;
pub use outcomes::Outcomes;
pub use reply::{Reply, put_words};
pub use telling::is_telling;
