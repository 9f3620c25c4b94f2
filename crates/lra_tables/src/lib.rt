//! The tables that a coordinator reads of its history without a walk: its actions, members and asks by number, what
//! settles next, and what a command would append.
#![tactic(auto)]

mod changes;
mod digest;
mod indexed_set;
mod joins;
mod membership_index;
mod plan;
mod settle;
mod settling_index;
mod settling_state;
mod tables;

pub use lra_rows::{ActionRow, AskRow, MemberRow, Memory};
pub use plan::Plan;
pub use tables::Tables;
