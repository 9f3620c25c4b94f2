//! The answer to each command, and what it writes of its own: read from the tables of a history, without a walk.
#![tactic(auto)]

mod actions;
mod asks;
mod awaited;
mod clerks;
mod deciding;
mod decision;
mod due_facts;
mod errand;
mod listed;
mod members;
mod queries;
mod stored;
mod telling;
mod validator;
mod walk;

pub use deciding::decide;
pub use decision::Decision;
pub use due_facts::DueFacts;
pub use errand::{Carried, HasAsk};
pub use queries::tell;
pub use telling::told;
