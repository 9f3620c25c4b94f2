//! The moments that a coordinator waits for: when an action's limit is reached, and when a member is asked again.
#![tactic(auto)]

mod agenda;
mod backoff;
mod deadline;
mod schedule;
mod tournament;

pub use agenda::Agenda;
pub use backoff::pause;
pub use deadline::Deadline;
pub use tournament::Tournament;

/// The error of a call that found no memory.
pub use std::alloc::AllocError as Memory;
