//! The moments at which a coordinator acts by itself: a member's want is due, or an action's limit has passed.
#![tactic(auto)]

mod moments;
mod schedule;

pub use lra_timers::Memory;
pub use schedule::Schedule;
