//! Clocks, which return the moments at which something happens, and deadlines, until which something may take.
#![tactic(auto)]

mod clock;
mod deadline;
mod system;

pub use clock::Clock;
pub use deadline::{seconds_on, time_until};
pub use system::{SystemClock, milliseconds};
