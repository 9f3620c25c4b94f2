//! An office that many threads share, with one clerk of it.
#![tactic(auto)]

mod session;

pub use session::{JournalSession, OwnedSession};
