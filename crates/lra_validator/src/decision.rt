//! The decision on a command before anything is made.

use lra_commands::Told;
use lra_model::Entry;

/// The decision on a command that isn't refused.
#[derive(Drop)]
pub enum Decision {
    /// It writes nothing, and this is its answer.
    Told(Told),
    /// It writes this entry, and all that settles after it.
    Write(Entry),
}
