//! The served journals of a folder: their registry, each connection worker's membership, and what the rotation manager
//! knows of each journal.
#![tactic(auto)]

mod journal;
mod journal_registry;
mod publishing;
mod reservations;
mod room;
mod scanning;
mod set_members;
mod watching;

pub use journal::ServedJournal;
pub use journal_registry::{Following, JournalRegistry, NO_VERSION, PublishedSet};
pub use publishing::published_set;
pub use reservations::Reservations;
pub use set_members::SetMembers;
pub use watching::{JournalBounds, JournalMonitor, observe_all};
