//! The journals of a folder, opened, begun and prepared before they are needed.
#![tactic(auto)]

mod folder_options;
mod notes;
mod opening;
mod preparing;

pub use folder_options::{FolderOptions, first_open};
pub use notes::GivenUpNotes;
pub use opening::{Opener, OpeningContext, open_for};
pub use preparing::{JournalFactory, PreparedJournal};
