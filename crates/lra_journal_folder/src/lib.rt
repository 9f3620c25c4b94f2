//! A folder of journals on disk: its names, its lock, the file of the greatest instance, the archived journals, and its
//! journals, found and audited.
#![tactic(auto)]

mod fault;
mod folder;
mod given_up;
mod header;
mod reading;

pub use fault::{RollingFault, error_fault, fault_at, journal_fault, rolling_line, told};
pub use folder::{Contents, Folder};
pub use given_up::{GivenUp, given_up_in, given_up_line};
pub use header::header_of;
pub use reading::{Sound, Unsound, audit_all};
