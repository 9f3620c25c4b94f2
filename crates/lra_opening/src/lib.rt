//! Preparation of a service before it serves: its journal's file is found, locked, audited and cut to its whole lines,
//! and its office goes on from these. Also the faults for which nothing is served.
#![tactic(auto)]

mod auditing;
mod fault;
mod feeding;
mod file;
mod notifier;
mod opening;
mod place;
mod progress;

pub use auditing::refuse;
pub use fault::{ServeFault, enrol_fault, fault_line};
pub use feeding::{is_new, read_opening};
pub use file::NamedFile;
pub use notifier::{Notifier, SilentNotifier, StandardErrorNotifier, TerminalNotifier};
pub use opening::{begin_office, open_office};
pub use place::{Found, Place, find_journal, ready_file};
