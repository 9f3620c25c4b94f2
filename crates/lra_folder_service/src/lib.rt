//! The coordinators of a folder as a running service. The newest journal accepts new work until the next one replaces
//! it. Journals that are done are archived.
#![tactic(auto)]

mod base_lines;
mod checking;
mod folder_driver;
mod folder_service;
mod folder_state;
mod operators_view;
mod rotation_manager;
mod running;
mod wake_relay;
mod working;

pub use checking::check_folder;
pub use lra_journal_factory::FolderOptions;
pub use lra_journal_folder::{RollingFault, rolling_line};
pub use running::{FolderOutcome, serve_folder};
