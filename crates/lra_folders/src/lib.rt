//! Audits and listings of all journals of a folder.
#![tactic(auto)]

mod deed;
mod finding;
mod journals;
mod program;
mod threads;

pub use deed::Deed;
pub use finding::{
    BASE, ENDED, Found, GIVEN_UP, NEWEST, RESTORED, find, is_folder, is_kept, names_in, stray_line,
};
pub use journals::{FolderAudit, audit_journals, list_journals};
pub use program::{answer_question, run_folder, tell_none, tell_others};
pub use threads::{open_each, width};
