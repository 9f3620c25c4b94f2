//! The words of long running actions after MicroProfile LRA 2.0: actions, members, asks and the entries of a journal,
//! and the rules that a history of entries keeps.
#![tactic(auto)]

mod asks;
mod entry;
mod naming;
mod rule;
mod status;
mod version;

pub use asks::{AskKind, Cause, Direction, Outcome, suits};
pub use entry::{Deed, Entry, Uris};
pub use naming::{Named, find_by_name};
pub use rule::Rule;
pub use status::{ActionStatus, Ending, MemberStatus};
pub use std::alloc::AllocError as Memory;
pub use version::{Instance, Version};
