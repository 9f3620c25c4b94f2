//! The coordinator of long running actions: commands in, entries of the journal out.
#![tactic(auto)]

mod bench;
mod block;
mod commands;
mod coordinator;
mod errand;
mod feeding;
mod front;
mod history_store;
mod laws;
mod making;
mod opening;
mod queries;
mod replayer;

pub use bench::Bench;
pub use block::{Block, Committed, Prepared};
pub use coordinator::{Coordinator, CoordinatorOf};
pub use errand::{Command, Errand, Request};
pub use feeding::Opening;
pub use front::JournalPrefix;
pub use history_store::{HistoryStore, Kept, LengthOnly};
pub use laws::{
    asks_are_answered_once, blocks_fit_once, commands_make_sound_texts, errands_are_of_asks,
};
pub use lra_auditor::FaultyLine;
pub use lra_commands::{
    Blocker, Counter, CounterFault, Limits, Listing, Order, Query, QueryResult, Refusal, Resource,
    Row, Told, Want, calls_leave_quiet_histories, commands_keep_histories, commands_make_histories,
};
pub use lra_ids::{Address, Instance};
pub use lra_model::{Memory, Rule, Version};
pub use opening::OpenFault;
