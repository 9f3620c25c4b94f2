//! The answer to each command of a coordinator and what it appends, and laws about them. The definitions stand in
//! `specs/`; the coordinator that keeps to them is `lra_core`.
#![tactic(auto)]

mod command;
mod counter;
mod laws;
mod limits;
mod query;
mod refusal;
mod session;

pub use command::{Command, Told};
pub use counter::{Counter, CounterFault, Order};
pub use laws::{
    calls_leave_quiet_histories, commands_ask, commands_keep_histories, commands_make_histories,
    counters_tell, counters_write_once, listings_are_counted_whole, listings_are_told_whole,
    queries_miss, rows_hold_ends,
};
pub use limits::{Limits, Terms};
pub use query::{Blocker, Listing, Query, QueryResult, Row, Want};
pub use refusal::{Refusal, Resource};
pub use session::Session;
