//! The operators' port over sockets: its listener, its server, the tallies, and the process statistics of the system.
#![tactic(auto)]

mod carried;
mod connection;
mod counted;
mod denied;
mod fault;
mod given;
mod histogram;
mod key;
mod noted_journals;
mod operators_server;
mod pace;
mod process_statistics;
mod serving;
mod table;
mod tallies;
mod token;

pub use carried::CountingCallbackPool;
pub use counted::{CountingHandler, has_stopped};
pub use fault::{PortFault, port_line};
pub use given::{Given, operators_order};
pub use key::read_key;
pub use lra_storage::Timed;
pub use operators_server::OperatorsServer;
pub use process_statistics::ProcessStatistics;
pub use serving::{Ends, Turned, serve_operators};
pub use tallies::Tallies;
