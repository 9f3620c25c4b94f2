//! A connection as steps over bytes: it has no socket, no thread and no clock. Its caller moves the bytes, and answers
//! each request.
#![tactic(auto)]

mod connection;
mod handler;
mod queue;
mod reply;
mod serve;

pub use connection::{Connection, Step};
pub use handler::{Answered, Handler};
pub use serve::{answer_pieces, answer_request, serve_pieces};
