//! The operators' port: it answers requests, from an overview of a service's histories.
#![tactic(auto)]

mod access;
mod forms;
mod memo;
mod operation;
mod ordering;
mod port;
mod reply;
mod route;
mod telling;
mod visiting;

pub use access::{Access, Admission};
pub use operation::Operation;
pub use port::Port;
pub use reply::Reply;
pub use route::{Routes, Unserved};
pub use visiting::{is_enough, reply_to};
