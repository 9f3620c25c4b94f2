//! The coordinator of a journal's file as a running service: the file, and the threads that answer requests and make
//! callbacks.
#![tactic(auto)]

mod checking;
mod measure;
mod operators_view;
mod polls;
mod roles;
mod running;
mod service_state;
mod starting;

pub use checking::check_place;
pub use running::{ServiceOutcome, serve, serve_from, serve_with};
