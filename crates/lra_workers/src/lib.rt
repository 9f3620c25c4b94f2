//! Workers: they let limits fire, carry the errands that fall due, and answer the connections that come in.
#![tactic(auto)]

mod acceptor;
mod callback_worker;
mod connections;
mod gate;
mod worker;

pub use acceptor::{Acceptor, Line};
pub use callback_worker::run_callback_worker;
pub use connections::{ServeEnd, serve_connections};
pub use gate::{Gate, Go, OpenUntil};
pub use worker::{WorkerEnd, run_worker};
