//! An event loop: a thread that answers any number of connections, by readiness. It reads what came and answers the
//! requests that are whole. The replies leave once the journals are durable up to the positions of the answers.
#![tactic(auto)]

mod accept_queue;
mod answering;
mod base;
mod client;
mod client_slot;
mod clients;
mod event_loop;
mod loop_context;
mod positions;
mod steady_clock;
mod times;

pub use accept_queue::AcceptQueue;
pub use answering::Stage;
pub use base::WhichBase;
pub use client::{Client, ClientFault, Reading, WriteResult};
pub use event_loop::{EventLoop, EventLoopEnd};
pub use positions::{Position, Positions};
pub use times::Times;
