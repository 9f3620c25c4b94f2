//! Callbacks to members: an errand's request on the wire, and the outcome of the reply.
#![tactic(auto)]

mod callback;
mod callback_exchange;
mod callback_pool;
mod calling;
mod conversing;
mod courier;
mod dialler;
mod exchanging;
mod extra_fields;
mod fault;
mod reading;
mod reply;
mod socket;
mod tcp;
mod token;
mod told;
mod writing;

pub use callback::Callback;
pub use callback_exchange::{CallbackExchange, Step, replies_are_answers};
pub use callback_pool::CallbackPool;
pub use calling::DiallingCourier;
pub use courier::Courier;
pub use dialler::Dialler;
pub use exchanging::{exchange, receive, send};
pub use extra_fields::ExtraFields;
pub use fault::{CallFault, SendFault, TokenFault};
pub use lra_clocks::{seconds_on, time_until};
pub use reply::classify;
pub use socket::socket_text;
pub use tcp::{Sockets, TcpCourier};
pub use token::Token;
