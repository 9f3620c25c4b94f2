//! Callbacks to members, many at once over sockets: one thread with a poll drives all that are under way.
#![tactic(auto)]

mod attempt;
mod call;
mod callbacks;
mod counts;
mod dns_cache;
mod hosts;
mod names;
mod places;
mod pumping;
mod quota;
mod replies;
mod resting;
mod shared_token;
mod silences;
mod socket_set;
mod sparing;
mod worker_quota;
mod worker_slot;

pub use callbacks::Callbacks;
pub use names::SharedDnsCache;
pub use quota::Quota;
pub use shared_token::SharedToken;
pub use socket_set::{wake_workers, waker};
pub use worker_quota::{TimeOuts, WorkerQuota};
pub use worker_slot::WorkerSlot;
