//! The dialect that clients of MicroProfile LRA in Java speak: what its requests mean in the coordinator's own
//! interface, and how the answers to those are told in it.
#![tactic(auto)]

mod asked;
mod links;
mod operation;
mod own;
mod query;
mod route;
mod spelling;
mod texts;

pub use asked::refusal_of;
pub use operation::{DialectOperation, DialectResource};
pub use own::own_request;
pub use route::DialectRouter;
pub use spelling::{refused, spelled};
