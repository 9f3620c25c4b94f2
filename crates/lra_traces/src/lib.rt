//! The traces of the requests that end actions, which their callbacks bear (Trace Context, level 1).
#![tactic(auto)]

mod noting;
mod reading;
mod trace_table;
mod traceparent;
mod traces;

pub use trace_table::{Noted, TraceTable};
pub use traceparent::Traceparent;
pub use traces::Traces;
