//! The coordinator's HTTP interface: requests in, the definitions' answers out, over any reader and writer.
#![tactic(auto)]

mod answer;
mod api_error;
mod api_request;
mod body;
mod dialect_answer;
mod laws;
mod operation;
mod paths;
mod respond;
mod route;
mod routed_request;
mod stream;

pub use answer::Answer;
pub use api_error::ApiError;
pub use api_request::ApiRequest;
pub use dialect_answer::{
    DialectAnswer, DialectMethods, DialectRefusal, DialectTold, DialectVersion,
};
pub use laws::{replies_are_listed, streams_are_transcripts, streams_write_in_turn};
pub use lra_clocks::Clock;
pub use operation::{Operation, Resource};
pub use paths::{Path, PathRouter};
pub use route::{Routes, id_in};
pub use routed_request::RoutedRequest;
pub use stream::{Served, StreamEnd, fault_answer, serve_request, serve_stream};
