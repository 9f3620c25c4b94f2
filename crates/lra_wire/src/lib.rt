//! HTTP/1.x messages (RFC 9112) on a byte stream: requests and responses read within limits, and
//! written.
//!
//! A message is what its bytes say, in whatever pieces a reader gives them. Bytes that came early stay in the [`Inbox`]
//! for the next call.
#![tactic(auto)]

mod chunks;
mod coded;
mod fault;
mod fields;
mod framing;
mod front;
mod head;
mod inbox;
mod request;
mod response;
mod response_parse;
mod told;
mod wanted;
mod write;

pub use chunks::MAX_RESPONSE;
pub use coded::{CodedCursor, front_by, front_seen_by, one_front_by};
pub use fault::WireFault;
pub use front::{Front, RequestCursor, end_fault, one_front, request_front, request_front_seen};
pub use inbox::Inbox;
pub use request::{RequestRead, one_reading, read_request};
pub use response::{ResponseRead, read_response};
pub use response_parse::{
    ResponseCursor, ResponseParse, response_front, response_front_seen, seen_stays,
};
pub use told::RequestFields;
pub use write::{ReplyWrite, RequestWrite, write_request, write_response, write_response_in};
