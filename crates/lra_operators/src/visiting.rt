//! Replies to the bytes that a client sent.

ghost use Rattle.std.specs.Prelude.{IfSome};
ghost use Rattle.lra_operators.specs.Orders.{AnswersBytes};
ghost use Rattle.lra_operators.specs.inner.Visits.{IsRead, AnswersCame};

use crate::access::Access;
use crate::port::Port;
use crate::reply::Reply;
use http::StatusCode;
use lra_model::Memory;
use lra_overview::Overview;
use lra_wire::{Front, WireFault, request_front};
use std::alloc::Global;

/// Largest number of bytes of a request, its head included.
const MOST_BYTES: usize = 65_536;

/// Front of the bytes that a client sent.
#[derive(Drop)]
enum Came {
    Request(Front),
    Refused(WireFault),
    /// More bytes than a request may have.
    TooMuch,
}

/// Reads the front of the bytes that a client sent. Returns nothing while it isn't known what they are.
fn look(alloc: Global, bytes: &[u8]) -> Option<Came>
    ensures { IfSome result (IsRead bytes.now) }
{
    match request_front(alloc, bytes) {
        Ok(Some(front)) => Some(Came::Request(front)),
        Ok(None) if bytes.len() >= MOST_BYTES => Some(Came::TooMuch),
        Ok(None) => None,
        Err(fault) => Some(Came::Refused(fault)),
    }
}

/// Returns whether these bytes are enough for a reply: they begin with a whole request, or it is known that they can't.
pub fn is_enough(alloc: Global, bytes: &[u8]) -> bool {
    look(alloc, bytes).is_some()
}

/// Returns the status code and the word of the reply for a fault of reading.
fn fault_told(fault: WireFault) -> (StatusCode, &'static str) {
    match fault {
        WireFault::Chunked => (StatusCode::NOT_IMPLEMENTED, "Chunked"),
        WireFault::TooLarge => (StatusCode::PAYLOAD_TOO_LARGE, "TooLarge"),
        WireFault::Memory => (StatusCode::SERVICE_UNAVAILABLE, "Memory"),
        WireFault::BadLength => (StatusCode::BAD_REQUEST, "BadLength"),
        WireFault::BadHead | WireFault::Cut | WireFault::Io => {
            (StatusCode::BAD_REQUEST, "BadHead")
        }
    }
}

/// Returns the reply to the front of the bytes that a client sent.
fn reply_of<O: Overview>(
    port: &mut Port,
    overview: &mut O,
    access: &Access<'_>,
    came: &Came,
) -> Result<Reply, Memory>
    ensures { AnswersCame access.now came.now (O.orders overview.old) (O.orders overview.new) }
{
    match came {
        Came::TooMuch => port.refuse(StatusCode::PAYLOAD_TOO_LARGE, "TooLarge"),
        Came::Refused(fault) => {
            let (status, word) = fault_told(*fault);
            port.refuse(status, word)
        }
        Came::Request(front) => port.answer(overview, access, &front.request),
    }
}

/// Returns the reply to the bytes that a client sent, or nothing if they aren't enough. The stream has to be closed
/// after the reply. If the bytes begin with a request for an order that may be made, this gives that one order.
/// Otherwise it gives none.
#[tactic(auto, using(crate::proofs::Giving::read_answers))]
pub fn reply_to<O: Overview>(
    alloc: Global,
    port: &mut Port,
    overview: &mut O,
    access: &Access<'_>,
    bytes: &[u8],
) -> Vec<u8>
    ensures { AnswersBytes access.now bytes.now (O.orders overview.old) (O.orders overview.new) }
{
    let mut page = Vec::new(alloc);
    let Some(came) = look(alloc, bytes) else {
        return page;
    };
    let replied = reply_of(port, overview, access, &came);
    drop(came);
    if let Ok(reply) = replied {
        let _ = reply.write(alloc, &mut page);
    }
    page
}
