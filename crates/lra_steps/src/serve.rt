//! Callers of connections: one answers the request that stands, and one serves pieces of bytes in place of a socket.
ghost use Rattle.std.specs.Prelude.{◌≡◌, ℕ, ◌++◌, flat_map, length, None, IfOk, IfSome, IsSome, OnOk};
ghost use Rattle.lra_wire.specs.Request.{request_of};
ghost use Rattle.lra_front.specs.Replies.{HasIdentifiers};
ghost use Rattle.lra_steps.specs.History.{went};
ghost use Rattle.lra_steps.specs.Pieces.{Answers, Serves, ServesBytes};
ghost use Rattle.lra_steps.specs.inner.Feeding.{Follows, Fed, IsFresh};

use crate::connection::{Connection, Step};
use crate::handler::{Answered, Handler};
use lra_commands::Session;
use lra_front::{Clock, RoutedRequest, Routes, StreamEnd};
use lra_ids::Instance;
use lra_model::Memory;
use lra_wire::RequestRead;
use std::alloc::Global;

/// Answers a request at a moment. The router is asked here which operation the request asks for, and its body is read.
fn respond<A: Handler>(
    alloc: Global,
    routes: &Routes,
    handler: &mut A,
    moment: u64,
    request: &RequestRead,
) -> Answered
    ensures responds { A.responds (A.sight handler.old) moment (request_of request.now) result (A.sight handler.new) }
    ensures identifiers { HasIdentifiers result.answer }
{
    let routed = RoutedRequest::new(alloc, routes, request);
    let answered = handler.respond(alloc, moment, &routed);
    drop(routed);
    answered
}

/// Answers the request that stands, at the moment that the clock returns. Returns the answer. Where memory for the
/// reply is refused, what the request did stays done, and the connection ends.
pub fn answer_request<A: Handler, K: Clock>(
    alloc: Global,
    routes: &Routes,
    connection: &mut Connection,
    handler: &mut A,
    clock: &mut K,
) -> Answered
    requires stands { IsSome connection.old.stands }
    requires base { connection.old.base ≡ A.base_of (A.sight handler.old) }
    ensures { IfSome connection.old.stands (λ request. Answers A.responds K.tells request result
        (A.sight handler.old) (A.sight handler.new) clock.old clock.new connection.old connection.new) }
{
    let moment = clock.now();
    let Some(request) = connection.request() else {
        unreachable!();
    };
    let answered = respond(alloc, routes, handler, moment, request);
    // Where the reply is lost, the connection's next step says so.
    let reply = answered;
    let _ = connection.push_reply(handler.base(), moment, reply);
    answered
}

/// Feeds a piece of any length to the connection, and answers all requests that become whole. Returns how the
/// connection ended, if it did.
fn feed<A: Handler, K: Clock>(
    alloc: Global,
    routes: &Routes,
    connection: &mut Connection,
    piece: &[u8],
    handler: &mut A,
    clock: &mut K,
) -> Result<Option<StreamEnd>, Memory>
    requires none { connection.old.stands ≡ None }
    requires base { connection.old.base ≡ A.base_of (A.sight handler.old) }
    ensures { IfOk result (λ end. (v : A.State) (k : K) → Follows A.base_of A.responds K.tells v k connection.old
        (A.sight handler.old) clock.old
        → Fed A.base_of A.responds K.tells end piece.now v k connection.old connection.new (A.sight handler.new)
        clock.new) }
{
    let mut at = 0;
    loop {
        match connection.next(handler.base())? {
            Step::RequestReady => {
                let _ = answer_request(alloc, routes, connection, handler, clock);
            }
            Step::ReplyPending => unreachable!(),
            Step::Ended(end) => return Ok(Some(end)),
            Step::NeedsInput => {
                if at == piece.len() {
                    return Ok(None);
                }
                let count = connection.room().min(piece.len() - at);
                if !connection.take(&piece[at..at + count])? {
                    unreachable!();
                }
                at += count;
            }
        }
    }
}

/// Appends to `sent` all bytes that the connection has to send.
fn flush(connection: &mut Connection, sent: &mut Vec<u8>) -> Result<(), Memory>
    ensures connection { OnOk result (connection.new ≡ went connection.old (length connection.old.out)) }
    ensures sent { OnOk result (sent.new.items ≡ sent.old.items ++ connection.old.out) }
{
    let out = connection.out();
    let count = out.len();
    sent.extend_from_slice(out)?;
    connection.advance_by(count);
    Ok(())
}

/// Serves the pieces and then the end of their stream, and appends all replies to `sent`.
fn serve_through<A: Handler, K: Clock>(
    alloc: Global,
    routes: &Routes,
    connection: &mut Connection,
    pieces: &[Vec<u8>],
    sent: &mut Vec<u8>,
    handler: &mut A,
    clock: &mut K,
) -> Result<StreamEnd, Memory>
    requires { IsFresh (A.base_of (A.sight handler.old)) connection.old }
    ensures { IfOk result (λ end. Serves A.responds K.tells connection.old.instance (A.base_of (A.sight handler.old))
        (flat_map (λ piece. piece.items) pieces.now) sent.old.items (A.sight handler.old) clock.old end sent.new.items
        (A.sight handler.new) clock.new) }
{
    for piece in pieces {
        let end = feed(alloc, routes, connection, piece.as_slice(), handler, clock)?;
        flush(connection, sent)?;
        if let Some(end) = end {
            connection.served();
            return Ok(end);
        }
    }
    connection.finish();
    let end = feed(alloc, routes, connection, b"", handler, clock)?;
    flush(connection, sent)?;
    connection.served();
    match end {
        Some(end) => Ok(end),
        None => unreachable!(),
    }
}

/// Serves the pieces over a new connection. Its replies to faults of reading name identifiers of that instance.
fn serve_new<A: Handler, K: Clock>(
    alloc: Global,
    instance: Instance,
    pieces: &[Vec<u8>],
    sent: &mut Vec<u8>,
    handler: &mut A,
    clock: &mut K,
) -> Result<StreamEnd, Memory>
    ensures { IfOk result (λ end. Serves A.responds K.tells instance (A.base_of (A.sight handler.old))
        (flat_map (λ piece. piece.items) pieces.now) sent.old.items (A.sight handler.old) clock.old end sent.new.items
        (A.sight handler.new) clock.new) }
{
    let routes = Routes::new(alloc)?;
    let mut connection = Connection::new(alloc, instance, handler.base());
    let end = serve_through(
        alloc,
        &routes,
        &mut connection,
        pieces,
        sent,
        handler,
        clock,
    );
    drop(connection);
    drop(routes);
    end
}

/// Answers a stream that comes in these pieces, by a handler, and appends the replies to `sent`. It answers each
/// request once and in order, at a moment that the clock returns, however the bytes are cut. Returns an error where
/// memory is refused, unless that is for a reply.
pub fn answer_pieces<A: Handler, K: Clock>(
    alloc: Global,
    pieces: &[Vec<u8>],
    sent: &mut Vec<u8>,
    handler: &mut A,
    clock: &mut K,
) -> Result<StreamEnd, Memory>
    ensures { IfOk result (λ end. (instance : ℕ) × Serves A.responds K.tells instance
        (A.base_of (A.sight handler.old))
        (flat_map (λ piece. piece.items) pieces.now) sent.old.items (A.sight handler.old) clock.old end sent.new.items
        (A.sight handler.new) clock.new) }
{
    let instance = handler.instance();
    serve_new(alloc, instance, pieces, sent, handler, clock)
}

/// Answers a stream that comes in these pieces, and appends the replies to `sent`. It does and replies what
/// `serve_stream` does and replies for all the bytes, however they are cut. Returns an error where memory is refused,
/// unless that is for a reply.
pub fn serve_pieces<C: Session, K: Clock>(
    alloc: Global,
    pieces: &[Vec<u8>],
    sent: &mut Vec<u8>,
    counter: &mut C,
    clock: &mut K,
) -> Result<StreamEnd, Memory>
    ensures { IfOk result (λ end. ServesBytes C.gives K.tells (flat_map (λ piece. piece.items) pieces.now)
        sent.old.items
        (C.sight counter.old) clock.old end sent.new.items (C.sight counter.new) clock.new) }
{
    let instance = counter.instance();
    serve_new(alloc, instance, pieces, sent, counter, clock)
}
