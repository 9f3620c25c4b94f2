//! Streams of requests, answered one after another.

ghost use Rattle.std.specs.Prelude.{◌≡◌, ℕ, List, Option, IsTrue, IsFalse};
ghost use Rattle.lra_wire.specs.declared.fault.WireFault.TheVariants as wire;
ghost use Rattle.lra_wire.specs.Inbox.{stream_of, is_spent};
ghost use Rattle.lra_wire.specs.Request.{request_of};
ghost use Rattle.lra_front.specs.Streams as spec;
ghost use Rattle.lra_front.specs.inner.Sending.{Denies, Exchanges};

use crate::answer::Answer;
use crate::api_error::ApiError;
use crate::route::Routes;
use http::Method;
use lra_clocks::Clock;
use lra_commands::{Counter, Refusal};
use lra_wire::{Inbox, RequestRead, WireFault, read_request};
use std::alloc::Global;
use std::io::{Read, Write};

/// Way in which a stream ended.
#[derive(Clone, Copy, Debug, PartialEq, Eq)]
pub enum StreamEnd {
    /// All requests were answered up to the end, or up to one after which the stream is closed.
    Done,
    /// A request couldn't be read. The fault is answered, unless the stream was cut or failed.
    Refused(WireFault),
    /// A reply couldn't be written.
    WriteFault,
}

/// Outcome of a stream's next request.
#[derive(Clone, Copy, Debug, PartialEq, Eq)]
pub enum Served {
    /// It was answered, and the stream goes on.
    Going,
    /// The stream has ended.
    Ended(StreamEnd),
}

/// Returns the answer to a fault of reading, or none where the stream was cut or failed.
pub fn fault_answer(fault: WireFault) -> Option<Answer>
    ensures { result ≡ spec.fault_answer fault }
{
    match fault {
        WireFault::BadHead => Some(Answer::Denied(ApiError::BadHead)),
        WireFault::Chunked => Some(Answer::Denied(ApiError::Chunked)),
        WireFault::BadLength => Some(Answer::Denied(ApiError::BadLength)),
        WireFault::TooLarge => Some(Answer::Denied(ApiError::TooLarge)),
        WireFault::Cut | WireFault::Io => None,
        WireFault::Memory => Some(Answer::Denied(ApiError::Refused(Refusal::Memory))),
    }
}

/// Writes the reply to a fault of reading, if there is one, and ends the stream.
fn refuse<W: Write, C: Counter>(
    page: &mut Vec<u8>,
    writer: &mut W,
    counter: &C,
    fault: WireFault,
) -> StreamEnd
    ensures { Denies (C.sight counter.now) fault (W.contents writer.old) (W.contents writer.new) result }
{
    let Some(answer) = fault_answer(fault) else {
        return StreamEnd::Refused(fault);
    };
    match answer.write(
        page,
        writer,
        counter.instance(),
        counter.base(),
        false,
        true,
    ) {
        Ok(()) => StreamEnd::Refused(fault),
        Err(_) => StreamEnd::WriteFault,
    }
}

/// Returns whether the stream is closed after a request: it asks for that, or is the last that is accepted.
fn closes_after(request: &RequestRead, last: bool) -> bool
    ensures { result ≡ spec.closes_after last (request_of request.now) }
{
    request.close || last
}

/// Answers a request, and ends the stream where it is closed after that request.
fn exchange<W: Write, C: Counter, K: Clock>(
    page: &mut Vec<u8>,
    routes: &Routes,
    writer: &mut W,
    counter: &mut C,
    clock: &mut K,
    request: &RequestRead,
    last: bool,
) -> Served
    ensures { Exchanges C.gives K.tells last (request_of request.now) (C.sight counter.old) (C.sight counter.new)
        clock.old clock.new (W.contents writer.old) (W.contents writer.new) result }
{
    let close = closes_after(request, last);
    let head = request.method.as_str() == Method::HEAD.as_str();
    let moment = clock.now();
    let answer = routes.respond(*page.allocator(), counter, moment, request);
    match answer.write(
        page,
        writer,
        counter.instance(),
        counter.base(),
        head,
        close,
    ) {
        Ok(()) if close => Served::Ended(StreamEnd::Done),
        Ok(()) => Served::Going,
        Err(_) => Served::Ended(StreamEnd::WriteFault),
    }
}

/// Answers the next request of an inbox, or returns how the stream ended. The stream is closed after the request where
/// `last` is set. Replies are made in the page, which loses what stood in it, so that one page serves many streams.
pub fn serve_request<R: Read + Drop, W: Write, C: Counter, K: Clock>(
    page: &mut Vec<u8>,
    routes: &Routes,
    inbox: &mut Inbox<R>,
    writer: &mut W,
    counter: &mut C,
    clock: &mut K,
    last: bool,
) -> Served
    ensures serves { IsFalse (is_spent inbox.old) → spec.Serves C.gives K.tells last
        (spec.standing (stream_of R.remaining inbox.old) (C.sight counter.old) clock.old (W.contents writer.old)) result
        (spec.standing (stream_of R.remaining inbox.new) (C.sight counter.new) clock.new (W.contents writer.new)) }
    // The inbox can be read on where the stream goes on. After a fault it reads no more.
    ensures goes { result ≡ Served.Going → IsFalse (is_spent inbox.new) }
    ensures spent { IsTrue (is_spent inbox.old) → result ≡ Served.Ended (StreamEnd.Refused wire.Cut) }
{
    match read_request(*page.allocator(), inbox) {
        Ok(Some(request)) => exchange(page, routes, writer, counter, clock, &request, last),
        Ok(None) => Served::Ended(StreamEnd::Done),
        Err(fault) => Served::Ended(refuse(page, writer, counter, fault)),
    }
}

/// Largest number of requests that are accepted from a stream.
const MOST_REQUESTS: u64 = 1000;

/// Answers the requests of an inbox, up to the last that is accepted.
fn serve_inbox<R: Read + Drop, W: Write, C: Counter, K: Clock>(
    page: &mut Vec<u8>,
    routes: &Routes,
    inbox: &mut Inbox<R>,
    writer: &mut W,
    counter: &mut C,
    clock: &mut K,
) -> StreamEnd
    requires { IsFalse (is_spent inbox.old) }
    ensures { spec.ServesUpTo C.gives K.tells 999
        (spec.standing (stream_of R.remaining inbox.old) (C.sight counter.old) clock.old (W.contents writer.old)) result
        (spec.standing (stream_of R.remaining inbox.new) (C.sight counter.new) clock.new (W.contents writer.new)) }
{
    let mut others = MOST_REQUESTS - 1;
    while others > 0 {
        match serve_request(page, routes, inbox, writer, counter, clock, false) {
            Served::Ended(end) => return end,
            Served::Going => others -= 1,
        }
    }
    match serve_request(page, routes, inbox, writer, counter, clock, true) {
        Served::Ended(end) => end,
        Served::Going => unreachable!(),
    }
}

/// Answers the requests that a reader gives, one after another: up to its end, to a request after which the stream is
/// closed, to a fault, or to the 1,000th request. What a request did stays done, even if its reply couldn't be written.
pub fn serve_stream<R: Read + Drop, W: Write, C: Counter, K: Clock>(
    alloc: Global,
    reader: R,
    writer: &mut W,
    counter: &mut C,
    clock: &mut K,
) -> StreamEnd
    ensures { (rest : Option (List ℕ)) × spec.ServesStream C.gives K.tells
        (spec.standing (R.remaining reader) (C.sight counter.old) clock.old (W.contents writer.old)) result
        (spec.standing rest (C.sight counter.new) clock.new (W.contents writer.new)) }
{
    let Ok(routes) = Routes::new(alloc) else {
        return StreamEnd::Refused(WireFault::Memory);
    };
    let Ok(mut inbox) = Inbox::new(alloc, reader) else {
        return StreamEnd::Refused(WireFault::Memory);
    };
    let mut page = Vec::new(alloc);
    let end = serve_inbox(&mut page, &routes, &mut inbox, writer, counter, clock);
    drop(page);
    drop(inbox);
    drop(routes);
    end
}
