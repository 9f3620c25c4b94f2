//! A connection of HTTP/1.1 without its socket.
ghost use Rattle.std.specs.Prelude.{
  ◌≡◌,
  ◌≤◌,
  ◌==◌,
  [],
  ◌∷◌,
  ◌++◌,
  map,
  take,
  drop,
  length,
  if◌then◌else◌,
  Some,
  None,
  true,
  IfSome,
  IsTrue,
  IsSome,
};
ghost use Rattle.std.specs.Option.{option_map};
ghost use Rattle.lra_wire.specs.Coded.{AwaitsContinue, IsUnfinishedBy, most_of};
ghost use Rattle.lra_wire.specs.CodedCursor.{SeesCoded};
ghost use Rattle.lra_wire.specs.Request.{request_of};
ghost use Rattle.lra_front.specs.declared.stream.StreamEnd.TheVariants.{Done, WriteFault};
ghost use Rattle.lra_front.specs.Replies.{HasIdentifiers};
ghost use Rattle.lra_front.specs.Streams as stream;
ghost use Rattle.lra_steps.specs.History.{IsServed, begun, begun_by, room_of, finished, went};
ghost use Rattle.lra_steps.specs.Steps.{Steps, Takes, Tells};
ghost use Rattle.lra_steps.specs.inner.Ends.{Finds, EndsWithout};
ghost use Rattle.lra_steps.specs.inner.Fields.{backs, fronts, turn_of};

use crate::handler::Answered;
use crate::queue::Queue;
use crate::reply::{push_fault, push_reply};
use http::Method;
use lra_front::StreamEnd;
use lra_ids::{Base, Instance};
use lra_log::Log;
use lra_model::Memory;
use lra_wire::{CodedCursor, Front, RequestRead, WireFault, front_by, front_seen_by};
use std::alloc::{AllocError, Global};
use std::marker::Model;
use std::snapshot::Snapshot;

/// Largest number of bytes that are kept: those of the largest request, a head of 8,192 bytes and a body of 65,536.
const MAX_KEPT: usize = 73_728;

/// The same where chunked bodies are accepted: as many bytes as a body more, for the lines of the chunks and a trailer.
const MAX_KEPT_CHUNKED: usize = 139_264;

/// Largest number of requests that are accepted, beside the last.
const MOST_OTHERS: u64 = 999;

/// Step that comes next.
#[derive(Clone, Copy, PartialEq, Eq)]
pub enum Step {
    /// More bytes have to come.
    NeedsInput,
    /// A request was read, and stands: the caller has to answer it, once.
    RequestReady,
    /// The request that stands wasn't answered yet.
    ReplyPending,
    /// No request comes any more. The caller has to send what is left of the output.
    Ended(StreamEnd),
}

/// Answer, and the moment at which it was given.
#[derive(Clone, Copy)]
struct Reply {
    moment: u64,
    answered: Answered,
}

/// Connection of HTTP/1.1, as steps. A contract sees its history.
#[derive(Drop)]
pub struct Connection {
    alloc: Global,
    /// Instance whose identifiers the reply to a fault of reading names.
    instance: Instance,
    kept: Queue,
    out: Queue,
    /// Findings on the bytes that are kept, so that they aren't read anew with each piece.
    seen: CodedCursor,
    /// Chunked bodies and the expectation `100-continue` are accepted.
    chunked: bool,
    /// Request that stands to be answered.
    stands: Option<RequestRead>,
    ended: Option<StreamEnd>,
    closed: bool,
    /// Number of requests that are still accepted, beside the last.
    left: u64,
    /// Base that the URIs in replies begin with. This field and those after it are for contracts, and take no memory.
    base: Snapshot<Base>,
    /// Bytes that were kept after each piece came, and the offset at which the piece begins.
    reads: Log<Queue, usize>,
    turns: Log<RequestRead, Reply>,
    /// Output before each time that bytes were sent, and the number of bytes that were sent.
    writes: Log<Queue, usize>,
}

impl Model for Connection {
    ghost use Rattle.lra_steps.specs.History.{History};

    ghost Value = { History };

    ghost use Rattle.lra_steps.specs.inner.Fields.{history_of, Holds};

    ghost view = { history_of };

    ghost invariant = { Holds };
}

/// Notes what a queue has from an offset on.
fn note_back(log: &mut Log<Queue, usize>, queue: &Queue, place: usize)
    ensures { backs log.new.items ≡ backs log.old.items ++ drop place queue.now ∷ [] }
{
    *log = log.and(queue, &place);
}

/// Notes what a queue has before an offset.
fn note_front(log: &mut Log<Queue, usize>, queue: &Queue, place: usize)
    ensures { fronts log.new.items ≡ fronts log.old.items ++ take place queue.now ∷ [] }
{
    *log = log.and(queue, &place);
}

/// Notes a request and its answer.
fn note_turn(log: &mut Log<RequestRead, Reply>, request: &RequestRead, reply: &Reply)
    ensures { map turn_of log.new.items ≡ map turn_of log.old.items ++ turn_of (request.now, reply.now) ∷ [] }
{
    *log = log.and(request, reply);
}

/// Clears the request that stands.
fn let_go(stands: &mut Option<RequestRead>)
    ensures { stands.new ≡ None }
{
    *stands = None;
}

/// Returns the request that the kept bytes begin with, if it is whole. While bytes may come, it reads them only where a
/// request may have become whole since what was seen.
fn next_front(
    alloc: Global,
    kept: &[u8],
    closed: bool,
    chunked: bool,
    seen: &mut CodedCursor,
) -> Result<Option<Front>, WireFault>
    requires { SeesCoded seen.old kept.now }
    ensures front { Finds chunked closed kept.now result }
    ensures seen { SeesCoded seen.new kept.now }
{
    if closed {
        front_by(alloc, kept, chunked)
    } else {
        front_seen_by(alloc, kept, chunked, seen)
    }
}

/// Returns how many bytes are kept at most.
fn most_kept(chunked: bool) -> usize
    ensures { result ≡ most_of chunked }
{
    if chunked { MAX_KEPT_CHUNKED } else { MAX_KEPT }
}

/// Returns how a connection ends where more of a request is wanted. It doesn't end while bytes may come.
fn end_without(closed: bool, chunked: bool, kept: &[u8]) -> Option<StreamEnd>
    requires { IsTrue closed → IsUnfinishedBy chunked kept.now }
    ensures { EndsWithout chunked closed kept.now result }
{
    if !closed {
        return None;
    }
    if kept.is_empty() {
        Some(StreamEnd::Done)
    } else {
        Some(StreamEnd::Refused(WireFault::Cut))
    }
}

/// Returns whether a request asks for the head of its reply alone.
fn is_head(request: &RequestRead) -> bool
    ensures { result ≡ stream.is_head (request_of request.now) }
{
    request.method.as_str() == Method::HEAD.as_str()
}

/// Returns whether the stream is closed after a request: it asks for that, or is the last that is accepted.
fn closes_after(request: &RequestRead, left: u64) -> bool
    ensures { result ≡ stream.closes_after (left == 0) (request_of request.now) }
{
    request.close || left == 0
}

/// Returns how a connection ends with a reply, if it does. It ends where the reply is lost, or the stream is closed
/// after the reply.
fn end_after(replied: bool, close: bool) -> Option<StreamEnd>
    ensures { result ≡ (if replied then (if close then Some Done else None) else Some WriteFault) }
{
    if !replied {
        Some(StreamEnd::WriteFault)
    } else if close {
        Some(StreamEnd::Done)
    } else {
        None
    }
}

impl Connection {
    /// Makes a connection at which all URIs begin with that base. Its replies to faults of reading name identifiers of
    /// that instance.
    pub fn new(alloc: Global, instance: Instance, base: &Base) -> Connection
        ensures { result ≡ begun instance base.now }
    {
        Connection::with_chunked(alloc, instance, base, false)
    }

    /// Makes the same connection. Chunked bodies and the expectation `100-continue` are accepted, if that is said.
    pub fn with_chunked(alloc: Global, instance: Instance, base: &Base, chunked: bool) -> Connection
        ensures { result ≡ begun_by chunked instance base.now }
    {
        Connection {
            alloc,
            instance,
            kept: Queue::new(alloc),
            out: Queue::new(alloc),
            seen: CodedCursor::nothing(alloc),
            chunked,
            stands: None,
            ended: None,
            closed: false,
            left: MOST_OTHERS,
            base: Snapshot::of(base),
            reads: Log::new(),
            turns: Log::new(),
            writes: Log::new(),
        }
    }

    /// States what is true of every connection.
    pub fn served(&self)
        ensures { IsServed self.now }
    {
        let _closed = self.closed;
    }

    /// Returns how many more bytes the connection accepts.
    pub fn room(&self) -> usize
        ensures { result ≡ room_of self.now }
    {
        if self.closed || self.ended.is_some() {
            0
        } else {
            most_kept(self.chunked) - self.kept.as_slice().len()
        }
    }

    /// Accepts bytes that came, if there is room for all of them. Returns whether it did.
    pub fn take(&mut self, bytes: &[u8]) -> Result<bool, Memory>
        ensures { Takes result bytes.now self.old self.new }
    {
        if bytes.len() > self.room() {
            return Ok(false);
        }
        let place = self.kept.as_slice().len();
        self.kept.push(bytes)?;
        note_back(&mut self.reads, &self.kept, place);
        Ok(true)
    }

    /// Notes that no more bytes come.
    pub fn finish(&mut self)
        ensures { self.new ≡ finished self.old }
    {
        self.closed = true;
    }

    /// Returns the next step. Where memory is refused, nothing changes.
    pub fn next(&mut self, base: &Base) -> Result<Step, Memory>
        requires value { base.now ≡ self.old.base }
        ensures { Steps result self.old self.new }
    {
        if let Some(end) = self.ended {
            return Ok(Step::Ended(end));
        }
        if self.stands.is_some() {
            return Ok(Step::ReplyPending);
        }
        match next_front(
            self.alloc,
            self.kept.as_slice(),
            self.closed,
            self.chunked,
            &mut self.seen,
        ) {
            Ok(Some(front)) => {
                self.kept.advance(front.len);
                self.seen = CodedCursor::nothing(self.alloc);
                self.stands = Some(front.request);
                Ok(Step::RequestReady)
            }
            Ok(None) => match end_without(self.closed, self.chunked, self.kept.as_slice()) {
                None => Ok(Step::NeedsInput),
                Some(end) => {
                    self.ended = Some(end);
                    Ok(Step::Ended(end))
                }
            },
            Err(fault) => {
                if fault == WireFault::Memory {
                    return Err(AllocError);
                }
                push_fault(self.alloc, &mut self.out, self.instance, base, fault)?;
                self.ended = Some(StreamEnd::Refused(fault));
                Ok(Step::Ended(StreamEnd::Refused(fault)))
            }
        }
    }

    /// Returns whether the client waits for `100 Continue` before it sends the body of a request. Its head is in order.
    pub fn awaits_continue(&self) -> bool
        ensures { result ≡ true → AwaitsContinue self.now.kept }
    {
        !self.closed && self.seen.awaits_continue(self.kept.as_slice())
    }

    /// Notes that `100 Continue` was sent.
    pub fn note_continued(&mut self)
        ensures { self.new ≡ self.old }
    {
        self.seen.note_continued();
    }

    /// Returns the request that stands to be answered, if one does.
    pub fn request(&self) -> Option<&RequestRead>
        ensures { option_map (λ request. request_of request.now) result ≡ self.now.stands }
    {
        match &self.stands {
            Some(request) => Some(request),
            None => None,
        }
    }

    /// Replies to the request that stands with an answer, which was given at that moment. The reply names identifiers
    /// of the instance that answered. Where memory for it is refused, the reply is lost and the connection ends. The
    /// request doesn't stand any more in either case.
    pub fn push_reply(&mut self, base: &Base, moment: u64, answered: Answered) -> Result<(), Memory>
        requires stands { IsSome self.old.stands }
        requires numbers { HasIdentifiers answered.answer }
        requires value { base.now ≡ self.old.base }
        ensures { IfSome self.old.stands (λ request.
            Tells result self.old self.new (record { request = request; moment = moment; answered = answered })) }
    {
        let Some(request) = &self.stands else {
            unreachable!();
        };
        let head = is_head(request);
        let close = closes_after(request, self.left);
        let replied = push_reply(
            self.alloc,
            &mut self.out,
            answered.instance,
            base,
            answered.answer,
            head,
            close,
        );
        note_turn(&mut self.turns, request, &Reply { moment, answered });
        self.left = self.left.saturating_sub(1);
        let_go(&mut self.stands);
        self.ended = end_after(replied.is_ok(), close);
        replied
    }

    /// Returns the bytes of replies that may be sent.
    pub fn out(&self) -> &[u8]
        ensures { result.now ≡ self.now.out }
    {
        self.out.as_slice()
    }

    /// Drops the first `count` bytes of the output, which were sent.
    pub fn advance_by(&mut self, count: usize)
        requires { count ≤ length self.old.out }
        ensures { self.new ≡ went self.old count }
    {
        note_front(&mut self.writes, &self.out, count);
        self.out.advance(count);
    }
}
