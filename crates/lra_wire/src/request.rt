//! Reading of requests.
ghost use Rattle.std.specs.Prelude.{
  ◌≡◌,
  ◌≤◌,
  ℕ,
  List,
  Option,
  length,
  map,
  take,
  All,
  IfOk,
  IfErr,
  IfSome,
  OnOk,
  OnErr,
  IsTrue,
  IsFalse,
  Ok,
  Err,
  string_bytes,
  IsUtf8,
};
ghost use Rattle.httparse.specs.Spans.{IsHeaderWithin, header_bytes};
ghost use Rattle.lra_wire.specs.declared.fault.WireFault.{WireFault};
ghost use Rattle.lra_wire.specs.Fields.{body_length_of};
ghost use Rattle.lra_wire.specs.inner.Heads.{has_host, IsHeadAt, FindsHead, request_at};
ghost use Rattle.lra_wire.specs.inner.Reading.{NextRequest, EndsAt};
ghost use Rattle.lra_wire.specs.Inbox.{stream_of, is_spent, AsksAt};
ghost use Rattle.lra_wire.specs.Request.{Request, IsRequest, GivesRequest, RefusesRequest, AwaitsRequest, request_of};
ghost use Rattle.lra_wire.specs.Requests.{Requests, EndsAlike};
ghost use Rattle.lra_wire.specs.Streams.{IfBothKnown};

use crate::fault::WireFault;
use crate::fields::{ContentLength, Named, has, lists_close, lookup, stated_length};
use crate::front::{RequestCursor, end_fault, request_front, request_front_seen};
use crate::head::{MAX_FIELDS, MAX_HEAD};
use crate::inbox::Inbox;
use crate::told::{RequestFields, fields_at};
use httparse::Status;
use httparse::spans::{HeaderSpan, RequestSpans, parse_request};
use std::alloc::{AllocError, Global};
use std::io::Read;

/// Largest number of bytes of a body.
pub(crate) const MAX_BODY: usize = 65_536;

/// Request, as its bytes say it.
#[derive(Debug, Drop)]
pub struct RequestRead {
    /// The method, in the case in which it came.
    pub method: String,
    /// The target, as it came.
    pub target: String,
    /// The minor version: 0 for HTTP/1.0, 1 for HTTP/1.1.
    pub minor: u8,
    /// Flag that the stream is to be closed after the reply: a `Connection` field lists `close`, or the request is one
    /// of HTTP/1.0.
    pub close: bool,
    pub body: Vec<u8>,
    /// Values of the fields that say which client asks, from where, with what, and in which trace.
    pub fields: RequestFields,
}

/// Reads the next request, or none where the stream ends with no further byte.
pub fn read_request<R: Read + Drop>(
    alloc: Global,
    inbox: &mut Inbox<R>,
) -> Result<Option<RequestRead>, WireFault>
    ensures found { IsFalse (is_spent inbox.old) → IfOk result (λ read.
        IfBothKnown (stream_of R.remaining inbox.old) (stream_of R.remaining inbox.new) (GivesRequest read)) }
    ensures fault { IsFalse (is_spent inbox.old) → IfErr result (λ fault.
        IfSome (stream_of R.remaining inbox.old) (λ bytes. RefusesRequest bytes fault)) }

    // After a fault nothing more is read.
    ensures spent { IsTrue (is_spent inbox.old) → result ≡ Err WireFault.Cut }
    ensures ok { OnOk result (IsFalse (is_spent inbox.new)) }
    ensures err { OnErr result (IsTrue (is_spent inbox.new)) }

    // The reader is asked for more only where the bytes that came spell no request, and follow the grammar so far, at
    // least up to their last line feed.
    ensures rests { AsksAt AwaitsRequest inbox.old inbox.new }
{
    if inbox.spent {
        return Err(WireFault::Cut);
    }
    let request = next_request(alloc, inbox);
    inbox.spent = request.is_err();
    request
}

/// States that a stream of bytes spells one list of requests, and ends in one way: at its end, or in one fault. Where
/// it ends in a head that no continuation makes valid, the fault is [`WireFault::BadHead`] or [`WireFault::Cut`].
pub fn one_reading()
    ensures reading { (bytes : List ℕ) (requests others : List Request) (end other : Option WireFault)
        → Requests bytes requests end → Requests bytes others other
        → (requests ≡ others) × EndsAlike end other }

    // Where more of a request is asked for, the bytes that came spell none.
    ensures rests { (bytes : List ℕ) (request : Request) (rest : List ℕ)
        → AwaitsRequest bytes → ¬ (IsRequest bytes request rest) }
{}

/// Reads until the bytes that came begin with a request, and takes it from them.
fn next_request<R: Read + Drop>(
    alloc: Global,
    inbox: &mut Inbox<R>,
) -> Result<Option<RequestRead>, WireFault>
    ensures next { NextRequest R.remaining inbox.old inbox.new result }
    ensures asks { AsksAt AwaitsRequest inbox.old inbox.new }
{
    let mut seen = RequestCursor::nothing();
    loop {
        if let Some(front) = request_front_seen(alloc, inbox.bytes(), &mut seen)? {
            inbox.take(front.len);
            return Ok(Some(front.request));
        }
        if !inbox.fill()? {
            end_at(alloc, inbox.bytes())?;
            return Ok(None);
        }
    }
}

/// Returns the fault of a stream that ends with these bytes inside a request. It is no fault that there are no bytes.
fn end_at(alloc: Global, bytes: &[u8]) -> Result<(), WireFault>
    requires { AwaitsRequest bytes.now }
    ensures { EndsAt bytes.now result }
{
    match request_front(alloc, bytes)? {
        Some(_) => unreachable!(),
        None => match end_fault(bytes) {
            None => Ok(()),
            Some(fault) => Err(fault),
        },
    }
}

/// Returns the head that the bytes begin with, or none where more bytes may complete it.
pub(crate) fn head_at(
    bytes: &[u8],
    headers: &mut [HeaderSpan; MAX_FIELDS],
) -> Result<Option<RequestSpans>, WireFault>
    ensures { FindsHead bytes.now headers.new result }
{
    match parse_request(bytes, headers) {
        Ok(Status::Complete(head)) => {
            if head.len > MAX_HEAD || !has_host(bytes, head.version, &headers[..head.headers]) {
                return Err(WireFault::BadHead);
            }
            Ok(Some(head))
        }
        Ok(Status::Partial) if bytes.len() < MAX_HEAD => Ok(None),
        _ => Err(WireFault::BadHead),
    }
}

/// Returns whether a head has exactly one `Host`, or is one of HTTP/1.0, which needs none (RFC 9112, section 3.2).
fn has_host(bytes: &[u8], minor: u8, fields: &[HeaderSpan]) -> bool
    requires { All (IsHeaderWithin (length bytes.now)) fields.now }
    ensures { result ≡ has_host minor (map (header_bytes bytes.now) fields.now) }
{
    if minor == 0 {
        return true;
    }
    match lookup(bytes, fields, b"host") {
        Named::Once(_) => true,
        Named::Absent => false,
        Named::Several => false,
    }
}

/// Returns the length of the body that follows the head which the bytes begin with.
pub(crate) fn body_length_at(
    bytes: &[u8],
    headers: &[HeaderSpan],
    head: &RequestSpans,
) -> Result<usize, WireFault>
    requires { IsHeadAt bytes.now headers.now head.now }
    ensures is { result ≡ body_length_of (map (header_bytes bytes.now) (take head.now.headers headers.now)) }
    ensures small { IfOk result (λ size. size ≤ 65536) }
{
    body_length(bytes, &headers[..head.headers])
}

/// Returns the length of the body (RFC 9112, section 6.3).
fn body_length(bytes: &[u8], fields: &[HeaderSpan]) -> Result<usize, WireFault>
    requires { All (IsHeaderWithin (length bytes.now)) fields.now }
    ensures is { result ≡ body_length_of (map (header_bytes bytes.now) fields.now) }
    ensures small { IfOk result (λ size. size ≤ 65536) }
{
    if has(bytes, fields, b"transfer-encoding")
        || has(bytes, fields, b"content-encoding")
        || has(bytes, fields, b"expect")
    {
        return Err(WireFault::Chunked);
    }
    match stated_length(bytes, fields) {
        ContentLength::Nothing => Ok(0),
        ContentLength::Length(length) if length <= MAX_BODY as u64 => Ok(length as usize),
        ContentLength::Length(_) => Err(WireFault::TooLarge),
        ContentLength::Malformed => Err(WireFault::BadLength),
    }
}

/// Returns the request whose head the bytes begin with, without its body.
pub(crate) fn request_at(
    alloc: Global,
    bytes: &[u8],
    headers: &[HeaderSpan],
    head: &RequestSpans,
) -> Result<RequestRead, AllocError>
    requires { IsHeadAt bytes.now headers.now head.now }
    ensures { IfOk result (λ read. request_of read ≡ request_at bytes.now headers.now head.now) }
{
    let found = &headers[..head.headers];
    let close = head.version == 0 || lists_close(bytes, found);
    Ok(RequestRead {
        method: text(alloc, head.method.of(bytes))?,
        target: text(alloc, head.path.of(bytes))?,
        minor: head.version,
        close,
        body: Vec::new(alloc),
        fields: fields_at(alloc, bytes, found)?,
    })
}

fn text(alloc: Global, bytes: &[u8]) -> Result<String, AllocError>
    requires { IsUtf8 bytes.now }
    ensures { IfOk result (λ text. string_bytes text ≡ bytes.now) }
{
    match str::from_utf8(bytes) {
        Ok(text) => String::from_str(alloc, text),
        Err(_) => unreachable!(),
    }
}
