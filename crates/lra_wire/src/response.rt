//! Reading of responses.
ghost use Rattle.std.specs.Prelude.{◌≡◌, IfOk, IfErr, IfSome, OnOk, OnErr, IsTrue, IsFalse, Err};
ghost use Rattle.lra_wire.specs.Inbox.{stream_of, is_spent, AsksAt};
ghost use Rattle.lra_wire.specs.Response.{is_interim, IsResponse, RefusesResponse, AwaitsResponse};
ghost use Rattle.lra_wire.specs.inner.Parts.{FindsResponse};
ghost use Rattle.lra_wire.specs.inner.Reading.{NextResponse};
ghost use Rattle.lra_wire.specs.Streams.{IfBothKnown};

use crate::fault::WireFault;
use crate::framing::{Framing, framing_of};
use crate::head::{MAX_FIELDS, MAX_HEAD};
use crate::inbox::Inbox;
use crate::response_parse::{ResponseCursor, ResponseParse, response_at_end, response_front_seen};
use httparse::Status;
use httparse::spans::{EMPTY_HEADER_SPAN, parse_response};
use std::alloc::Global;
use std::io::Read;

/// Largest number of heads of status 100 to 199 before a response.
pub(crate) const MAX_INTERIM: usize = 8;

/// Response, as its bytes say it.
#[derive(Debug, Drop)]
pub struct ResponseRead {
    /// Status, from 0 to 99 and from 200 to 999.
    pub code: u16,
    pub body: Vec<u8>,
}

/// Values of a head.
#[derive(Clone, Copy)]
pub(crate) struct Head {
    pub(crate) code: u16,
    /// Number of bytes of the head.
    pub(crate) len: usize,
    pub(crate) framing: Result<Framing, WireFault>,
}

/// Reads the next response that isn't an interim one.
pub fn read_response<R: Read + Drop>(
    alloc: Global,
    inbox: &mut Inbox<R>,
) -> Result<ResponseRead, WireFault>
    ensures found { IsFalse (is_spent inbox.old) → IfOk result (λ read.
        IfBothKnown (stream_of R.remaining inbox.old) (stream_of R.remaining inbox.new)
        (λ bytes rest. IsResponse bytes read.code read.body.items rest)) }
    ensures fault { IsFalse (is_spent inbox.old) → IfErr result (λ fault.
        IfSome (stream_of R.remaining inbox.old) (λ bytes. RefusesResponse bytes fault)) }

    // After a fault nothing more is read.
    ensures spent { IsTrue (is_spent inbox.old) → result ≡ Err WireFault.Cut }
    ensures ok { OnOk result (IsFalse (is_spent inbox.new)) }
    ensures err { OnErr result (IsTrue (is_spent inbox.new)) }

    // The reader is asked for more only where the bytes that came spell no response, or one whose body ends with the
    // stream. Their head follows the grammar so far, at least up to its last line feed.
    ensures rests { AsksAt AwaitsResponse inbox.old inbox.new }
{
    if inbox.spent {
        return Err(WireFault::Cut);
    }
    let response = next_response(alloc, inbox);
    inbox.spent = response.is_err();
    response
}

/// Reads until the bytes that came begin with a response, or the stream ends. Takes the response from them.
fn next_response<R: Read + Drop>(
    alloc: Global,
    inbox: &mut Inbox<R>,
) -> Result<ResponseRead, WireFault>
    ensures next { NextResponse R.remaining inbox.old inbox.new result }
    ensures asks { AsksAt AwaitsResponse inbox.old inbox.new }
{
    let mut seen = ResponseCursor::nothing(alloc);
    loop {
        match response_front_seen(alloc, inbox.bytes(), &mut seen)? {
            ResponseParse::Whole(response, len) => {
                inbox.take(len);
                return Ok(response);
            }
            ResponseParse::Open(_) => {}
        }
        if !inbox.fill()? {
            let (response, len) = response_at_end(alloc, inbox.bytes(), &mut seen)?;
            inbox.take(len);
            return Ok(response);
        }
    }
}

/// Returns whether a status is one of 100 to 199 (RFC 9110, section 15.2).
pub(crate) fn is_interim(code: u16) -> bool
    ensures { result ≡ is_interim code }
{
    100 <= code && code < 200
}

/// Returns the head that the bytes begin with, or none where more bytes may complete it.
pub(crate) fn head_at(bytes: &[u8]) -> Result<Option<Head>, WireFault>
    ensures { FindsResponse bytes.now result }
{
    let mut headers = [EMPTY_HEADER_SPAN; MAX_FIELDS];
    match parse_response(bytes, &mut headers) {
        Ok(Status::Complete(head)) => {
            if head.len > MAX_HEAD {
                return Err(WireFault::BadHead);
            }
            let framing = framing_of(bytes, head.code, &headers[..head.headers]);
            Ok(Some(Head {
                code: head.code,
                len: head.len,
                framing,
            }))
        }
        Ok(Status::Partial) if bytes.len() < MAX_HEAD => Ok(None),
        _ => Err(WireFault::BadHead),
    }
}
