//! The framing of a message: how its body ends.
ghost use Rattle.std.specs.Prelude.{◌≡◌, length, map, All, codes};
ghost use Rattle.httparse.specs.Spans.{IsHeaderWithin, header_bytes};
ghost use Rattle.lra_wire.specs.Coded.{request_framing, chunked_framing, sized_framing, is_met};
ghost use Rattle.lra_wire.specs.Fields.{values_of};
ghost use Rattle.lra_wire.specs.Response.{framing_of, stated_framing};

use crate::fault::WireFault;
use crate::fields::{ContentLength, Named, has, is_alike, lookup, stated_length};
use crate::request::MAX_BODY;
use httparse::spans::HeaderSpan;

/// End of a message's body (RFC 9112, section 6.3).
#[derive(Clone, Copy)]
pub(crate) enum Framing {
    /// After so many bytes.
    Sized(usize),
    /// With its last chunk.
    Chunks,
    /// With the stream.
    ToTheEnd,
}

/// Returns how the body of a response with this status and these fields ends.
pub(crate) fn framing_of(
    bytes: &[u8],
    code: u16,
    fields: &[HeaderSpan],
) -> Result<Framing, WireFault>
    requires { All (IsHeaderWithin (length bytes.now)) fields.now }
    ensures { result ≡ framing_of code (map (header_bytes bytes.now) fields.now) }
{
    if code == 204 || code == 304 {
        return Ok(Framing::Sized(0));
    }
    match lookup(bytes, fields, b"transfer-encoding") {
        Named::Absent => stated_framing(stated_length(bytes, fields)),
        Named::Once(coding) => {
            if is_alike(coding, b"chunked") {
                Ok(Framing::Chunks)
            } else {
                Err(WireFault::Chunked)
            }
        }
        Named::Several => Err(WireFault::Chunked),
    }
}

fn stated_framing(stated: ContentLength) -> Result<Framing, WireFault>
    ensures { result ≡ stated_framing stated }
{
    match stated {
        ContentLength::Nothing => Ok(Framing::ToTheEnd),
        ContentLength::Length(length) if length <= MAX_BODY as u64 => Ok(Framing::Sized(
            length as usize,
        )),
        ContentLength::Length(_) => Err(WireFault::TooLarge),
        ContentLength::Malformed => Err(WireFault::BadLength),
    }
}

/// Returns how the body of a request with this minor version and these fields ends, where chunks and the expectation
/// `100-continue` are accepted.
pub(crate) fn request_framing(
    bytes: &[u8],
    minor: u8,
    fields: &[HeaderSpan],
) -> Result<Framing, WireFault>
    requires { All (IsHeaderWithin (length bytes.now)) fields.now }
    ensures { result ≡ request_framing minor (map (header_bytes bytes.now) fields.now) }
{
    if has(bytes, fields, b"content-encoding") || !is_met(bytes, fields) {
        return Err(WireFault::Chunked);
    }
    match lookup(bytes, fields, b"transfer-encoding") {
        Named::Absent => sized_framing(stated_length(bytes, fields)),
        Named::Once(coding) => {
            if is_alike(coding, b"chunked") {
                chunked_framing(minor, stated_length(bytes, fields))
            } else {
                Err(WireFault::Chunked)
            }
        }
        Named::Several => Err(WireFault::Chunked),
    }
}

/// Returns whether the head has no expectation, or `100-continue` alone (RFC 9110, section 10.1.1).
fn is_met(bytes: &[u8], fields: &[HeaderSpan]) -> bool
    requires { All (IsHeaderWithin (length bytes.now)) fields.now }
    ensures { result ≡ is_met (values_of (codes "expect") (map (header_bytes bytes.now) fields.now)) }
{
    match lookup(bytes, fields, b"expect") {
        Named::Absent => true,
        Named::Once(expectation) => is_alike(expectation, b"100-continue"),
        Named::Several => false,
    }
}

/// Returns that the body comes in chunks, unless a length is stated too or the request is one of HTTP/1.0.
fn chunked_framing(minor: u8, stated: ContentLength) -> Result<Framing, WireFault>
    ensures { result ≡ chunked_framing minor stated }
{
    match stated {
        ContentLength::Nothing => {
            if minor == 0 {
                Err(WireFault::BadLength)
            } else {
                Ok(Framing::Chunks)
            }
        }
        ContentLength::Length(_) => Err(WireFault::BadLength),
        ContentLength::Malformed => Err(WireFault::BadLength),
    }
}

/// Returns the framing by a stated length: without one there is no body.
fn sized_framing(stated: ContentLength) -> Result<Framing, WireFault>
    ensures { result ≡ sized_framing stated }
{
    match stated {
        ContentLength::Nothing => Ok(Framing::Sized(0)),
        ContentLength::Length(length) if length <= MAX_BODY as u64 => Ok(Framing::Sized(
            length as usize,
        )),
        ContentLength::Length(_) => Err(WireFault::TooLarge),
        ContentLength::Malformed => Err(WireFault::BadLength),
    }
}
