//! Writing of requests and responses.
ghost use Rattle.std.specs.Prelude.{◌≡◌, ◌≢◌, [], ◌++◌, codes, IfOk, OnOk, Err};
ghost use Rattle.std.specs.List.{flat_map};
ghost use Rattle.std.specs.Io.KnownBytes.{Keeps};
ghost use Rattle.httparse.specs.Ascii.{crlf_bytes};
ghost use Rattle.lra_wire.specs.Writing.{field_line, message_text, request_text, reply_text, Sends};

use crate::fault::WireFault;
use itoa::Buffer;
use std::alloc::{AllocError, Global};
use std::io::Write;

/// Request to be written.
#[derive(Clone, Copy)]
pub struct RequestWrite<'a> {
    pub method: &'a str,
    pub target: &'a str,
    /// Names and values, in order. The caller gives `Host` and `Content-Length`.
    pub fields: &'a [(&'a str, &'a str)],
    pub body: &'a [u8],
}

/// Response to be written.
#[derive(Clone, Copy)]
pub struct ReplyWrite<'a> {
    pub code: u16,
    pub phrase: &'a str,
    /// Names and values, in order. The caller gives `Content-Length`.
    pub fields: &'a [(&'a str, &'a str)],
    pub body: &'a [u8],
}

/// Writes a request of HTTP/1.1 (RFC 9112, section 3).
pub fn write_request<W: Write>(
    alloc: Global,
    writer: &mut W,
    request: &RequestWrite<'_>,
) -> Result<(), WireFault>
    ensures text { Sends (W.contents writer.old) (W.contents writer.new) (request_text request.now) result }

    // Where memory is refused, nothing is written.
    ensures memory { result ≡ Err WireFault.Memory → Keeps (W.contents writer.old) (W.contents writer.new) }
{
    match request_text(alloc, request) {
        Ok(text) => send(writer, text.as_slice()),
        Err(_) => Err(WireFault::Memory),
    }
}

fn request_text(alloc: Global, request: &RequestWrite<'_>) -> Result<Vec<u8>, AllocError>
    ensures { IfOk result (λ text. text.items ≡ request_text request.now) }
{
    let mut text = Vec::new(alloc);
    match lay_request(&mut text, request) {
        Ok(()) => Ok(text),
        Err(fault) => Err(fault),
    }
}

/// Makes a request's text in the page, which is empty.
fn lay_request(page: &mut Vec<u8>, request: &RequestWrite<'_>) -> Result<(), AllocError>
    requires { page.old.items ≡ [] }
    ensures { OnOk result (page.new.items ≡ request_text request.now) }
{
    push_text(page, request.method.as_bytes())?;
    push_text(page, b" ")?;
    push_text(page, request.target.as_bytes())?;
    push_text(page, b" HTTP/1.1")?;
    push_rest(page, request.fields, request.body)
}

/// Writes a response of HTTP/1.1 (RFC 9112, section 4).
pub fn write_response<W: Write>(
    alloc: Global,
    writer: &mut W,
    reply: &ReplyWrite<'_>,
) -> Result<(), WireFault>
    ensures text { Sends (W.contents writer.old) (W.contents writer.new) (reply_text reply.now) result }

    // Where memory is refused, nothing is written.
    ensures memory { result ≡ Err WireFault.Memory → Keeps (W.contents writer.old) (W.contents writer.new) }
{
    write_response_in(&mut Vec::new(alloc), writer, reply)
}

/// Writes a response of HTTP/1.1 (RFC 9112, section 4). Its text is made in the page, and replaces what stood there. So
/// a page that the caller keeps needs no more memory for a text that is no longer than an earlier one.
pub fn write_response_in<W: Write>(
    page: &mut Vec<u8>,
    writer: &mut W,
    reply: &ReplyWrite<'_>,
) -> Result<(), WireFault>
    ensures text { Sends (W.contents writer.old) (W.contents writer.new) (reply_text reply.now) result }

    // Where memory is refused, nothing is written.
    ensures memory { result ≡ Err WireFault.Memory → Keeps (W.contents writer.old) (W.contents writer.new) }
{
    page.clear();
    match lay_reply(page, reply) {
        Ok(()) => send(writer, page.as_slice()),
        Err(_) => Err(WireFault::Memory),
    }
}

/// Makes a response's text in the page, which is empty.
fn lay_reply(page: &mut Vec<u8>, reply: &ReplyWrite<'_>) -> Result<(), AllocError>
    requires { page.old.items ≡ [] }
    ensures { OnOk result (page.new.items ≡ reply_text reply.now) }
{
    let mut buffer = Buffer::new();
    push_text(page, b"HTTP/1.1 ")?;
    push_text(page, buffer.format(reply.code).as_bytes())?;
    push_text(page, b" ")?;
    push_text(page, reply.phrase.as_bytes())?;
    push_rest(page, reply.fields, reply.body)
}

/// Appends what follows a start line: its end, the fields, an empty line and the body.
fn push_rest(text: &mut Vec<u8>, fields: &[(&str, &str)], body: &[u8]) -> Result<(), AllocError>
    ensures { OnOk result (text.new.items ≡ message_text text.old.items fields.now body.now) }
{
    push_text(text, b"\r\n")?;
    push_fields(text, fields)?;
    push_text(text, b"\r\n")?;
    push_text(text, body)
}

fn push_fields(text: &mut Vec<u8>, fields: &[(&str, &str)]) -> Result<(), AllocError>
    ensures { OnOk result (text.new.items ≡ text.old.items ++ flat_map field_line fields.now) }
{
    for (name, value) in fields {
        push_field(text, name, value)?;
    }
    Ok(())
}

fn push_field(text: &mut Vec<u8>, name: &str, value: &str) -> Result<(), AllocError>
    ensures { OnOk result (text.new.items ≡ text.old.items ++ (name.now ++ codes ": " ++ value.now ++ crlf_bytes)) }
{
    push_text(text, name.as_bytes())?;
    push_text(text, b": ")?;
    push_text(text, value.as_bytes())?;
    push_text(text, b"\r\n")
}

fn push_text(text: &mut Vec<u8>, more: &[u8]) -> Result<(), AllocError>
    ensures { OnOk result (text.new.items ≡ text.old.items ++ more.now) }
{
    text.extend_from_slice(more)
}

/// Writes all the bytes. Returns a fault where a write fails or accepts none.
fn send<W: Write>(writer: &mut W, bytes: &[u8]) -> Result<(), WireFault>
    ensures sends { Sends (W.contents writer.old) (W.contents writer.new) bytes.now result }
    ensures io { result ≢ Err WireFault.Memory }
{
    let mut rest = bytes;
    while !rest.is_empty() {
        match writer.write(rest) {
            Ok(count) if count > 0 => rest = &rest[count..],
            _ => return Err(WireFault::Io),
        }
    }
    Ok(())
}
