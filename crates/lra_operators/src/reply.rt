//! Replies to requests.

ghost use Rattle.std.specs.Prelude.{
  ◌≡◌,
  ◌+◌,
  ◌≤◌,
  ◌++◌,
  ℕ,
  List,
  map,
  length,
  decimal,
  vec_len,
  vec_capacity,
  IfOk,
  Err,
};
ghost use Rattle.std.specs.Io.KnownBytes.{Keeps};
ghost use Rattle.lra_wire.specs.Writing.{Sends};
ghost use Rattle.lra_front.specs.Replies.{phrase_of};
ghost use Rattle.lra_front.specs.inner.Seen.{seen};
ghost use Rattle.lra_operators.specs.Replies as spec;

use http::StatusCode;
use lra_model::Memory;
use lra_wire::{ReplyWrite, WireFault, write_response_in};
use std::alloc::Global;
use std::io::Write;

/// Largest number of fields of a reply.
const MOST_FIELDS: usize = 8;

/// Policy of a page: a browser may show it, and send its forms back to this port.
const POLICY: &str = "default-src 'none'; style-src 'unsafe-inline'; img-src data:; \
     form-action 'self'; frame-ancestors 'none'; base-uri 'none'";

/// Kind of a reply's text.
#[derive(Clone, Copy, PartialEq, Eq)]
pub enum Kind {
    Json,
    Metrics,
    Page,
}

impl Kind {
    /// Returns the value of `Content-Type`.
    fn name(self) -> &'static str
        ensures { result.now ≡ spec.content_type self }
    {
        match self {
            Kind::Json => "application/json",
            Kind::Metrics => "text/plain; version=0.0.4; charset=utf-8",
            Kind::Page => "text/html; charset=utf-8",
        }
    }
}

/// Reply to a request.
#[derive(Drop)]
pub struct Reply {
    pub status: StatusCode,
    pub kind: Kind,
    /// Field beside those that all replies have, if there is one.
    pub field: Option<(&'static str, &'static str)>,
    pub text: Vec<u8>,
}

impl Reply {
    /// Makes a reply with a text.
    pub(crate) fn new(status: StatusCode, kind: Kind, text: Vec<u8>) -> Reply
        ensures { result.status ≡ status }
    {
        Reply {
            status,
            kind,
            field: None,
            text,
        }
    }

    /// Returns all fields, for a text whose length has these digits.
    fn fields<'a>(&self, alloc: Global, digits: &'a str) -> Result<Vec<(&'a str, &'a str)>, Memory>
        ensures { IfOk result (λ fields. (text : List ℕ) → digits.now ≡ decimal (length text)
            → map seen fields.items ≡ spec.fields_of self.now.kind self.now.field text) }
    {
        let mut fields: Vec<(&'a str, &'a str)> = Vec::with_capacity(alloc, MOST_FIELDS)?;
        fields.push_reserved(("Content-Type", self.kind.name()));
        fields.push_reserved(("Content-Length", digits));
        fields.push_reserved(("Cache-Control", "no-store"));
        fields.push_reserved(("X-Content-Type-Options", "nosniff"));
        add_page_fields(self.kind, &mut fields);
        add_own_field(self.field, &mut fields);
        fields.push_reserved(("Connection", "close"));
        Ok(fields)
    }

    /// Writes the reply. The stream has to be closed after it.
    pub fn write<W: Write>(&self, alloc: Global, writer: &mut W) -> Result<(), WireFault>
        ensures text { Sends (W.contents writer.old) (W.contents writer.new) (spec.reply_bytes self.now) result }
        // Where memory is refused, nothing is written.
        ensures memory { result ≡ Err WireFault.Memory → Keeps (W.contents writer.old) (W.contents writer.new) }
    {
        let Ok(digits) = format!(in alloc; "{}", self.text.len()) else {
            return Err(WireFault::Memory);
        };
        let Ok(fields) = self.fields(alloc, digits.as_str()) else {
            return Err(WireFault::Memory);
        };
        let reply = ReplyWrite {
            code: self.status.as_u16(),
            phrase: phrase(self.status),
            fields: fields.as_slice(),
            body: self.text.as_slice(),
        };
        write_response_in(&mut Vec::new(alloc), writer, &reply)
    }
}

/// Appends the fields of a page, if the reply is one.
fn add_page_fields<'a>(kind: Kind, fields: &mut Vec<(&'a str, &'a str)>)
    requires { vec_len fields.old + 2 ≤ vec_capacity fields.old }
    ensures fields { map seen fields.new.items ≡ map seen fields.old.items ++ spec.page_fields kind }
    ensures room { (vec_len fields.new ≤ vec_len fields.old + 2) × (vec_capacity fields.new ≡ vec_capacity fields.old) }
{
    match kind {
        Kind::Page => {
            fields.push_reserved(("Content-Security-Policy", POLICY));
            fields.push_reserved(("Referrer-Policy", "no-referrer"));
        }
        Kind::Json => {}
        Kind::Metrics => {}
    }
}

/// Appends the field that a reply has beside the others, if it has one.
fn add_own_field<'a>(
    own: Option<(&'static str, &'static str)>,
    fields: &mut Vec<(&'a str, &'a str)>,
)
    requires { vec_len fields.old + 1 ≤ vec_capacity fields.old }
    ensures fields { map seen fields.new.items ≡ map seen fields.old.items ++ spec.own_fields own.entry }
    ensures room { (vec_len fields.new ≤ vec_len fields.old + 1) × (vec_capacity fields.new ≡ vec_capacity fields.old) }
{
    match own {
        Some(field) => fields.push_reserved(field),
        None => {}
    }
}

/// Returns the phrase of a status code.
fn phrase(status: StatusCode) -> &'static str
    ensures { result.now ≡ phrase_of status }
{
    status.canonical_reason().unwrap_or("")
}
