//! The answer to a request, and its reply.

ghost use Rattle.std.specs.Prelude.{
  ◌≡◌,
  ◌+◌,
  ◌≤◌,
  ◌++◌,
  if◌then◌else◌,
  ℕ,
  List,
  [],
  map,
  length,
  decimal,
  vec_len,
  vec_capacity,
  IfOk,
  IsTrue,
  string_bytes,
  Err,
};
ghost use Rattle.std.specs.Ordering.{nat_cmp};
ghost use Rattle.std.specs.declared.cmp.Ordering.TheVariants.{Greater};
ghost use Rattle.std.specs.Cmp.Lexicographic.{slice_cmp};
ghost use Rattle.std.specs.Io.KnownBytes.{Keeps};
ghost use Rattle.serde_json.specs.View.{view};
ghost use Rattle.serde_json.specs.Written.{compact_text};
ghost use Rattle.lra_wire.specs.Writing.{Sends};
ghost use Rattle.lra_front.specs.Replies as spec;
ghost use Rattle.lra_front.specs.inner.Seen.{seen, wait_of, IsPartsOf};

use crate::api_error::ApiError;
use crate::dialect_answer::DialectAnswer;
use http::StatusCode;
use lra_commands::Refusal;
use lra_ids::{Base, Instance};
use lra_model::{ActionStatus, MemberStatus, Memory};
use lra_wire::{ReplyWrite, WireFault, write_response_in};
use serde_json::{Value, json};
use std::alloc::Global;
use std::io::Write;

/// Largest number of fields of a reply.
const MOST_FIELDS: usize = 6;

/// Answer to a request.
#[derive(Clone, Copy, Debug, PartialEq, Eq)]
pub enum Answer {
    /// Action that was started.
    Started(u64),
    /// Action, and its status.
    Found { action: u64, status: ActionStatus },
    /// Member that joined, now or before.
    Joined(u64),
    /// Action's status once its end was asked for, now or before.
    Turned(ActionStatus),
    /// The member has left.
    Left,
    /// The action's limit is set.
    Renewed,
    /// Member's status.
    Member(MemberStatus),
    /// The request was refused, for the reason that the API error gives.
    Denied(ApiError),
    /// The request was refused, for a reason that goes away by itself: it may be sent again after so many seconds.
    Retry { refusal: Refusal, seconds: u64 },
    /// Answer in the dialect of clients in Java.
    Dialect(DialectAnswer),
}

/// Parts that a reply is written from: the URI that its answer names, its body, and the body's length and the seconds
/// that the answer names in digits.
#[derive(Drop)]
struct Parts {
    uri: String,
    text: String,
    digits: String,
    wait: String,
}

/// Returns the status code for what the coordinator refuses.
fn refusal_status(refusal: Refusal) -> StatusCode
    ensures { result ≡ spec.refusal_code refusal }
{
    match refusal {
        Refusal::NoSuchClerk => StatusCode::INTERNAL_SERVER_ERROR,
        Refusal::NoSuchAction | Refusal::NoSuchMember => StatusCode::NOT_FOUND,
        Refusal::OldJournal | Refusal::WrongAction | Refusal::TooDeep => StatusCode::CONFLICT,
        Refusal::HasLeft => StatusCode::GONE,
        Refusal::NotActive(_) | Refusal::NotAsked => StatusCode::PRECONDITION_FAILED,
        Refusal::BadAddresses | Refusal::LimitTooFar => StatusCode::BAD_REQUEST,
        Refusal::Full(_) | Refusal::Stopped | Refusal::Memory => StatusCode::SERVICE_UNAVAILABLE,
    }
}

/// Makes a body of one text.
fn one_text(alloc: Global, key: &str, text: &str) -> Result<Value, Memory>
    ensures { IfOk result (λ body. view body ≡ spec.one_text key.now text.now) }
{
    json!(in alloc; {key: text})
}

/// Makes a body of two texts. The caller gives the keys in the order of their bytes.
fn two_texts(alloc: Global, key: &str, text: &str, other: &str, more: &str) -> Result<Value, Memory>
    requires order { slice_cmp nat_cmp other.now key.now ≡ Greater }
    ensures { IfOk result (λ body. view body ≡ spec.two_texts key.now text.now other.now more.now) }
{
    json!(in alloc; {key: text, other: more})
}

/// Makes the body of a refusal.
fn refusal_body(alloc: Global, refusal: Refusal) -> Result<Value, Memory>
    ensures { IfOk result (λ body. view body ≡ spec.refusal_body refusal) }
{
    match refusal {
        Refusal::NotActive(status) => {
            two_texts(alloc, "error", "NotActive", "status", status.name())
        }
        Refusal::Full(exhausted) => two_texts(alloc, "error", "Full", "which", exhausted.name()),
        _ => one_text(alloc, "error", refusal.name()),
    }
}

impl ApiError {
    /// Returns the error's name, as it stands in a body.
    pub fn name(self) -> &'static str
        ensures { result.now ≡ spec.api_error_name self }
    {
        match self {
            ApiError::WrongKey => "WrongKey",
            ApiError::WrongHost => "WrongHost",
            ApiError::WrongOrigin => "WrongOrigin",
            ApiError::BadHead => "BadHead",
            ApiError::Chunked => "Chunked",
            ApiError::BadLength => "BadLength",
            ApiError::TooLarge => "TooLarge",
            ApiError::NoSuchPath => "NoSuchPath",
            ApiError::BadMethod(_) => "BadMethod",
            ApiError::BadBody => "BadBody",
            ApiError::Refused(refusal) => refusal.name(),
            ApiError::Worn => "Worn",
        }
    }

    /// Returns the status code of its reply.
    pub fn status(self) -> StatusCode
        ensures { result ≡ spec.api_error_code self }
    {
        match self {
            ApiError::WrongKey => StatusCode::UNAUTHORIZED,
            ApiError::WrongHost | ApiError::WrongOrigin => StatusCode::FORBIDDEN,
            ApiError::BadHead | ApiError::BadLength | ApiError::BadBody => StatusCode::BAD_REQUEST,
            ApiError::Chunked => StatusCode::NOT_IMPLEMENTED,
            ApiError::TooLarge => StatusCode::PAYLOAD_TOO_LARGE,
            ApiError::NoSuchPath => StatusCode::NOT_FOUND,
            ApiError::BadMethod(_) => StatusCode::METHOD_NOT_ALLOWED,
            ApiError::Refused(refusal) => refusal_status(refusal),
            ApiError::Worn => StatusCode::SERVICE_UNAVAILABLE,
        }
    }

    fn body(self, alloc: Global) -> Result<Value, Memory>
        ensures { IfOk result (λ body. view body ≡ spec.api_error_body self) }
    {
        match self {
            ApiError::Refused(refusal) => refusal_body(alloc, refusal),
            _ => one_text(alloc, "error", self.name()),
        }
    }
}

impl Answer {
    /// Returns the status code of its reply.
    pub fn status(self) -> StatusCode
        ensures { result ≡ spec.code_of self }
    {
        match self {
            Answer::Started(_) => StatusCode::CREATED,
            Answer::Turned(ActionStatus::Closing | ActionStatus::Cancelling) => {
                StatusCode::ACCEPTED
            }
            Answer::Denied(api_error) => api_error.status(),
            Answer::Retry { refusal, .. } => refusal_status(refusal),
            Answer::Dialect(answer) => answer.status(),
            _ => StatusCode::OK,
        }
    }

    /// Makes the URI that the answer names, or an empty text where it names none.
    fn uri(self, alloc: Global, instance: Instance, base: &Base) -> Result<String, Memory>
        requires numbers { spec.HasIdentifiers self }
        ensures { IfOk result (λ uri. string_bytes uri ≡ spec.uri_of instance base.now self) }
    {
        match self {
            Answer::Started(action) => base.spell_action(alloc, instance, action),
            Answer::Found { action, .. } => base.spell_action(alloc, instance, action),
            Answer::Joined(member) => base.spell_recovery(alloc, instance, member),
            Answer::Dialect(answer) => answer.uri(alloc, instance, base),
            _ => Ok(String::new(alloc)),
        }
    }

    /// Makes the digits of the seconds that the answer names, or an empty text where it names none.
    fn wait(self, alloc: Global) -> Result<String, Memory>
        ensures { IfOk result (λ wait. string_bytes wait ≡ wait_of self) }
    {
        match self {
            Answer::Retry { seconds, .. } => format!(in alloc; "{}", seconds),
            _ => Ok(String::new(alloc)),
        }
    }

    /// Makes the answer's body. `uri` is the URI that the answer names.
    fn body(self, alloc: Global, uri: &str) -> Result<Value, Memory>
        ensures { IfOk result (λ body. view body ≡ spec.body_of uri.now self) }
    {
        match self {
            Answer::Started(_) => one_text(alloc, "lra", uri),
            Answer::Found { status, .. } => {
                two_texts(alloc, "lra", uri, "status", status.name())
            }
            Answer::Joined(_) => one_text(alloc, "recovery", uri),
            Answer::Turned(status) => one_text(alloc, "status", status.name()),
            Answer::Left => one_text(alloc, "status", "Left"),
            Answer::Renewed => one_text(alloc, "status", "Active"),
            Answer::Member(status) => one_text(alloc, "status", status.name()),
            Answer::Denied(api_error) => api_error.body(alloc),
            Answer::Retry { refusal, .. } => refusal_body(alloc, refusal),
            Answer::Dialect(answer) => answer.body(alloc, uri),
        }
    }

    /// Makes the compact text of the answer's body.
    fn compact(self, alloc: Global, uri: &str) -> Result<String, Memory>
        ensures { IfOk result (λ text. string_bytes text ≡ compact_text (spec.body_of uri.now self)) }
    {
        self.body(alloc, uri)?.to_string(alloc)
    }

    /// Makes the text of the answer's body.
    fn text(self, alloc: Global, uri: &str) -> Result<String, Memory>
        ensures { IfOk result (λ text. string_bytes text ≡ spec.text_of uri.now self) }
    {
        match self {
            Answer::Dialect(answer) => answer.text(alloc, uri),
            _ => self.compact(alloc, uri),
        }
    }

    /// Returns the type of that text.
    fn content_type(self) -> &'static str
        ensures { result.now ≡ spec.content_type_of self }
    {
        match self {
            Answer::Dialect(answer) => answer.content_type(),
            _ => "application/json",
        }
    }

    /// Appends the fields of this answer alone. `uri` is the URI that the answer names, and `wait` its seconds.
    fn add_fields<'a>(self, uri: &'a str, wait: &'a str, fields: &mut Vec<(&'a str, &'a str)>)
        requires room { vec_len fields.old + 3 ≤ vec_capacity fields.old }
        requires wait { wait.now ≡ wait_of self }
        ensures fields { map seen fields.new.items ≡ map seen fields.old.items ++ spec.own_fields uri.now self }
        ensures room { (vec_len fields.new ≤ vec_len fields.old + 3) ×
            (vec_capacity fields.new ≡ vec_capacity fields.old) }
    {
        match self {
            Answer::Started(_) => {
                fields.push_reserved(("Location", uri));
                fields.push_reserved(("Long-Running-Action", uri));
            }
            Answer::Joined(_) => fields.push_reserved(("Long-Running-Action-Recovery", uri)),
            Answer::Denied(ApiError::BadMethod(resource)) => {
                fields.push_reserved(("Allow", resource.allowed()));
            }
            Answer::Denied(ApiError::WrongKey) => {
                fields.push_reserved(("WWW-Authenticate", "Bearer realm=\"lra\""));
            }
            Answer::Retry { .. } => fields.push_reserved(("Retry-After", wait)),
            Answer::Dialect(answer) => answer.add_fields(uri, fields),
            _ => {}
        }
    }

    /// Makes all fields of the reply. `uri` is the URI that the answer names, `wait` its seconds, and `digits` the
    /// length of the body.
    fn fields<'a>(
        self,
        alloc: Global,
        uri: &'a str,
        wait: &'a str,
        digits: &'a str,
        close: bool,
    ) -> Result<Vec<(&'a str, &'a str)>, Memory>
        requires { wait.now ≡ wait_of self }
        ensures { IfOk result (λ fields. (text : List ℕ) → digits.now ≡ decimal (length text)
            → map seen fields.items ≡ spec.fields_of uri.now self text close) }
    {
        let mut fields: Vec<(&'a str, &'a str)> = Vec::with_capacity(alloc, MOST_FIELDS)?;
        fields.push_reserved(("Content-Type", self.content_type()));
        fields.push_reserved(("Content-Length", digits));
        self.add_fields(uri, wait, &mut fields);
        if close {
            fields.push_reserved(("Connection", "close"));
        }
        Ok(fields)
    }

    /// Makes the parts that the reply is written from.
    fn parts(self, alloc: Global, instance: Instance, base: &Base) -> Result<Parts, Memory>
        requires numbers { spec.HasIdentifiers self }
        ensures { IfOk result (IsPartsOf instance base.now self) }
    {
        let uri = self.uri(alloc, instance, base)?;
        let text = self.text(alloc, uri.as_str())?;
        let digits = format!(in alloc; "{}", text.len())?;
        let wait = self.wait(alloc)?;
        Ok(Parts {
            uri,
            text,
            digits,
            wait,
        })
    }

    /// Writes the reply: without its body where `head` is set, and with `Connection: close` where `close` is set. The
    /// reply's text is made in the page, and replaces what stood there.
    pub fn write<W: Write>(
        self,
        page: &mut Vec<u8>,
        writer: &mut W,
        instance: Instance,
        base: &Base,
        head: bool,
        close: bool,
    ) -> Result<(), WireFault>
        requires numbers { spec.HasIdentifiers self }
        ensures text { Sends (W.contents writer.old) (W.contents writer.new)
            (spec.reply_bytes instance base.now self head close) result }
        // Where memory is refused, nothing is written.
        ensures memory { result ≡ Err WireFault.Memory → Keeps (W.contents writer.old) (W.contents writer.new) }
    {
        let alloc = *page.allocator();
        let Ok(parts) = self.parts(alloc, instance, base) else {
            return Err(WireFault::Memory);
        };
        let uri = parts.uri.as_str();
        let wait = parts.wait.as_str();
        let Ok(fields) = self.fields(alloc, uri, wait, parts.digits.as_str(), close) else {
            return Err(WireFault::Memory);
        };
        let status = self.status();
        let reply = ReplyWrite {
            code: status.as_u16(),
            phrase: phrase(status),
            fields: fields.as_slice(),
            body: content(parts.text.as_str(), head),
        };
        write_response_in(page, writer, &reply)
    }
}

/// Returns the bytes that follow the head of a reply: none where only the head was asked for.
fn content(text: &str, head: bool) -> &[u8]
    ensures { result.now ≡ (if head then [] else text.now) }
{
    if head { b"" } else { text.as_bytes() }
}

/// Returns the phrase of a status code.
fn phrase(status: StatusCode) -> &'static str
    ensures { result.now ≡ spec.phrase_of status }
{
    status.canonical_reason().unwrap_or("")
}
