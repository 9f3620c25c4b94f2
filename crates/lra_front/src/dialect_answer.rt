//! Answers in the dialect that clients of MicroProfile LRA in Java speak: texts in place of objects.

ghost use Rattle.std.specs.Prelude.{
  ◌≡◌,
  ◌+◌,
  ◌≤◌,
  ◌++◌,
  if◌then◌else◌,
  codes,
  map,
  vec_len,
  vec_capacity,
  IfOk,
  string_bytes,
};
ghost use Rattle.serde_json.specs.Data.{string};
ghost use Rattle.serde_json.specs.View.{view};
ghost use Rattle.lra_front.specs.Replies as spec;
ghost use Rattle.lra_front.specs.inner.Seen.{seen};

use crate::api_error::ApiError;
use http::StatusCode;
use lra_ids::{Base, Instance};
use lra_model::{ActionStatus, Memory};
use serde_json::Value;
use std::alloc::Global;

/// Version of the dialect, as the field `Narayana-LRA-API-version` names it.
#[derive(Clone, Copy, Debug, PartialEq, Eq)]
pub enum DialectVersion {
    /// 1.0
    First,
    /// 1.1
    Second,
    /// 1.2
    Third,
}

/// Methods that a path of the dialect accepts.
#[derive(Clone, Copy, Debug, PartialEq, Eq)]
pub enum DialectMethods {
    Get,
    Post,
    Put,
    GetPut,
}

/// Why a request isn't one that the dialect can ask.
#[derive(Clone, Copy, Debug, PartialEq, Eq)]
pub enum DialectRefusal {
    /// Nothing is served at the target.
    NoSuchPath,
    /// The path doesn't take the method.
    BadMethod(DialectMethods),
    /// The version isn't one of those that are spoken.
    BadVersion,
    /// The query has a word that the operation doesn't take, or a limit that is no number.
    BadQuery,
    /// The links of a member aren't links, or have an unknown relation.
    BadLinks,
    /// A join brings data of the member's own, for which the journal has no place.
    MemberData,
    /// A join brings a limit of the member's own, for which the journal has no place.
    MemberLimit,
    /// A leave names its member by links, and not by its recovery URI.
    LeaveByLinks,
    /// Details and lists of actions are told at the operators' port alone.
    Lists,
    /// The links of a member aren't told.
    MemberLinks,
    /// The journal has no entry for a member that moves.
    Moves,
    /// A nested action is called by its own coordinator, which is this one.
    Nested,
}

/// Contents of an answer in the dialect.
#[derive(Clone, Copy, Debug, PartialEq, Eq)]
pub enum DialectTold {
    /// Action that was started.
    Started(u64),
    /// Member that joined, now or before.
    Joined(u64),
    /// Action's status.
    Status(ActionStatus),
    /// Action's status once its end was asked for, now or before.
    Turned(ActionStatus),
    /// The request is done, and there is nothing to tell.
    Done,
    /// The own interface refused the request that this one means.
    Denied(ApiError),
    /// The request isn't one that the dialect can ask.
    Refused(DialectRefusal),
}

/// Answer in the dialect.
#[derive(Clone, Copy, Debug, PartialEq, Eq)]
pub struct DialectAnswer {
    pub told: DialectTold,
    /// Flag that the client accepts JSON: then the text is a JSON string.
    pub is_json: bool,
    /// Version that the request named, which goes back with the reply.
    pub version: Option<DialectVersion>,
}

impl DialectVersion {
    /// Returns the version's name.
    pub fn name(self) -> &'static str
        ensures { result.now ≡ spec.version_name self }
    {
        match self {
            DialectVersion::First => "1.0",
            DialectVersion::Second => "1.1",
            DialectVersion::Third => "1.2",
        }
    }
}

impl DialectMethods {
    /// Returns the methods as `Allow` lists them.
    pub fn allowed(self) -> &'static str
        ensures { result.now ≡ spec.dialect_allowed self }
    {
        match self {
            DialectMethods::Get => "GET",
            DialectMethods::Post => "POST",
            DialectMethods::Put => "PUT",
            DialectMethods::GetPut => "GET, PUT",
        }
    }
}

impl DialectRefusal {
    /// Returns the status code of its reply.
    pub fn status(self) -> StatusCode
        ensures { result ≡ spec.dialect_refusal_code self }
    {
        match self {
            DialectRefusal::NoSuchPath => StatusCode::NOT_FOUND,
            DialectRefusal::BadMethod(_) => StatusCode::METHOD_NOT_ALLOWED,
            DialectRefusal::BadVersion => StatusCode::EXPECTATION_FAILED,
            DialectRefusal::BadQuery
            | DialectRefusal::BadLinks
            | DialectRefusal::MemberData
            | DialectRefusal::MemberLimit => StatusCode::BAD_REQUEST,
            DialectRefusal::LeaveByLinks
            | DialectRefusal::Lists
            | DialectRefusal::MemberLinks
            | DialectRefusal::Moves
            | DialectRefusal::Nested => StatusCode::NOT_IMPLEMENTED,
        }
    }

    /// Returns a sentence that says why the request isn't done.
    pub fn sentence(self) -> &'static str
        ensures { result.now ≡ spec.dialect_sentence self }
    {
        match self {
            DialectRefusal::NoSuchPath => "Nothing is served at this path",
            DialectRefusal::BadMethod(_) => "The path does not take this method",
            DialectRefusal::BadVersion => "The version of the API is none of 1.0, 1.1 and 1.2",
            DialectRefusal::BadQuery => "The query has a word or a number that is not taken here",
            DialectRefusal::BadLinks => "The links of the participant can not be read",
            DialectRefusal::MemberData => "The journal has no place for data of a participant",
            DialectRefusal::MemberLimit => "The journal has no place for a limit of a participant",
            DialectRefusal::LeaveByLinks => "A participant leaves by its recovery URI",
            DialectRefusal::Lists => "Operators ask for lists and details at their own port",
            DialectRefusal::MemberLinks => "The links of a participant are not told",
            DialectRefusal::Moves => "The journal has no entry for a participant that moves",
            DialectRefusal::Nested => "A nested action is ended by its parent in this coordinator",
        }
    }
}

impl DialectTold {
    /// Returns the status code of its reply.
    fn status(self) -> StatusCode
        ensures { result ≡ spec.dialect_code self }
    {
        match self {
            DialectTold::Started(_) => StatusCode::CREATED,
            DialectTold::Turned(ActionStatus::Closing | ActionStatus::Cancelling) => {
                StatusCode::ACCEPTED
            }
            DialectTold::Denied(api_error) => api_error.status(),
            DialectTold::Refused(refusal) => refusal.status(),
            _ => StatusCode::OK,
        }
    }

    /// Makes the URI that is told, or an empty text where none is.
    fn uri(self, alloc: Global, instance: Instance, base: &Base) -> Result<String, Memory>
        requires numbers { spec.HasNumber self }
        ensures { IfOk result (λ uri. string_bytes uri ≡ spec.dialect_uri instance base.now self) }
    {
        match self {
            DialectTold::Started(action) => base.spell_action(alloc, instance, action),
            DialectTold::Joined(member) => base.spell_recovery(alloc, instance, member),
            _ => Ok(String::new(alloc)),
        }
    }

    /// Returns the words that are told. `uri` is the URI that is told.
    fn words<'a>(self, uri: &'a str) -> &'a str
        ensures { result.now ≡ spec.dialect_words uri.now self }
    {
        match self {
            DialectTold::Started(_) => uri,
            DialectTold::Joined(_) => uri,
            DialectTold::Status(status) => status.name(),
            DialectTold::Turned(status) => status.name(),
            DialectTold::Done => "",
            DialectTold::Denied(api_error) => api_error.name(),
            DialectTold::Refused(refusal) => refusal.sentence(),
        }
    }

    /// Appends the fields of what is told. `uri` is the URI that is told.
    fn add_fields<'a>(self, uri: &'a str, fields: &mut Vec<(&'a str, &'a str)>)
        requires { vec_len fields.old + 2 ≤ vec_capacity fields.old }
        ensures fields { map seen fields.new.items
            ≡ map seen fields.old.items ++ spec.dialect_told_fields uri.now self }
        ensures room { (vec_len fields.new ≤ vec_len fields.old + 2) ×
            (vec_capacity fields.new ≡ vec_capacity fields.old) }
    {
        match self {
            DialectTold::Started(_) => {
                fields.push_reserved(("Location", uri));
                fields.push_reserved(("Long-Running-Action", uri));
            }
            DialectTold::Joined(_) => {
                fields.push_reserved(("Location", uri));
                fields.push_reserved(("Long-Running-Action-Recovery", uri));
            }
            DialectTold::Refused(DialectRefusal::BadMethod(methods)) => {
                fields.push_reserved(("Allow", methods.allowed()));
            }
            _ => {}
        }
    }
}

impl DialectAnswer {
    /// Returns the status code of its reply.
    pub fn status(self) -> StatusCode
        ensures { result ≡ spec.dialect_code self.told }
    {
        self.told.status()
    }

    /// Returns the type of its text.
    pub fn content_type(self) -> &'static str
        ensures { result.now ≡ (if self.is_json then codes "application/json" else codes "text/plain") }
    {
        if self.is_json {
            "application/json"
        } else {
            "text/plain"
        }
    }

    /// Makes the URI that the answer names, or an empty text where it names none.
    pub(crate) fn uri(
        self,
        alloc: Global,
        instance: Instance,
        base: &Base,
    ) -> Result<String, Memory>
        requires numbers { spec.HasNumber self.told }
        ensures { IfOk result (λ uri. string_bytes uri ≡ spec.dialect_uri instance base.now self.told) }
    {
        self.told.uri(alloc, instance, base)
    }

    /// Makes the JSON string of the words. `uri` is the URI that the answer names.
    pub(crate) fn body(self, alloc: Global, uri: &str) -> Result<Value, Memory>
        ensures { IfOk result (λ body. view body ≡ string (spec.dialect_words uri.now self.told)) }
    {
        json_string(alloc, self.told.words(uri))
    }

    /// Makes the text of the reply. `uri` is the URI that the answer names.
    pub(crate) fn text(self, alloc: Global, uri: &str) -> Result<String, Memory>
        ensures { IfOk result (λ text. string_bytes text ≡ spec.dialect_text uri.now self) }
    {
        let words = self.told.words(uri);
        if self.is_json {
            json_text(alloc, words)
        } else {
            String::from_str(alloc, words)
        }
    }

    /// Appends the fields of this answer alone. `uri` is the URI that the answer names.
    pub(crate) fn add_fields<'a>(self, uri: &'a str, fields: &mut Vec<(&'a str, &'a str)>)
        requires { vec_len fields.old + 3 ≤ vec_capacity fields.old }
        ensures fields { map seen fields.new.items ≡ map seen fields.old.items ++ spec.dialect_fields uri.now self }
        ensures room { (vec_len fields.new ≤ vec_len fields.old + 3) ×
            (vec_capacity fields.new ≡ vec_capacity fields.old) }
    {
        self.told.add_fields(uri, fields);
        add_version(self.version, fields);
    }
}

/// Makes a JSON string.
fn json_string(alloc: Global, words: &str) -> Result<Value, Memory>
    ensures { IfOk result (λ made. view made ≡ string words.now) }
{
    Ok(Value::from(String::from_str(alloc, words)?))
}

/// Makes the text of a JSON string.
fn json_text(alloc: Global, words: &str) -> Result<String, Memory>
    ensures { IfOk result (λ text. string_bytes text ≡ spec.json_text words.now) }
{
    json_string(alloc, words)?.to_string(alloc)
}

/// Appends the field of a version, if there is one.
fn add_version<'a>(version: Option<DialectVersion>, fields: &mut Vec<(&'a str, &'a str)>)
    requires { vec_len fields.old + 1 ≤ vec_capacity fields.old }
    ensures fields { map seen fields.new.items ≡ map seen fields.old.items ++ spec.version_fields version }
    ensures room { (vec_len fields.new ≤ vec_len fields.old + 1) ×
        (vec_capacity fields.new ≡ vec_capacity fields.old) }
{
    match version {
        Some(named) => fields.push_reserved(("Narayana-LRA-API-version", named.name())),
        None => {}
    }
}
