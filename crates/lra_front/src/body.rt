//! The body of a request, and how it is read.

ghost use Rattle.std.specs.Prelude.{◌≡◌, is_some, option_map, option_and_then, IfOk, IfSome, OnErr, Ok};
ghost use Rattle.serde_json.specs.Data.{object, no_members};
ghost use Rattle.serde_json.specs.Find.{as_object};
ghost use Rattle.serde_json.specs.View.{view, members_view};
ghost use Rattle.lra_front.specs.Bodies as spec;

use crate::api_error::ApiError;
use crate::operation::Operation;
use lra_model::{Ending, Memory};
use serde_json::Value;
use serde_json::value::Map;
use std::alloc::Global;

/// Kind of a value in a body.
#[derive(Clone, Copy, Debug, PartialEq, Eq)]
pub enum Kind {
    Text,
    /// Digits alone, below 2^64.
    Number,
}

impl Kind {
    fn fits(self, value: &Value) -> bool
        ensures { result ≡ spec.is_kind (view value.now) self }
    {
        match self {
            Kind::Text => value.as_str().is_some(),
            Kind::Number => value.as_u64().is_some(),
        }
    }
}

impl Operation {
    /// Returns the kind of the value that the operation's body may have under a key, if it may have one.
    fn kind(self, key: &str) -> Option<Kind>
        ensures { result ≡ spec.kind_in key.now (spec.keys self) }
    {
        match self {
            Operation::Start if key == "parent" => Some(Kind::Text),
            Operation::Start | Operation::Renew if key == "limit" => Some(Kind::Number),
            Operation::Join if is_address(key) => Some(Kind::Text),
            Operation::Remove if key == "recovery" => Some(Kind::Text),
            Operation::Report if key == "status" => Some(Kind::Text),
            _ => None,
        }
    }

    /// Returns the key under which the operation's body has an identifier, if it has one.
    pub fn identifier_key(self) -> Option<&'static str>
        ensures { option_map (λ key. key.now) result ≡ spec.identifier_key self }
    {
        match self {
            Operation::Start => Some("parent"),
            Operation::Remove => Some("recovery"),
            _ => None,
        }
    }

    fn member_fits(self, key: &str, value: &Value) -> bool
        ensures { result ≡ spec.member_fits self key.now (view value.now) }
    {
        match self.kind(key) {
            Some(kind) => kind.fits(value),
            None => false,
        }
    }

    fn members_fit(self, members: &Map<String, Value>) -> bool
        ensures { result ≡ spec.members_fit self (members_view members.now.entries) }
    {
        for (key, value) in members.iter() {
            if !self.member_fits(key.as_str(), value) {
                return false;
            }
        }
        true
    }

    fn has_needed(self, body: &Value) -> bool
        ensures { IfSome (as_object (view body.now)) (λ members. result ≡ spec.has_needed self members) }
    {
        match self {
            Operation::Remove => text_under(body, "recovery").is_some(),
            Operation::Renew => number_under(body, "limit").is_some(),
            Operation::Report => ending_told(body).is_some(),
            _ => true,
        }
    }

    /// Returns whether its body is read: the operations that a GET asks for don't read it.
    fn reads_body(self) -> bool
        ensures { result ≡ spec.reads_body self }
    {
        !matches!(self, Operation::Status | Operation::MemberStatus)
    }
}

/// Returns whether a key is one of a member's addresses.
fn is_address(key: &str) -> bool
    ensures { result ≡ is_some (spec.kind_in key.now (spec.keys Operation.Join)) }
{
    key == "compensate" || key == "complete" || key == "status" || key == "forget" || key == "after"
}

/// Returns the text under a key of a body, if there is one.
pub(crate) fn text_under<'b>(body: &'b Value, key: &str) -> Option<&'b str>
    ensures { IfSome (as_object (view body.now)) (λ members. option_map (λ text. text.now) result
        ≡ spec.text_under key.now members) }
{
    body.get(key)?.as_str()
}

/// Returns the number under a key of a body, if there is one.
pub(crate) fn number_under(body: &Value, key: &str) -> Option<u64>
    ensures { IfSome (as_object (view body.now)) (λ members. result ≡ spec.number_under key.now members) }
{
    body.get(key)?.as_u64()
}

/// Returns the end that a member reports, if the body names one.
pub(crate) fn ending_told(body: &Value) -> Option<Ending>
    ensures { IfSome (as_object (view body.now)) (λ members. result ≡ spec.ending_told members) }
{
    ending_named(text_under(body, "status")?)
}

fn ending_named(text: &str) -> Option<Ending>
    ensures { result ≡ spec.ending_named text.now }
{
    Ending::from_name(text.as_bytes())
}

/// Makes an object without members.
fn empty_object(alloc: Global) -> Value
    ensures { view result ≡ object no_members }
{
    Value::Object(Map::new(alloc))
}

impl Operation {
    /// Reads the value of a body, and returns it if the body is JSON. It is an object without members where the body is
    /// empty, or the operation doesn't read it.
    fn read_body(self, alloc: Global, body: &[u8]) -> Result<Option<Value>, Memory>
        ensures ok { IfOk result (λ value. spec.IsValueOf (Ok self) body.now (option_map view value)) }
        ensures err { OnErr result (spec.NeedsMemory (Ok self) body.now) }
    {
        if body.is_empty() || !self.reads_body() {
            return Ok(Some(empty_object(alloc)));
        }
        match Value::from_slice(alloc, body) {
            Ok(value) => Ok(Some(value)),
            Err(error) if error.is_memory() => Err(Memory),
            Err(_) => Ok(None),
        }
    }

    /// Returns whether the operation's body may be this value: an object with the members that it needs, and no others
    /// than it may have.
    pub fn fits(self, body: &Value) -> bool
        ensures { result ≡ is_some (option_and_then (spec.fitting self) (as_object (view body.now))) }
    {
        match body.as_object() {
            Some(members) => self.members_fit(members) && self.has_needed(body),
            None => false,
        }
    }
}

/// Reads the value of a request's body for the operation that the router found, if it found one.
pub(crate) fn read_body(
    alloc: Global,
    operation: Result<Operation, ApiError>,
    body: &[u8],
) -> Result<Option<Value>, Memory>
    ensures ok { IfOk result (λ value. spec.IsValueOf operation body.now (option_map view value)) }
    ensures err { OnErr result (spec.NeedsMemory operation body.now) }
{
    match operation {
        Ok(operation) => operation.read_body(alloc, body),
        Err(_) => Ok(None),
    }
}
