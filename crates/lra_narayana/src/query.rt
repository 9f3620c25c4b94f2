//! The words of a query, and what the fields of a request say.

ghost use Rattle.std.specs.Prelude.{◌≡◌, IfOk, string_bytes, option_map};
ghost use Rattle.lra_wire.specs.Request.{what_fields};
ghost use Rattle.lra_narayana.specs.Queries as spec;

use crate::operation::DialectOperation;
use lra_entries::read_number;
use lra_front::DialectVersion;
use lra_model::Memory;
use lra_wire::RequestFields;
use std::alloc::Global;

/// Returns whether an operation takes all words of a query.
#[tactic(auto, unfolding(crate::specs::Queries::takes_all))]
pub(crate) fn takes_all(operation: DialectOperation, query: &[u8]) -> bool
    ensures { result ≡ spec.takes_all operation query.now }
{
    for (word, _value) in form_urlencoded::raw_pairs(query) {
        if !operation.takes(word) {
            return false;
        }
    }
    true
}

/// Returns the value of the first word of a query that has a name, as it stands in the query.
fn raw_value<'a>(query: &'a [u8], name: &str) -> Option<&'a [u8]>
    ensures { option_map (λ value. value.now) result ≡ spec.raw_value name.now query.now }
{
    for (key, value) in form_urlencoded::raw_pairs(query) {
        if key == name.as_bytes() {
            return Some(value);
        }
    }
    None
}

/// Returns the limit that a query gives, 0 if it gives none, and nothing if that is no number.
#[tactic(auto, unfolding(crate::specs::Queries::limit_in))]
pub(crate) fn limit_in(query: &[u8]) -> Option<u64>
    ensures { result ≡ spec.limit_in query.now }
{
    match raw_value(query, "TimeLimit") {
        Some(value) => read_number(value),
        None => Some(0),
    }
}

/// Decodes bytes of a query or of a path.
pub(crate) fn decoded(alloc: Global, value: &[u8]) -> Result<String, Memory>
    ensures { IfOk result (λ text. string_bytes text ≡ spec.decoded value.now) }
{
    form_urlencoded::decode(alloc, value)?.into_owned(alloc)
}

/// Returns the parent that a query names, if it names one: an empty text names none.
#[tactic(auto, unfolding(crate::specs::Queries::parent_in))]
pub(crate) fn parent_in(alloc: Global, query: &[u8]) -> Result<Option<String>, Memory>
    ensures { IfOk result (λ parent. option_map string_bytes parent ≡ spec.parent_in query.now) }
{
    match named(query, "ParentLRA") {
        Some(value) => Ok(Some(decoded(alloc, value)?)),
        None => Ok(None),
    }
}

/// Returns the value of the first word of a query that has a name, unless it is empty.
fn named<'a>(query: &'a [u8], name: &str) -> Option<&'a [u8]>
    ensures { option_map (λ value. value.now) result ≡ spec.named name.now query.now }
{
    unless_empty(raw_value(query, name)?)
}

/// Returns bytes, unless there are none.
fn unless_empty(bytes: &[u8]) -> Option<&[u8]>
    ensures { option_map (λ some. some.now) result ≡ spec.unless_empty bytes.now }
{
    if bytes.is_empty() { None } else { Some(bytes) }
}

/// Returns the version of a name, if there is one.
#[tactic(auto, unfolding(crate::specs::Queries::version_named))]
fn version_named(name: &[u8]) -> Option<DialectVersion>
    ensures { result ≡ spec.version_named name.now }
{
    if name == "1.0".as_bytes() {
        return Some(DialectVersion::First);
    }
    if name == "1.1".as_bytes() {
        return Some(DialectVersion::Second);
    }
    if name == "1.2".as_bytes() {
        return Some(DialectVersion::Third);
    }
    None
}

/// Returns the version that a request names, if it names one that is spoken.
#[tactic(auto, unfolding(crate::specs::Queries::version_in))]
pub(crate) fn version_in(fields: &RequestFields) -> Option<DialectVersion>
    ensures { result ≡ spec.version_in (what_fields fields.now) }
{
    match &fields.api_version {
        Some(name) => version_named(name.as_slice()),
        None => None,
    }
}

/// Returns whether a request names a version that isn't spoken.
#[tactic(auto, unfolding(crate::specs::Queries::has_other_version))]
pub(crate) fn has_other_version(fields: &RequestFields) -> bool
    ensures { result ≡ spec.has_other_version (what_fields fields.now) }
{
    match &fields.api_version {
        Some(name) => version_named(name.as_slice()).is_none(),
        None => false,
    }
}

/// Returns whether a client accepts JSON before all else.
#[tactic(auto, unfolding(crate::specs::Queries::is_json))]
pub(crate) fn is_json(fields: &RequestFields) -> bool
    ensures { result ≡ spec.is_json (what_fields fields.now) }
{
    match &fields.accept {
        Some(accept) => accept.as_slice().starts_with(b"application/json"),
        None => false,
    }
}
