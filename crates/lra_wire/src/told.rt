//! The fields that say which client asks, from where, with what, and in which trace, and what it says beside the target
//! and the body.
ghost use Rattle.std.specs.Prelude.{◌≡◌, ◌≤◌, length, map, option_map, All, IfOk};
ghost use Rattle.httparse.specs.Spans.{IsHeaderWithin, header_bytes};
ghost use Rattle.lra_wire.specs.Fields.{values_of};
ghost use Rattle.lra_wire.specs.Request.{sole, told_by, what_fields};

use crate::fields::{Named, has, lookup};
use httparse::spans::HeaderSpan;
use std::alloc::{AllocError, Global};

/// Values of fields of a request's head, without the white space around them. A field has a value here only where the
/// head has it exactly once.
#[derive(Debug, Drop)]
pub struct RequestFields {
    /// `Authorization` (RFC 9110, section 11.6.2).
    pub authorization: Option<Vec<u8>>,
    /// `Content-Type` (RFC 9110, section 8.3).
    pub content_type: Option<Vec<u8>>,
    /// `Host` (RFC 9110, section 7.2).
    pub host: Option<Vec<u8>>,
    /// `Origin` (RFC 6454, section 7).
    pub origin: Option<Vec<u8>>,
    /// `traceparent` (Trace Context, level 1, section 3.2).
    pub traceparent: Option<Vec<u8>>,
    /// `Accept` (RFC 9110, section 12.5.1).
    pub accept: Option<Vec<u8>>,
    /// `Link` (RFC 8288, section 3).
    pub link: Option<Vec<u8>>,
    /// `Narayana-LRA-API-version`.
    pub api_version: Option<Vec<u8>>,
    /// Flag that the head has a field `Narayana-LRA-Participant-Data`.
    pub has_data: bool,
}

/// Copies a value, if there is one.
fn copy_of(alloc: Global, value: &Option<Vec<u8>>) -> Result<Option<Vec<u8>>, AllocError>
    ensures { IfOk result (λ copy. option_map (λ v. v.items) copy ≡ option_map (λ v. v.items) value.now) }
{
    match value {
        Some(value) => Ok(Some(Vec::from_slice(alloc, value.as_slice())?)),
        None => Ok(None),
    }
}

/// Returns the value of the field of a name, where there is exactly one. The name's case doesn't matter.
#[tactic(auto, using(crate::proofs::FieldLemmas::sole_several))]
fn sole(
    alloc: Global,
    bytes: &[u8],
    fields: &[HeaderSpan],
    name: &[u8],
) -> Result<Option<Vec<u8>>, AllocError>
    requires { All (IsHeaderWithin (length bytes.now)) fields.now }
    ensures { IfOk result (λ value. option_map (λ v. v.items) value ≡ sole
        (values_of name.now (map (header_bytes bytes.now) fields.now))) }
{
    match lookup(bytes, fields, name) {
        Named::Once(value) => Ok(Some(Vec::from_slice(alloc, value)?)),
        Named::Absent => Ok(None),
        Named::Several => Ok(None),
    }
}

/// Reads the values of the fields at these spans of a head.
pub(crate) fn fields_at(
    alloc: Global,
    bytes: &[u8],
    fields: &[HeaderSpan],
) -> Result<RequestFields, AllocError>
    requires { All (IsHeaderWithin (length bytes.now)) fields.now }
    ensures { IfOk result (λ read. what_fields read ≡ told_by (map (header_bytes bytes.now) fields.now)) }
{
    Ok(RequestFields {
        authorization: sole(alloc, bytes, fields, b"authorization")?,
        content_type: sole(alloc, bytes, fields, b"content-type")?,
        host: sole(alloc, bytes, fields, b"host")?,
        origin: sole(alloc, bytes, fields, b"origin")?,
        traceparent: sole(alloc, bytes, fields, b"traceparent")?,
        accept: sole(alloc, bytes, fields, b"accept")?,
        link: sole(alloc, bytes, fields, b"link")?,
        api_version: sole(alloc, bytes, fields, b"narayana-lra-api-version")?,
        has_data: has(bytes, fields, b"narayana-lra-participant-data"),
    })
}

impl RequestFields {
    ghost use Rattle.std.specs.Prelude.{◌≡◌, [], IfOk};
    ghost use Rattle.lra_wire.specs.Request.{told_by, what_fields};

    /// Returns the values for a head that has none of these fields.
    pub fn none() -> RequestFields
        ensures { what_fields result ≡ told_by [] }
    {
        RequestFields {
            authorization: None,
            content_type: None,
            host: None,
            origin: None,
            traceparent: None,
            accept: None,
            link: None,
            api_version: None,
            has_data: false,
        }
    }

    /// Copies the values.
    pub fn copy(&self, alloc: Global) -> Result<RequestFields, AllocError>
        ensures { IfOk result (λ copy. what_fields copy ≡ what_fields self.now) }
    {
        Ok(RequestFields {
            authorization: copy_of(alloc, &self.authorization)?,
            content_type: copy_of(alloc, &self.content_type)?,
            host: copy_of(alloc, &self.host)?,
            origin: copy_of(alloc, &self.origin)?,
            traceparent: copy_of(alloc, &self.traceparent)?,
            accept: copy_of(alloc, &self.accept)?,
            link: copy_of(alloc, &self.link)?,
            api_version: copy_of(alloc, &self.api_version)?,
            has_data: self.has_data,
        })
    }
}
