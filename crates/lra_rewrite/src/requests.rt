//! The request that a request means.

ghost use Rattle.std.specs.Prelude.{
  ◌≡◌,
  ◌≤◌,
  option_map,
  option_and_then,
  string_bytes,
  IfOk,
  IfSome,
  IsSome,
  OnErr,
  Some,
};
ghost use Rattle.serde_json.specs.Data.{depth, put};
ghost use Rattle.serde_json.specs.Find.{as_object, as_str, get};
ghost use Rattle.serde_json.specs.Read.{max_depth};
ghost use Rattle.serde_json.specs.View.{view};
ghost use Rattle.lra_wire.specs.Request.{request_of};
ghost use Rattle.lra_front.specs.ApiRequests.{LacksMemory};
ghost use Rattle.lra_rewrite.specs.Paths as paths;
ghost use Rattle.lra_rewrite.specs.Requests as spec;
ghost use Rattle.lra_rewrite.specs.inner.Made.{IsMade, moved};

use crate::paths::other_target;
use lra_front::RoutedRequest;
use lra_ids::Base;
use lra_model::Memory;
use lra_wire::RequestRead;
use serde_json::Value;
use std::alloc::Global;

/// Request that another means, and the value that its body was written of.
#[derive(Drop)]
pub(crate) struct Meant {
    pub request: RequestRead,
    pub value: Value,
}

/// Returns a copy of a request with another target.
fn with_target(alloc: Global, request: &RequestRead, target: String) -> Result<RequestRead, Memory>
    ensures { IfOk result (λ made. request_of made ≡ record (request_of request.now) { target = string_bytes target }) }
{
    Ok(RequestRead {
        method: String::from_str(alloc, request.method.as_str())?,
        target,
        minor: request.minor,
        close: request.close,
        body: Vec::from_slice(alloc, request.body.as_slice())?,
        fields: request.fields.copy(alloc)?,
    })
}

/// Returns a copy of a request with another body.
fn with_body(alloc: Global, request: &RequestRead, body: String) -> Result<RequestRead, Memory>
    ensures { IfOk result (λ made. request_of made ≡ record (request_of request.now) { body = string_bytes body }) }
{
    Ok(RequestRead {
        method: String::from_str(alloc, request.method.as_str())?,
        target: String::from_str(alloc, request.target.as_str())?,
        minor: request.minor,
        close: request.close,
        body: body.into_bytes(),
        fields: request.fields.copy(alloc)?,
    })
}

/// Returns the request with the target that the target of a request means, if that is another.
pub(crate) fn moved_request(
    alloc: Global,
    base: &Base,
    request: &RequestRead,
) -> Result<Option<RequestRead>, Memory>
    ensures ok { IfOk result (λ other. option_map request_of other ≡ moved base.now (request_of request.now)) }
    ensures err { OnErr result (IsSome (paths.other_target base.now (request_of request.now).target)) }
{
    match other_target(alloc, base.as_str(), request.target.as_str())? {
        Some(target) => Ok(Some(with_target(alloc, request, target)?)),
        None => Ok(None),
    }
}

/// Returns the text under a key of a value, if there is one.
pub(crate) fn text_under<'v>(key: &str, value: &'v Value) -> Option<&'v str>
    ensures { option_map (λ text. text.now) result ≡ option_and_then as_str (get key.now (view value.now)) }
{
    value.get(key)?.as_str()
}

/// Puts a text or a number under a key of a value, if the value is an object.
pub(crate) fn put_under(
    alloc: Global,
    value: Value,
    key: &str,
    member: Value,
) -> Result<Value, Memory>
    requires nests { depth (view value) ≤ max_depth }
    requires flat { depth (view member) ≡ 0 }
    ensures put { IfOk result (λ made. IfSome (as_object (view value)) (λ ms. as_object (view made)
        ≡ Some (put key.now (view member) ms))) }
    ensures nests { IfOk result (λ made. depth (view made) ≤ max_depth) }
{
    match value {
        Value::Object(members) => {
            let mut members = members;
            members.insert(String::from_str(alloc, key)?, member)?;
            Ok(Value::Object(members))
        }
        other => Ok(other),
    }
}

/// Returns the request with a body that is written of a value.
pub(crate) fn meant_of(
    alloc: Global,
    own: &RoutedRequest<'_>,
    value: Value,
) -> Result<Meant, Memory>
    requires reads { LacksMemory own.now }
    requires nests { depth (view value) ≤ max_depth }
    ensures ok { IfOk result (λ meant. IfSome (as_object (view value)) (λ ms.
        spec.MeansParts own.now.target (Some ms) own.now (request_of meant.request))) }
    ensures made { IfOk result (IsMade own.now) }
{
    let text = value.to_string(alloc)?;
    let request = with_body(alloc, own.request(), text)?;
    Ok(Meant { request, value })
}

/// Returns the request with a text or a number put under a key of its body, of which this is the value.
pub(crate) fn meant_with(
    alloc: Global,
    own: &RoutedRequest<'_>,
    body: &Value,
    key: &str,
    member: Value,
) -> Result<Meant, Memory>
    requires reads { LacksMemory own.now }
    requires nests { depth (view body.now) ≤ max_depth }
    requires flat { depth (view member) ≡ 0 }
    ensures ok { IfOk result (λ meant. IfSome (as_object (view body.now)) (λ ms.
        spec.MeansParts own.now.target (Some (put key.now (view member) ms)) own.now (request_of meant.request))) }
    ensures made { IfOk result (IsMade own.now) }
{
    let copied = body.clone()?;
    let value = put_under(alloc, copied, key, member)?;
    let meant = meant_of(alloc, own, value)?;
    Ok(meant)
}
