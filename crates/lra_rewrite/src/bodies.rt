//! Bodies with an identifier under an older base.

ghost use Rattle.std.specs.Prelude.{◌≡◌, ◌≢◌, [], option_map, option_and_then, string_bytes, IfOk, IfSome, OnErr};
ghost use Rattle.serde_json.specs.Find.{as_str, get};
ghost use Rattle.serde_json.specs.View.{view};
ghost use Rattle.lra_front.specs.ApiRequests.{LacksMemory};
ghost use Rattle.lra_front.specs.Routes.{operation_of};
ghost use Rattle.lra_rewrite.specs.Texts as texts;
ghost use Rattle.lra_rewrite.specs.Bodies as spec;
ghost use Rattle.lra_rewrite.specs.Requests.{MeansParts};
ghost use Rattle.lra_rewrite.specs.inner.Made.{IsMade, MeansOther, meant_by};

use crate::requests::{Meant, meant_with, text_under};
use crate::texts::other_text;
use lra_front::RoutedRequest;
use lra_ids::Base;
use lra_model::Memory;
use serde_json::Value;
use std::alloc::Global;

/// Returns the text that the text under a key of a value means, if that is another.
fn other_under(
    alloc: Global,
    base: &str,
    olders: &[Base],
    key: &str,
    value: &Value,
) -> Result<Option<String>, Memory>
    ensures { IfOk result (λ other. option_map string_bytes other
        ≡ option_and_then (texts.other_text base.now olders.now)
        (option_and_then as_str (get key.now (view value.now)))) }
{
    match text_under(key, value) {
        Some(text) => other_text(alloc, base, olders, text),
        None => Ok(None),
    }
}

/// Returns the request that a request with an identifier under a key of its body means, if that is another.
fn other_at(
    alloc: Global,
    base: &str,
    olders: &[Base],
    key: &str,
    request: &RoutedRequest<'_>,
) -> Result<Option<Meant>, Memory>
    requires { LacksMemory request.now }
    ensures ok { IfOk result (λ other. MeansParts request.now.target
        (spec.other_at base.now olders.now key.now request.now.body) request.now (meant_by request.now other)) }
    ensures made { IfOk result (λ other. IfSome other (IsMade request.now)) }
    ensures err { OnErr result (request.now.body ≢ []) }
{
    if request.request().body.is_empty() {
        return Ok(None);
    }
    let Some(value) = request.body()? else {
        return Ok(None);
    };
    match other_under(alloc, base, olders, key, value)? {
        Some(text) => Ok(Some(meant_with(alloc, request, value, key, Value::from(text))?)),
        None => Ok(None),
    }
}

/// Returns the request that a request means by the identifier in its body, if that is another. If there is no older
/// base, the body isn't looked at.
pub(crate) fn other_request(
    alloc: Global,
    base: &str,
    olders: &[Base],
    request: &RoutedRequest<'_>,
) -> Result<Option<Meant>, Memory>
    ensures ok { IfOk result (λ other. MeansOther base.now olders.now request.now (meant_by request.now other)) }
    ensures made { IfOk result (λ other. IfSome other (IsMade request.now)) }
    ensures err { OnErr result (spec.IsRead olders.now (operation_of request.now.method request.now.target)
        request.now.body) }
{
    if olders.is_empty() {
        return Ok(None);
    }
    let Ok(operation) = request.operation() else {
        return Ok(None);
    };
    match operation.identifier_key() {
        Some(key) => other_at(alloc, base, olders, key, request),
        None => Ok(None),
    }
}
