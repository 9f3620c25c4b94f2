//! Joins with `https` addresses, which mean their spelling with `http`.

ghost use Rattle.std.specs.Prelude.{◌≡◌, ◌≤◌, option_map, option_and_then, string_bytes, IfOk, IfSome, IsTrue, Some};
ghost use Rattle.serde_json.specs.Data.{depth};
ghost use Rattle.serde_json.specs.Find.{as_object, as_str, get};
ghost use Rattle.serde_json.specs.Read.{max_depth};
ghost use Rattle.serde_json.specs.View.{view};
ghost use Rattle.lra_member_rules.specs.Ruling.{is_join};
ghost use Rattle.lra_rewrite.specs.Https as spec;
ghost use Rattle.lra_rewrite.specs.Requests.{MeansParts};
ghost use Rattle.lra_rewrite.specs.inner.Made.{IsMade, meant_by};

use crate::requests::{Meant, meant_of, put_under, text_under};
use lra_front::RoutedRequest;
use lra_member_rules::is_join;
use lra_model::Memory;
use serde_json::Value;
use std::alloc::Global;
use url::{ParseError, Position, Url};

/// Returns whether a request is a join, and members are called by a proxy.
pub(crate) fn may_spell(is_proxied: bool, request: &RoutedRequest<'_>) -> bool
    ensures { result ≡ spec.may_spell is_proxied request.now }
{
    is_proxied && is_join(request)
}

/// Returns the spelling of a URL with `http`, if its scheme is `https`.
fn https_spelling(alloc: Global, url: &Url) -> Result<Option<String>, Memory>
    ensures { IfOk result (λ spelled. option_map string_bytes spelled ≡ spec.https_spelling url.now) }
{
    if url.scheme() != "https" {
        return Ok(None);
    }
    let mut text = String::from_str(alloc, "http://")?;
    text.push_str(url.slice(Position::BeforeUsername, Position::AfterPort))?;
    if url.port().is_none() {
        text.push_str(":443")?;
    }
    text.push_str(url.slice(Position::BeforePath, Position::AfterFragment))?;
    Ok(Some(text))
}

/// Returns the spelling of a text with `http`, if it is an `https` URL.
#[tactic(auto, unfolding(crate::specs::Https::http_spelling))]
fn http_spelling(alloc: Global, text: &str) -> Result<Option<String>, Memory>
    ensures { IfOk result (λ spelled. option_map string_bytes spelled ≡ spec.http_spelling text.now) }
{
    match Url::parse(alloc, text) {
        Ok(url) => https_spelling(alloc, &url),
        Err(error) => match error {
            ParseError::OutOfMemory | ParseError::Overflow => Err(Memory),
            _ => Ok(None),
        },
    }
}

/// Returns the spelling with `http` of the text under a key of a value, if it is an `https` URL.
fn spelling_under(alloc: Global, key: &str, value: &Value) -> Result<Option<String>, Memory>
    ensures { IfOk result (λ spelled. option_map string_bytes spelled
        ≡ option_and_then spec.http_spelling (option_and_then as_str (get key.now (view value.now)))) }
{
    match text_under(key, value) {
        Some(text) => http_spelling(alloc, text),
        None => Ok(None),
    }
}

/// Returns a value with the text under a key spelled with `http`, if it is an `https` URL.
fn spelled_under(alloc: Global, key: &str, value: Value) -> Result<Value, Memory>
    requires { depth (view value) ≤ max_depth }
    ensures put { IfOk result (λ made. IfSome (as_object (view value)) (λ ms. as_object (view made)
        ≡ Some (spec.spelled_under key.now ms))) }
    ensures nests { IfOk result (λ made. depth (view made) ≤ max_depth) }
{
    match spelling_under(alloc, key, &value)? {
        Some(text) => put_under(alloc, value, key, Value::from(text)),
        None => Ok(value),
    }
}

/// Returns a copy of a join's value with all its addresses spelled so.
fn spelled_value(alloc: Global, value: &Value) -> Result<Value, Memory>
    requires { depth (view value.now) ≤ max_depth }
    ensures put { IfOk result (λ made. IfSome (as_object (view value.now)) (λ ms. as_object (view made)
        ≡ Some (spec.spelled_members ms))) }
    ensures nests { IfOk result (λ made. depth (view made) ≤ max_depth) }
{
    let copied = value.clone()?;
    let compensate = spelled_under(alloc, "compensate", copied)?;
    let complete = spelled_under(alloc, "complete", compensate)?;
    let status = spelled_under(alloc, "status", complete)?;
    let forget = spelled_under(alloc, "forget", status)?;
    let after = spelled_under(alloc, "after", forget)?;
    Ok(after)
}

/// Returns the join that a join means by its addresses. Only a body that is no object means itself.
pub(crate) fn spelled_request(
    alloc: Global,
    join: &RoutedRequest<'_>,
) -> Result<Option<Meant>, Memory>
    requires { IsTrue (is_join join.now) }
    ensures ok { IfOk result (λ other. MeansParts join.now.target (spec.spelled_at join.now.body) join.now
        (meant_by join.now other)) }
    ensures made { IfOk result (λ other. IfSome other (IsMade join.now)) }
{
    let Some(value) = join.body()? else {
        return Ok(None);
    };
    if !value.is_object() {
        return Ok(None);
    }
    let spelled = spelled_value(alloc, value)?;
    let meant = meant_of(alloc, join, spelled)?;
    Ok(Some(meant))
}
