//! The check of addresses by rules.

ghost use Rattle.std.specs.Prelude.{◌≡◌, IfOk, IfSome, IsTrue};
ghost use Rattle.serde_json.specs.Find.{as_object};
ghost use Rattle.serde_json.specs.View.{view};
ghost use Rattle.lra_front.specs.Bodies.{text_under, addresses_given};
ghost use Rattle.lra_member_rules.specs.Ruling as spec;

use lra_front::{Operation, RoutedRequest};
use lra_ids::{Address, UriFault, address};
use lra_model::Memory;
use lra_rules::{Rules, host_in};
use serde_json::Value;
use std::alloc::Global;

/// Returns whether the rules let an address, by its host and port.
fn let_address(rules: &Rules, to: &Address) -> bool
    ensures { result ≡ spec.lets rules.now to.now }
{
    let authority = to.authority().as_bytes();
    match to.port() {
        Some(port) => rules.let_host(host_in(authority), port),
        None => rules.let_host(authority, 80),
    }
}

/// Returns whether the rules let a text. A text that is no address is let: it is refused elsewhere.
fn let_text(alloc: Global, rules: &Rules, text: &str) -> Result<bool, Memory>
    ensures { IfOk result (λ told. told ≡ spec.is_let rules.now text.now) }
{
    match address(alloc, text) {
        Ok(to) => {
            let told = let_address(rules, &to);
            drop(to);
            Ok(told)
        }
        Err(fault) => match fault {
            UriFault::Memory => Err(Memory),
            _ => Ok(true),
        },
    }
}

/// Returns whether the rules let the text under a key of a body, or there is none.
fn let_under(alloc: Global, rules: &Rules, body: &Value, key: &str) -> Result<bool, Memory>
    ensures { IfOk result (λ told. IfSome (as_object (view body.now)) (λ ms. told
        ≡ spec.is_let_if rules.now (text_under key.now ms))) }
{
    match body.get(key) {
        Some(value) => match value.as_str() {
            Some(text) => let_text(alloc, rules, text),
            None => Ok(true),
        },
        None => Ok(true),
    }
}

/// Returns whether the rules let all addresses in the body of a join.
fn let_all(alloc: Global, rules: &Rules, body: &Value) -> Result<bool, Memory>
    ensures { IfOk result (λ told. IfSome (as_object (view body.now)) (λ ms. told
        ≡ spec.are_let rules.now (addresses_given ms))) }
{
    Ok(
        let_under(alloc, rules, body, "compensate")?
            && let_under(alloc, rules, body, "complete")?
            && let_under(alloc, rules, body, "status")?
            && let_under(alloc, rules, body, "forget")?
            && let_under(alloc, rules, body, "after")?,
    )
}

/// Returns whether the body of a join is one that a join reads, and has an address that the rules don't let.
pub(crate) fn is_outside(
    alloc: Global,
    rules: &Rules,
    join: &RoutedRequest<'_>,
) -> Result<bool, Memory>
    requires { IsTrue (spec.is_join join.now) }
    ensures { IfOk result (λ told. told ≡ spec.is_outside_by rules.now join.now.body) }
{
    let Some(body) = join.body()? else {
        return Ok(false);
    };
    if !Operation::Join.fits(body) {
        return Ok(false);
    }
    Ok(!let_all(alloc, rules, body)?)
}
