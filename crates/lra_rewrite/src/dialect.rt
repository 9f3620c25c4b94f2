//! The own requests that requests of the dialect mean, and the answers as it tells them.

ghost use Rattle.std.specs.Prelude.{◌≡◌, IfOk, IsFalse, None, OnErr};
ghost use Rattle.lra_wire.specs.Request.{request_of};
ghost use Rattle.lra_front.specs.Replies.{HasIdentifiers};
ghost use Rattle.lra_narayana.specs.Spelled as told;
ghost use Rattle.lra_rewrite.specs.Dialect.{is_kept_out};
ghost use Rattle.lra_rewrite.specs.inner.Translated.{IsTranslated, IsTranslatedAt};

use crate::paths::{is_outside, other_target};
use lra_front::{DialectRefusal, RoutedRequest};
use lra_model::{Instance, Memory};
use lra_narayana::{DialectOperation, DialectRouter, own_request, refused, spelled};
use lra_steps::Answered;
use lra_wire::RequestRead;
use std::alloc::Global;

/// Request of the dialect, translated.
#[derive(Drop)]
pub(crate) enum Translated {
    /// Operation in the dialect, and the own request that means the same.
    Own(DialectOperation, RequestRead),
    /// Why it means none.
    Refused(DialectRefusal),
}

/// Translates a request with that target.
fn translate_at(
    alloc: Global,
    base: &str,
    router: &DialectRouter,
    target: &str,
    request: &RequestRead,
) -> Result<Translated, Memory>
    ensures { IfOk result (IsTranslatedAt base.now target.now (request_of request.now)) }
{
    match router.meant(target, request) {
        Ok(operation) => {
            let own = own_request(alloc, base, operation, target, request)?;
            Ok(Translated::Own(operation, own))
        }
        Err(refusal) => Ok(Translated::Refused(refusal)),
    }
}

/// Translates a request of the dialect.
pub(crate) fn translate(
    alloc: Global,
    base: &str,
    is_strict: bool,
    router: &DialectRouter,
    request: &RequestRead,
) -> Result<Translated, Memory>
    ensures ok { IfOk result (IsTranslated base.now is_strict (request_of request.now)) }
    ensures err { OnErr result (IsFalse (is_kept_out base.now is_strict (request_of request.now))) }
{
    let target = request.target.as_str();
    if is_strict && is_outside(base, target) {
        return Ok(Translated::Refused(DialectRefusal::NoSuchPath));
    }
    match other_target(alloc, base, target)? {
        Some(moved) => {
            let made = translate_at(alloc, base, router, moved.as_str(), request)?;
            Ok(made)
        }
        None => {
            let made = translate_at(alloc, base, router, target, request)?;
            Ok(made)
        }
    }
}

/// Tells an answer to a request that was read.
fn tell(request: &RequestRead, answered: Answered) -> Answered
    requires { HasIdentifiers answered.answer }
    ensures instance { result.instance ≡ answered.instance }
    ensures answer { result.answer ≡ told.spelled (request_of request.now) answered.answer }
    ensures position { result.position ≡ answered.position }
    ensures identifiers { HasIdentifiers result.answer }
{
    Answered {
        instance: answered.instance,
        answer: spelled(request, answered.answer),
        position: answered.position,
    }
}

/// Refuses a request that was read.
fn deny(request: &RequestRead, instance: Instance, refusal: DialectRefusal) -> Answered
    ensures answer { result.answer ≡ told.refused (request_of request.now) refusal }
    ensures position { result.position ≡ None }
    ensures identifiers { HasIdentifiers result.answer }
{
    Answered {
        instance,
        answer: refused(request, refusal),
        position: None,
    }
}

/// Tells an answer in the dialect.
pub(crate) fn told_in(request: &RoutedRequest<'_>, answered: Answered) -> Answered
    requires { HasIdentifiers answered.answer }
    ensures instance { result.instance ≡ answered.instance }
    ensures answer { result.answer ≡ told.spelled request.now answered.answer }
    ensures position { result.position ≡ answered.position }
    ensures identifiers { HasIdentifiers result.answer }
{
    tell(request.request(), answered)
}

/// Returns the answer to a request that the dialect refuses.
pub(crate) fn turned_away(
    request: &RoutedRequest<'_>,
    instance: Instance,
    refusal: DialectRefusal,
) -> Answered
    ensures answer { result.answer ≡ told.refused request.now refusal }
    ensures position { result.position ≡ None }
    ensures identifiers { HasIdentifiers result.answer }
{
    deny(request.request(), instance, refusal)
}
