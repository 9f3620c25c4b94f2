//! The call of a handler with the request that another means.

ghost use Rattle.std.specs.Prelude.{IfOk, IfSome};
ghost use Rattle.lra_front.specs.Replies.{HasIdentifiers};
ghost use Rattle.lra_rewrite.specs.inner.Asks.{Asks};
ghost use Rattle.lra_rewrite.specs.inner.Made.{IsMade};

use crate::requests::Meant;
use lra_commands::Refusal;
use lra_front::{ApiError, RoutedRequest};
use lra_model::Memory;
use lra_steps::{Answered, Handler};
use std::alloc::Global;

/// Calls a handler with the request that a request means, or with the request itself if it means no other. If memory
/// was refused in making the meant request, the handler isn't called.
pub(crate) fn ask<A: Handler>(
    inner: &mut A,
    alloc: Global,
    moment: u64,
    request: &RoutedRequest<'_>,
    meant: Result<Option<Meant>, Memory>,
) -> Answered
    requires { IfOk meant (λ other. IfSome other (IsMade request.now)) }
    ensures asks { Asks A.responds (A.sight inner.old) moment request.now meant result (A.sight inner.new) }
    ensures identifiers { HasIdentifiers result.answer }
{
    match meant {
        Ok(Some(other)) => {
            let Meant {
                request: meant,
                value,
            } = other;
            let answered = inner.respond(alloc, moment, &request.with_body(&meant, value));
            drop(meant);
            answered
        }
        Ok(None) => inner.respond(alloc, moment, request),
        Err(_) => Answered::denied(inner.instance(), ApiError::Refused(Refusal::Memory)),
    }
}
