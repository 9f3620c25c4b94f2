//! The effect of one request: its answer, and the order that the counter is given for it.

ghost use Rattle.std.specs.Prelude.{◌≡◌};
ghost use Rattle.lra_wire.specs.Request.{request_of};
ghost use Rattle.lra_front.specs.Replies.{HasIdentifiers};
ghost use Rattle.lra_front.specs.Serving.{Answers, Orders, Responds, TellsOf};
ghost use Rattle.lra_front.specs.inner.Tellable.{IsAnswerable, IsTellable};

use crate::answer::Answer;
use crate::api_error::ApiError;
use crate::api_request::{ApiRequest, read_request};
use crate::route::Routes;
use crate::routed_request::RoutedRequest;
use lra_commands::{Counter, CounterFault, Told};
use lra_wire::RequestRead;
use std::alloc::Global;

/// Returns the answer to an API request, from what the counter returned for it.
fn told(api_request: &ApiRequest, told: Told) -> Answer
    requires { IsTellable api_request.now told }
    ensures answer { TellsOf api_request.now told result }
    ensures identifiers { HasIdentifiers result }
{
    match (api_request, told) {
        (ApiRequest::Start { .. }, Told::Action(action)) => Answer::Started(action),
        (ApiRequest::Join { .. }, Told::Member(member)) => Answer::Joined(member),
        (ApiRequest::Join { .. }, Told::AlreadyMember(member)) => Answer::Joined(member),
        (ApiRequest::Leave { .. }, Told::Left) => Answer::Left,
        (ApiRequest::Close { .. } | ApiRequest::Cancel { .. }, Told::Now(status)) => Answer::Turned(
            status,
        ),
        (ApiRequest::Close { .. } | ApiRequest::Cancel { .. }, Told::Already(status)) =>
            Answer::Turned(status),
        (ApiRequest::Renew { .. }, Told::Renewed) => Answer::Renewed,
        (ApiRequest::Status { action }, Told::ActionIs(status)) => Answer::Found {
            action: *action,
            status,
        },
        (ApiRequest::Report { .. }, Told::MemberNow(status)) => Answer::Member(status),
        (ApiRequest::Report { .. }, Told::MemberAlready(status)) => Answer::Member(status),
        (ApiRequest::MemberStatus { .. }, Told::MemberIs(status)) => Answer::Member(status),
        _ => unreachable!(),
    }
}

/// Returns the answer to an API request, from the counter's reply.
fn answer(api_request: &ApiRequest, reply: Result<Told, CounterFault>) -> Answer
    requires { IsAnswerable api_request.now reply }
    ensures answer { Answers api_request.now reply result }
    ensures identifiers { HasIdentifiers result }
{
    match reply {
        Ok(words) => told(api_request, words),
        Err(CounterFault::Refused(refusal)) => Answer::Denied(ApiError::Refused(refusal)),
        Err(CounterFault::Worn) => Answer::Denied(ApiError::Worn),
    }
}

impl Routes {
    /// Answers a request at a moment. It gives the counter at most one order.
    pub fn respond<C: Counter>(
        &self,
        alloc: Global,
        counter: &mut C,
        moment: u64,
        request: &RequestRead,
    ) -> Answer
        ensures responds { Responds C.gives (C.sight counter.old) moment (request_of request.now) (C.sight counter.new)
            result }
        // The answer's numbers are those that identifiers can have.
        ensures identifiers { HasIdentifiers result }
    {
        let routed = RoutedRequest::new(alloc, self, request);
        let (answer, _) = routed.respond_ordered(alloc, counter, moment);
        drop(routed);
        answer
    }
}

impl<'r> RoutedRequest<'r> {
    /// Answers the request at a moment as `Routes::respond` does. Returns also whether the counter was given an order.
    pub fn respond_ordered<C: Counter>(
        &self,
        alloc: Global,
        counter: &mut C,
        moment: u64,
    ) -> (Answer, bool)
        ensures orders { Orders C.gives (C.sight counter.old) moment self.now (C.sight counter.new) result.0 result.1 }
        ensures identifiers { HasIdentifiers result.0 }
    {
        match read_request(alloc, counter.instance(), counter.base(), self) {
            Ok(api_request) => {
                let reply = counter.give(moment, &api_request.order());
                (answer(&api_request, reply), true)
            }
            Err(api_error) => (Answer::Denied(api_error), false),
        }
    }
}
