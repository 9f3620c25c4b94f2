//! A filter that tallies requests, and notes the traces of those that end actions.

ghost use Rattle.std.specs.Prelude.{◌≡◌, option_map};
ghost use Rattle.lra_wire.specs.Request.{request_of};
ghost use Rattle.lra_operators_server.specs.Stops.{has_stopped};
ghost use Rattle.lra_operators_server.specs.inner.Endings as endings;

use crate::tallies::Tallies;
use lra_commands::Refusal;
use lra_front::{Answer, ApiError, Operation, RoutedRequest, id_in};
use lra_ids::{Base, Instance};
use lra_steps::{Answered, Handler};
use lra_traces::Traces;
use lra_wire::RequestRead;
use std::alloc::Global;
use std::sync::Wait;
use std::time::{Clock, Instant};

/// Handler that answers requests as another one does, and tallies them. It notes the traces of those that end actions,
/// if they are passed on.
#[derive(Drop)]
pub struct CountingHandler<'a, A, R> {
    inner: A,
    rt: &'a R,
    tallies: &'a Tallies,
    /// Traces of the requests that end actions, if they are passed on.
    traces: Option<&'a Traces>,
}

/// Returns whether a coordinator was asked, and says that it has stopped. A journal set that can't answer for a journal
/// yet refuses with the same word, and asks no coordinator.
pub fn has_stopped(answered: &Answered) -> bool
    ensures { result ≡ has_stopped answered.now }
{
    answered.position.is_some()
        && matches!(
            answered.answer,
            Answer::Denied(ApiError::Refused(Refusal::Stopped))
        )
}

/// Returns whether an operation ends an action.
fn is_end(operation: Result<Operation, ApiError>) -> bool
    ensures { result ≡ endings.is_end operation }
{
    matches!(operation, Ok(Operation::Close | Operation::Cancel))
}

/// Returns the ID in the target of a request, and its `traceparent`, if it has one.
fn traced_id(request: &RequestRead) -> Option<(&str, &[u8])>
    ensures { option_map (λ t. (t.0.now, t.1.now)) result ≡ endings.traced_id (request_of request.now) }
{
    match &request.fields.traceparent {
        Some(value) => Some((id_in(request.target.as_str()), value.as_slice())),
        None => None,
    }
}

/// Returns the action's ID and the `traceparent` of a request that is to end an action.
fn trace_in<'r>(request: &'r RoutedRequest<'_>) -> Option<(&'r str, &'r [u8])>
    ensures { option_map (λ t. (t.0.now, t.1.now)) result ≡ endings.trace_in request.now }
{
    if is_end(request.operation()) {
        traced_id(request.request())
    } else {
        None
    }
}

impl<'a, A, R> CountingHandler<'a, A, R> {
    /// Makes a handler that answers as another one does.
    pub fn new(
        inner: A,
        rt: &'a R,
        tallies: &'a Tallies,
        traces: Option<&'a Traces>,
    ) -> CountingHandler<'a, A, R>
        ensures { result.inner ≡ inner }
    {
        CountingHandler {
            inner,
            rt,
            tallies,
            traces,
        }
    }

    /// Returns the inner handler.
    pub fn into_inner(self) -> A
        ensures { result ≡ self.entry.inner }
    {
        let CountingHandler {
            inner,
            rt: _,
            tallies: _,
            traces: _,
        } = self;
        inner
    }
}

impl<A, R: Wait> CountingHandler<'_, A, R> {
    /// Notes the trace of a request that is to end an action, unless the action has one: no callback that the request
    /// causes is without.
    fn propose_trace(&self, request: &RoutedRequest<'_>) {
        if let Some(traces) = self.traces
            && let Some((id, value)) = trace_in(request)
        {
            traces.propose(self.rt, id, value);
        }
    }

    /// Notes the trace of a request that has ended an action.
    fn note_trace(&self, request: &RoutedRequest<'_>, is_done: bool) {
        if let Some(traces) = self.traces
            && is_done
            && let Some((id, value)) = trace_in(request)
        {
            traces.note(self.rt, id, value);
        }
    }
}

impl<A: Handler, R: Clock + Wait> Handler for CountingHandler<'_, A, R> {
    ghost State = { A.State };

    ghost sight = { λ c. A.sight c.inner };

    ghost base_of = { A.base_of };

    ghost responds = { A.responds };

    ghost rests = { A.rests };

    fn base(&self) -> &Base {
        self.inner.base()
    }

    fn instance(&self) -> Instance {
        self.inner.instance()
    }

    fn respond(&mut self, alloc: Global, moment: u64, request: &RoutedRequest<'_>) -> Answered {
        let began = Instant::now(self.rt).ok();
        self.propose_trace(request);
        let answered = self.inner.respond(alloc, moment, request);
        self.note_trace(request, answered.answer.status().is_success());
        self.tallies.add_request(
            self.rt,
            request.operation().ok(),
            answered.answer.status(),
            began,
        );
        if has_stopped(&answered) {
            self.tallies.stop(answered.instance);
        }
        answered
    }

    fn on_idle(&mut self) {
        self.inner.on_idle();
    }

    ghost stays = { λ before after moment request answered h. A.stays before after moment request answered h };

    ghost rest_stays = { λ before after h. A.rest_stays before after h };
}
