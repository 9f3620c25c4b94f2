//! A filter that turns away requests that would begin something in a journal near its end.

ghost use Rattle.std.specs.Prelude.{◌≡◌, IfNone, IfSome};
ghost use Rattle.lra_front.specs.Routes.{operation_of};
ghost use Rattle.lra_capacity.specs.Admitting as spec;

use crate::reserve::CapacitySource;
use lra_commands::{Refusal, Resource};
use lra_front::{ApiError, Operation, RoutedRequest};
use lra_ids::Base;
use lra_journal_router::instance_of;
use lra_model::Instance;
use lra_steps::{Answered, Handler};
use std::alloc::Global;

/// Filter of a handler, with the reserve that reports which journals are near their end.
#[derive(Drop)]
pub struct CapacityFilter<A: Handler, K: CapacitySource> {
    inner: A,
    reserve: K,
}

/// Returns whether an operation begins something.
fn begins_at(operation: Operation) -> bool
    ensures { result ≡ spec.begins_at operation }
{
    matches!(operation, Operation::Start | Operation::Join)
}

/// Returns whether a request begins something.
fn begins(request: &RoutedRequest<'_>) -> bool
    ensures { result ≡ spec.begins request.now }
{
    match request.operation() {
        Ok(operation) => begins_at(operation),
        Err(_) => false,
    }
}

/// Returns whether a request asks that a member join.
fn is_join(request: &RoutedRequest<'_>) -> bool
    ensures { result ≡ spec.is_join (operation_of request.now.method request.now.target) }
{
    matches!(request.operation(), Ok(Operation::Join))
}

impl<A: Handler, K: CapacitySource> CapacityFilter<A, K> {
    pub fn new(inner: A, reserve: K) -> CapacityFilter<A, K>
        ensures inner { result.inner ≡ inner }
        ensures reserve { result.reserve ≡ reserve }
    {
        CapacityFilter { inner, reserve }
    }

    /// Returns the API error for a request that is turned away, or nothing if it isn't.
    fn turned_away(&self, request: &RoutedRequest<'_>) -> Option<Answered>
        ensures none { IfNone result (spec.IsLet K.tells request.now) }
        ensures some { IfSome result (λ answered. spec.IsTurnedAway K.tells request.now answered) }
    {
        if !self.reserve.has_any() || !begins(request) {
            return None;
        }
        let (instance, refusal) = match instance_of(request) {
            Ok(None) if is_join(request) => return None,
            Ok(named) => (
                self.reserve.near_end(named)?,
                Refusal::Full(Resource::Entries),
            ),
            Err(_) => (self.inner.instance(), Refusal::Memory),
        };
        Some(Answered::denied(instance, ApiError::Refused(refusal)))
    }
}

impl<A: Handler, K: CapacitySource> Handler for CapacityFilter<A, K> {
    ghost use Rattle.lra_capacity.specs.Admitting.{Responds};
    ghost use Rattle.lra_capacity.specs.inner.Stays.{responds_stays};

    ghost State = { A.State };

    ghost sight = { λ r. A.sight r.inner };

    ghost base_of = { A.base_of };

    ghost responds = { Responds A.responds K.tells };

    ghost rests = { A.rests };

    fn base(&self) -> &Base {
        self.inner.base()
    }

    fn instance(&self) -> Instance {
        self.inner.instance()
    }

    fn respond(&mut self, alloc: Global, moment: u64, request: &RoutedRequest<'_>) -> Answered {
        match self.turned_away(request) {
            Some(answered) => answered,
            None => self.inner.respond(alloc, moment, request),
        }
    }

    fn on_idle(&mut self) {
        self.inner.on_idle();
    }

    ghost stays = { λ before after moment request answered h. responds_stays A.responds K.tells A.base_of A.stays before
        after moment request answered h };

    ghost rest_stays = { λ before after h. A.rest_stays before after h };
}
