//! A filter that refuses joins outside the rules.

ghost use Rattle.std.specs.Prelude.{◌≡◌, false, IfNone, IfSome};
ghost use Rattle.lra_member_rules.specs.Ruling as spec;

use crate::addresses::is_outside;
use lra_commands::Refusal;
use lra_front::{ApiError, Operation, RoutedRequest};
use lra_ids::Base;
use lra_model::Instance;
use lra_rules::Rules;
use lra_steps::{Answered, Handler};
use std::alloc::Global;

/// Filter of a handler, with the rules for where members may be.
#[derive(Drop)]
pub struct MemberRulesFilter<'r, A> {
    inner: A,
    rules: &'r Rules,
}

/// Returns whether a request asks to join.
pub fn is_join(request: &RoutedRequest<'_>) -> bool
    ensures { result ≡ spec.is_join request.now }
{
    matches!(request.operation(), Ok(Operation::Join))
}

/// Returns why a request is refused, if it is.
fn refusal_of(alloc: Global, rules: &Rules, request: &RoutedRequest<'_>) -> Option<Refusal>
    ensures none { IfNone result (spec.is_outside rules.now request.now ≡ false) }
    ensures some { IfSome result (spec.IsRefusedBy rules.now request.now) }
{
    if rules.is_empty() || !is_join(request) {
        return None;
    }
    match is_outside(alloc, rules, request) {
        Ok(true) => Some(Refusal::BadAddresses),
        Ok(false) => None,
        Err(_) => Some(Refusal::Memory),
    }
}

impl<'r, A> MemberRulesFilter<'r, A> {
    /// Puts a filter round a handler, with the rules for where members may be.
    pub fn new(inner: A, rules: &'r Rules) -> MemberRulesFilter<'r, A>
        ensures inner { result.inner ≡ inner }
        ensures rules { result.rules.now ≡ rules.now }
    {
        MemberRulesFilter { inner, rules }
    }

    /// Returns the handler.
    pub fn into_inner(self) -> A
        ensures { result ≡ self.entry.inner }
    {
        let MemberRulesFilter { inner, rules: _ } = self;
        inner
    }
}

impl<A: Handler> Handler for MemberRulesFilter<'_, A> {
    ghost use Rattle.lra_member_rules.specs.Serving.{Served, Responds, Rests};
    ghost use Rattle.lra_member_rules.specs.inner.Stays.{base_stays};

    ghost State = { Served A.State };

    ghost sight = { λ r. record { inner = A.sight r.inner; rules = r.rules.now } };

    ghost base_of = { λ s. A.base_of s.inner };

    ghost responds = { Responds A.responds };

    ghost rests = { Rests A.rests };

    fn base(&self) -> &Base {
        self.inner.base()
    }

    fn instance(&self) -> Instance {
        self.inner.instance()
    }

    fn respond(&mut self, alloc: Global, moment: u64, request: &RoutedRequest<'_>) -> Answered {
        match refusal_of(alloc, self.rules, request) {
            Some(refusal) => { Answered::denied(self.inner.instance(), ApiError::Refused(refusal)) }
            None => self.inner.respond(alloc, moment, request),
        }
    }

    fn on_idle(&mut self) {
        self.inner.on_idle();
    }

    ghost stays = { λ before after moment request answered h. base_stays A.base_of A.responds A.stays before after
        moment request answered h };

    ghost rest_stays = { λ before after h. A.rest_stays before.inner after.inner h.inner };
}
