//! A filter that completes the bodies of starts and joins by the settings of a service.

ghost use Rattle.std.specs.Prelude.{◌≡◌, IfOk, IfSome, IsTrue, OnErr};
ghost use Rattle.lra_rewrite.specs.Settling.{MeansSettled, may_differ};
ghost use Rattle.lra_rewrite.specs.inner.Made.{IsMade, meant_by};

use crate::asked::ask;
use crate::https::{may_spell, spelled_request};
use crate::limits::{limited_request, may_mean};
use crate::requests::Meant;
use lra_front::RoutedRequest;
use lra_ids::{Base, Instance};
use lra_model::Memory;
use lra_steps::{Answered, Handler};
use std::alloc::Global;

/// Returns the request that a request means under a default limit, where members are called by a proxy or aren't, if
/// that isn't itself. If it is, nothing is copied.
fn settled_request(
    alloc: Global,
    limit: u64,
    is_proxied: bool,
    request: &RoutedRequest<'_>,
) -> Result<Option<Meant>, Memory>
    ensures ok { IfOk result (λ other. MeansSettled limit is_proxied request.now (meant_by request.now other)) }
    ensures made { IfOk result (λ other. IfSome other (IsMade request.now)) }
    ensures err { OnErr result (IsTrue (may_differ limit is_proxied request.now)) }
{
    if may_mean(limit, request) {
        return limited_request(alloc, limit, request);
    }
    if may_spell(is_proxied, request) {
        return spelled_request(alloc, request);
    }
    Ok(None)
}

/// Filter that passes to a handler what each request means under the settings of a service: a start that gives no limit
/// means the same start with the default limit; and where members are called by a proxy, a join with `https` addresses
/// means the same join with their spelling by `http`. It can't be dropped, but returns the handler.
pub struct BodyFilter<A: Handler> {
    inner: A,
    limit: u64,
    is_proxied: bool,
}

impl<A: Handler> BodyFilter<A> {
    /// Puts a filter with a default limit in milliseconds round a handler. A limit of 0 is none. `is_proxied` says that
    /// members are called by a proxy.
    pub fn new(inner: A, limit: u64, is_proxied: bool) -> BodyFilter<A>
        ensures inner { result.inner ≡ inner }
        ensures limit { result.limit ≡ limit }
        ensures is_proxied { result.is_proxied ≡ is_proxied }
    {
        BodyFilter {
            inner,
            limit,
            is_proxied,
        }
    }

    /// Returns the handler.
    pub fn into_inner(self) -> A
        ensures { result ≡ self.inner }
    {
        let BodyFilter {
            inner,
            limit: _,
            is_proxied: _,
        } = self;
        inner
    }
}

impl<A: Handler> Handler for BodyFilter<A> {
    ghost use Rattle.lra_rewrite.specs.Settling.{Settled, RespondsSettled, RestsSettled};
    ghost use Rattle.lra_rewrite.specs.inner.Stays.{settled_stays};

    ghost State = { Settled A.State };

    ghost sight = { λ l. record { inner = A.sight l.inner; limit = l.limit; is_proxied = l.is_proxied } };

    ghost base_of = { λ s. A.base_of s.inner };

    ghost responds = { RespondsSettled A.responds };

    ghost rests = { RestsSettled A.rests };

    fn base(&self) -> &Base {
        self.inner.base()
    }

    fn instance(&self) -> Instance {
        self.inner.instance()
    }

    fn respond(&mut self, alloc: Global, moment: u64, request: &RoutedRequest<'_>) -> Answered {
        let meant = settled_request(alloc, self.limit, self.is_proxied, request);
        ask(&mut self.inner, alloc, moment, request, meant)
    }

    fn on_idle(&mut self) {
        self.inner.on_idle();
    }

    ghost stays = { λ before after moment request answered h. settled_stays A.base_of A.responds A.stays before after
        moment request answered h };

    ghost rest_stays = { λ before after h. A.rest_stays before.inner after.inner h.inner };
}
