//! A filter that passes on to a handler only the requests that are let in.

ghost use Rattle.std.specs.Prelude.{◌≡◌};

use crate::latest::KeySource;
use crate::told::RefusalListener;
use lra_front::RoutedRequest;
use lra_ids::{Base, Instance};
use lra_steps::{Answered, Handler};
use std::alloc::Global;

/// Filter that passes on to a handler only the requests that are let in, with a source of the rules that are in force,
/// and a notifier of denied requests. Replies to requests that are refused for what goes away by itself say after how
/// many seconds to send them again, if the filter is given these. It can't be dropped, but returns the handler.
pub struct AuthenticationFilter<A: Handler, L: KeySource, H: RefusalListener> {
    inner: A,
    latest: L,
    notifier: H,
    retry: Option<u64>,
}

impl<A: Handler, L: KeySource + Drop, H: RefusalListener + Drop> AuthenticationFilter<A, L, H> {
    /// Puts a filter round a handler.
    pub fn new(
        inner: A,
        latest: L,
        notifier: H,
        retry: Option<u64>,
    ) -> AuthenticationFilter<A, L, H>
        ensures inner { result.inner ≡ inner }
        ensures latest { result.latest ≡ latest }
        ensures retry { result.retry ≡ retry }
    {
        AuthenticationFilter {
            inner,
            latest,
            notifier,
            retry,
        }
    }

    /// Returns the handler.
    pub fn into_inner(self) -> A
        ensures { result ≡ self.inner }
    {
        let AuthenticationFilter {
            inner,
            latest,
            notifier,
            retry: _,
        } = self;
        drop(latest);
        drop(notifier);
        inner
    }
}

impl<A: Handler, L: KeySource, H: RefusalListener> Handler for AuthenticationFilter<A, L, H> {
    ghost use Rattle.lra_admission.specs.Serving.{Guard, Responds, Rests};
    ghost use Rattle.lra_admission.specs.inner.Stays.{base_stays};

    ghost State = { Guard A.State };

    ghost sight = { λ g. record { inner = A.sight g.inner; rules = L.in_force g.latest; retry = g.retry } };

    ghost base_of = { λ s. A.base_of s.inner };

    ghost responds = { Responds L.looks A.responds };

    ghost rests = { Rests A.rests };

    fn base(&self) -> &Base {
        self.inner.base()
    }

    fn instance(&self) -> Instance {
        self.inner.instance()
    }

    fn respond(&mut self, alloc: Global, moment: u64, request: &RoutedRequest<'_>) -> Answered {
        self.latest.look(moment);
        match self.latest.admission().api_error(&request.request().fields) {
            Some(api_error) => {
                self.notifier.denied(api_error);
                Answered::denied(self.inner.instance(), api_error)
            }
            None => {
                let own = self.inner.respond(alloc, moment, request);
                own.with_retry(self.retry)
            }
        }
    }

    fn on_idle(&mut self) {
        self.inner.on_idle();
    }

    ghost stays = { λ before after moment request answered h. base_stays L.looks A.responds A.base_of A.stays before
        after moment request answered h };

    ghost rest_stays = { λ before after h. A.rest_stays before.inner after.inner h.inner };
}
