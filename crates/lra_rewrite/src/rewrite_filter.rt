//! A filter that passes to a handler what each request means.

ghost use Rattle.std.specs.Prelude.{◌≡◌, is_some, option_map, IfOk, IfSome, IsFalse, IsSome, OnErr};
ghost use Rattle.lra_wire.specs.Request.{request_of};
ghost use Rattle.lra_front.specs.Replies.{HasIdentifiers};
ghost use Rattle.lra_rewrite.specs.Dialect.{is_kept_out};
ghost use Rattle.lra_rewrite.specs.Paths.{other_target};
ghost use Rattle.lra_rewrite.specs.inner.Asks.{AsksMoved, AsksOther};
ghost use Rattle.lra_rewrite.specs.inner.Made.{moved as spec_moved};
ghost use Rattle.lra_rewrite.specs.inner.Translated.{IsTranslated};
ghost use Rattle.lra_rewrite.specs.Serving.{served, RespondsInDialect, RespondsOwn};

use crate::asked::ask;
use crate::bodies::other_request;
use crate::dialect::{Translated, told_in, translate, turned_away};
use crate::paths::is_outside;
use crate::requests::moved_request;
use lra_commands::Refusal;
use lra_front::{ApiError, RoutedRequest};
use lra_ids::{Base, Instance};
use lra_model::Memory;
use lra_narayana::DialectRouter;
use lra_steps::{Answered, Handler};
use lra_wire::RequestRead;
use std::alloc::Global;

/// Filter that passes to a handler what each request means: behind a proxy that passes the path of the base on, and by
/// identifiers under older bases. A strict filter accepts requests by the path of the base alone. With a router of the
/// dialect all requests are of the dialect. It can't be dropped, but returns the handler.
pub struct RewriteFilter<A: Handler> {
    inner: A,
    olders: Vec<Base>,
    is_strict: bool,
    dialect: Option<DialectRouter>,
}

impl<A: Handler> RewriteFilter<A> {
    /// Puts a filter round a handler. Identifiers may be under older bases: the first base that an identifier is under
    /// counts. A strict filter denies each request whose target isn't under the path of the base, which is all of them
    /// if that path is `/` alone. With a router of the dialect, requests are of the dialect.
    pub fn new(
        inner: A,
        olders: Vec<Base>,
        is_strict: bool,
        dialect: Option<DialectRouter>,
    ) -> RewriteFilter<A>
        ensures inner { result.inner ≡ inner }
        ensures olders { result.olders ≡ olders }
        ensures is_strict { result.is_strict ≡ is_strict }
        ensures dialect { result.dialect ≡ dialect }
    {
        RewriteFilter {
            inner,
            olders,
            is_strict,
            dialect,
        }
    }

    /// Returns the handler.
    pub fn into_inner(self) -> A
        ensures { result ≡ self.inner }
    {
        let RewriteFilter {
            inner,
            olders,
            is_strict: _,
            dialect,
        } = self;
        drop(olders);
        drop(dialect);
        inner
    }
}

impl<A: Handler> RewriteFilter<A> {
    /// Calls the handler with what a request means by the identifier in its body.
    fn ask_other(&mut self, alloc: Global, moment: u64, request: &RoutedRequest<'_>) -> Answered
        ensures asks { AsksOther A.base_of A.responds (A.sight self.old.inner) self.old.olders.items moment request.now
            result (A.sight self.new.inner) }
        ensures olders { self.new.olders ≡ self.old.olders }
        ensures is_strict { self.new.is_strict ≡ self.old.is_strict }
        ensures dialect { self.new.dialect ≡ self.old.dialect }
        ensures identifiers { HasIdentifiers result.answer }
    {
        let base = self.inner.base().as_str();
        let meant = other_request(alloc, base, self.olders.as_slice(), request);
        ask(&mut self.inner, alloc, moment, request, meant)
    }

    /// Calls the handler with what a request means: by its target, for which this is the request if that is another,
    /// and then by the identifier in its body.
    fn ask_moved(
        &mut self,
        alloc: Global,
        moment: u64,
        request: &RoutedRequest<'_>,
        moved: Result<Option<RequestRead>, Memory>,
    ) -> Answered
        requires ok { IfOk moved (λ other. option_map request_of other
            ≡ spec_moved (A.base_of (A.sight self.old.inner)) request.now) }
        requires err { OnErr moved (IsSome (other_target (A.base_of (A.sight self.old.inner)) request.now.target)) }
        ensures asks { AsksMoved A.base_of A.responds (A.sight self.old.inner) self.old.olders.items moment request.now
            result (A.sight self.new.inner) }
        ensures olders { self.new.olders ≡ self.old.olders }
        ensures is_strict { self.new.is_strict ≡ self.old.is_strict }
        ensures dialect { self.new.dialect ≡ self.old.dialect }
        ensures identifiers { HasIdentifiers result.answer }
    {
        match moved {
            Ok(Some(other)) => {
                let answered = self.ask_other(alloc, moment, &request.with(alloc, &other));
                drop(other);
                answered
            }
            Ok(None) => self.ask_other(alloc, moment, request),
            Err(_) => Answered::denied(self.inner.instance(), ApiError::Refused(Refusal::Memory)),
        }
    }
    /// Calls the handler with what a request means.
    fn ask_meant(&mut self, alloc: Global, moment: u64, request: &RoutedRequest<'_>) -> Answered
        ensures asks { AsksMoved A.base_of A.responds (A.sight self.old.inner) self.old.olders.items moment request.now
            result (A.sight self.new.inner) }
        ensures olders { self.new.olders ≡ self.old.olders }
        ensures is_strict { self.new.is_strict ≡ self.old.is_strict }
        ensures dialect { self.new.dialect ≡ self.old.dialect }
        ensures identifiers { HasIdentifiers result.answer }
    {
        let base = self.inner.base();
        let own = request.request();
        let moved = moved_request(alloc, base, own);
        self.ask_moved(alloc, moment, request, moved)
    }

    /// Answers a request of the own interface.
    fn respond_own(&mut self, alloc: Global, moment: u64, request: &RoutedRequest<'_>) -> Answered
        ensures does { RespondsOwn A.base_of A.responds (served (A.sight self.old.inner)
            self.old.olders.items self.old.is_strict (is_some self.old.dialect)) moment request.now result
            (A.sight self.new.inner) }
        ensures olders { self.new.olders ≡ self.old.olders }
        ensures is_strict { self.new.is_strict ≡ self.old.is_strict }
        ensures dialect { self.new.dialect ≡ self.old.dialect }
        ensures identifiers { HasIdentifiers result.answer }
    {
        let base = self.inner.base();
        if self.is_strict && is_outside(base.as_str(), request.request().target.as_str()) {
            return Answered::denied(self.inner.instance(), ApiError::NoSuchPath);
        }
        self.ask_meant(alloc, moment, request)
    }

    /// Translates a request, if requests are of the dialect.
    fn translate(
        &self,
        alloc: Global,
        request: &RoutedRequest<'_>,
    ) -> Option<Result<Translated, Memory>>
        ensures some { IfSome result (λ made. IfOk made (IsTranslated (A.base_of (A.sight self.now.inner))
            self.now.is_strict request.now)) }
        ensures err { IfSome result (λ made. OnErr made (IsFalse (is_kept_out (A.base_of (A.sight self.now.inner))
            self.now.is_strict request.now))) }
        ensures speaks { is_some result ≡ is_some self.now.dialect }
    {
        match &self.dialect {
            Some(router) => Some(translate(
                alloc,
                self.inner.base().as_str(),
                self.is_strict,
                router,
                request.request(),
            )),
            None => None,
        }
    }

    /// Calls the handler with what an own request means, which a request of the dialect means.
    fn ask_own(
        &mut self,
        alloc: Global,
        moment: u64,
        request: &RoutedRequest<'_>,
        own: RequestRead,
    ) -> Answered
        ensures asks { AsksMoved A.base_of A.responds (A.sight self.old.inner) self.old.olders.items moment
            (request_of own) result (A.sight self.new.inner) }
        ensures olders { self.new.olders ≡ self.old.olders }
        ensures is_strict { self.new.is_strict ≡ self.old.is_strict }
        ensures dialect { self.new.dialect ≡ self.old.dialect }
        ensures identifiers { HasIdentifiers result.answer }
    {
        let answered = self.ask_meant(alloc, moment, &request.with(alloc, &own));
        drop(own);
        answered
    }

    /// Answers a request of the dialect, which was translated.
    fn respond_made(
        &mut self,
        alloc: Global,
        moment: u64,
        request: &RoutedRequest<'_>,
        made: Translated,
    ) -> Answered
        requires { IsTranslated (A.base_of (A.sight self.old.inner)) self.old.is_strict request.now made }
        ensures does { RespondsInDialect A.base_of A.responds (served (A.sight self.old.inner)
            self.old.olders.items self.old.is_strict (is_some self.old.dialect)) moment request.now result
            (A.sight self.new.inner) }
        ensures olders { self.new.olders ≡ self.old.olders }
        ensures is_strict { self.new.is_strict ≡ self.old.is_strict }
        ensures dialect { self.new.dialect ≡ self.old.dialect }
        ensures identifiers { HasIdentifiers result.answer }
    {
        match made {
            Translated::Own(_operation, own) => {
                let answered = self.ask_own(alloc, moment, request, own);
                told_in(request, answered)
            }
            Translated::Refused(refusal) => { turned_away(request, self.inner.instance(), refusal) }
        }
    }

    /// Answers a request of the dialect, of which this is what was made of it.
    fn respond_translated(
        &mut self,
        alloc: Global,
        moment: u64,
        request: &RoutedRequest<'_>,
        made: Result<Translated, Memory>,
    ) -> Answered
        requires ok { IfOk made (IsTranslated (A.base_of (A.sight self.old.inner)) self.old.is_strict request.now) }
        requires err { OnErr made (IsFalse (is_kept_out (A.base_of (A.sight self.old.inner)) self.old.is_strict
            request.now)) }
        ensures does { RespondsInDialect A.base_of A.responds (served (A.sight self.old.inner)
            self.old.olders.items self.old.is_strict (is_some self.old.dialect)) moment request.now result
            (A.sight self.new.inner) }
        ensures olders { self.new.olders ≡ self.old.olders }
        ensures is_strict { self.new.is_strict ≡ self.old.is_strict }
        ensures dialect { self.new.dialect ≡ self.old.dialect }
        ensures identifiers { HasIdentifiers result.answer }
    {
        match made {
            Ok(made) => self.respond_made(alloc, moment, request, made),
            Err(_) => told_in(
                request,
                Answered::denied(self.inner.instance(), ApiError::Refused(Refusal::Memory)),
            ),
        }
    }
}

impl<A: Handler> Handler for RewriteFilter<A> {
    ghost use Rattle.std.specs.Prelude.{is_some};
    ghost use Rattle.lra_rewrite.specs.Serving.{Served, served, Responds, Rests};
    ghost use Rattle.lra_rewrite.specs.inner.Stays.{base_stays};

    ghost State = { Served A.State };

    ghost sight = { λ p. served (A.sight p.inner) p.olders.items p.is_strict (is_some p.dialect) };

    ghost base_of = { λ s. A.base_of s.inner };

    ghost responds = { Responds A.base_of A.responds };

    ghost rests = { Rests A.rests };

    fn base(&self) -> &Base {
        self.inner.base()
    }

    fn instance(&self) -> Instance {
        self.inner.instance()
    }

    fn respond(&mut self, alloc: Global, moment: u64, request: &RoutedRequest<'_>) -> Answered {
        match self.translate(alloc, request) {
            Some(made) => self.respond_translated(alloc, moment, request, made),
            None => self.respond_own(alloc, moment, request),
        }
    }

    fn on_idle(&mut self) {
        self.inner.on_idle();
    }

    ghost stays = { λ before after moment request answered h. base_stays A.base_of A.responds A.stays before after
        moment request answered h };

    ghost rest_stays = { λ before after h. A.rest_stays before.inner after.inner h.inner };
}
