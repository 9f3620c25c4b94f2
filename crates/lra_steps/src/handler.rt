//! Handlers, which answer requests.

ghost use Rattle.std.specs.Prelude.{◌≡◌};
ghost use Rattle.lra_front.specs.Replies.{HasIdentifiers};
ghost use Rattle.lra_steps.specs.Positions.{denied};
ghost use Rattle.lra_steps.specs.Retries as spec;

use lra_commands::{Counter, Refusal, Session};
use lra_front::{Answer, ApiError, RoutedRequest};
use lra_ids::{Base, Instance};
use std::alloc::Global;

/// Answer to a request, and the position in a journal that it depends on.
#[derive(Clone, Copy, PartialEq, Eq)]
pub struct Answered {
    /// Instance whose identifiers the answer names.
    pub instance: Instance,
    pub answer: Answer,
    /// Position of the answer: the number of bytes, of those appended to the instance's journal since it was opened,
    /// that record all that the answer depends on. An answer has none, and waits for nothing, where no coordinator was
    /// asked.
    pub position: Option<u64>,
}

/// Returns whether a refusal goes away by itself. `is_asked` says that a coordinator was asked.
fn is_passing(is_asked: bool, refusal: Refusal) -> bool
    ensures { result ≡ spec.is_passing is_asked refusal }
{
    match refusal {
        Refusal::Memory => true,
        Refusal::Stopped => !is_asked,
        _ => false,
    }
}

/// Returns the refusal that an answer tells of, if it tells of one.
fn refusal_of(answer: Answer) -> Option<Refusal>
    ensures { result ≡ spec.refusal_of answer }
{
    match answer {
        Answer::Denied(ApiError::Refused(refusal)) => Some(refusal),
        _ => None,
    }
}

/// Returns a refused request's answer, with the seconds if the refusal goes away by itself.
fn answer_to(seconds: u64, is_asked: bool, answer: Answer, refusal: Option<Refusal>) -> Answer
    requires { HasIdentifiers answer }
    ensures answer { result ≡ spec.answer_to seconds is_asked answer refusal }
    ensures identifiers { HasIdentifiers result }
{
    match refusal {
        Some(refusal) => {
            if is_passing(is_asked, refusal) {
                Answer::Retry { refusal, seconds }
            } else {
                answer
            }
        }
        None => answer,
    }
}

impl Answered {
    /// Returns an API error for which no coordinator was asked.
    pub fn denied(instance: Instance, api_error: ApiError) -> Answered
        ensures { result ≡ denied instance api_error }
    {
        Answered {
            instance,
            answer: Answer::Denied(api_error),
            position: None,
        }
    }

    /// Returns the answer as it leaves: if it is a refusal that goes away by itself, with the seconds after which its
    /// request may be sent again, if there are any.
    pub fn with_retry(self, seconds: Option<u64>) -> Answered
        requires { HasIdentifiers self.answer }
        ensures answered { result ≡ spec.with_retry seconds self }
        ensures identifiers { HasIdentifiers result.answer }
    {
        match seconds {
            Some(seconds) => {
                let is_asked = self.position.is_some();
                let refusal = refusal_of(self.answer);
                Answered {
                    instance: self.instance,
                    answer: answer_to(seconds, is_asked, self.answer, refusal),
                    position: self.position,
                }
            }
            None => self,
        }
    }
}

/// Handler of requests: a counter, or several of which each request names one.
///
/// Callers know the base that all its URIs begin with. The type fixes two relations: what an answer does, and what a
/// rest does. It is a law that neither changes that base.
pub trait Handler {
    ghost use Rattle.std.specs.Prelude.{◌≡◌, ℕ, List};
    ghost use Rattle.lra_wire.specs.Request.{Request};
    ghost use Rattle.lra_steps.specs.declared.handler.Answered.{Answered};

    // What can be known of the handler.
    ghost State: { Type 0 };

    // What callers know of the handler.
    ghost sight: { Self → State };

    // The base that its URIs begin with, given what is known.
    ghost base_of: { State → List ℕ };

    // What a request at a moment does: what is known before it, its answer, and what is known after it.
    ghost responds: { State → ℕ → Request → Answered → State → Type 0 };

    // What a rest does: what is known before it and after it.
    ghost rests: { State → State → Type 0 };

    /// Returns the base that all its URIs begin with. It allocates no memory.
    fn base(&self) -> &Base
        ensures { result.now ≡ base_of (sight self.now) };

    /// Returns the instance whose identifiers a reply to a fault of reading names. Such a reply answers no request. It
    /// allocates no memory.
    fn instance(&self) -> Instance;

    /// Answers a request at a moment, in milliseconds.
    fn respond(&mut self, alloc: Global, moment: u64, request: &RoutedRequest<'_>) -> Answered
        ensures responds { responds (sight self.old) moment request.now result (sight self.new) }
        // The answer's numbers are those that identifiers can have.
        ensures identifiers { HasIdentifiers result.answer };

    /// Releases what is held for nothing, while no request comes. It is called now and then, and so has to be short.
    fn on_idle(&mut self)
        ensures rests { rests (sight self.old) (sight self.new) };

    // Whatever an answer does, the base of the URIs stays.
    ghost stays: { (before after : State) (moment : ℕ) (request : Request) (answered : Answered)
        → responds before moment request answered after → base_of after ≡ base_of before };

    // A rest doesn't change the base either.
    ghost rest_stays: { (before after : State) → rests before after → base_of after ≡ base_of before };
}

/// Session as a handler: it answers all requests by itself, as `Routes::respond` does over it. A rest does nothing. An
/// answer for which an order was given has the session's position after the order.
impl<C: Session> Handler for C {
    ghost use Rattle.std.specs.Prelude.{◌≡◌};
    ghost use Rattle.lra_steps.specs.Pieces.{AnswersAlone};
    ghost use Rattle.lra_steps.specs.inner.Alone.{base_of_session, rested_base, session_stays};

    ghost State = { C };

    ghost sight = { λ c. c };

    ghost base_of = { base_of_session C.sight };

    ghost responds = { AnswersAlone C.sight C.covers C.gives };

    ghost rests = { λ before after. after ≡ before };

    fn base(&self) -> &Base {
        Counter::base(self)
    }

    fn instance(&self) -> Instance {
        Counter::instance(self)
    }

    fn respond(&mut self, alloc: Global, moment: u64, request: &RoutedRequest<'_>) -> Answered {
        let instance = Counter::instance(self);
        let (answer, is_ordered) = request.respond_ordered(alloc, self, moment);
        let position = if is_ordered {
            Some(Session::position(self))
        } else {
            None
        };
        Answered {
            instance,
            answer,
            position,
        }
    }

    fn on_idle(&mut self) {}

    ghost stays = { λ before after moment request answered h. session_stays C.sight C.covers C.gives C.keeps before
        after moment request answered h };

    ghost rest_stays = { λ before after h. rested_base C.sight before after h };
}
