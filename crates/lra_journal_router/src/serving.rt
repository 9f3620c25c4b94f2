//! The effect of one request at a journal set.

ghost use Rattle.std.specs.Prelude.{◌≡◌, ◌≢◌, map, unwrap_or, IsSome};
ghost use Rattle.lra_commands.specs.declared.refusal.Refusal.TheVariants as refusal;
ghost use Rattle.lra_front.specs.declared.api_error.ApiError.TheVariants as api_error;
ghost use Rattle.lra_front.specs.declared.answer.Answer.TheVariants as answer;
ghost use Rattle.lra_front.specs.Replies.{HasIdentifiers};
ghost use Rattle.lra_journal_sets.specs.Counted.{name};
ghost use Rattle.lra_journal_sets.specs.JournalSets.{IsJournalSet};
ghost use Rattle.lra_journal_sets.specs.JournalSets as spec;
ghost use Rattle.lra_journal_router.specs.Naming.{instance_of};
ghost use Rattle.lra_journal_router.specs.Serving.{ServesOrdered};
ghost use Rattle.lra_journal_router.specs.inner.Stays.{Visits};

use crate::naming;
use lra_commands::{Refusal, Session};
use lra_front::{ApiError, RoutedRequest};
use lra_journal_sets::{JournalSet, Visit};
use lra_model::Instance;
use lra_steps::{Answered, Handler};
use std::alloc::Global;

/// Request that is answered at a moment.
#[derive(Drop)]
struct TimedRequest<'a> {
    alloc: Global,
    moment: u64,
    request: &'a RoutedRequest<'a>,
}

impl<'a, C: Session> Visit<C> for TimedRequest<'a> {
    ghost use Rattle.lra_journal_router.specs.inner.Stays.{Answers, answers_stay};

    type Answer = Answered;

    ghost does = { λ v before answered after.
        Answers C.sight C.covers C.gives before v.moment v.request.now answered after };

    ghost keeps = { λ v before after answered h.
        answers_stay C.sight C.covers C.gives C.keeps before after v.moment v.request.now answered h };

    fn visit(&self, counter: &mut C) -> Answered {
        counter.respond(self.alloc, self.moment, self.request)
    }
}

/// Answers a request at the counter of an instance, if there is one. Every other counter stays as it was.
fn visit<C: Session + Drop>(
    journal_set: &mut JournalSet<C>,
    instance: Instance,
    responding: &TimedRequest<'_>,
) -> Option<Answered>
    ensures { Visits C.sight C.covers C.gives instance responding.now.moment responding.now.request.now
        result journal_set.old journal_set.new }
{
    journal_set.visit(instance, responding)
}

/// Answers a request at the journal of an instance. If that journal isn't there, the newest one denies the request.
fn answer<C: Session + Drop>(
    journal_set: &mut JournalSet<C>,
    instance: Instance,
    newest: Instance,
    responding: &TimedRequest<'_>,
) -> Answered
    requires newest { newest ≡ spec.newest name journal_set.old }
    requires journal_set { IsJournalSet (map name journal_set.old) }
    requires instance { instance ≡ unwrap_or (instance_of responding.now.request.now) newest }
    ensures serves { ServesOrdered C.sight C.covers C.gives journal_set.old (record {
      request = responding.now.request.now;
      moment = responding.now.moment;
      answered = result;
    }) journal_set.new }
    ensures identifiers { HasIdentifiers result.answer }
{
    match visit(journal_set, instance, responding) {
        Some(answered) => answered,
        None => match visit(journal_set, newest, responding) {
            Some(answered) => answered,
            None => unreachable!(),
        },
    }
}

/// Answers a request at a moment. The journal that the request names does what the front does over that journal alone,
/// and every other journal stays as it was. If there is no such journal, the newest one denies the request, since it
/// doesn't know the identifier either: no order is given then, and the answer has no position.
pub fn respond<C: Session + Drop>(
    alloc: Global,
    journal_set: &mut JournalSet<C>,
    moment: u64,
    request: &RoutedRequest<'_>,
) -> Answered
    ensures serves { ServesOrdered C.sight C.covers C.gives journal_set.old
        (record { request = request.now; moment = moment; answered = result }) journal_set.new }
    // The answer names the instance that the request names, unless memory was refused.
    ensures instance { result.answer ≢ answer.Denied (api_error.Refused refusal.Memory)
        → result.instance ≡ unwrap_or (instance_of request.now) (spec.newest name journal_set.old) }
    // The answer's position is one in the journal that the request names.
    ensures journal { IsSome result.position
        → result.instance ≡ unwrap_or (instance_of request.now) (spec.newest name journal_set.old) }
    // The answer's numbers are those that identifiers can have.
    ensures identifiers { HasIdentifiers result.answer }
    // The journal set has a newest member.
    ensures journal_set { IsJournalSet (map name journal_set.old) }
{
    let newest = journal_set.newest();
    let Ok(named) = naming::instance_of(request) else {
        return Answered::denied(newest, ApiError::Refused(Refusal::Memory));
    };
    let instance = named.unwrap_or(newest);
    let responding = TimedRequest {
        alloc,
        moment,
        request,
    };
    let answered = answer(journal_set, instance, newest, &responding);
    Answered {
        instance,
        answer: answered.answer,
        position: answered.position,
    }
}
