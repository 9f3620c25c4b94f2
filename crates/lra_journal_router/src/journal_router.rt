//! Handler for a journal set whose members join and leave.

ghost use Rattle.std.specs.Prelude.{
  ◌≡◌,
  ◌≢◌,
  ℕ,
  true,
  false,
  List,
  map,
  unwrap_or,
  IfErr,
  IfNone,
  IfSome,
  IsSome,
  OnErr,
  OnOk,
  IsFalse,
  IsTrue,
};
ghost use Rattle.std.proofs.Props.{props};
ghost use Rattle.lra_journal_sets.specs.Counted.{name};
ghost use Rattle.lra_commands.specs.declared.refusal.Refusal.TheVariants as reason;
ghost use Rattle.lra_front.specs.declared.api_error.ApiError.TheVariants as api_error;
ghost use Rattle.lra_front.specs.declared.answer.Answer.TheVariants as answer;
ghost use Rattle.lra_front.specs.Replies.{HasIdentifiers};
ghost use Rattle.lra_journal_sets.specs.JournalSets as spec;
ghost use Rattle.lra_journal_sets.specs.JournalSets.{Joins, Leaves};
ghost use Rattle.lra_journal_router.specs.JournalRouters.{base_of, HaveBase, KeepsBase, Moved, Outcome};
ghost use Rattle.lra_journal_router.specs.Naming.{instance_of as spec_instance_of};
ghost use Rattle.lra_journal_router.specs.Waiting.{IsAstray, IsPutOff, IsSure, is_start};

use crate::naming::instance_of;
use crate::serving;
use lra_commands::{Counter, Refusal, Session};
use lra_front::{ApiError, Operation, RoutedRequest};
use lra_ids::Base;
use lra_journal_sets::JournalSet;
use lra_model::Instance;
use lra_steps::{Answered, Handler};
use std::alloc::Global;

/// Membership of a journal set: it reports which counters are in the journal set at present.
pub trait Membership<C: Counter + Drop> {
    ghost use Rattle.std.specs.Prelude.{ℕ, Bool, false, Option, IsFalse};
    ghost use Rattle.lra_journal_router.specs.JournalRouters.{KeepsBase, Moved};

    // What it may report of a request that names an instance, or none.
    ghost tells: { Option ℕ → Bool → Type 0 };

    /// Adds counters that are newer than all in the journal set, and removes others. If memory for a counter is
    /// refused, a later call may add it.
    fn look(&mut self, journal_set: &mut JournalSet<C>)
        ensures moved { Moved journal_set.old journal_set.new }
        ensures base { KeepsBase journal_set.old journal_set.new };

    /// Returns whether the journal set may still lack any counter. A handler calls this for each request, so it takes
    /// no time.
    fn lacks_any(&self) -> bool
        ensures { IsFalse result → (named : Option ℕ) → tells named false };

    /// Returns whether the journal set may still lack the counter of the named instance, or the newest counter if none
    /// is named. If it may, a request that names that instance, or none, can't be answered yet.
    fn lacks(&self, named: Option<Instance>) -> bool
        ensures { tells named result };
}

/// Returns the newest counter of a journal set.
fn newest<C: Counter + Drop>(journal_set: &JournalSet<C>) -> &C
    ensures { (base : List ℕ) → HaveBase base journal_set.now → (C.sight result.now).setting.base ≡ base }
{
    match journal_set.member(journal_set.newest()) {
        Some(counter) => counter,
        None => unreachable!(),
    }
}

/// Returns whether the URIs of a counter begin as those of the journal set do.
fn is_in_set<C: Counter + Drop>(journal_set: &JournalSet<C>, counter: &C) -> bool
    ensures { IsTrue result → (base : List ℕ) → HaveBase base journal_set.now
        → (C.sight counter.now).setting.base ≡ base }
{
    newest(journal_set).base().as_str() == counter.base().as_str()
}

/// Adds a counter to a journal set if it is newer than all others and its URIs begin as theirs do. Otherwise, or if
/// memory is refused, returns the counter.
pub fn add_member<C: Counter + Drop>(journal_set: &mut JournalSet<C>, counter: C) -> Result<(), C>
    ensures moved { Moved journal_set.old journal_set.new }
    ensures base { KeepsBase journal_set.old journal_set.new }
    ensures ok { OnOk result (Joins name journal_set.old (C.sight counter) journal_set.new) }
    ensures err { OnErr result (journal_set.new ≡ journal_set.old) }
    ensures value { IfErr result (λ back. back ≡ counter) }
{
    if counter.instance().number() <= journal_set.newest().number()
        || !is_in_set(journal_set, &counter)
    {
        return Err(counter);
    }
    match journal_set.rotate(counter) {
        Ok(()) => Ok(()),
        Err(fault) => Err(fault.value),
    }
}

/// Removes the counter of an instance from a journal set and returns it, if there is one and it isn't the newest.
pub fn remove_member<C: Counter + Drop>(
    journal_set: &mut JournalSet<C>,
    instance: Instance,
) -> Option<C>
    ensures moved { Moved journal_set.old journal_set.new }
    ensures base { KeepsBase journal_set.old journal_set.new }
    ensures left { IfSome result (λ counter. Leaves name journal_set.old (C.sight counter) journal_set.new) }
{
    journal_set.retire(instance)
}

/// Returns whether a request starts an action.
fn starts(request: &RoutedRequest<'_>) -> bool
    ensures { result ≡ is_start request.now }
{
    matches!(request.operation(), Ok(Operation::Start))
}

/// Returns whether the membership reports that the journal set may lack the counter for a request. That is the counter
/// of the instance that the request names, if it isn't there; or the newest, for a start that names none.
fn is_lacked<C: Counter + Drop, K: Membership<C>>(
    journal_set: &JournalSet<C>,
    membership: &K,
    is_start: bool,
    named: &Option<Instance>,
) -> bool
    ensures astray { IsTrue result → IsAstray journal_set.now is_start named.now }
    ensures told { IsTrue result → K.tells named.now true }
    ensures sure { IsFalse result → IsAstray journal_set.now is_start named.now → K.tells named.now false }
{
    match named {
        Some(instance) => {
            journal_set.member(*instance).is_none() && membership.lacks(Some(*instance))
        }
        None => is_start && membership.lacks(None),
    }
}

/// Returns the API error for a request that can't be answered yet: the request is refused, and reaches no member.
/// `newest` is the journal set's newest instance.
fn put_off<C: Counter + Drop, K: Membership<C>>(
    journal_set: &JournalSet<C>,
    membership: &K,
    newest: Instance,
    request: &RoutedRequest<'_>,
) -> Option<Answered>
    requires { newest ≡ spec.newest name journal_set.now }
    ensures none { IfNone result (IsSure K.tells journal_set.now request.now) }
    ensures some { IfSome result (IsPutOff K.tells journal_set.now request.now) }
{
    if !membership.lacks_any() {
        return None;
    }
    let Ok(named) = instance_of(request) else {
        return Some(Answered::denied(newest, ApiError::Refused(Refusal::Memory)));
    };
    if !is_lacked(journal_set, membership, starts(request), &named) {
        return None;
    }
    Some(Answered::denied(named.unwrap_or(newest), ApiError::Refused(Refusal::Stopped)))
}

/// Answers a request at a moment, as in a journal set that stays as it is. If the journal set may lack the member that
/// would answer, refuses the request, which then reaches no member.
#[tactic(auto, using(crate::proofs::Waiting::put_off_whose, crate::proofs::Waiting::put_off_journal, crate::proofs::Waiting::put_off_bears))]
fn respond_at<C: Session + Drop, K: Membership<C>>(
    alloc: Global,
    journal_set: &mut JournalSet<C>,
    membership: &K,
    moment: u64,
    request: &RoutedRequest<'_>,
) -> Answered
    ensures serves { Outcome K.tells C.sight C.covers C.gives journal_set.old moment request.now result
        journal_set.new }
    ensures instance { result.answer ≢ answer.Denied (api_error.Refused reason.Memory)
        → result.instance ≡ unwrap_or (spec_instance_of request.now) (spec.newest name journal_set.old) }
    ensures journal { IsSome result.position
        → result.instance ≡ unwrap_or (spec_instance_of request.now) (spec.newest name journal_set.old) }
    ensures identifiers { HasIdentifiers result.answer }
    ensures journal_set { spec.IsJournalSet (map name journal_set.old) }
{
    let newest = journal_set.newest();
    match put_off(journal_set, membership, newest, request) {
        Some(answered) => answered,
        None => serving::respond(alloc, journal_set, moment, request),
    }
}

/// Journal set whose members join and leave, with its membership. The URIs of all members begin alike.
#[derive(Drop)]
pub struct JournalRouter<C: Counter + Drop, K: Membership<C>> {
    journal_set: JournalSet<C>,
    membership: K,
    ghost kin: { HaveBase (base_of journal_set) journal_set } by { Prim.hlevel props },
}

impl<C: Counter + Drop, K: Membership<C>> JournalRouter<C, K> {
    /// Makes a handler for a journal set whose URIs all begin alike.
    pub fn new(journal_set: JournalSet<C>, membership: K) -> JournalRouter<C, K>
        requires { HaveBase (base_of journal_set) journal_set }
        ensures journal_set { result.journal_set ≡ journal_set }
        ensures membership { result.membership ≡ membership }
    {
        JournalRouter {
            journal_set,
            membership,
        }
    }

    /// Returns the journal set as it is at present, and its membership.
    pub fn into_parts(self) -> (JournalSet<C>, K)
        ensures { result ≡ (self.journal_set, self.membership) }
    {
        (self.journal_set, self.membership)
    }
}

impl<C: Session + Drop, K: Membership<C>> Handler for JournalRouter<C, K> {
    ghost use Rattle.std.specs.Prelude.{◌≡◌, List};
    ghost use Rattle.lra_commands.specs.Counters.{Sight};
    ghost use Rattle.lra_journal_router.specs.JournalRouters.{base_of as base_of_journal_set, Responds, Rests};

    ghost State = { List Sight };

    ghost sight = { λ h. h.journal_set };

    ghost base_of = { base_of_journal_set };

    ghost responds = { Responds K.tells C.sight C.covers C.gives };

    ghost rests = { Rests };

    fn base(&self) -> &Base {
        newest(&self.journal_set).base()
    }

    fn instance(&self) -> Instance {
        self.journal_set.newest()
    }

    fn respond(&mut self, alloc: Global, moment: u64, request: &RoutedRequest<'_>) -> Answered {
        self.membership.look(&mut self.journal_set);
        respond_at(
            alloc,
            &mut self.journal_set,
            &self.membership,
            moment,
            request,
        )
    }

    /// Removes the members that have left, so that nothing is held of them until the next request.
    fn on_idle(&mut self) {
        self.membership.look(&mut self.journal_set);
    }

    ghost stays = { λ before after moment request answered h. h.base };

    ghost rest_stays = { λ before after h. h.base };
}
