//! A worker's turns.

ghost use Rattle.std.specs.Prelude.{◌≡◌, ◌≢◌, true, false, ℕ, IfOk, IfSome, IfErr, MatchResult};
ghost use Rattle.lra_model.specs.declared.asks.AskKind.{AskKind};
ghost use Rattle.lra_model.specs.declared.asks.Outcome.{Outcome as OutcomeValue};
ghost use Rattle.lra_commands.specs.Given.{IsOfAsk};
ghost use Rattle.lra_office.specs.Clerks.{clerk_view, IsClerkOf};
ghost use Rattle.lra_commands.specs.declared.refusal.Refusal.TheVariants.{NotAsked, Stopped};
ghost use Rattle.lra_office.specs.declared.fault.OfficeRefusal.TheVariants as fault;
ghost use Rattle.lra_workers.specs.declared.worker.WorkerEnd.TheVariants as worker;
ghost use Rattle.lra_office.specs.Stops.{HasStopped};
ghost use Rattle.lra_workers.specs.Work.{Post, post, Works, WorksUpTo, TellsWhy, EndsWork};

use crate::gate::{Gate, Go};
use lra_commands::{Refusal, Told};
use lra_core::{Errand, errands_are_of_asks};
use lra_courier::Courier;
use lra_front::Clock;
use lra_model::Outcome;
use lra_office::{Clerk, LockedService, OfficeOf, OfficeRefusal};
use std::sync::Wait;

/// Number of times that a gate may answer for one errand that it isn't carried yet.
const HOLDS: u32 = 1_000;

/// Reason why a worker has ended.
#[derive(Clone, Copy, Debug, PartialEq, Eq)]
pub enum WorkerEnd {
    /// Its gate let it make no further turn.
    Ended,
    /// Its gate answered a thousand times for one errand that it isn't carried yet. The errand is discarded: its ask
    /// stays outstanding until a restart.
    Held,
    /// The office refused a command. An errand that was held then is discarded.
    Refused(OfficeRefusal),
}

/// Lets limits fire until none has passed.
pub(crate) fn fire<V: LockedService, R: Wait, C: Courier, K: Clock>(
    rt: &R,
    office: &OfficeOf<V>,
    clerk: &mut Clerk<V>,
    clock: &mut K,
) -> Result<(), OfficeRefusal>
    requires { IsClerkOf office.now.lock V.covers clerk.old }
    ensures clerk { IsClerkOf office.now.lock V.covers clerk.new }
    ensures number { clerk.new.number ≡ clerk.old.number }
    ensures work { (s : Post V.Origin K) → Works V.setting C.gives K.tells s (post (clerk_view clerk.old) clock.old)
        → MatchResult result (λ _. Works V.setting C.gives K.tells s (post (clerk_view clerk.new) clock.new))
        (λ r. WorksUpTo V.setting C.gives K.tells s r (post (clerk_view clerk.new) clock.new)) }
    ensures stopped { IfErr result (λ r. r ≡ fault.Refused Stopped → HasStopped V.origin V.history V.lawful
        V.has_stopped (clerk_view clerk.new)) }
{
    for _ in rt.forever() {
        let moment = clock.now();
        if office.tick(rt, clerk, moment)? == Told::Idle {
            return Ok(());
        }
    }
    unreachable!()
}

/// Returns whether a gate lets an ask's errand be carried, before it has answered too often that it isn't yet.
fn is_let_go<G: Gate>(gate: &mut G, ask: u64) -> bool
    ensures { result ≡ false → G.holds gate.new ask }
{
    for _ in 1..HOLDS {
        if gate.hold(ask) == Go::Carry {
            return true;
        }
    }
    match gate.hold(ask) {
        Go::Carry => true,
        Go::NotYet => false,
    }
}

/// Decides how a worker goes on after a record that is refused: an ask that isn't outstanding any more is passed over.
pub(crate) fn after_refusal(refusal: OfficeRefusal) -> Result<(), WorkerEnd>
    ensures { MatchResult result (λ _. refusal ≡ fault.Refused NotAsked)
        (λ end. (refusal ≢ fault.Refused NotAsked) × (end ≡ worker.Refused refusal)) }
{
    if refusal == OfficeRefusal::Refused(Refusal::NotAsked) {
        Ok(())
    } else {
        Err(WorkerEnd::Refused(refusal))
    }
}

/// Returns the errand of something that is due, if anything is.
pub(crate) fn next_errand<V: LockedService, R: Wait, C: Courier, K: Clock>(
    rt: &R,
    office: &OfficeOf<V>,
    clerk: &mut Clerk<V>,
    clock: &mut K,
) -> Result<Option<Errand>, OfficeRefusal>
    requires { IsClerkOf office.now.lock V.covers clerk.old }
    ensures clerk { IsClerkOf office.now.lock V.covers clerk.new }
    ensures number { clerk.new.number ≡ clerk.old.number }
    ensures of_ask { IfOk result (λ errand. IfSome errand (λ e. IsOfAsk (clerk_view clerk.new).seen e)) }
    ensures work { (s : Post V.Origin K) → Works V.setting C.gives K.tells s (post (clerk_view clerk.old) clock.old)
        → MatchResult result (λ _. Works V.setting C.gives K.tells s (post (clerk_view clerk.new) clock.new))
        (λ r. WorksUpTo V.setting C.gives K.tells s r (post (clerk_view clerk.new) clock.new)) }
    ensures stopped { IfErr result (λ r. r ≡ fault.Refused Stopped → HasStopped V.origin V.history V.lawful
        V.has_stopped (clerk_view clerk.new)) }
{
    errands_are_of_asks();
    let moment = clock.now();
    office.next_ask(rt, clerk, moment)
}

/// Records what came of an errand. An errand whose ask isn't outstanding any more is discarded.
fn record<V: LockedService, R: Wait, C: Courier, G: Gate, K: Clock>(
    rt: &R,
    office: &OfficeOf<V>,
    clerk: &mut Clerk<V>,
    gate: &mut G,
    clock: &mut K,
    errand: Errand,
    outcome: Outcome,
) -> Result<(), WorkerEnd>
    requires clerk { IsClerkOf office.now.lock V.covers clerk.old }
    requires of_ask { IsOfAsk (clerk_view clerk.old).seen errand }
    requires given { C.gives errand.ask errand.kind outcome }
    ensures clerk { IsClerkOf office.now.lock V.covers clerk.new }
    ensures number { clerk.new.number ≡ clerk.old.number }
    ensures work { (s : Post V.Origin K) → Works V.setting C.gives K.tells s (post (clerk_view clerk.old) clock.old)
        → MatchResult result (λ _. Works V.setting C.gives K.tells s (post (clerk_view clerk.new) clock.new))
        (λ end. EndsWork V.setting C.gives K.tells s end (post (clerk_view clerk.new) clock.new)) }
    ensures why { IfErr result (TellsWhy (G.is_shut gate.new) (G.holds gate.new)
        (HasStopped V.origin V.history V.lawful V.has_stopped (clerk_view clerk.new)) (clerk_view clerk.new).seen) }
{
    let ask = errand.ask();
    let moment = clock.now();
    match office.record(rt, clerk, moment, errand, outcome) {
        Ok(_) => {
            gate.answered(ask);
            Ok(())
        }
        Err((refusal, errand)) => {
            errand.discard();
            after_refusal(refusal)
        }
    }
}

/// Carries an errand and records what came of it, if the gate lets it.
fn carry<V: LockedService, R: Wait, C: Courier, G: Gate, K: Clock>(
    rt: &R,
    office: &OfficeOf<V>,
    clerk: &mut Clerk<V>,
    courier: &mut C,
    gate: &mut G,
    clock: &mut K,
    errand: Errand,
) -> Result<(), WorkerEnd>
    requires clerk { IsClerkOf office.now.lock V.covers clerk.old }
    requires of_ask { IsOfAsk (clerk_view clerk.old).seen errand }
    ensures clerk { IsClerkOf office.now.lock V.covers clerk.new }
    ensures number { clerk.new.number ≡ clerk.old.number }
    ensures work { (s : Post V.Origin K) → Works V.setting C.gives K.tells s (post (clerk_view clerk.old) clock.old)
        → MatchResult result (λ _. Works V.setting C.gives K.tells s (post (clerk_view clerk.new) clock.new))
        (λ end. EndsWork V.setting C.gives K.tells s end (post (clerk_view clerk.new) clock.new)) }
    ensures why { IfErr result (TellsWhy (G.is_shut gate.new) (G.holds gate.new)
        (HasStopped V.origin V.history V.lawful V.has_stopped (clerk_view clerk.new)) (clerk_view clerk.new).seen) }
{
    if !is_let_go(gate, errand.ask()) {
        errand.discard();
        return Err(WorkerEnd::Held);
    }
    let outcome = courier.carry(&errand);
    record::<V, R, C, G, K>(rt, office, clerk, gate, clock, errand, outcome)
}

/// Lets limits fire, and carries one errand, if one is due.
fn take_turn<V: LockedService, R: Wait, C: Courier, G: Gate, K: Clock>(
    rt: &R,
    office: &OfficeOf<V>,
    clerk: &mut Clerk<V>,
    courier: &mut C,
    gate: &mut G,
    clock: &mut K,
) -> Result<(), WorkerEnd>
    requires { IsClerkOf office.now.lock V.covers clerk.old }
    ensures clerk { IsClerkOf office.now.lock V.covers clerk.new }
    ensures number { clerk.new.number ≡ clerk.old.number }
    ensures work { (s : Post V.Origin K) → Works V.setting C.gives K.tells s (post (clerk_view clerk.old) clock.old)
        → MatchResult result (λ _. Works V.setting C.gives K.tells s (post (clerk_view clerk.new) clock.new))
        (λ end. EndsWork V.setting C.gives K.tells s end (post (clerk_view clerk.new) clock.new)) }
    ensures why { IfErr result (TellsWhy (G.is_shut gate.new) (G.holds gate.new)
        (HasStopped V.origin V.history V.lawful V.has_stopped (clerk_view clerk.new)) (clerk_view clerk.new).seen) }
{
    if let Err(refusal) = fire::<V, R, C, K>(rt, office, clerk, clock) {
        return Err(WorkerEnd::Refused(refusal));
    }
    match next_errand::<V, R, C, K>(rt, office, clerk, clock) {
        Ok(Some(errand)) => carry(rt, office, clerk, courier, gate, clock, errand),
        Ok(None) => Ok(()),
        Err(refusal) => Err(WorkerEnd::Refused(refusal)),
    }
}

/// Works as a clerk of an office: lets limits fire, asks for what is due, carries each errand and records what came of
/// it, turn by turn as long as the gate lets it.
pub fn run_worker<V: LockedService, R: Wait, C: Courier, G: Gate, K: Clock>(
    rt: &R,
    office: &OfficeOf<V>,
    clerk: Clerk<V>,
    courier: &mut C,
    gate: &mut G,
    clock: &mut K,
) -> (Clerk<V>, WorkerEnd)
    requires { IsClerkOf office.now.lock V.covers clerk }
    ensures clerk { IsClerkOf office.now.lock V.covers result.0 }
    ensures number { result.0.number ≡ clerk.number }
    ensures work { EndsWork V.setting C.gives K.tells (post (clerk_view clerk) clock.old) result.1
        (post (clerk_view result.0) clock.new) }
    ensures why { TellsWhy (G.is_shut gate.new) (G.holds gate.new) (HasStopped V.origin V.history V.lawful V.has_stopped
        (clerk_view result.0)) (clerk_view result.0).seen result.1 }
{
    let mut clerk = clerk;
    for _ in rt.forever() {
        if !gate.more() {
            return (clerk, WorkerEnd::Ended);
        }
        if let Err(end) = take_turn(rt, office, &mut clerk, courier, gate, clock) {
            return (clerk, end);
        }
    }
    unreachable!()
}
