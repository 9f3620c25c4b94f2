//! The callback worker: it has many errands under way.

ghost use Rattle.std.specs.Prelude.{◌≡◌, ◌⊎◌, false, ℕ, IfOk, IfErr, MatchResult};
ghost use Rattle.lra_model.specs.declared.asks.Outcome.{Outcome as OutcomeValue};
ghost use Rattle.lra_office.specs.Clerks.{clerk_view, IsClerkOf};
ghost use Rattle.lra_commands.specs.Given.{IsOfAsk};
ghost use Rattle.lra_schedule.specs.Schedules.{IsFirstMoment};
ghost use Rattle.lra_courier.specs.CallbackPools.{AreFree};
ghost use Rattle.lra_office.specs.Stops.{HasStopped};
ghost use Rattle.lra_workers.specs.Work.{Post, post, TellsWhy};
ghost use Rattle.lra_workers.specs.CallbackExchange.{Carries, EndsCallbackWorker, is_for_memory};
ghost use Rattle.lra_workers.specs.Handed.{AreHanded};

use crate::gate::Gate;
use crate::worker::{WorkerEnd, after_refusal, fire, next_errand};
use lra_commands::Refusal;
use lra_core::Errand;
use lra_courier::{CallbackPool, Courier};
use lra_front::Clock;
use lra_model::Outcome;
use lra_office::{Clerk, LockedService, OfficeOf, OfficeRefusal};
use std::marker::PhantomData;
use std::sync::Wait;

/// Largest number of errands that are taken in one turn: between two turns other clerks can use the office.
const MOST_TAKEN: u32 = 64;

/// Courier that carries no errand. What it answers is known to be no more than what may come of a callback pool's
/// errands.
struct NullCourier<C>(PhantomData<C>);

impl<C: CallbackPool> Courier for NullCourier<C> {
    ghost gives = { λ ask kind outcome. C.gives ask kind outcome };

    fn carry(&mut self, _errand: &Errand) -> Outcome {
        Outcome::Silent
    }

    ghost suits = { λ ask kind outcome given. C.suits ask kind outcome given };
}

/// Returns whether a callback worker has ended only because memory was refused.
fn is_for_memory(end: WorkerEnd) -> bool
    ensures { result ≡ is_for_memory end }
{
    end == WorkerEnd::Refused(OfficeRefusal::Refused(Refusal::Memory))
}

/// Records what came of an errand. An errand whose ask isn't outstanding any more is discarded. If memory is refused,
/// records it after a pause, as long as the gate lets turns be made.
fn note<V: LockedService, R: Wait, C: CallbackPool, G: Gate, K: Clock>(
    rt: &R,
    office: &OfficeOf<V>,
    clerk: &mut Clerk<V>,
    gate: &mut G,
    clock: &mut K,
    errand: Errand,
    outcome: Outcome,
) -> Result<(), WorkerEnd>
    requires clerk { IsClerkOf office.now.lock V.covers clerk.old }
    requires of_ask { IsOfAsk (clerk_view clerk.old).seen errand }
    requires given { C.gives errand.ask errand.kind outcome }
    ensures clerk { IsClerkOf office.now.lock V.covers clerk.new }
    ensures number { clerk.new.number ≡ clerk.old.number }
    ensures work { (s : Post V.Origin K) → Carries V.setting C.gives K.tells s (post (clerk_view clerk.old) clock.old)
        → MatchResult result (λ _. Carries V.setting C.gives K.tells s (post (clerk_view clerk.new) clock.new))
        (λ end. EndsCallbackWorker V.setting C.gives K.tells s end (post (clerk_view clerk.new) clock.new)) }
    ensures why { IfErr result (TellsWhy (G.is_shut gate.new) (G.holds gate.new)
        (HasStopped V.origin V.history V.lawful V.has_stopped (clerk_view clerk.new)) (clerk_view clerk.new).seen) }
{
    let ask = errand.ask();
    let mut errand = errand;
    for _ in rt.forever() {
        let moment = clock.now();
        match office.record(rt, clerk, moment, errand, outcome) {
            Ok(_) => {
                gate.answered(ask);
                return Ok(());
            }
            Err((refusal, back)) => {
                if !is_for_memory(WorkerEnd::Refused(refusal)) {
                    back.discard();
                    return after_refusal(refusal);
                }
                gate.pause();
                if gate.more() {
                    errand = back;
                } else {
                    back.discard();
                    return Err(WorkerEnd::Ended);
                }
            }
        }
    }
    unreachable!()
}

/// Hands an errand over to the callback pool, with the clerk's position, which covers the errand's ask: the pool
/// carries it once the journal is durable up to there. If memory is refused, records that nothing came of the errand,
/// so that its member is asked again.
fn hand_over<V: LockedService, R: Wait, C: CallbackPool, G: Gate, K: Clock>(
    rt: &R,
    office: &OfficeOf<V>,
    clerk: &mut Clerk<V>,
    callback_pool: &mut C,
    gate: &mut G,
    clock: &mut K,
    errand: Errand,
) -> Result<(), WorkerEnd>
    requires clerk { IsClerkOf office.now.lock V.covers clerk.old }
    requires held { AreHanded V.covers (clerk_view clerk.old).seen (C.held callback_pool.old) }
    requires of_ask { IsOfAsk (clerk_view clerk.old).seen errand }
    ensures clerk { IsClerkOf office.now.lock V.covers clerk.new }
    ensures number { clerk.new.number ≡ clerk.old.number }
    ensures held { AreHanded V.covers (clerk_view clerk.new).seen (C.held callback_pool.new) }
    ensures work { (s : Post V.Origin K) → Carries V.setting C.gives K.tells s (post (clerk_view clerk.old) clock.old)
        → MatchResult result (λ _. Carries V.setting C.gives K.tells s (post (clerk_view clerk.new) clock.new))
        (λ end. EndsCallbackWorker V.setting C.gives K.tells s end (post (clerk_view clerk.new) clock.new)) }
    ensures why { IfErr result (TellsWhy (G.is_shut gate.new) (G.holds gate.new)
        (HasStopped V.origin V.history V.lawful V.has_stopped (clerk_view clerk.new)) (clerk_view clerk.new).seen) }
{
    match callback_pool.take(errand, clerk.position()) {
        Ok(()) => Ok(()),
        Err(errand) => note::<V, R, C, G, K>(
            rt,
            office,
            clerk,
            gate,
            clock,
            errand,
            Outcome::Silent,
        ),
    }
}

/// Takes the errand of something that is due and hands it over. Returns whether there was one.
fn take_one<V: LockedService, R: Wait, C: CallbackPool, G: Gate, K: Clock>(
    rt: &R,
    office: &OfficeOf<V>,
    clerk: &mut Clerk<V>,
    callback_pool: &mut C,
    gate: &mut G,
    clock: &mut K,
) -> Result<bool, WorkerEnd>
    requires clerk { IsClerkOf office.now.lock V.covers clerk.old }
    requires held { AreHanded V.covers (clerk_view clerk.old).seen (C.held callback_pool.old) }
    ensures clerk { IsClerkOf office.now.lock V.covers clerk.new }
    ensures number { clerk.new.number ≡ clerk.old.number }
    ensures held { AreHanded V.covers (clerk_view clerk.new).seen (C.held callback_pool.new) }
    ensures work { (s : Post V.Origin K) → Carries V.setting C.gives K.tells s (post (clerk_view clerk.old) clock.old)
        → MatchResult result (λ _. Carries V.setting C.gives K.tells s (post (clerk_view clerk.new) clock.new))
        (λ end. EndsCallbackWorker V.setting C.gives K.tells s end (post (clerk_view clerk.new) clock.new)) }
    ensures why { IfErr result (TellsWhy (G.is_shut gate.new) (G.holds gate.new)
        (HasStopped V.origin V.history V.lawful V.has_stopped (clerk_view clerk.new)) (clerk_view clerk.new).seen) }
{
    match next_errand::<V, R, NullCourier<C>, K>(rt, office, clerk, clock) {
        Ok(Some(errand)) => match hand_over(rt, office, clerk, callback_pool, gate, clock, errand) {
            Ok(()) => Ok(true),
            Err(end) => Err(end),
        },
        Ok(None) => Ok(false),
        Err(refusal) => Err(WorkerEnd::Refused(refusal)),
    }
}

/// Takes the errands of what is due, while there is room.
fn take_due<V: LockedService, R: Wait, C: CallbackPool, G: Gate, K: Clock>(
    rt: &R,
    office: &OfficeOf<V>,
    clerk: &mut Clerk<V>,
    callback_pool: &mut C,
    gate: &mut G,
    clock: &mut K,
) -> Result<(), WorkerEnd>
    requires clerk { IsClerkOf office.now.lock V.covers clerk.old }
    requires held { AreHanded V.covers (clerk_view clerk.old).seen (C.held callback_pool.old) }
    ensures clerk { IsClerkOf office.now.lock V.covers clerk.new }
    ensures number { clerk.new.number ≡ clerk.old.number }
    ensures held { AreHanded V.covers (clerk_view clerk.new).seen (C.held callback_pool.new) }
    ensures work { (s : Post V.Origin K) → Carries V.setting C.gives K.tells s (post (clerk_view clerk.old) clock.old)
        → MatchResult result (λ _. Carries V.setting C.gives K.tells s (post (clerk_view clerk.new) clock.new))
        (λ end. EndsCallbackWorker V.setting C.gives K.tells s end (post (clerk_view clerk.new) clock.new)) }
    ensures why { IfErr result (TellsWhy (G.is_shut gate.new) (G.holds gate.new)
        (HasStopped V.origin V.history V.lawful V.has_stopped (clerk_view clerk.new)) (clerk_view clerk.new).seen) }
{
    for _taken in 0..MOST_TAKEN {
        if !callback_pool.has_room() {
            return Ok(());
        }
        match take_one(rt, office, clerk, callback_pool, gate, clock) {
            Ok(true) => {}
            Ok(false) => return Ok(()),
            Err(end) => return Err(end),
        }
    }
    Ok(())
}

/// Records what came of one errand. Returns whether anything had come of any.
fn record_one<V: LockedService, R: Wait, C: CallbackPool, G: Gate, K: Clock>(
    rt: &R,
    office: &OfficeOf<V>,
    clerk: &mut Clerk<V>,
    callback_pool: &mut C,
    gate: &mut G,
    clock: &mut K,
) -> Result<bool, WorkerEnd>
    requires clerk { IsClerkOf office.now.lock V.covers clerk.old }
    requires held { AreHanded V.covers (clerk_view clerk.old).seen (C.held callback_pool.old) }
    ensures clerk { IsClerkOf office.now.lock V.covers clerk.new }
    ensures number { clerk.new.number ≡ clerk.old.number }
    ensures held { AreHanded V.covers (clerk_view clerk.new).seen (C.held callback_pool.new) }
    ensures work { (s : Post V.Origin K) → Carries V.setting C.gives K.tells s (post (clerk_view clerk.old) clock.old)
        → MatchResult result (λ _. Carries V.setting C.gives K.tells s (post (clerk_view clerk.new) clock.new))
        (λ end. EndsCallbackWorker V.setting C.gives K.tells s end (post (clerk_view clerk.new) clock.new)) }
    ensures why { IfErr result (TellsWhy (G.is_shut gate.new) (G.holds gate.new)
        (HasStopped V.origin V.history V.lawful V.has_stopped (clerk_view clerk.new)) (clerk_view clerk.new).seen) }
{
    let Some((errand, outcome)) = callback_pool.done() else {
        return Ok(false);
    };
    match note::<V, R, C, G, K>(rt, office, clerk, gate, clock, errand, outcome) {
        Ok(()) => Ok(true),
        Err(end) => Err(end),
    }
}

/// Records what came of each errand that is done.
fn record_done<V: LockedService, R: Wait, C: CallbackPool, G: Gate, K: Clock>(
    rt: &R,
    office: &OfficeOf<V>,
    clerk: &mut Clerk<V>,
    callback_pool: &mut C,
    gate: &mut G,
    clock: &mut K,
) -> Result<(), WorkerEnd>
    requires clerk { IsClerkOf office.now.lock V.covers clerk.old }
    requires held { AreHanded V.covers (clerk_view clerk.old).seen (C.held callback_pool.old) }
    ensures clerk { IsClerkOf office.now.lock V.covers clerk.new }
    ensures number { clerk.new.number ≡ clerk.old.number }
    ensures held { AreHanded V.covers (clerk_view clerk.new).seen (C.held callback_pool.new) }
    ensures work { (s : Post V.Origin K) → Carries V.setting C.gives K.tells s (post (clerk_view clerk.old) clock.old)
        → MatchResult result (λ _. Carries V.setting C.gives K.tells s (post (clerk_view clerk.new) clock.new))
        (λ end. EndsCallbackWorker V.setting C.gives K.tells s end (post (clerk_view clerk.new) clock.new)) }
    ensures why { IfErr result (TellsWhy (G.is_shut gate.new) (G.holds gate.new)
        (HasStopped V.origin V.history V.lawful V.has_stopped (clerk_view clerk.new)) (clerk_view clerk.new).seen) }
{
    for _ in rt.forever() {
        match record_one(rt, office, clerk, callback_pool, gate, clock) {
            Ok(true) => {}
            Ok(false) => return Ok(()),
            Err(end) => return Err(end),
        }
    }
    unreachable!()
}

/// Lets limits fire, and takes the errands of what is due.
fn begin<V: LockedService, R: Wait, C: CallbackPool, G: Gate, K: Clock>(
    rt: &R,
    office: &OfficeOf<V>,
    clerk: &mut Clerk<V>,
    callback_pool: &mut C,
    gate: &mut G,
    clock: &mut K,
) -> Result<(), WorkerEnd>
    requires clerk { IsClerkOf office.now.lock V.covers clerk.old }
    requires held { AreHanded V.covers (clerk_view clerk.old).seen (C.held callback_pool.old) }
    ensures clerk { IsClerkOf office.now.lock V.covers clerk.new }
    ensures number { clerk.new.number ≡ clerk.old.number }
    ensures held { AreHanded V.covers (clerk_view clerk.new).seen (C.held callback_pool.new) }
    ensures work { (s : Post V.Origin K) → Carries V.setting C.gives K.tells s (post (clerk_view clerk.old) clock.old)
        → MatchResult result (λ _. Carries V.setting C.gives K.tells s (post (clerk_view clerk.new) clock.new))
        (λ end. EndsCallbackWorker V.setting C.gives K.tells s end (post (clerk_view clerk.new) clock.new)) }
    ensures why { IfErr result (TellsWhy (G.is_shut gate.new) (G.holds gate.new)
        (HasStopped V.origin V.history V.lawful V.has_stopped (clerk_view clerk.new)) (clerk_view clerk.new).seen) }
{
    if let Err(refusal) = fire::<V, R, NullCourier<C>, K>(rt, office, clerk, clock) {
        return Err(WorkerEnd::Refused(refusal));
    }
    take_due(rt, office, clerk, callback_pool, gate, clock)
}

/// Begins new work, if the gate lets it. Returns the first moment at which something will be due then, or is due and
/// wasn't taken.
fn begin_next<V: LockedService, R: Wait, C: CallbackPool, G: Gate, K: Clock>(
    rt: &R,
    office: &OfficeOf<V>,
    clerk: &mut Clerk<V>,
    callback_pool: &mut C,
    gate: &mut G,
    clock: &mut K,
) -> Result<Option<u64>, WorkerEnd>
    requires clerk { IsClerkOf office.now.lock V.covers clerk.old }
    requires held { AreHanded V.covers (clerk_view clerk.old).seen (C.held callback_pool.old) }
    ensures clerk { IsClerkOf office.now.lock V.covers clerk.new }
    ensures number { clerk.new.number ≡ clerk.old.number }
    ensures held { AreHanded V.covers (clerk_view clerk.new).seen (C.held callback_pool.new) }
    ensures next { IfOk result (λ next. G.is_closing gate.new ⊎ IsFirstMoment
        (V.setting (clerk_view clerk.new).origin).limits (clerk_view clerk.new).seen next) }
    ensures work { (s : Post V.Origin K) → Carries V.setting C.gives K.tells s (post (clerk_view clerk.old) clock.old)
        → MatchResult result (λ _. Carries V.setting C.gives K.tells s (post (clerk_view clerk.new) clock.new))
        (λ end. EndsCallbackWorker V.setting C.gives K.tells s end (post (clerk_view clerk.new) clock.new)) }
    ensures why { IfErr result (TellsWhy (G.is_shut gate.new) (G.holds gate.new)
        (HasStopped V.origin V.history V.lawful V.has_stopped (clerk_view clerk.new)) (clerk_view clerk.new).seen) }
{
    if !gate.begins() {
        return Ok(None);
    }
    if let Err(end) = begin(rt, office, clerk, callback_pool, gate, clock) {
        return Err(end);
    }
    match office.next_moment(rt, clerk) {
        Ok(next) => Ok(next),
        Err(refusal) => Err(WorkerEnd::Refused(refusal)),
    }
}

/// Carries all errands that are under way, until that moment at most, and records what came of them.
fn carry_on<V: LockedService, R: Wait, C: CallbackPool, G: Gate, K: Clock>(
    rt: &R,
    office: &OfficeOf<V>,
    clerk: &mut Clerk<V>,
    callback_pool: &mut C,
    gate: &mut G,
    clock: &mut K,
    next: Option<u64>,
) -> Result<(), WorkerEnd>
    requires clerk { IsClerkOf office.now.lock V.covers clerk.old }
    requires held { AreHanded V.covers (clerk_view clerk.old).seen (C.held callback_pool.old) }
    ensures clerk { IsClerkOf office.now.lock V.covers clerk.new }
    ensures number { clerk.new.number ≡ clerk.old.number }
    ensures held { AreHanded V.covers (clerk_view clerk.new).seen (C.held callback_pool.new) }
    ensures work { (s : Post V.Origin K) → Carries V.setting C.gives K.tells s (post (clerk_view clerk.old) clock.old)
        → MatchResult result (λ _. Carries V.setting C.gives K.tells s (post (clerk_view clerk.new) clock.new))
        (λ end. EndsCallbackWorker V.setting C.gives K.tells s end (post (clerk_view clerk.new) clock.new)) }
    ensures why { IfErr result (TellsWhy (G.is_shut gate.new) (G.holds gate.new)
        (HasStopped V.origin V.history V.lawful V.has_stopped (clerk_view clerk.new)) (clerk_view clerk.new).seen) }
{
    callback_pool.carry(next);
    record_done(rt, office, clerk, callback_pool, gate, clock)
}

/// Begins new work, if the gate lets it. Then carries all errands that are under way, and records what came of them.
fn take_turn<V: LockedService, R: Wait, C: CallbackPool, G: Gate, K: Clock>(
    rt: &R,
    office: &OfficeOf<V>,
    clerk: &mut Clerk<V>,
    callback_pool: &mut C,
    gate: &mut G,
    clock: &mut K,
) -> Result<(), WorkerEnd>
    requires clerk { IsClerkOf office.now.lock V.covers clerk.old }
    requires held { AreHanded V.covers (clerk_view clerk.old).seen (C.held callback_pool.old) }
    ensures clerk { IsClerkOf office.now.lock V.covers clerk.new }
    ensures number { clerk.new.number ≡ clerk.old.number }
    ensures held { AreHanded V.covers (clerk_view clerk.new).seen (C.held callback_pool.new) }
    ensures work { (s : Post V.Origin K) → Carries V.setting C.gives K.tells s (post (clerk_view clerk.old) clock.old)
        → MatchResult result (λ _. Carries V.setting C.gives K.tells s (post (clerk_view clerk.new) clock.new))
        (λ end. EndsCallbackWorker V.setting C.gives K.tells s end (post (clerk_view clerk.new) clock.new)) }
    ensures why { IfErr result (TellsWhy (G.is_shut gate.new) (G.holds gate.new)
        (HasStopped V.origin V.history V.lawful V.has_stopped (clerk_view clerk.new)) (clerk_view clerk.new).seen) }
{
    match begin_next(rt, office, clerk, callback_pool, gate, clock) {
        Ok(next) => carry_on(rt, office, clerk, callback_pool, gate, clock, next),
        Err(end) => Err(end),
    }
}

/// Works as a clerk of an office, with many errands under way: lets limits fire, takes the errands of what is due in
/// the order in which it is due, and records what comes of each when it comes. It goes on turn by turn as long as the
/// gate lets it. An errand is taken at once: the gate isn't asked to hold it. In each turn the callback pool gets the
/// moment at which something will be due next, so that it waits no longer.
///
/// If the office is refused memory, the gate pauses, and the work goes on: that ends no callback worker. The errands
/// that are under way when it ends stay in the callback pool.
pub fn run_callback_worker<V: LockedService, R: Wait, C: CallbackPool, G: Gate, K: Clock>(
    rt: &R,
    office: &OfficeOf<V>,
    clerk: Clerk<V>,
    callback_pool: &mut C,
    gate: &mut G,
    clock: &mut K,
) -> (Clerk<V>, WorkerEnd)
    requires clerk { IsClerkOf office.now.lock V.covers clerk }
    requires none { AreFree (C.held callback_pool.old) }
    ensures clerk { IsClerkOf office.now.lock V.covers result.0 }
    ensures number { result.0.number ≡ clerk.number }
    ensures work { EndsCallbackWorker V.setting C.gives K.tells (post (clerk_view clerk) clock.old) result.1
        (post (clerk_view result.0) clock.new) }
    ensures why { TellsWhy (G.is_shut gate.new) (G.holds gate.new) (HasStopped V.origin V.history V.lawful V.has_stopped
        (clerk_view result.0)) (clerk_view result.0).seen result.1 }
    ensures memory { is_for_memory result.1 ≡ false }
    // The position of each errand that is still under way covers a history with its ask.
    ensures held { AreHanded V.covers (clerk_view result.0).seen (C.held callback_pool.new) }
{
    let mut clerk = clerk;
    for _ in rt.forever() {
        if !gate.more() {
            return (clerk, WorkerEnd::Ended);
        }
        if let Err(end) = take_turn(rt, office, &mut clerk, callback_pool, gate, clock) {
            if !is_for_memory(end) {
                return (clerk, end);
            }
            gate.pause();
        }
    }
    unreachable!()
}
