//! Attempt of an errand, from when the errand is accepted until it has an outcome.

ghost use Rattle.std.specs.Global.{Global};
ghost use Rattle.std.specs.Prelude.{◌≡◌, Some, None, IfOk, IfSome, String, option_map, string_bytes};
ghost use Rattle.std.specs.Option.{ForSome};
ghost use Rattle.lra_courier.specs.Callbacks.{extra_of};
ghost use Rattle.lra_courier.specs.Sockets.{socket_text};
ghost use Rattle.lra_durable.specs.Leaves.{MayLeave};
ghost use Rattle.lra_callbacks.specs.Outcomes.{IsFor, IsForWith, MayCome};
ghost use Rattle.lra_callbacks.specs.inner.Attempts.{outcome_of, Goes};
ghost use Rattle.lra_callbacks.specs.inner.Ends.{Replies};

use crate::pumping::{Moved, pump};
use crate::replies::{End, reply_of};
use lra_core::Errand;
use lra_courier::{Callback, CallbackExchange, ExtraFields, socket_text};
use lra_durable::SyncGroup;
use lra_model::{Instance, Memory, Outcome};
use lra_outcomes::Reply;
use std::alloc::Global;
use std::io::{Read, Write};
use std::marker::{Model, PhantomData};
use std::sync::Wait;

/// Errand that is held, and its position. The errand is discarded when this is dropped.
pub(crate) struct Held {
    errand: Option<Errand>,
    position: u64,
}

impl Model for Held {
    ghost use Rattle.std.specs.Prelude.{Option, option_map};
    ghost use Rattle.lra_courier.specs.CallbackPools.{Handed};

    ghost Value = { Option Handed };

    ghost view = { λ held. option_map (λ errand. (errand, held.position)) held.errand };
}

impl Drop for Held {
    fn drop(self) {
        let Held {
            errand,
            position: _,
        } = self;
        if let Some(errand) = errand {
            errand.discard();
        }
    }
}

impl Held {
    /// Holds an errand, with its position.
    fn new(errand: Errand, position: u64) -> Held
        ensures { result ≡ Some (errand, position) }
    {
        Held {
            errand: Some(errand),
            position,
        }
    }

    fn get(&self) -> Option<&Errand>
        ensures { option_map (λ errand. errand.now) result ≡ option_map (λ handed. handed.0) self.now }
    {
        self.errand.as_ref()
    }

    /// Returns the errand's position.
    fn position(&self) -> u64
        ensures { ForSome self.now (λ handed. result ≡ handed.1) }
    {
        self.position
    }

    fn into_errand(self) -> Option<Errand>
        ensures { option_map (λ errand. errand) result ≡ option_map (λ handed. handed.0) self }
    {
        let Held {
            errand,
            position: _,
        } = self;
        errand
    }
}

/// Decision on whether a callback may be sent.
#[derive(Drop)]
pub(crate) enum Leave {
    /// It may be sent, to this host and port.
    Now(String),
    /// It may be sent once its journal is durable up to the errand's position.
    Later,
    /// It may not be sent: a journal has failed, or there is no request.
    Never,
}

/// Callback that may be sent, and the number of bytes of the journal that were durable when it began.
#[derive(Drop)]
pub(crate) struct Flight {
    callback_exchange: CallbackExchange,
    kept: u64,
}

/// Returns the callback of an errand with extra fields, and the host and port that it asks. Returns `None` if the
/// errand has no address or memory is refused.
fn callback_of(
    alloc: Global,
    errand: &Errand,
    extra: ExtraFields<'_>,
) -> Option<(CallbackExchange, String)>
    ensures { IfSome result (λ made. Goes (extra_of extra.entry) made.0 made.1 errand.now) }
{
    let callback = Callback::of_with(errand, extra);
    let Ok(to) = callback.to(alloc) else {
        return None;
    };
    let Ok(callback_exchange) = CallbackExchange::at(alloc, &to, &callback) else {
        return None;
    };
    match socket_text(alloc, &to) {
        Ok(socket) => Some((callback_exchange, socket)),
        Err(_) => None,
    }
}

/// Errand that was accepted. Its request is made once the journal of its instance is durable up to its position.
#[derive(Drop)]
pub(crate) struct Attempt<G: SyncGroup> {
    errand: Held,
    /// Instance of the journal that has its ask.
    instance: Instance,
    flight: Option<Flight>,
    group: PhantomData<G>,
    ghost leave: { ForSome flight (λ f. ForSome errand (λ h. MayLeave (G.keeps instance) h.1 f.kept)) },
    ghost own: { ForSome flight (λ f. ForSome errand (λ h. ∥ IsFor f.callback_exchange h.0 ∥₁)) },
}

impl<G: SyncGroup> Attempt<G> {
    /// Makes the attempt of an errand whose ask is in the journal of that instance.
    pub(crate) fn new(errand: Errand, instance: Instance, position: u64) -> Attempt<G>
        ensures errand { result.errand ≡ Some (errand, position) }
        ensures journal { result.instance ≡ instance }
    {
        Attempt {
            errand: Held::new(errand, position),
            instance,
            flight: None,
            group: PhantomData,
        }
    }

    /// Returns the errand.
    pub(crate) fn errand(&self) -> Option<&Errand>
        ensures { option_map (λ errand. errand.now) result ≡ option_map (λ handed. handed.0) self.now.errand }
    {
        self.errand.get()
    }

    /// Returns the position up to which the journal has to be durable before the callback is sent.
    pub(crate) fn position(&self) -> u64
        ensures { ForSome self.now.errand (λ handed. result ≡ handed.1) }
    {
        self.errand.position()
    }

    /// Returns the callback of the errand with extra fields, and the host and port that it asks. Returns `None` if the
    /// errand has no address or memory is refused.
    fn callback(&self, alloc: Global, extra: ExtraFields<'_>) -> Option<(CallbackExchange, String)>
        ensures { IfSome result (λ made. ForSome self.now.errand
            (λ h. Goes (extra_of extra.entry) made.0 made.1 h.0)) }
    {
        match self.errand() {
            Some(errand) => callback_of(alloc, errand, extra),
            None => None,
        }
    }

    /// Makes the callback, with extra fields, if it may be sent. Returns whether it may, and if so, the host and port
    /// of the errand's address.
    pub(crate) fn begin<R: Wait>(
        &mut self,
        rt: &R,
        alloc: Global,
        group: &G,
        extra: ExtraFields<'_>,
    ) -> Leave
        ensures errand { self.new.errand ≡ self.old.errand }
        ensures journal { self.new.instance ≡ self.old.instance }
        ensures socket { (socket : String Global) → result ≡ Leave.Now socket
            → ForSome self.old.errand (λ h. string_bytes socket ≡ socket_text h.0.address) }
        ensures extra { (socket : String Global) → result ≡ Leave.Now socket → ForSome self.new.flight
            (λ f. ForSome self.old.errand (λ h. IsForWith (extra_of extra.entry) f.callback_exchange h.0)) }
    {
        let Ok(kept) = group.kept(rt, self.instance, self.position()) else {
            return Leave::Never;
        };
        let Some(kept) = kept else {
            return Leave::Later;
        };
        match self.callback(alloc, extra) {
            Some((callback_exchange, socket)) => {
                self.flight = Some(Flight {
                    callback_exchange,
                    kept,
                });
                Leave::Now(socket)
            }
            None => Leave::Never,
        }
    }

    /// Moves bytes between the callback and its stream.
    pub(crate) fn pump<S: Read + Write>(&mut self, stream: &mut S, buffer: &mut [u8]) -> Moved
        ensures errand { self.new.errand ≡ self.old.errand }
        ensures leave { self.old.flight ≡ None → stream.new ≡ stream.old }
    {
        match &mut self.flight {
            Some(flight) => pump(&mut flight.callback_exchange, stream, buffer),
            None => Moved::Ended,
        }
    }

    /// Returns the outcome of the callback: silence if it has none.
    fn outcome(&self) -> Outcome
        ensures may { IfSome self.now.errand (λ h. MayCome (G.keeps self.now.instance) h.1 h.0.ask h.0.kind result) }
        ensures told { ForSome self.now.flight (λ f. result ≡ outcome_of f.callback_exchange) }
    {
        let Some(flight) = &self.flight else {
            return Outcome::Silent;
        };
        flight.callback_exchange.carried();
        flight
            .callback_exchange
            .outcome()
            .unwrap_or(Outcome::Silent)
    }

    /// Returns the reply that is reported for this end of the callback, or `None` if the callback brought its member
    /// further. Fails if memory is refused.
    pub(crate) fn reply(&self, end: End) -> Result<Option<Reply>, Memory>
        ensures { IfOk result (λ reply. Replies end self.now.flight reply) }
    {
        match &self.flight {
            Some(flight) => {
                let code = flight.callback_exchange.code()?;
                Ok(reply_of(end, flight.callback_exchange.told(), code))
            }
            None => Ok(reply_of(end, None, None)),
        }
    }

    /// Returns the errand, and the outcome of its callback.
    pub(crate) fn finish(self) -> Option<(Errand, Outcome)>
        ensures errand { option_map (λ came. came.0) result ≡ option_map (λ handed. handed.0) self.errand }
        // An outcome other than silence comes only from a request that was sent once the errand's own journal was
        // durable up to its own position.
        ensures came { IfSome result (λ came. ForSome self.errand
            (λ h. MayCome (G.keeps self.instance) h.1 came.0.ask came.0.kind came.1)) }
        ensures told { IfSome result (λ came. ForSome self.flight (λ f. came.1 ≡ outcome_of f.callback_exchange)) }
    {
        let outcome = self.outcome();
        let Attempt { errand, .. } = self;
        match errand.into_errand() {
            Some(errand) => Some((errand, outcome)),
            None => None,
        }
    }
}
