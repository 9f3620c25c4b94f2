//! Errands over the connections that a dialler opens.

ghost use Rattle.std.specs.Prelude.{◌≡◌, true, IfOk, IfErr, IsTrue};
ghost use Rattle.lra_ids.specs.Addresses.{is_address};
ghost use Rattle.lra_model.specs.Words.{outcome_suits};
ghost use Rattle.lra_courier.specs.Exchanges.{ComesOf};
ghost use Rattle.lra_courier.specs.Calls.{Reaches, Lacks, Calls};

use crate::callback::Callback;
use crate::courier::Courier;
use crate::dialler::Dialler;
use crate::fault::{CallFault, SendFault};
use crate::socket::socket_text;
use lra_core::Errand;
use lra_ids::Address;
use lra_model::Outcome;
use std::alloc::Global;

/// Courier over the connections that a dialler opens, one for each errand.
#[derive(Drop)]
pub struct DiallingCourier<D> {
    pub(crate) dialler: D,
    pub(crate) alloc: Global,
}

impl<D: Dialler> DiallingCourier<D> {
    /// Makes a courier over the connections of a dialler.
    pub fn over(dialler: D, alloc: Global) -> DiallingCourier<D>
        ensures { result.dialler ≡ dialler }
    {
        DiallingCourier { dialler, alloc }
    }

    /// Makes a callback over a connection to the socket of its address. Returns its outcome, or its fault.
    pub fn try_call(&self, callback: &Callback<'_>) -> Result<Outcome, CallFault>
        ensures calls { Calls D.gives D.Stream.contents D.Stream.remaining self.now.dialler callback.now result }
        ensures suits { IfOk result (λ outcome. IsTrue (outcome_suits callback.now.kind outcome)) }
    {
        match callback.to(self.alloc) {
            Ok(to) => self.call_at(&to, callback),
            Err(fault) => Err(CallFault::Send(fault)),
        }
    }

    /// Does the same as [`try_call`](DiallingCourier::try_call), where the callback's address has been read.
    fn call_at(&self, to: &Address, callback: &Callback<'_>) -> Result<Outcome, CallFault>
        requires to { to.now ≡ callback.now.address }
        requires address { is_address to.now ≡ true }
        ensures calls { Calls D.gives D.Stream.contents D.Stream.remaining self.now.dialler callback.now result }
        ensures suits { IfOk result (λ outcome. IsTrue (outcome_suits callback.now.kind outcome)) }
    {
        match self.reach(to) {
            Ok(stream) => callback.converse_at(self.alloc, to, stream),
            Err(fault) => Err(fault),
        }
    }

    /// Does the same as [`try_call`](DiallingCourier::try_call), where any fault is [`Outcome::Silent`].
    pub fn call(&self, callback: &Callback<'_>) -> Outcome
        ensures calls { ComesOf (Calls D.gives D.Stream.contents D.Stream.remaining self.now.dialler callback.now)
            result }
        ensures suits { IsTrue (outcome_suits callback.now.kind result) }
    {
        match self.try_call(callback) {
            Ok(outcome) => outcome,
            Err(_) => Outcome::Silent,
        }
    }

    /// Opens a connection to the socket of an address.
    fn reach(&self, to: &Address) -> Result<D::Stream, CallFault>
        requires { is_address to.now ≡ true }
        ensures ok { IfOk result (λ stream. Reaches D.gives self.now.dialler to.now stream) }
        ensures err { IfErr result (λ fault. Lacks D.gives self.now.dialler to.now fault) }
    {
        let Ok(socket) = socket_text(self.alloc, to) else {
            return Err(CallFault::Send(SendFault::Memory));
        };
        match self.dialler.dial(socket.as_str()) {
            Some(stream) => Ok(stream),
            None => Err(CallFault::Unreached),
        }
    }
}

impl<D: Dialler> Courier for DiallingCourier<D> {
    ghost use Rattle.lra_courier.specs.Calls.{Carries};

    ghost gives = { λ ask kind outcome. Carries D.gives D.Stream.contents D.Stream.remaining ask kind outcome };

    fn carry(&mut self, errand: &Errand) -> Outcome {
        self.call(&Callback::of(errand))
    }

    ghost suits = { λ ask kind outcome h. h.suits };
}
