//! The half of a callback that reads.

ghost use Rattle.std.specs.Prelude.{◌≡◌, Err, IfOk, IfErr, IfSome, OnOk, OnErr, IsTrue, IsFalse};
ghost use Rattle.lra_model.specs.Words.{outcome_suits};
ghost use Rattle.lra_wire.specs.Inbox.{stream_of, is_spent, AsksAt};
ghost use Rattle.lra_wire.specs.Streams.{IfBothKnown};
ghost use Rattle.lra_wire.specs.Response.{RefusesResponse, AwaitsResponse};
ghost use Rattle.lra_courier.specs.Exchanges.{IsAnswer};

use crate::callback::Callback;
use crate::reply::classify;
use lra_model::Outcome;
use lra_wire::{Inbox, WireFault, read_response};
use std::alloc::Global;
use std::io::Read;

impl<'a> Callback<'a> {
    /// Reads the response and returns its outcome. After a fault nothing more is read.
    pub fn receive<R: Read + Drop>(
        &self,
        alloc: Global,
        inbox: &mut Inbox<R>,
    ) -> Result<Outcome, WireFault>
        ensures answer { IfOk result (λ outcome.
            IfBothKnown (stream_of R.remaining inbox.old) (stream_of R.remaining inbox.new)
            (λ bytes rest. IsAnswer self.now bytes rest outcome)) }
        ensures suits { IfOk result (λ outcome. IsTrue (outcome_suits self.now.kind outcome)) }
        ensures fault { IsFalse (is_spent inbox.old) → IfErr result (λ fault.
            IfSome (stream_of R.remaining inbox.old) (λ bytes. RefusesResponse bytes fault)) }
        ensures spent { IsTrue (is_spent inbox.old) → result ≡ Err WireFault.Cut }
        ensures ok { OnOk result (IsFalse (is_spent inbox.new)) }
        ensures err { OnErr result (IsTrue (is_spent inbox.new)) }

        // Where the bytes that came spell a response, the reader isn't asked for more, unless the response's body ends
        // with the stream.
        ensures rests { AsksAt AwaitsResponse inbox.old inbox.new }
    {
        let response = read_response(alloc, inbox)?;
        let body = response.body.as_slice();
        Ok(classify(self.kind, self.direction, response.code, body))
    }
}
