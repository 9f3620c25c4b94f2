//! A whole callback over one connection.

ghost use Rattle.std.specs.Prelude.{◌≡◌, ◌⊎◌, IfOk, IsTrue};
ghost use Rattle.lra_model.specs.Words.{outcome_suits};
ghost use Rattle.lra_wire.specs.Inbox.{stream_of};
ghost use Rattle.lra_wire.specs.Streams.{IfBothKnown};
ghost use Rattle.lra_courier.specs.Callbacks.{calling_of};
ghost use Rattle.lra_courier.specs.Exchanges.{Posts, IsAnswer, Exchanges, Converses, ComesOf};

use crate::callback::Callback;
use crate::fault::{CallFault, SendFault};
use lra_core::Errand;
use lra_model::Outcome;
use lra_wire::Inbox;
use std::alloc::Global;
use std::io::{Read, Write};

impl<'a> Callback<'a> {
    /// Writes the request, reads the response, and returns its outcome. Where memory for the response's inbox is
    /// refused, nothing is written.
    pub fn try_exchange<R: Read + Drop, W: Write>(
        &self,
        alloc: Global,
        reader: R,
        writer: &mut W,
    ) -> Result<Outcome, CallFault>
        ensures converses { Converses (W.contents writer.old) (W.contents writer.new) (R.remaining reader) self.now
            result }
        ensures suits { IfOk result (λ outcome. IsTrue (outcome_suits self.now.kind outcome)) }
    {
        let Ok(mut inbox) = Inbox::new(alloc, reader) else {
            return Err(CallFault::Send(SendFault::Memory));
        };
        match self.send(alloc, writer) {
            Ok(()) => self.answer(alloc, &mut inbox),
            Err(fault) => Err(CallFault::Send(fault)),
        }
    }

    /// Writes the request, reads the response, and returns its outcome. Any fault is [`Outcome::Silent`].
    pub fn exchange<R: Read + Drop, W: Write>(
        &self,
        alloc: Global,
        reader: R,
        writer: &mut W,
    ) -> Outcome
        ensures exchanges { Exchanges (W.contents writer.old) (W.contents writer.new) (R.remaining reader) self.now
            result }
        ensures told { ComesOf (Converses (W.contents writer.old) (W.contents writer.new) (R.remaining reader) self.now)
            result }
        ensures suits { IsTrue (outcome_suits self.now.kind result) }
    {
        match self.try_exchange(alloc, reader, writer) {
            Ok(outcome) => outcome,
            Err(_) => Outcome::Silent,
        }
    }
}

/// Writes an errand's request, as [`Callback::send`] does.
pub fn send<W: Write>(alloc: Global, writer: &mut W, errand: &Errand) -> Result<(), SendFault>
    ensures { Posts (W.contents writer.old) (W.contents writer.new) (calling_of errand.now) result }
{
    Callback::of(errand).send(alloc, writer)
}

/// Reads the response to an errand's request, and returns its outcome. Any fault is [`Outcome::Silent`].
pub fn receive<R: Read + Drop>(alloc: Global, inbox: &mut Inbox<R>, errand: &Errand) -> Outcome
    ensures answer { (result ≡ Outcome.Silent) ⊎ IfBothKnown (stream_of R.remaining inbox.old)
        (stream_of R.remaining inbox.new)
        (λ bytes rest. IsAnswer (calling_of errand.now) bytes rest result) }
    ensures suits { IsTrue (outcome_suits errand.now.kind result) }
{
    match Callback::of(errand).receive(alloc, inbox) {
        Ok(outcome) => outcome,
        Err(_) => Outcome::Silent,
    }
}

/// Carries an errand to its member over one connection, and returns the outcome. Any fault of writing, reading or
/// memory is [`Outcome::Silent`].
pub fn exchange<R: Read + Drop, W: Write>(
    alloc: Global,
    reader: R,
    writer: &mut W,
    errand: &Errand,
) -> Outcome
    ensures exchanges { Exchanges (W.contents writer.old) (W.contents writer.new) (R.remaining reader)
        (calling_of errand.now) result }
    ensures told { ComesOf (Converses (W.contents writer.old) (W.contents writer.new) (R.remaining reader)
        (calling_of errand.now)) result }
    ensures suits { IsTrue (outcome_suits errand.now.kind result) }
{
    Callback::of(errand).exchange(alloc, reader, writer)
}
