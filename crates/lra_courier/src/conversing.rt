//! A whole callback over one stream.

ghost use Rattle.std.specs.Prelude.{◌≡◌, IfOk, IsTrue, IsFalse};
ghost use Rattle.lra_model.specs.Words.{outcome_suits};
ghost use Rattle.lra_wire.specs.Inbox.{stream_of, is_spent};
ghost use Rattle.lra_courier.specs.Exchanges.{Answers, Converses};

use crate::callback::Callback;
use crate::fault::CallFault;
use lra_ids::Address;
use lra_model::Outcome;
use lra_wire::{Inbox, WireFault};
use std::alloc::Global;
use std::io::{Read, Write};

impl<'a> Callback<'a> {
    // Reads the response to the request, which was sent, and returns its outcome.
    pub(crate) fn answer<R: Read + Drop>(
        &self,
        alloc: Global,
        inbox: &mut Inbox<R>,
    ) -> Result<Outcome, CallFault>
        requires { IsFalse (is_spent inbox.old) }
        ensures answers { Answers (stream_of R.remaining inbox.old) self.now result }
        ensures suits { IfOk result (λ outcome. IsTrue (outcome_suits self.now.kind outcome)) }
    {
        match self.receive(alloc, inbox) {
            Ok(outcome) => Ok(outcome),
            Err(fault) => Err(CallFault::Reply(fault)),
        }
    }

    // Does the same as `answer` for a stream that the request was written to.
    fn answer_of<R: Read + Drop>(&self, alloc: Global, stream: R) -> Result<Outcome, CallFault>
        ensures answers { Answers (R.remaining stream) self.now result }
        ensures suits { IfOk result (λ outcome. IsTrue (outcome_suits self.now.kind outcome)) }
    {
        let Ok(mut inbox) = Inbox::new(alloc, stream) else {
            return Err(CallFault::Reply(WireFault::Memory));
        };
        self.answer(alloc, &mut inbox)
    }

    // Does the same as `converse`, where the member's address has been read.
    pub(crate) fn converse_at<S: Read + Write + Drop>(
        &self,
        alloc: Global,
        to: &Address,
        stream: S,
    ) -> Result<Outcome, CallFault>
        requires { to.now ≡ self.now.address }
        ensures converses { (sent : S) × Converses (S.contents stream) (S.contents sent) (S.remaining sent) self.now
            result }
        ensures suits { IfOk result (λ outcome. IsTrue (outcome_suits self.now.kind outcome)) }
    {
        let mut stream = stream;
        match self.send_to(alloc, to, &mut stream) {
            Ok(()) => self.answer_of(alloc, stream),
            Err(fault) => Err(CallFault::Send(fault)),
        }
    }

    /// Writes the request to a stream, reads the response from what the stream then has left, and returns its outcome.
    pub fn converse<S: Read + Write + Drop>(
        &self,
        alloc: Global,
        stream: S,
    ) -> Result<Outcome, CallFault>
        ensures converses { (sent : S) × Converses (S.contents stream) (S.contents sent) (S.remaining sent) self.now
            result }
        ensures suits { IfOk result (λ outcome. IsTrue (outcome_suits self.now.kind outcome)) }
    {
        let to = match self.to(alloc) {
            Ok(to) => to,
            Err(fault) => return Err(CallFault::Send(fault)),
        };
        self.converse_at(alloc, &to, stream)
    }
}
