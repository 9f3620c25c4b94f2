//! A callback as steps over bytes.
ghost use Rattle.std.specs.Prelude.{
  ◌≡◌,
  ◌≢◌,
  ◌≤◌,
  ℕ,
  List,
  false,
  drop,
  length,
  option_map,
  Err,
  IfOk,
  IfErr,
  IfSome,
  IsTrue,
};
ghost use Rattle.std.specs.Result.{result_unwrap_or};
ghost use Rattle.lra_model.specs.declared.asks.Outcome.{Outcome};
ghost use Rattle.lra_model.specs.Words.{outcome_suits};
ghost use Rattle.lra_ids.specs.Addresses.{is_address};
ghost use Rattle.lra_courier.specs.Callbacks.{Calling};
ghost use Rattle.lra_courier.specs.Exchanges.{IsAnswer};
ghost use Rattle.lra_courier.specs.Carried.{IsReply, IsCarried, Comes, begun, room_of, went, finished, broken, tells};
ghost use Rattle.lra_courier.specs.Codes.{IsCoded};
ghost use Rattle.lra_courier.specs.Steps.{Takes, Steps};

use crate::callback::Callback;
use crate::fault::{CallFault, SendFault};
use crate::told::{Asked, code_of, look};
use lra_ids::Address;
use lra_model::{Memory, Outcome};
use lra_wire::{MAX_RESPONSE, ResponseCursor};
use std::alloc::{AllocError, Global};
use std::marker::Model;

/// Step that comes next.
#[derive(Clone, Copy, Debug, PartialEq, Eq)]
pub enum Step {
    /// Bytes of the request have to be sent.
    Sends,
    /// More bytes of the response have to come.
    NeedsInput,
    /// Result of the callback, which doesn't change any more.
    Came(Result<Outcome, CallFault>),
}

/// Callback exchange, as steps. A contract sees what was exchanged so far.
#[derive(Drop)]
pub struct CallbackExchange {
    alloc: Global,
    asked: Asked,
    request: Vec<u8>,
    /// Number of bytes of the request that were sent.
    advance_by: usize,
    kept: Vec<u8>,
    /// Findings on the bytes that are kept, so that they aren't read anew with each piece.
    seen: ResponseCursor,
    closed: bool,
    failed: bool,
    came: Option<Result<Outcome, CallFault>>,
}

impl Model for CallbackExchange {
    ghost use Rattle.lra_courier.specs.Carried.{Carried};

    ghost Value = { Carried };

    ghost use Rattle.lra_courier.specs.inner.Holding.{carried_of, Holds};

    ghost view = { carried_of };

    ghost invariant = { Holds };
}

impl CallbackExchange {
    /// Begins a callback exchange, of which nothing is sent yet.
    pub fn new(alloc: Global, callback: &Callback<'_>) -> Result<CallbackExchange, SendFault>
        ensures ok { IfOk result (λ made. made ≡ begun callback.now) }
        ensures address { result ≡ Err SendFault.BadAddress → is_address callback.now.address ≡ false }
        ensures err { IfErr result (λ fault. fault ≢ SendFault.Io) }
    {
        let to = callback.to(alloc)?;
        match CallbackExchange::at(alloc, &to, callback) {
            Ok(callback_exchange) => Ok(callback_exchange),
            Err(AllocError) => Err(SendFault::Memory),
        }
    }

    /// Does the same as [`new`](CallbackExchange::new), where the callback's address has been read.
    pub fn at(
        alloc: Global,
        to: &Address,
        callback: &Callback<'_>,
    ) -> Result<CallbackExchange, Memory>
        requires { to.now ≡ callback.now.address }
        ensures { IfOk result (λ made. made ≡ begun callback.now) }
    {
        let mut request = Vec::new(alloc);
        // A list accepts all bytes, unless memory is refused.
        if callback.send_to(alloc, to, &mut request).is_err() {
            return Err(AllocError);
        }
        Ok(CallbackExchange {
            alloc,
            asked: Asked {
                kind: callback.kind,
                direction: callback.direction,
            },
            request,
            advance_by: 0,
            kept: Vec::new(alloc),
            seen: ResponseCursor::nothing(alloc),
            closed: false,
            failed: false,
            came: None,
        })
    }

    /// States what is true of every callback exchange.
    pub fn carried(&self)
        ensures { IsCarried self.now }
    {
        let _gone = self.advance_by;
    }

    /// Returns the bytes of the request that may be sent.
    pub fn out(&self) -> &[u8]
        ensures { result.now ≡ drop self.now.advance_by self.now.request }
    {
        &self.request.as_slice()[self.advance_by..]
    }

    /// Notes that so many more bytes of the request were sent.
    pub fn advance_by(&mut self, count: usize)
        requires { count ≤ length (drop self.old.advance_by self.old.request) }
        ensures { self.new ≡ went self.old count }
    {
        self.advance_by += count;
    }

    /// Returns how many more bytes the exchange accepts.
    pub fn room(&self) -> usize
        ensures { result ≡ room_of self.now }
    {
        if self.closed || self.failed || self.came.is_some() {
            0
        } else {
            MAX_RESPONSE - self.kept.len()
        }
    }

    /// Accepts bytes that came, if there is room for all of them. Returns whether it did.
    pub fn take(&mut self, bytes: &[u8]) -> Result<bool, Memory>
        ensures { Takes result bytes.now self.old self.new }
    {
        if bytes.len() > self.room() {
            return Ok(false);
        }
        self.kept.extend_from_slice(bytes)?;
        Ok(true)
    }

    /// Notes that no more bytes come.
    pub fn ended(&mut self)
        ensures { self.new ≡ finished self.old }
    {
        self.closed = true;
    }

    /// Notes that the stream has failed: no byte is sent or comes any more.
    pub fn failed(&mut self)
        ensures { self.new ≡ broken self.old }
    {
        self.failed = true;
    }

    /// Returns the next step. Where memory is refused, nothing changes.
    pub fn next(&mut self) -> Result<Step, Memory>
        ensures { Steps result self.old self.new }
    {
        if let Some(told) = self.came {
            return Ok(Step::Came(told));
        }
        if self.advance_by < self.request.len() {
            if !self.failed {
                return Ok(Step::Sends);
            }
            return Ok(self.tell(Err(CallFault::Send(SendFault::Io))));
        }
        match look(
            self.alloc,
            self.kept.as_slice(),
            &mut self.seen,
            self.closed,
            self.failed,
            self.asked,
        )? {
            Some(Ok(outcome)) => Ok(self.tell(Ok(outcome))),
            Some(Err(fault)) => Ok(self.tell(Err(CallFault::Reply(fault)))),
            None => Ok(Step::NeedsInput),
        }
    }

    /// Returns the outcome of the exchange, once it has a result. Any fault is [`Outcome::Silent`].
    pub fn outcome(&self) -> Option<Outcome>
        ensures comes { result ≡ option_map (λ told. result_unwrap_or told Outcome.Silent) self.now.came }
        ensures suits { IfSome result (λ outcome. IsTrue (outcome_suits self.now.kind outcome)) }
    {
        match self.came {
            Some(Ok(outcome)) => Some(outcome),
            Some(Err(_)) => Some(Outcome::Silent),
            None => None,
        }
    }

    /// Returns the result of the exchange, once it has one.
    pub fn told(&self) -> Option<Result<Outcome, CallFault>>
        ensures { result ≡ self.now.came }
    {
        self.came
    }

    /// Returns the code of the response that the outcome is of, where there is one. It is for what an outcome doesn't
    /// say. It reads the accepted bytes anew. Where memory is refused, the call may be made again.
    pub fn code(&self) -> Result<Option<u16>, Memory>
        ensures { IfOk result (λ code. IfSome code (IsCoded self.now)) }
    {
        match self.came {
            Some(Ok(_)) => code_of(self.alloc, self.kept.as_slice(), self.closed),
            _ => Ok(None),
        }
    }

    /// Notes the result of the exchange, and returns it as a step.
    fn tell(&mut self, told: Result<Outcome, CallFault>) -> Step
        requires { Comes self.old told }
        ensures new { self.new ≡ tells self.old told }
        ensures result { result ≡ Step.Came told }
    {
        self.came = Some(told);
        Step::Came(told)
    }
}

/// States that a response has the outcome here that it has for [`Callback::exchange`].
pub fn replies_are_answers()
    ensures { (calling : Calling) (bytes rest : List ℕ) (outcome : Outcome)
        → IsReply calling.kind calling.direction bytes rest outcome → IsAnswer calling bytes rest outcome }
{}
