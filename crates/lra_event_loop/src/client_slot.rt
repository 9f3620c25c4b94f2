//! The client slot: a client among those of a thread.

ghost use Rattle.std.specs.Prelude.{◌≡◌, if◌then◌else◌};
ghost use Rattle.lra_event_loop.specs.declared.client_slot.Need.TheVariants.{Rest, Visit};
ghost use Rattle.lra_event_loop.specs.inner.Stretches.{AnsweredSome};

use crate::answering::Stage;
use crate::base::WhichBase;
use crate::client::{Client, ClientFault, Reading, WriteResult};
use crate::loop_context::LoopContext;
use crate::times::Times;
use lra_durable::SyncGroup;
use lra_front::Clock;
use lra_steps::Handler;
use mio::net::TcpStream;
use std::mem;
use std::sync::Wait;

/// Largest number of writes to a client's stream in an iteration.
const MOST_CALLS: u64 = 4;

/// Number of milliseconds that a client has to close its stream, once it has all its replies and no further request of
/// it is read.
const LINGER: u64 = 2_000;

/// Largest number of bytes that are discarded meanwhile.
const MOST_DISCARDED: usize = 1_048_576;

/// Turn of a client: what has to happen next, and until when.
#[derive(Clone, Copy, PartialEq, Eq)]
pub(crate) enum Turn {
    /// The client has to begin a request.
    Begins(u64),
    /// The client has to end its request.
    Asks(u64),
    /// The client has to accept replies.
    Takes(u64),
    /// The client has to close its stream: what still comes is discarded. A stream that is closed with bytes unread
    /// loses replies on their way.
    Closes(u64),
    /// The journals have to be durable up to the positions of the client's answers.
    Waits,
}

/// Next need of a client.
#[derive(Clone, Copy, PartialEq, Eq)]
pub(crate) enum Need {
    /// Readiness of its stream.
    Rest,
    /// Another visit.
    Visit,
    /// Handing out of its replies.
    Leave,
    /// Nothing: the client has ended.
    End,
}

/// Client slot: a client, and what is known of its stream and of its time.
#[derive(Drop)]
pub(crate) struct ClientSlot<G: SyncGroup, P: WhichBase> {
    client: Client<TcpStream, G, P>,
    turn: Turn,
    /// Turn whose end is noted, which may have passed into others that last longer. No end is noted if it is `Waits`.
    noted: Turn,
    /// Room for bytes while nothing of a request has come.
    whole: usize,
    /// Its stream may have bytes that haven't been read.
    may_read: bool,
    /// Its stream comes to its end.
    is_closing: bool,
    /// A further request may be whole.
    goes: bool,
    /// No further request comes.
    has_ended: bool,
    /// Its stream was read to its end.
    is_read_out: bool,
    /// Number of bytes that may still be discarded.
    left: usize,
    /// Its stream accepts nothing for now.
    is_blocked: bool,
    /// It is listed among the clients to visit.
    is_listed: bool,
    /// It is listed among those whose replies wait to leave.
    is_waiting: bool,
}

impl<G: SyncGroup, P: WhichBase> ClientSlot<G, P> {
    /// Makes the slot of a client that has just connected.
    pub(crate) fn new(client: Client<TcpStream, G, P>) -> ClientSlot<G, P> {
        let whole = client.room();
        ClientSlot {
            client,
            turn: Turn::Waits,
            noted: Turn::Waits,
            whole,
            may_read: false,
            is_closing: false,
            goes: false,
            has_ended: false,
            is_read_out: false,
            left: MOST_DISCARDED,
            is_blocked: false,
            is_listed: false,
            is_waiting: false,
        }
    }

    pub(crate) fn turn(&self) -> Turn {
        self.turn
    }

    /// Returns the turn whose end is noted.
    pub(crate) fn noted(&self) -> Turn {
        self.noted
    }

    /// Notes the end of a turn.
    pub(crate) fn note(&mut self, turn: Turn) {
        self.noted = turn;
    }

    /// Returns whether the end of its turn has to be noted anew. An end may be noted too early, but not too late. So
    /// nothing is noted while the client idles again and again, or waits for the disk.
    pub(crate) fn is_to_note(&self) -> bool {
        match (self.noted, self.turn) {
            (_, Turn::Waits) => false,
            (Turn::Begins(noted), Turn::Begins(until)) => until < noted,
            (noted, turn) => noted != turn,
        }
    }

    /// Notes that its stream may be ready, to be read and to be written, and may have come to its end.
    pub(crate) fn call(&mut self, is_closing: bool) {
        self.may_read = true;
        self.is_closing |= is_closing;
        self.is_blocked = false;
    }

    /// Lists it among the clients to visit. Returns whether it wasn't there yet.
    pub(crate) fn list(&mut self) -> bool {
        !mem::replace(&mut self.is_listed, true)
    }

    /// Lists it among those whose replies wait to leave. Returns whether it wasn't there yet.
    pub(crate) fn wait(&mut self) -> bool {
        !mem::replace(&mut self.is_waiting, true)
    }

    /// Reads what came, a piece of it at most.
    fn read(&mut self, buffer: &mut [u8]) -> Result<(), ClientFault> {
        let before = self.client.room();
        let reading = self.client.read(buffer)?;
        self.is_read_out |= reading == Reading::Ended;
        self.may_read = match reading {
            // If fewer bytes came than there was room for, there are no others for now.
            Reading::Came => self.is_closing
                || before.saturating_sub(self.client.room()) >= before.min(buffer.len()),
            Reading::Full => true,
            Reading::Waits | Reading::Ended => false,
        };
        Ok(())
    }

    /// Discards what came, a piece of it at most.
    pub(crate) fn discard(&mut self, buffer: &mut [u8]) -> Result<(), ClientFault> {
        if !self.may_read {
            return Ok(());
        }
        match self.client.discard(buffer)? {
            Some(count) => {
                self.is_read_out |= count == 0;
                self.left = self.left.saturating_sub(count);
            }
            None => self.may_read = false,
        }
        Ok(())
    }

    /// Returns whether it has all its replies, and what still comes is discarded.
    pub(crate) fn lingers(&self) -> bool {
        matches!(self.turn, Turn::Closes(_))
    }

    /// Returns what it needs once it has all its replies and no further request is read. Shuts its writing side first,
    /// so that its client reads all of them.
    fn close(&mut self, now: u64) -> Need {
        if self.is_read_out || self.left == 0 {
            return Need::End;
        }
        if !self.lingers() {
            if self.client.shut().is_err() {
                return Need::End;
            }
            self.turn = Turn::Closes(now.saturating_add(LINGER));
        }
        need_of(self.may_read)
    }

    /// Reads what came, once all requests before are answered, and answers those that are whole; but not while replies
    /// wait to leave.
    pub(crate) fn serve<A: Handler, K: Clock>(
        &mut self,
        loop_context: &LoopContext,
        buffer: &mut [u8],
        handler: &mut A,
        clock: &mut K,
    ) -> Result<(), ClientFault>
        requires { A.base_of (A.sight handler.old) ≡ P.base }
        ensures { AnsweredSome A.base_of A.responds K.tells (A.sight handler.old) clock.old (A.sight handler.new)
            clock.new }
    {
        self.is_listed = false;
        if !self.client.is_done() {
            return Ok(());
        }
        if self.lingers() {
            return self.discard(buffer);
        }
        if self.may_read && !self.goes {
            self.read(buffer)?;
        }
        let stage = self
            .client
            .answer(loop_context.alloc, &loop_context.routes, handler, clock)?;
        self.goes = stage == Stage::Goes;
        self.has_ended = stage == Stage::Ended;
        self.client.send_continue()
    }

    /// Returns whether an answer may have made something due for the callback workers, since the last call.
    pub(crate) fn take_due(&mut self) -> bool {
        self.client.take_due()
    }

    /// Hands out the replies that may leave, in as many writes as an iteration allows.
    pub(crate) fn hand_out<R: Wait>(&mut self, rt: &R, group: &G) -> Result<(), ClientFault> {
        self.is_waiting = false;
        for _call in 0..MOST_CALLS {
            match self.client.hand_out(rt, group)? {
                WriteResult::Went => {}
                WriteResult::AwaitsSync | WriteResult::Done => return Ok(()),
                WriteResult::Waits => {
                    self.is_blocked = true;
                    return Ok(());
                }
            }
        }
        Ok(())
    }

    /// Syncs the journals that its replies wait for.
    pub(crate) fn sync<R: Wait>(&self, rt: &R, group: &G) {
        // If it fails, the next iteration ends the loop.
        let _ = self.client.sync(rt, group);
    }

    /// Returns whether replies to it wait to leave, or may be on their way.
    pub(crate) fn is_owed(&self) -> bool {
        !self.client.is_done() || self.lingers()
    }

    /// Notes that it isn't listed among the clients to visit any more.
    pub(crate) fn unlist(&mut self) {
        self.is_listed = false;
    }

    /// Returns what it needs next. If its turn has come to an end, the next one begins.
    pub(crate) fn next(&mut self, times: Times, now: u64) -> Need {
        if !self.client.is_done() {
            self.turn = reply_turn(self.turn, self.is_blocked, now.saturating_add(times.reply));
            return if self.is_blocked {
                Need::Rest
            } else {
                Need::Leave
            };
        }
        if self.has_ended {
            return self.close(now);
        }
        self.turn = request_turn(self.turn, self.client.room() < self.whole, times, now);
        need_of(self.goes || self.may_read || self.client.awaits_continue())
    }
}

/// Returns what a client that isn't owed anything needs: another visit if there may be more to read or a request to
/// answer, and otherwise readiness of its stream.
fn need_of(is_more: bool) -> Need
    ensures { result ≡ (if is_more then Visit else Rest) }
{
    if is_more { Need::Visit } else { Need::Rest }
}

/// Returns the turn of a client whose replies wait to leave: its stream accepts nothing, or a journal isn't durable yet
/// up to the position of an answer.
fn reply_turn(turn: Turn, is_blocked: bool, end: u64) -> Turn {
    match turn {
        Turn::Takes(until) => Turn::Takes(until),
        _ if is_blocked => Turn::Takes(end),
        _ => Turn::Waits,
    }
}

/// Returns the turn of a client that has accepted all its replies. Some bytes of its next request have come, or none.
fn request_turn(turn: Turn, has_begun: bool, times: Times, now: u64) -> Turn {
    match turn {
        Turn::Asks(until) if has_begun => Turn::Asks(until),
        _ if has_begun => Turn::Asks(now.saturating_add(times.request)),
        Turn::Begins(until) => Turn::Begins(until),
        _ => Turn::Begins(now.saturating_add(times.idle)),
    }
}
