//! A client: its stream, its connection, and how far journals have to be durable before its replies leave.

ghost use Rattle.std.specs.Prelude.{◌≡◌, ◌↔◌, ◌≤◌, [], length, IfOk, OnErr, IsTrue, true};
ghost use Rattle.std.specs.Io.KnownBytes.{Keeps};
ghost use Rattle.lra_steps.specs.History.{begun_by, room_of, took};
ghost use Rattle.lra_event_loop.specs.Answered.{AnswersOf};
ghost use Rattle.lra_event_loop.specs.Clients.{Reads, HandsOut, ThrowsAway, Continues, IsToContinue};
ghost use Rattle.lra_event_loop.specs.Waiting.{AllMayGo, AreNoted};

use crate::answering::{Stage, answer_some};
use crate::base::WhichBase;
use crate::positions::Positions;
use lra_durable::{SyncFault, SyncGroup};
use lra_front::{Clock, Routes};
use lra_ids::{Base, Instance};
use lra_model::Memory;
use lra_steps::{Connection, Handler};
use mio::net::TcpStream;
use std::alloc::{AllocError, Global};
use std::io::{ErrorKind, Read, Write};
use std::marker::PhantomData;
use std::mem;
use std::net::Shutdown;
use std::sync::Wait;

/// Interim response after which a client sends the body of its request (RFC 9110, section 15.2.1).
const CONTINUE: &[u8] = b"HTTP/1.1 100 Continue\r\n\r\n";

/// Reason why a client can't be served any more.
#[derive(Clone, Copy, PartialEq, Eq)]
pub enum ClientFault {
    /// Memory was refused.
    Memory,
    /// Its stream or a journal has failed.
    Io,
}

impl From<AllocError> for ClientFault {
    ghost use Rattle.std.specs.Prelude.{◌≡◌};
    ghost use Rattle.lra_event_loop.specs.declared.client.ClientFault.TheVariants.{Memory};

    ghost from_gives = { λ _ fault. fault ≡ Memory };

    fn from(_: AllocError) -> ClientFault {
        ClientFault::Memory
    }
}

/// Outcome of reading a client's stream.
#[derive(Clone, Copy, PartialEq, Eq)]
pub enum Reading {
    /// Some bytes came.
    Came,
    /// None came yet.
    Waits,
    /// The stream has ended.
    Ended,
    /// The stream wasn't read: there is no room for more.
    Full,
}

/// Outcome of writing to a client's stream.
#[derive(Clone, Copy, PartialEq, Eq)]
pub enum WriteResult {
    /// Some bytes were written.
    Went,
    /// The stream accepts none for now.
    Waits,
    /// Nothing was written: a journal isn't durable yet up to the position of an answer.
    AwaitsSync,
    /// Nothing was written: no replies wait.
    Done,
}

/// Client of a thread. For each of its turns, the journal is durable up to the answer's position, or that position is
/// noted.
#[derive(Drop)]
pub struct Client<S, G: SyncGroup, P: WhichBase> {
    stream: S,
    connection: Connection,
    /// Positions that have to be durable before a byte of the waiting replies leaves.
    positions: Positions,
    /// An answer may have made something due for the callback workers, since `take_due` was called last.
    is_due: bool,
    of: PhantomData<(P, G)>,
    ghost here: { connection.base ≡ P.base },
    ghost noted: { ∥ AreNoted G.keeps positions connection.turns ∥₁ },
}

impl<S, G: SyncGroup, P: WhichBase> Client<S, G, P> {
    /// Makes a client that has just connected. It may send chunked bodies, if that is said.
    #[tactic(auto, using(crate::proofs::Noted::noted_begun))]
    pub fn new(
        alloc: Global,
        stream: S,
        instance: Instance,
        base: &Base,
        chunked: bool,
    ) -> Client<S, G, P>
        requires { base.now ≡ P.base }
        ensures stream { result.stream ≡ stream }
        ensures connection { result.connection ≡ begun_by chunked instance base.now }
    {
        Client {
            stream,
            connection: Connection::with_chunked(alloc, instance, base, chunked),
            positions: Positions::none(),
            is_due: false,
            of: PhantomData,
        }
    }

    /// Returns how many more bytes there is room for, of requests that aren't answered yet.
    pub fn room(&self) -> usize
        ensures { result ≡ room_of self.now.connection }
    {
        self.connection.room()
    }

    /// Answers the requests that are whole, a few at most and none while many replies wait. Notes the positions of
    /// their answers: the replies wait for these. If memory is refused, the answers given so far stand.
    #[tactic(auto, using(crate::proofs::Noted::noted_answered))]
    pub fn answer<A: Handler, K: Clock>(
        &mut self,
        alloc: Global,
        routes: &Routes,
        handler: &mut A,
        clock: &mut K,
    ) -> Result<Stage, Memory>
        requires { A.base_of (A.sight handler.old) ≡ P.base }
        ensures answered { AnswersOf A.base_of A.responds K.tells self.old.connection self.new.connection
            (A.sight handler.old) clock.old (A.sight handler.new) clock.new }
        ensures stream { self.new.stream ≡ self.old.stream }
    {
        answer_some(
            alloc,
            routes,
            &mut self.connection,
            &mut self.positions,
            &mut self.is_due,
            handler,
            clock,
        )
    }

    /// Returns whether an answer may have made something due for the callback workers, since the last call.
    pub(crate) fn take_due(&mut self) -> bool
        ensures same { (self.new.stream ≡ self.old.stream) × (self.new.connection ≡ self.old.connection) }
    {
        mem::replace(&mut self.is_due, false)
    }

    /// Returns whether the client is to be sent `100 Continue`: it waits for that before it sends a body, and all
    /// replies before have been handed out.
    pub fn awaits_continue(&self) -> bool
        ensures { result ≡ true → IsToContinue self.now.connection }
    {
        self.connection.awaits_continue() && self.connection.out().is_empty()
    }

    /// Returns whether all replies have been handed out.
    pub fn is_done(&self) -> bool
        ensures { IsTrue result ↔ (self.now.connection.out ≡ []) }
    {
        self.connection.out().is_empty()
    }
}

/// Adds bytes that came, and for which there is room, to a connection.
fn take_in(connection: &mut Connection, bytes: &[u8]) -> Result<Reading, ClientFault>
    requires { length bytes.now ≤ room_of connection.old }
    ensures taken { IfOk result (λ reading. (reading ≡ Reading.Came) ×
        (connection.new ≡ took connection.old bytes.now)) }
    ensures here { connection.new.base ≡ connection.old.base }
    ensures turns { connection.new.turns ≡ connection.old.turns }
{
    if !connection.take(bytes)? {
        unreachable!();
    }
    Ok(Reading::Came)
}

impl<S: Read, G: SyncGroup, P: WhichBase> Client<S, G, P> {
    /// Reads once, as much as came and there is room for.
    #[tactic(auto, using(crate::proofs::Noted::noted_still))]
    pub fn read(&mut self, buffer: &mut [u8]) -> Result<Reading, ClientFault>
        ensures read { IfOk result (Reads (S.remaining self.old.stream) (S.remaining self.new.stream)
            self.old.connection self.new.connection) }
    {
        let room = self.connection.room().min(buffer.len());
        if room == 0 {
            return Ok(Reading::Full);
        }
        match self.stream.read(&mut buffer[..room]) {
            Ok(0) => {
                self.connection.finish();
                Ok(Reading::Ended)
            }
            Ok(count) => take_in(&mut self.connection, &buffer[..count]),
            Err(error) if error.kind() == ErrorKind::WouldBlock => Ok(Reading::Waits),
            Err(_) => Err(ClientFault::Io),
        }
    }
}

impl<S: Read, G: SyncGroup, P: WhichBase> Client<S, G, P> {
    /// Reads once and discards what came. Returns how many bytes that were, or nothing if none came yet; 0 at the
    /// stream's end.
    pub fn discard(&mut self, buffer: &mut [u8]) -> Result<Option<usize>, ClientFault>
        ensures { IfOk result (ThrowsAway (S.remaining self.old.stream) (S.remaining self.new.stream)
            self.old.connection self.new.connection) }
    {
        match self.stream.read(buffer) {
            Ok(count) => Ok(Some(count)),
            Err(error) if error.kind() == ErrorKind::WouldBlock => Ok(None),
            Err(_) => Err(ClientFault::Io),
        }
    }
}

impl<G: SyncGroup, P: WhichBase> Client<TcpStream, G, P> {
    /// Shuts the stream's writing side: its peer reads all that was written, and then the end.
    pub(crate) fn shut(&self) -> Result<(), ClientFault> {
        match self.stream.shutdown(Shutdown::Write) {
            Ok(()) => Ok(()),
            Err(_) => Err(ClientFault::Io),
        }
    }
}

impl<S, G: SyncGroup, P: WhichBase> Client<S, G, P> {
    /// Returns whether every turn's answer is durable. It waits for no sync.
    #[tactic(auto, using(crate::proofs::Noted::noted_moved, crate::proofs::Noted::durable_all))]
    fn may_leave<R: Wait>(&mut self, rt: &R, group: &G) -> Result<bool, ClientFault>
        ensures durable { IfOk result (λ may. IsTrue may → ∥ AllMayGo G.keeps self.old.connection.turns ∥₁) }
        ensures same { (self.new.stream ≡ self.old.stream) × (self.new.connection ≡ self.old.connection) }
    {
        match self.positions.settle(rt, group) {
            Ok(all) => Ok(all),
            Err(_) => Err(ClientFault::Io),
        }
    }

    /// Syncs the journals that its replies wait for, up to the positions of these.
    pub fn sync<R: Wait>(&self, rt: &R, group: &G) -> Result<(), SyncFault>
        ensures { OnErr result (IsTrue G.failed) }
    {
        self.positions.sync(rt, group)
    }
}

impl<S: Write, G: SyncGroup, P: WhichBase> Client<S, G, P> {
    /// Hands out replies once, if for every turn so far the journal is durable up to the answer's position.
    #[tactic(auto, using(crate::proofs::Noted::noted_still))]
    pub fn hand_out<R: Wait>(&mut self, rt: &R, group: &G) -> Result<WriteResult, ClientFault>
        ensures handed { IfOk result (HandsOut G.keeps (S.contents self.old.stream) (S.contents self.new.stream)
            self.old.connection self.new.connection) }
        ensures failed { OnErr result (Keeps (S.contents self.old.stream) (S.contents self.new.stream)) }
    {
        if self.connection.out().is_empty() {
            return Ok(WriteResult::Done);
        }
        if !self.may_leave(rt, group)? {
            return Ok(WriteResult::AwaitsSync);
        }
        match self.stream.write(self.connection.out()) {
            Ok(0) => Err(ClientFault::Io),
            Ok(count) => {
                self.connection.advance_by(count);
                Ok(WriteResult::Went)
            }
            Err(error) if error.kind() == ErrorKind::WouldBlock => Ok(WriteResult::Waits),
            Err(_) => Err(ClientFault::Io),
        }
    }
}

impl<S: Write, G: SyncGroup, P: WhichBase> Client<S, G, P> {
    /// Sends `100 Continue` to a client that waits for it, once. Where its stream accepts nothing for now, none is
    /// sent: a client doesn't wait for it for ever.
    #[tactic(auto, using(crate::proofs::Noted::noted_still, crate::proofs::Streams::whole_sent))]
    pub fn send_continue(&mut self) -> Result<(), ClientFault>
        ensures { IfOk result (λ done. Continues (S.contents self.old.stream) (S.contents self.new.stream)
            self.old.connection self.new.connection) }
    {
        if !self.awaits_continue() {
            return Ok(());
        }
        self.connection.note_continued();
        match self.stream.write(CONTINUE) {
            Ok(count) => {
                if count == CONTINUE.len() {
                    Ok(())
                } else {
                    Err(ClientFault::Io)
                }
            }
            Err(error) if error.kind() == ErrorKind::WouldBlock => Ok(()),
            Err(_) => Err(ClientFault::Io),
        }
    }
}
