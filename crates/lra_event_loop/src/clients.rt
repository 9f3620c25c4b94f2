//! The clients of a thread.

ghost use Rattle.std.specs.Prelude.{◌≡◌};
ghost use Rattle.lra_event_loop.specs.inner.Stretches.{AnsweredSome};

use crate::base::WhichBase;
use crate::client::Client;
use crate::client_slot::{ClientSlot, Need, Turn};
use crate::loop_context::LoopContext;
use crate::times::Times;
use lra_durable::SyncGroup;
use lra_front::Clock;
use lra_ids::{Base, Instance};
use lra_steps::Handler;
use lra_timers::Agenda;
use mio::net::TcpStream;
use mio::{Interest, Registry, Token};
use slab::Slab;
use std::alloc::Global;
use std::collections::VecDeque;
use std::mem;
use std::sync::Wait;

/// Largest number of clients that are visited again in an iteration.
const MOST_AGAIN: u64 = 16;

/// Clients of a thread, each under a key, and what is to be done for which client.
#[derive(Drop)]
pub(crate) struct Clients<G: SyncGroup, P: WhichBase> {
    alloc: Global,
    times: Times,
    /// Mark that chunked bodies of requests are accepted.
    chunked: bool,
    client_slots: Slab<ClientSlot<G, P>>,
    /// Ends of the clients' turns. Idle clients have limits: until then they have to begin a request, or to close their
    /// streams. The others have retries: until then they have to go on with a request, or with a reply. An end may be
    /// noted too early: then `settle` corrects it.
    agenda: Agenda,
    /// Keys of the clients whose streams may be ready.
    ready: Vec<usize>,
    /// Keys of the clients to visit again, those without a visit for longest first.
    again: VecDeque<usize>,
    /// Keys of the clients whose replies wait to leave. A key whose client has ended is passed over.
    waiting: Vec<usize>,
    /// An answer may have made something due for the callback workers, since `take_due` was called last.
    is_due: bool,
}

impl<G: SyncGroup, P: WhichBase> Clients<G, P> {
    /// Makes a thread's clients: none yet, each of which will have these time limits, and may send chunked bodies if
    /// that is said.
    pub(crate) fn new(alloc: Global, times: Times, chunked: bool) -> Clients<G, P> {
        Clients {
            alloc,
            times,
            chunked,
            client_slots: Slab::new(alloc),
            agenda: Agenda::new(alloc),
            ready: Vec::new(alloc),
            again: VecDeque::new(alloc),
            waiting: Vec::new(alloc),
            is_due: false,
        }
    }

    pub(crate) fn len(&self) -> usize {
        self.client_slots.len()
    }

    /// Returns whether a client is to be visited.
    pub(crate) fn has_ready(&self) -> bool {
        !self.ready.is_empty() || !self.again.is_empty()
    }

    /// Returns whether a client's replies wait to leave.
    pub(crate) fn has_waiting(&self) -> bool {
        !self.waiting.is_empty()
    }

    /// Returns whether the replies of all clients wait to leave, so that no other client can ask for anything.
    pub(crate) fn all_wait(&self) -> bool {
        self.waiting.len() >= self.client_slots.len()
    }

    /// Notes that the stream of a key may be ready, and may have come to its end.
    pub(crate) fn call(&mut self, key: usize, is_closing: bool) {
        let Some(client_slot) = self.client_slots.get_mut(key) else {
            return;
        };
        client_slot.call(is_closing);
        if client_slot.list() && self.ready.push(key).is_err() {
            self.end(key);
        }
    }

    /// Ends a client.
    fn end(&mut self, key: usize) {
        drop(self.client_slots.try_remove(key));
        self.agenda.drop_limit(key as u64);
        self.agenda.drop_retry(key as u64);
    }

    /// Makes room for another client among at most `most`: if there are that many, ends the client that has been idle
    /// for longest. Returns whether there is room.
    fn make_room(&mut self, most: usize) -> bool {
        self.client_slots.len() < most || self.end_idle()
    }

    /// Ends the client that has been idle for longest, if any is idle. Returns whether one was.
    pub(crate) fn end_idle(&mut self) -> bool {
        for _stale in 0..=self.client_slots.len() {
            let Some(key) = self.agenda.first_due(u64::MAX) else {
                return false;
            };
            let key = key as usize;
            if self.is_as_noted(key) {
                self.end(key);
                return true;
            }
            self.settle(key);
        }
        false
    }

    /// Returns whether the turn that is noted of a client is its present one.
    fn is_as_noted(&self, key: usize) -> bool {
        match self.client_slots.get(key) {
            Some(client_slot) => client_slot.noted() == client_slot.turn(),
            None => true,
        }
    }

    /// Notes the end of a client's turn anew. If memory is refused, ends the client.
    fn settle(&mut self, key: usize) {
        if let Some(client_slot) = self.client_slots.get(key) {
            let turn = client_slot.turn();
            if !self.set_time(key, turn) {
                self.end(key);
            }
        }
    }

    /// Accepts a new connection, if there is room and memory for it. Otherwise closes it.
    pub(crate) fn admit(
        &mut self,
        registry: &Registry,
        stream: TcpStream,
        instance: Instance,
        base: &Base,
        most: usize,
        now: u64,
    )
        requires { base.now ≡ P.base }
    {
        let mut stream = stream;
        if !self.make_room(most) || self.client_slots.reserve(1).is_err() {
            drop(stream);
            return;
        }
        let key = self.client_slots.vacant_key();
        let both = Interest::READABLE | Interest::WRITABLE;
        if registry.register(&mut stream, Token(key), both).is_err() {
            drop(stream);
            return;
        }
        let client_slot = ClientSlot::new(Client::new(
            self.alloc,
            stream,
            instance,
            base,
            self.chunked,
        ));
        self.client_slots.insert_reserved(client_slot);
        self.place(key, now);
    }

    /// Lists a client for what it needs next, or ends it.
    fn place(&mut self, key: usize, now: u64) {
        let times = self.times;
        let Some(client_slot) = self.client_slots.get_mut(key) else {
            return;
        };
        let need = client_slot.next(times, now);
        let (is_to_note, turn) = (client_slot.is_to_note(), client_slot.turn());
        let is_placed = match need {
            Need::End => false,
            Need::Rest => true,
            Need::Visit => !client_slot.list() || self.again.push_back(key).is_ok(),
            Need::Leave => !client_slot.wait() || self.waiting.push(key).is_ok(),
        };
        if !is_placed || is_to_note && !self.set_time(key, turn) {
            self.end(key);
        }
    }

    /// Notes until when a client's turn lasts. Returns whether there was memory for it.
    fn set_time(&mut self, key: usize, turn: Turn) -> bool {
        if let Some(client_slot) = self.client_slots.get_mut(key) {
            client_slot.note(turn);
        }
        let key = key as u64;
        match turn {
            Turn::Begins(until) | Turn::Closes(until) => {
                self.agenda.drop_retry(key);
                self.agenda.set_limit(key, until).is_ok()
            }
            Turn::Asks(until) | Turn::Takes(until) => {
                self.agenda.drop_limit(key);
                self.agenda.set_retry(key, until).is_ok()
            }
            Turn::Waits => {
                self.agenda.drop_limit(key);
                self.agenda.drop_retry(key);
                true
            }
        }
    }

    /// Reads what came of one client, and answers its requests that are whole.
    fn serve_one<A: Handler, K: Clock>(
        &mut self,
        loop_context: &LoopContext,
        buffer: &mut [u8],
        key: usize,
        handler: &mut A,
        clock: &mut K,
        now: u64,
    )
        requires { A.base_of (A.sight handler.old) ≡ P.base }
        ensures { AnsweredSome A.base_of A.responds K.tells (A.sight handler.old) clock.old (A.sight handler.new)
            clock.new }
    {
        let Some(client_slot) = self.client_slots.get_mut(key) else {
            return;
        };
        let served = client_slot.serve(loop_context, buffer, handler, clock);
        self.is_due |= client_slot.take_due();
        match served {
            Ok(()) => self.place(key, now),
            Err(_) => self.end(key),
        }
    }

    /// Reads what came of the clients whose streams may be ready, and of some of those to visit again, and answers
    /// their requests that are whole, a few of each. So a client whose request has just come waits for few of those
    /// that have more to do.
    pub(crate) fn serve<A: Handler, K: Clock>(
        &mut self,
        loop_context: &LoopContext,
        buffer: &mut [u8],
        handler: &mut A,
        clock: &mut K,
        now: u64,
    )
        requires { A.base_of (A.sight handler.old) ≡ P.base }
        ensures { AnsweredSome A.base_of A.responds K.tells (A.sight handler.old) clock.old (A.sight handler.new)
            clock.new }
    {
        let keys = mem::replace(&mut self.ready, Vec::new(self.alloc));
        for key in keys {
            self.serve_one(loop_context, buffer, key, handler, clock, now);
        }
        for _visit in 0..MOST_AGAIN {
            let Some(key) = self.again.pop_front() else {
                return;
            };
            self.serve_one(loop_context, buffer, key, handler, clock, now);
        }
    }

    /// Returns whether an answer may have made something due for the callback workers, since the last call.
    pub(crate) fn take_due(&mut self) -> bool {
        mem::replace(&mut self.is_due, false)
    }

    /// Returns whether the replies of a client wait to leave, or may be on their way. They wait too while its stream
    /// accepts nothing.
    pub(crate) fn are_owed(&self) -> bool {
        self.client_slots
            .iter()
            .any(|(_, client_slot)| client_slot.is_owed())
    }

    /// Does what a client needs for the replies that it is owed. No request of it is read any more.
    fn rest_one(&mut self, buffer: &mut [u8], key: usize, now: u64) {
        let Some(client_slot) = self.client_slots.get_mut(key) else {
            return;
        };
        client_slot.unlist();
        if client_slot.lingers() && client_slot.discard(buffer).is_err() {
            self.end(key);
        } else if client_slot.is_owed() {
            self.place(key, now);
        }
    }

    /// Does what the clients whose streams may be ready need for the replies that wait to leave, or may be on their
    /// way. No request is read any more.
    pub(crate) fn rest(&mut self, buffer: &mut [u8], now: u64) {
        let keys = mem::replace(&mut self.ready, Vec::new(self.alloc));
        for key in keys {
            self.rest_one(buffer, key, now);
        }
        for _visit in 0..self.again.len() {
            let Some(key) = self.again.pop_front() else {
                return;
            };
            self.rest_one(buffer, key, now);
        }
    }

    /// Syncs the journals that replies wait for. A journal that the replies of several clients wait for is synced once.
    pub(crate) fn sync<R: Wait>(&self, rt: &R, group: &G) {
        for key in &self.waiting {
            if let Some(client_slot) = self.client_slots.get(*key) {
                client_slot.sync(rt, group);
            }
        }
    }

    /// Hands out the replies that may leave, to the clients whose replies wait.
    pub(crate) fn hand_out<R: Wait>(&mut self, rt: &R, group: &G, now: u64) {
        let keys = mem::replace(&mut self.waiting, Vec::new(self.alloc));
        for key in keys {
            let Some(client_slot) = self.client_slots.get_mut(key) else {
                continue;
            };
            match client_slot.hand_out(rt, group) {
                Ok(()) => self.place(key, now),
                Err(_) => self.end(key),
            }
        }
    }

    /// Ends the clients whose turn has lasted too long.
    pub(crate) fn end_late(&mut self, now: u64) {
        for _late in 0..self.client_slots.len() {
            let late = self.agenda.first_due(now);
            let Some(key) = late.or(self.agenda.next_retry(now)) else {
                return;
            };
            let key = key as usize;
            if self.is_as_noted(key) {
                self.end(key);
            } else {
                self.settle(key);
            }
        }
    }

    /// Returns the first moment that is noted as the end of a turn, if one is.
    pub(crate) fn first_end(&self) -> Option<u64> {
        let idle = self.end_of(self.agenda.first_due(u64::MAX));
        let busy = self.end_of(self.agenda.next_retry(u64::MAX));
        match (idle, busy) {
            (Some(one), Some(other)) => Some(one.min(other)),
            (one, None) => one,
            (None, other) => other,
        }
    }

    /// Returns until when the turn lasts that is noted of a client.
    fn end_of(&self, key: Option<u64>) -> Option<u64> {
        let client_slot = self.client_slots.get(key? as usize)?;
        match client_slot.noted() {
            Turn::Begins(until) | Turn::Asks(until) | Turn::Takes(until) | Turn::Closes(until) => {
                Some(until)
            }
            Turn::Waits => None,
        }
    }
}
