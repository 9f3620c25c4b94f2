//! The event loop of a thread.

ghost use Rattle.std.specs.Prelude.{◌≡◌, Some, IsTrue};
ghost use Rattle.lra_event_loop.specs.Answered.{AnsweredWithRests};
ghost use Rattle.lra_event_loop.specs.inner.Stretches.{AnsweredSome, MayRest};

use crate::accept_queue::{AcceptQueue, AcceptState};
use crate::base::WhichBase;
use crate::clients::Clients;
use crate::loop_context::LoopContext;
use crate::steady_clock::SteadyClock;
use crate::times::Times;
use lra_durable::SyncGroup;
use lra_front::{Clock, Routes};
use lra_ids::{Base, Instance};
use lra_model::Memory;
use lra_steps::Handler;
use mio::{Events, Poll, Waker};
use std::alloc::Global;
use std::marker::Brand;
use std::sync::Wait;
use std::time::Duration;
use std::{io, time};

/// Largest number of events that one poll returns.
const MOST_EVENTS: usize = 1_024;

/// Number of bytes of a client that are read at once.
const PIECE: usize = 16_384;

/// Number of milliseconds that a thread with nothing to do waits before it checks whether a journal has failed, and
/// lets its handler rest. It is also the least time between two rests.
const LOOK: u64 = 250;

/// Number of iterations that replies wait for others to share their sync.
const MOST_ITERATIONS: u32 = 4;

/// Largest number of milliseconds that replies wait to leave, once the thread is to end.
const PARTING: u64 = 10_000;

/// Reason why an event loop has ended.
#[derive(Clone, Copy, PartialEq, Eq)]
pub enum EventLoopEnd {
    /// A journal has failed.
    SyncFault,
    /// No more connections come, and no replies wait that could still leave.
    Closed,
    /// Memory was refused for what the loop begins with, or another thread has its accept queue.
    Refused,
    /// The system reported no more events.
    Io,
}

/// Event loop: the context that a thread works in.
#[derive(Drop)]
pub struct EventLoop<'a, R, G: SyncGroup> {
    rt: &'a R,
    alloc: Global,
    group: &'a G,
    accept_queue: &'a AcceptQueue,
    /// Wakers of the callback workers: one is woken once something may be due.
    wakers: &'a [Waker],
    /// Largest number of clients.
    most: usize,
    times: Times,
    /// Mark that chunked bodies of requests are accepted.
    chunked: bool,
}

/// Poll that a thread waits with, and the state of its loop.
#[derive(Drop)]
struct Watch<'a, R> {
    poll: Poll,
    events: Events,
    buffer: Vec<u8>,
    steady_clock: SteadyClock<'a, R>,
    /// Number of iterations that replies have waited.
    iterations: u32,
    /// Callback worker that is woken next.
    turn: usize,
    /// Moment until which replies wait to leave, once the thread is to end.
    until: Option<u64>,
    /// Moment from which on the handler rests again.
    rest_from: u64,
}

/// Lets the handler rest, if that is due: not more often than a wait may last at most, however busy the thread is.
fn rest<A: Handler>(handler: &mut A, rest_from: &mut u64, now: u64)
    ensures { MayRest A.rests (A.sight handler.old) (A.sight handler.new) }
{
    if now < *rest_from {
        return;
    }
    *rest_from = now.saturating_add(LOOK);
    handler.on_idle();
}

/// Returns the place after `turn`, or 0 after the last of `count` places.
fn next_turn(turn: usize, count: usize) -> usize {
    let next = turn.saturating_add(1);
    if next < count { next } else { 0 }
}

impl<'a, R: Wait + time::Clock, G: SyncGroup> EventLoop<'a, R, G> {
    pub fn new(
        rt: &'a R,
        alloc: Global,
        group: &'a G,
        accept_queue: &'a AcceptQueue,
        wakers: &'a [Waker],
        most: usize,
        times: Times,
        chunked: bool,
    ) -> EventLoop<'a, R, G>
        ensures { (result.group ≡ group.entry) × (result.accept_queue ≡ accept_queue.entry) × (result.most ≡ most) ×
            (result.times ≡ times) × (result.chunked ≡ chunked) }
    {
        EventLoop {
            rt,
            alloc,
            group,
            accept_queue,
            wakers,
            most,
            times,
            chunked,
        }
    }

    /// Makes what a thread works with besides its clients.
    fn watch(&self, poll: Poll) -> Result<Watch<'a, R>, Memory> {
        let events = Events::with_capacity(self.alloc, MOST_EVENTS)?;
        let buffer = vec![in self.alloc; 0u8; PIECE]?;
        Ok(Watch {
            poll,
            events,
            buffer,
            steady_clock: SteadyClock::new(self.rt),
            iterations: 0,
            turn: 0,
            until: None,
            rest_from: 0,
        })
    }

    /// Wakes a callback worker, each in its turn, if anything was appended to a journal since `before`.
    fn wake_workers(&self, before: u64, turn: &mut usize) {
        let Some(waker) = self.wakers.get(*turn) else {
            return;
        };
        if self.group.appended(self.rt) > before {
            // If the worker can't be woken, it polls by itself.
            let _ = waker.wake();
            *turn = next_turn(*turn, self.wakers.len());
        }
    }

    /// Returns how long the next wait for streams may last.
    fn wait<P: WhichBase>(&self, clients: &Clients<G, P>, now: u64) -> Duration {
        if clients.has_ready() || clients.has_waiting() {
            return Duration::ZERO;
        }
        let left = match clients.first_end() {
            Some(end) => end.saturating_sub(now).min(LOOK),
            None => LOOK,
        };
        Duration::from_millis(left)
    }

    /// Notes which streams may be ready, ends an idle client if that is asked, and accepts new connections.
    fn take_in<P: WhichBase>(
        &self,
        watch: &Watch<'a, R>,
        clients: &mut Clients<G, P>,
        instance: Instance,
        base: &Base,
        now: u64,
    )
        requires { base.now ≡ P.base }
    {
        for event in watch.events.iter() {
            clients.call(usize::from(event.token()), event.is_read_closed());
        }
        if self.accept_queue.takes_room() {
            let _ = clients.end_idle();
        }
        let registry = watch.poll.registry();
        for _newcomer in 0..self.most {
            let Some(stream) = self.accept_queue.next(self.rt) else {
                break;
            };
            clients.admit(registry, stream, instance, base, self.most, now);
        }
        self.accept_queue.note_load(clients.len());
    }

    /// Hands out the replies that may leave. Once nothing else is to be done, or replies have waited for some
    /// iterations, syncs the journals that they wait for and hands out the replies that may leave then.
    fn hand_out<P: WhichBase>(
        &self,
        iterations: &mut u32,
        steady_clock: &mut SteadyClock<'a, R>,
        clients: &mut Clients<G, P>,
        is_quiet: bool,
        now: u64,
    ) {
        clients.hand_out(self.rt, self.group, now);
        if !clients.has_waiting() {
            *iterations = 0;
            return;
        }
        *iterations = iterations.saturating_add(1);
        if is_quiet || clients.all_wait() || *iterations >= MOST_ITERATIONS {
            *iterations = 0;
            clients.sync(self.rt, self.group);
            // The time-outs that begin with these replies don't count how long the sync took.
            clients.hand_out(self.rt, self.group, steady_clock.now());
        }
    }

    /// Runs an iteration in which no request is read any more: replies that wait leave. Returns whether it is the last
    /// one.
    fn part<P: WhichBase>(
        &self,
        watch: &mut Watch<'a, R>,
        clients: &mut Clients<G, P>,
        now: u64,
    ) -> bool {
        for event in watch.events.iter() {
            clients.call(usize::from(event.token()), event.is_read_closed());
        }
        clients.rest(watch.buffer.as_mut_slice(), now);
        self.hand_out(
            &mut watch.iterations,
            &mut watch.steady_clock,
            clients,
            true,
            now,
        );
        clients.end_late(now);
        let until = watch.until.unwrap_or(now.saturating_add(PARTING));
        watch.until = Some(until);
        now >= until || !clients.are_owed()
    }

    /// Reads what came, answers the requests that are whole, and hands out the replies that may leave.
    fn serve<A: Handler, K: Clock, P: WhichBase>(
        &self,
        loop_context: &LoopContext,
        watch: &mut Watch<'a, R>,
        clients: &mut Clients<G, P>,
        handler: &mut A,
        clock: &mut K,
        now: u64,
    )
        requires { A.base_of (A.sight handler.old) ≡ P.base }
        ensures { AnsweredSome A.base_of A.responds K.tells (A.sight handler.old) clock.old (A.sight handler.new)
            clock.new }
    {
        self.take_in(watch, clients, handler.instance(), handler.base(), now);
        let is_quiet = watch.events.is_empty() && !clients.has_ready();
        let before = self.group.appended(self.rt);
        clients.serve(
            loop_context,
            watch.buffer.as_mut_slice(),
            handler,
            clock,
            now,
        );
        if clients.take_due() {
            self.wake_workers(before, &mut watch.turn);
        }
        self.hand_out(
            &mut watch.iterations,
            &mut watch.steady_clock,
            clients,
            is_quiet,
            now,
        );
        clients.end_late(now);
    }

    /// Runs one iteration. Returns why there is no other, if there is none.
    fn run_once<A: Handler, K: Clock, P: WhichBase>(
        &self,
        loop_context: &LoopContext,
        watch: &mut Watch<'a, R>,
        clients: &mut Clients<G, P>,
        handler: &mut A,
        clock: &mut K,
    ) -> Option<EventLoopEnd>
        requires { A.base_of (A.sight handler.old) ≡ P.base }
        ensures answered { AnsweredWithRests A.base_of A.responds A.rests K.tells (A.sight handler.old) clock.old
            (A.sight handler.new) clock.new }
        ensures failed { result ≡ Some EventLoopEnd.SyncFault → IsTrue G.failed }
    {
        let wait = self.wait(clients, watch.steady_clock.now());
        if watch.poll.poll(&mut watch.events, Some(wait)).is_err() {
            return Some(EventLoopEnd::Io);
        }
        if self.group.has_failed(self.rt) {
            return Some(EventLoopEnd::SyncFault);
        }
        let now = watch.steady_clock.now();
        match self.accept_queue.accept_state(self.rt) {
            AcceptState::Closed => Some(EventLoopEnd::Closed),
            AcceptState::Closing => self
                .part(watch, clients, now)
                .then_some(EventLoopEnd::Closed),
            AcceptState::Open => {
                self.serve(loop_context, watch, clients, handler, clock, now);
                rest(handler, &mut watch.rest_from, now);
                None
            }
        }
    }

    /// Runs one iteration after another, and returns why the last one has ended.
    fn go_on<A: Handler, K: Clock, P: WhichBase>(
        &self,
        loop_context: &LoopContext,
        watch: &mut Watch<'a, R>,
        clients: &mut Clients<G, P>,
        handler: &mut A,
        clock: &mut K,
    ) -> EventLoopEnd
        requires { A.base_of (A.sight handler.old) ≡ P.base }
        ensures answered { AnsweredWithRests A.base_of A.responds A.rests K.tells (A.sight handler.old) clock.old
            (A.sight handler.new) clock.new }
        ensures failed { result ≡ EventLoopEnd.SyncFault → IsTrue G.failed }
    {
        for _round in self.rt.forever() {
            if let Some(end) = self.run_once(loop_context, watch, clients, handler, clock) {
                return end;
            }
        }
        unreachable!()
    }

    /// Answers the connections as `run` does, if the URIs begin as the type `P` says.
    fn run_at<A: Handler, K: Clock, P: WhichBase>(
        &self,
        handler: &mut A,
        clock: &mut K,
    ) -> EventLoopEnd
        requires { A.base_of (A.sight handler.old) ≡ P.base }
        ensures answered { AnsweredWithRests A.base_of A.responds A.rests K.tells (A.sight handler.old) clock.old
            (A.sight handler.new) clock.new }
        ensures failed { result ≡ EventLoopEnd.SyncFault → IsTrue G.failed }
    {
        let Some(poll) = self.accept_queue.take_poll(self.rt) else {
            return EventLoopEnd::Refused;
        };
        let Ok(mut watch) = self.watch(poll) else {
            return EventLoopEnd::Refused;
        };
        let Ok(routes) = Routes::new(self.alloc) else {
            drop(watch);
            return EventLoopEnd::Refused;
        };
        let loop_context = LoopContext {
            alloc: self.alloc,
            routes,
        };
        let mut clients: Clients<G, P> = Clients::new(self.alloc, self.times, self.chunked);
        let end = self.go_on(&loop_context, &mut watch, &mut clients, handler, clock);
        drop(clients);
        drop(watch);
        drop(loop_context);
        end
    }

    /// Answers the connections that come in, by one handler and one clock, until a journal has failed or no more
    /// connections come. Whatever happens to one connection, the others are answered. After an iteration in which
    /// nothing came the handler rests, four times a second at most.
    pub fn run<A: Handler, K: Clock>(&self, handler: &mut A, clock: &mut K) -> EventLoopEnd
        ensures answered { AnsweredWithRests A.base_of A.responds A.rests K.tells (A.sight handler.old) clock.old
            (A.sight handler.new) clock.new }
        ensures failed { result ≡ EventLoopEnd.SyncFault → IsTrue G.failed }
    {
        self.run_at::<A, K, Brand>(handler, clock)
    }
}
