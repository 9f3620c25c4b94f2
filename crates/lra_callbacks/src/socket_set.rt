//! Sockets that are open, and their time limits.

use crate::hosts::Hosts;
use crate::names::steady_now;
use crate::quota::Quota;
use crate::resting::REST_MS;
use lra_timers::Agenda;
use mio::{Events, Poll, Token, Waker};
use std::alloc::Global;
use std::collections::VecDeque;
use std::io;
use std::net::Net;
use std::sync::Wait;
use std::time::{Clock, Duration};

/// Token of the waker.
const WAKER: Token = Token(usize::MAX);

/// Largest number of events that one poll of the sockets finds.
const MOST_EVENTS: usize = 1_024;

/// Number of bytes that are read at once.
const BUFFER: usize = 1 << 16;

/// Makes a poll, and a waker that ends its wait from other threads: a callback worker that waits then polls its office.
pub fn waker<R: Net>(rt: &R) -> io::Result<(Poll, Waker)> {
    let poll = Poll::new(rt)?;
    let new_waker = Waker::new(poll.registry(), WAKER)?;
    Ok((poll, new_waker))
}

/// Wakes the callback workers of all these wakers. A worker that can't be woken polls by itself.
pub fn wake_workers(wakers: &[Waker]) {
    for waker in wakers {
        let _ = waker.wake();
    }
}

/// Buffers for events, for bytes that are read, and for the slots whose sockets were reported.
#[derive(Drop)]
struct Buffers {
    events: Events,
    bytes: Vec<u8>,
    reported: Vec<usize>,
}

impl Buffers {
    fn new(alloc: Global) -> Option<Buffers> {
        Some(Buffers {
            events: Events::with_capacity(alloc, MOST_EVENTS).ok()?,
            bytes: Vec::from_elem(alloc, 0u8, BUFFER).ok()?,
            reported: Vec::with_capacity(alloc, MOST_EVENTS).ok()?,
        })
    }
}

/// Sockets and queues of the callbacks, apart from the errands themselves. Each callback is named by the slot of its
/// errand.
#[derive(Drop)]
pub(crate) struct SocketSet {
    pub(crate) poll: Poll,
    events: Events,
    pub(crate) buffer: Vec<u8>,
    pub(crate) hosts: Hosts,
    /// Moments at which the time of sockets is up.
    agenda: Agenda,
    /// Callbacks whose sockets were reported.
    pub(crate) reported: Vec<usize>,
    /// Callbacks that wait for the sync of their journal, oldest first.
    pub(crate) awaiting_sync: VecDeque<usize>,
    /// Callbacks that have ended.
    pub(crate) ended: VecDeque<usize>,
    /// The moment that was read last, in milliseconds.
    now: u64,
}

impl SocketSet {
    /// Makes the socket set of the worker that has that number at the quota; no socket is open. Returns the poll if
    /// memory is refused.
    pub(crate) fn new(alloc: Global, poll: Poll, worker: usize) -> Result<SocketSet, Poll> {
        let Some(buffers) = Buffers::new(alloc) else {
            return Err(poll);
        };
        let Buffers {
            events,
            bytes,
            reported,
        } = buffers;
        Ok(SocketSet {
            poll,
            events,
            buffer: bytes,
            hosts: Hosts::new(alloc, worker),
            agenda: Agenda::new(alloc),
            reported,
            awaiting_sync: VecDeque::new(alloc),
            ended: VecDeque::new(alloc),
            now: 0,
        })
    }

    /// Returns the moment, in milliseconds. It stands still if the clock can't be read.
    pub(crate) fn moment<R: Clock>(&mut self, rt: &R) -> u64 {
        if let Some(now) = steady_now(rt) {
            if self.now < now {
                self.now = now;
            }
        }
        self.now
    }

    /// Makes room for one more errand, so that it can wait and end.
    pub(crate) fn make_room(&mut self, held: usize) -> Option<()> {
        let room = held.saturating_add(1);
        self.awaiting_sync
            .reserve(room.saturating_sub(self.awaiting_sync.len()))
            .ok()?;
        self.ended
            .reserve(room.saturating_sub(self.ended.len()))
            .ok()
    }

    /// Queues a callback after its back-off, before all others that wait for the sync: its own position is durable
    /// already. The queue has room for all.
    pub(crate) fn go_on(&mut self, key: usize) {
        let _ = self.awaiting_sync.push_front(key);
    }

    /// Queues a callback for its host. Ends it if memory is refused.
    pub(crate) fn enlist(&mut self, key: usize, socket: String) {
        if !self.hosts.enlist(key, socket) {
            self.end(key);
        }
    }

    /// Waits for events for so many milliseconds at most, and notes which sockets were reported.
    pub(crate) fn wait(&mut self, millis: u64) {
        self.reported.clear();
        let timeout = Some(Duration::from_millis(millis));
        if self.poll.poll(&mut self.events, timeout).is_err() {
            return;
        }
        for event in self.events.iter() {
            if event.token() != WAKER {
                // There is room for all events.
                let _ = self.reported.push(event.token().0);
            }
        }
    }

    /// Returns whether a callback worker has to look at the time while it rests: a socket's time is up then, a host
    /// waits for the look-up of its name, or memory was refused for a permit.
    pub(crate) fn has_to_look(&self) -> bool {
        let end = self.now.saturating_add(REST_MS);
        self.hosts.are_open() || self.agenda.first_due(end).is_some()
    }

    /// Gives a socket time until a moment. Returns whether it did: it doesn't if memory is refused.
    pub(crate) fn allow(&mut self, key: usize, until: u64) -> bool {
        self.agenda.set_limit(key as u64, until).is_ok()
    }

    /// Takes a socket whose time is up, if there is one, and drops its limit.
    pub(crate) fn late(&mut self, now: u64) -> Option<usize> {
        let key = self.agenda.first_due(now)?;
        self.agenda.drop_limit(key);
        usize::try_from(key).ok()
    }

    /// Drops the limit of a socket that was closed, and gives its permit back.
    pub(crate) fn close<R: Wait>(&mut self, rt: &R, quota: &Quota, key: usize, host: usize) {
        self.agenda.drop_limit(key as u64);
        self.hosts.leave(rt, quota, host);
    }

    /// Queues a callback that has ended.
    pub(crate) fn end(&mut self, key: usize) {
        let _ = self.ended.push_back(key);
    }
}
