//! The accept queue of a thread that answers connections.

use lra_model::Memory;
use mio::net::TcpStream;
use mio::{Poll, Token, Waker};
use std::alloc::{AllocError, Global};
use std::collections::VecDeque;
use std::io;
use std::net::Net;
use std::sync::atomic::{AtomicBool, AtomicU64, Ordering};
use std::sync::{Mutex, Wait};

/// Key of the events of the accept queue. No client has that key.
pub(crate) const WAKER: Token = Token(usize::MAX);

/// Number of connections that wait in an accept queue at most, as long as the acceptor asks whether it is full.
const MOST_WAITING: usize = 16;

/// State of an accept queue: it accepts connections, or doesn't.
#[derive(Clone, Copy, PartialEq, Eq)]
pub(crate) enum AcceptState {
    Open,
    /// It accepts none, and the thread ends once no replies wait.
    Closing,
    /// It accepts none, and the thread ends.
    Closed,
}

/// State under the lock.
#[derive(Drop)]
struct Inner {
    /// Connections that the thread hasn't taken yet, the oldest first.
    streams: VecDeque<TcpStream>,
    /// Poll that the thread waits for streams with, until it takes the poll.
    poll: Option<Poll>,
    accept_state: AcceptState,
}

/// Accept queue of a thread that answers connections. Connections wait here until the thread takes them.
#[derive(Drop)]
pub struct AcceptQueue {
    inner: Mutex<Inner>,
    /// Waker of the thread.
    waker: Waker,
    /// Number of connections that the thread has.
    clients: AtomicU64,
    /// Flag that a new connection waits for a descriptor.
    wants_room: AtomicBool,
}

impl AcceptQueue {
    /// Makes an empty accept queue, with the poll that its thread will wait with.
    pub fn new<R: Net>(rt: &R, alloc: Global) -> io::Result<AcceptQueue> {
        let poll = Poll::new(rt)?;
        let waker = Waker::new(poll.registry(), WAKER)?;
        Ok(AcceptQueue {
            inner: Mutex::new(Inner {
                streams: VecDeque::new(alloc),
                poll: Some(poll),
                accept_state: AcceptState::Open,
            }),
            waker,
            clients: AtomicU64::new(0),
            wants_room: AtomicBool::new(false),
        })
    }

    /// Returns how many connections the thread has or will take, or the greatest number once it takes none any more.
    pub fn load<R: Wait>(&self, rt: &R) -> u64 {
        let inner = self.inner.lock(rt);
        if inner.accept_state != AcceptState::Open {
            return u64::MAX;
        }
        let clients = self.clients.load(Ordering::SeqCst);
        clients.saturating_add(inner.streams.len() as u64)
    }

    /// Returns whether so many connections wait for the thread that no other is to be accepted for it yet: the system
    /// keeps those that come meanwhile, and they take no descriptor.
    pub fn is_full<R: Wait>(&self, rt: &R) -> bool {
        let inner = self.inner.lock(rt);
        inner.accept_state == AcceptState::Open && inner.streams.len() >= MOST_WAITING
    }

    /// Adds a connection to the queue, and wakes the thread. If memory is refused, or the queue accepts none any more,
    /// the connection is closed.
    pub fn push<R: Wait>(&self, rt: &R, stream: TcpStream) -> Result<(), Memory> {
        let mut inner = self.inner.lock(rt);
        if inner.accept_state != AcceptState::Open {
            drop(stream);
            return Ok(());
        }
        if inner.streams.push_back(stream).is_err() {
            return Err(AllocError);
        }
        drop(inner);
        // If the thread can't be woken, it soon polls by itself.
        let _ = self.waker.wake();
        Ok(())
    }

    /// Asks the thread to end the client that has been idle for longest: a new connection waits, and the system has no
    /// descriptor for it.
    pub fn ask_room(&self) {
        self.wants_room.store(true, Ordering::SeqCst);
        let _ = self.waker.wake();
    }

    /// Returns whether `ask_room` was called since the last call.
    pub(crate) fn takes_room(&self) -> bool {
        self.wants_room.swap(false, Ordering::SeqCst)
    }

    /// Accepts no more connections, and lets the thread read no more requests: it ends once the replies that wait have
    /// left, or 10 s after.
    pub fn finish<R: Wait>(&self, rt: &R) {
        let mut inner = self.inner.lock(rt);
        if inner.accept_state == AcceptState::Open {
            inner.accept_state = AcceptState::Closing;
        }
        drop(inner);
        let _ = self.waker.wake();
    }

    /// Accepts no more connections, and lets the thread end.
    pub fn close<R: Wait>(&self, rt: &R) {
        self.inner.lock(rt).accept_state = AcceptState::Closed;
        let _ = self.waker.wake();
    }

    /// Returns the poll that the thread waits with, to the first caller.
    pub(crate) fn take_poll<R: Wait>(&self, rt: &R) -> Option<Poll> {
        self.inner.lock(rt).poll.take()
    }

    pub(crate) fn accept_state<R: Wait>(&self, rt: &R) -> AcceptState {
        self.inner.lock(rt).accept_state
    }

    /// Takes the connection from the queue that has waited longest.
    pub(crate) fn next<R: Wait>(&self, rt: &R) -> Option<TcpStream> {
        self.inner.lock(rt).streams.pop_front()
    }

    /// Notes how many clients the thread has.
    pub(crate) fn note_load(&self, clients: usize) {
        self.clients.store(clients as u64, Ordering::SeqCst);
    }
}
