//! Dispatcher of clients' connections.

ghost use Rattle.std.specs.Prelude.{◌≡◌};

use crate::ending::ServiceEnding;
use lra_event_loop::AcceptQueue;
use mio::net::{TcpListener, TcpStream};
use mio::{Events, Interest, Poll, Token, Waker};
use std::alloc::Global;
use std::io::ErrorKind;
use std::net::Net;
use std::sync::{Arc, Mutex, Wait};
use std::time::Duration;
use std::{io, net};

/// Number of milliseconds before the next attempt, once a connection couldn't be accepted.
const PAUSE: u64 = 100;

/// Number of milliseconds before the next attempt, once all accept queues are full.
const FULL_PAUSE: u64 = 1;

/// Number of connections that are accepted between two checks of whether the service is to end.
const MOST_AT_ONCE: u64 = 1_024;

/// Largest number of events that are reported at once.
const MOST_EVENTS: usize = 8;

/// Token of the listener's events.
const LISTENER: Token = Token(0);

/// Token of the waker's events.
const WAKER: Token = Token(1);

/// Listener, and the poll that waits for its connections.
#[derive(Drop)]
pub struct PolledListener {
    listener: TcpListener,
    poll: Poll,
    events: Events,
}

impl PolledListener {
    /// Returns a listener with its poll, and the waker that ends a wait there.
    pub fn new<R: Net>(
        rt: &R,
        alloc: Global,
        listener: net::TcpListener,
    ) -> io::Result<(PolledListener, Waker)> {
        listener.set_nonblocking(true)?;
        let mut listener = TcpListener::from_std(listener);
        let poll = Poll::new(rt)?;
        let registry = poll.registry();
        registry.register(&mut listener, LISTENER, Interest::READABLE)?;
        let waker = Waker::new(registry, WAKER)?;
        let events = Events::with_capacity(alloc, MOST_EVENTS)?;
        let line = PolledListener {
            listener,
            poll,
            events,
        };
        Ok((line, waker))
    }
}

/// Result of an attempt to accept a connection.
#[derive(Drop)]
enum AcceptResult {
    Connection(TcpStream),
    /// No connection waits.
    Nothing,
    /// No connection could be accepted, since too many files are open.
    Crowded,
    /// No connection could be accepted, for another reason.
    Refused,
    /// The listener is gone.
    Gone,
}

/// Dispatcher: a listener, and the accept queues of the connection workers that get its connections.
#[derive(Drop)]
pub struct Dispatcher<'a, R> {
    rt: &'a R,
    /// Listener, until the thread that waits there takes it.
    line: Mutex<Option<PolledListener>>,
    ending: &'a Arc<ServiceEnding>,
    accept_queue: Vec<AcceptQueue>,
}

impl<'a, R: Wait> Dispatcher<'a, R> {
    /// Returns a dispatcher whose connections go to the connection workers of these accept queues.
    pub fn new(
        rt: &'a R,
        line: PolledListener,
        ending: &'a Arc<ServiceEnding>,
        accept_queue: Vec<AcceptQueue>,
    ) -> Dispatcher<'a, R>
        ensures { (result.rt ≡ rt.entry) × (result.accept_queue ≡ accept_queue) }
    {
        Dispatcher {
            rt,
            line: Mutex::new(Some(line)),
            ending,
            accept_queue,
        }
    }

    /// Returns the accept queue of one of the connection workers.
    pub fn accept_queue(&self, place: u32) -> Option<&AcceptQueue> {
        self.accept_queue.get(place as usize)
    }

    /// Returns the number of connections.
    pub fn load(&self) -> u64 {
        let mut all: u64 = 0;
        for accept_queue in self.accept_queue.as_slice() {
            let load = accept_queue.load(self.rt);
            if load < u64::MAX {
                all = all.saturating_add(load);
            }
        }
        all
    }

    /// Returns the accept queue of the connection worker that has the fewest connections, of those that have room.
    fn least(&self) -> Option<&AcceptQueue> {
        self.accept_queue
            .iter()
            .filter(|accept_queue| !accept_queue.is_full(self.rt))
            .min_by_key(|accept_queue| accept_queue.load(self.rt))
    }

    /// Hands a connection to a connection worker. Closes the connection if its socket can't be set up or memory is
    /// refused.
    fn hand_on(&self, stream: TcpStream, accept_queue: &AcceptQueue) {
        if stream.set_nodelay(true).is_ok() {
            let _ = accept_queue.push(self.rt, stream);
        }
    }

    /// Asks each connection worker to end the client that has been idle for longest.
    fn ask_room(&self) {
        for accept_queue in self.accept_queue.as_slice() {
            accept_queue.ask_room();
        }
    }

    /// Hands on the connections that wait, unless the connection workers haven't taken the ones before. Returns how
    /// many milliseconds may pass before the next attempt, or `Some(None)` if an event has to be waited for. Returns
    /// `None` if the listener is gone.
    fn take_all(&self, line: &PolledListener) -> Option<Option<u64>> {
        for _connection in 0..MOST_AT_ONCE {
            let Some(accept_queue) = self.least() else {
                return Some(Some(FULL_PAUSE));
            };
            match accept(&line.listener) {
                AcceptResult::Connection(stream) => self.hand_on(stream, accept_queue),
                AcceptResult::Nothing => return Some(None),
                AcceptResult::Crowded => {
                    self.ask_room();
                    return Some(Some(PAUSE));
                }
                AcceptResult::Refused => return Some(Some(PAUSE)),
                AcceptResult::Gone => return None,
            }
        }
        Some(Some(0))
    }

    /// Hands on the connections that come, until the service is to end, no connection worker answers any more, or the
    /// listener is gone.
    fn wait_at(&self, line: &mut PolledListener) {
        let mut pause = Some(0);
        for _round in 0..u64::MAX {
            let timeout = pause.map(Duration::from_millis);
            let waited = line.poll.poll(&mut line.events, timeout);
            if waited.is_err() || self.ending.is_asked() || self.ending.is_over() {
                return;
            }
            match self.take_all(line) {
                Some(next) => pause = next,
                None => return,
            }
        }
    }

    /// Hands on the connections that come, until there are to be no others. Then ends the connection workers: at once,
    /// or once the waiting replies have left if the service is to end gently. If too many files are open to accept a
    /// connection, the clients that have been idle for longest make room for it.
    pub fn open(&self) {
        let line = self.line.lock(self.rt).take();
        if let Some(mut line) = line {
            self.wait_at(&mut line);
            drop(line);
        }
        if self.ending.is_asked() {
            self.finish();
        } else {
            self.close();
        }
    }

    /// Stops the connection workers from reading requests.
    fn finish(&self) {
        for accept_queue in self.accept_queue.as_slice() {
            accept_queue.finish(self.rt);
        }
    }

    /// Ends the connection workers: none answers any more.
    pub fn close(&self) {
        for accept_queue in self.accept_queue.as_slice() {
            accept_queue.close(self.rt);
        }
    }
}

/// System's codes for too many open files: on the whole machine, and in this process.
const CROWDED: [i32; 2] = [23, 24];

/// Returns whether an error says that too many files are open.
fn is_crowded(error: &io::Error) -> bool {
    match error.raw_os_error() {
        Some(code) => CROWDED.contains(&code),
        None => false,
    }
}

/// Tries to accept a connection.
fn accept(listener: &TcpListener) -> AcceptResult {
    match listener.accept() {
        Ok((stream, _)) => AcceptResult::Connection(stream),
        Err(error) if error.kind() == ErrorKind::WouldBlock => AcceptResult::Nothing,
        Err(error) if is_crowded(&error) => AcceptResult::Crowded,
        Err(_) => {
            if listener.local_addr().is_ok() {
                AcceptResult::Refused
            } else {
                AcceptResult::Gone
            }
        }
    }
}
