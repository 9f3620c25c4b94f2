//! Server of the operators' port.

use crate::connection::{OperatorsConnection, Step};
use crate::operators_server::OperatorsServer;
use crate::pace::Pace;
use lra_clocks::seconds_on;
use lra_operators::{Port, reply_to};
use lra_overview::Overview;
use std::alloc::Global;
use std::net::TcpStream;
use std::sync::Wait;
use std::thread::sleep;
use std::time::{Clock, Duration, Instant};

/// Number of seconds that a visit may take.
const VISIT: u64 = 10;

/// Largest number of visitors at once.
const MOST: usize = 64;

/// Largest number of visitors that one iteration accepts, and of requests that it answers. If so many come, more may
/// wait: a crowd.
const AT_ONCE: usize = 4;

/// Largest number of times that one iteration reads from or writes to one visitor.
const STEPS: usize = 8;

/// Least number of milliseconds between two iterations: `SHORT` after one in which a visitor came or bytes moved, and
/// `LONG` after one in which neither happened or a crowd came. Each iteration may take a processor from a thread that
/// answers services, so a crowd gets fewer of them.
const SHORT: u64 = 2;

const LONG: u64 = 20;

/// Source that knows whether a service has ended.
pub trait Ends {
    /// Returns whether the service has ended, so that no thread answers any more.
    fn is_over(&self) -> bool;
}

/// Listener that is told which requests the port refuses.
pub trait Turned {
    /// Notes that a request was refused with a status code, for its key or for where it comes from.
    fn turned_away(&self, code: u16);
}

/// Returns the status code of a reply if it says that a request may not be made: 401 or 403.
fn turned_code(reply: &[u8]) -> Option<u16> {
    match reply.get(9..12) {
        Some(code) if code == b"401".as_slice() => Some(401),
        Some(code) if code == b"403".as_slice() => Some(403),
        _ => None,
    }
}

/// Open connections of operators, and the port that answers them.
#[derive(Drop)]
struct OpenConnections {
    alloc: Global,
    port: Port,
    connections: Vec<OperatorsConnection>,
    /// Outcome of this iteration.
    look: Look,
}

/// Outcome of an iteration.
#[derive(Clone, Copy)]
struct Look {
    /// Number of visitors that have come.
    came: usize,
    /// Number of requests that may still be answered.
    left: usize,
    /// Flag, set once a byte came or went.
    has_moved: bool,
}

impl Look {
    /// Makes the outcome of an iteration that begins.
    fn new() -> Look {
        Look {
            came: 0,
            left: AT_ONCE,
            has_moved: false,
        }
    }

    /// Returns how long the server rests at least after the iteration.
    fn pause(&self) -> Duration {
        let is_quick = self.came < AT_ONCE && (self.came > 0 || self.has_moved);
        Duration::from_millis(if is_quick { SHORT } else { LONG })
    }
}

/// Returns whether a moment has passed.
fn has_passed<R: Clock>(rt: &R, end: Instant) -> bool {
    match Instant::now(rt) {
        Ok(now) => now >= end,
        Err(_) => true,
    }
}

impl OpenConnections {
    /// Gives a new connection a client slot. If all slots are taken, the oldest connection is closed, so no slow or
    /// silent client keeps others out.
    fn seat<R: Clock>(&mut self, rt: &R, stream: TcpStream) {
        let Ok(end) = seconds_on(rt, VISIT) else {
            return;
        };
        if stream.set_nonblocking(true).is_err() {
            return;
        }
        if self.connections.len() >= MOST {
            self.dismiss(0);
        }
        let _ = self
            .connections
            .push(OperatorsConnection::new(self.alloc, stream, end));
    }

    /// Accepts new connections, a few at most.
    fn admit<R: Clock>(&mut self, rt: &R, operators_server: &OperatorsServer) {
        for count in 0..AT_ONCE {
            match operators_server.listener.accept() {
                Ok((stream, _)) => self.seat(rt, stream),
                Err(_) => break,
            }
            self.look.came = count + 1;
        }
    }

    /// Returns whether the visitor at a place waits for its answer.
    fn is_waiting(&self, place: usize) -> bool {
        match self.connections.get(place) {
            Some(connection) => connection.is_waiting(),
            None => false,
        }
    }

    /// Answers the visitor at a place, whose request is whole.
    fn answer<O: Overview, T: Turned>(
        &mut self,
        operators_server: &OperatorsServer,
        overview: &mut O,
        turned: &T,
        place: usize,
    ) {
        let OpenConnections {
            alloc,
            port,
            connections,
            look: _,
        } = self;
        if let Some(connection) = connections.get_mut(place) {
            let came = connection.came.as_slice();
            connection.reply = reply_to(*alloc, port, overview, &operators_server.access(), came);
            if let Some(code) = turned_code(connection.reply.as_slice()) {
                turned.turned_away(code);
            }
            connection.send();
        }
    }

    /// Reads or writes once for one visitor, as much as can be at once. Its visit ends once its time has passed.
    fn step<R: Clock>(&mut self, rt: &R, place: usize) -> Step {
        let alloc = self.alloc;
        match self.connections.get_mut(place) {
            Some(connection) if has_passed(rt, connection.end) => Step::Gone,
            Some(connection) => connection.step(alloc),
            None => Step::Gone,
        }
    }

    /// Closes the connection of the visitor at a place.
    fn dismiss(&mut self, place: usize) {
        if place < self.connections.len() {
            drop(self.connections.remove(place));
        }
    }

    /// Reads, answers and writes for one visitor, as far as can be at once. Returns whether the visitor stays.
    fn look_after<R: Clock, O: Overview, T: Turned>(
        &mut self,
        rt: &R,
        operators_server: &OperatorsServer,
        overview: &mut O,
        turned: &T,
        place: usize,
    ) -> bool {
        for _ in 0..STEPS {
            if self.is_waiting(place) && self.look.left > 0 {
                self.look.left -= 1;
                self.answer(operators_server, overview, turned, place);
            }
            match self.step(rt, place) {
                Step::Gone => return false,
                Step::Waits => return true,
                Step::Moved => self.look.has_moved = true,
            }
        }
        true
    }

    /// Runs one iteration: accepts new visitors, and serves each visitor once.
    fn turn<R: Clock, O: Overview, T: Turned>(
        &mut self,
        rt: &R,
        operators_server: &OperatorsServer,
        overview: &mut O,
        turned: &T,
    ) {
        overview.catch_up();
        self.look = Look::new();
        self.admit(rt, operators_server);
        let mut place: usize = 0;
        for _connection in 0..MOST {
            if place >= self.connections.len() {
                break;
            }
            if self.look_after(rt, operators_server, overview, turned, place) {
                place = place.saturating_add(1);
            } else {
                self.dismiss(place);
            }
        }
    }

    /// Runs one iteration. Returns how long the server rests after it.
    fn turn_and_rest<R: Clock, O: Overview, T: Turned>(
        &mut self,
        rt: &R,
        operators_server: &OperatorsServer,
        overview: &mut O,
        turned: &T,
        pace: &mut Pace,
    ) -> Duration {
        let begun = Instant::now(rt);
        self.turn(rt, operators_server, overview, turned);
        let pause = self.look.pause();
        match (begun, Instant::now(rt)) {
            (Ok(begun), Ok(now)) => pace.rest(begun, now).max(pause),
            _ => pause,
        }
    }
}

/// Answers the connections of the port, from an overview of the service, until the service has ended. Each connection
/// has 10 s. A slow one holds up no other, as each is read and written as far as can be at once. Reports the requests
/// that may not be made to `turned`.
pub fn serve_operators<R: Wait + Clock, O: Overview, E: Ends, T: Turned>(
    rt: &R,
    alloc: Global,
    operators_server: &OperatorsServer,
    overview: &mut O,
    ends: &E,
    turned: &T,
) {
    let (Ok(port), Ok(now)) = (Port::new(alloc), Instant::now(rt)) else {
        return;
    };
    let mut pace = Pace::new(now);
    let mut desk = OpenConnections {
        alloc,
        port,
        connections: Vec::new(alloc),
        look: Look::new(),
    };
    for _turn in rt.forever() {
        if ends.is_over() {
            break;
        }
        let rest = desk.turn_and_rest(rt, operators_server, overview, turned, &mut pace);
        let _ = sleep(rt, rest);
    }
    drop(desk);
}
