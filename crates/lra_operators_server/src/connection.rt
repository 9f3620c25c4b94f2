//! A connection of an operator.

use lra_operators::is_enough;
use std::alloc::Global;
use std::io::{ErrorKind, Read, Write};
use std::net::{Shutdown, TcpStream};
use std::time::Instant;

/// Largest number of bytes that one read takes.
const PIECE: usize = 4_096;

/// Stage of a visit.
#[derive(Clone, Copy, PartialEq, Eq)]
enum Stage {
    /// The client sends its request.
    Asks,
    /// The request is whole, and isn't answered yet.
    Waits,
    /// The server sends its reply.
    IsTold,
    /// The reply has gone, and bytes that still come are thrown away. A stream that is closed before all of it is read
    /// can lose its reply.
    Leaves,
}

/// Outcome of one read or write of a visitor.
#[derive(Clone, Copy, PartialEq, Eq)]
pub(crate) enum Step {
    /// Bytes went or came.
    Moved,
    /// Nothing can be done for now.
    Waits,
    /// The visit has ended.
    Gone,
}

/// Connection of an operator, with the bytes that came and those that go.
#[derive(Drop)]
pub(crate) struct OperatorsConnection {
    stream: TcpStream,
    /// Moment at which the visit ends at the latest.
    pub(crate) end: Instant,
    pub(crate) came: Vec<u8>,
    pub(crate) reply: Vec<u8>,
    sent: usize,
    stage: Stage,
}

/// Returns the outcome of a read or a write, from its number of bytes or its fault.
fn step_of(moved: std::io::Result<usize>) -> Step {
    match moved {
        Ok(0) => Step::Gone,
        Ok(_) => Step::Moved,
        Err(error) => match error.kind() {
            ErrorKind::WouldBlock | ErrorKind::Interrupted => Step::Waits,
            _ => Step::Gone,
        },
    }
}

impl OperatorsConnection {
    /// Makes the visitor of a connection that has just come.
    pub(crate) fn new(alloc: Global, stream: TcpStream, end: Instant) -> OperatorsConnection {
        OperatorsConnection {
            stream,
            end,
            came: Vec::new(alloc),
            reply: Vec::new(alloc),
            sent: 0,
            stage: Stage::Asks,
        }
    }

    /// Returns whether the visitor's request is whole, and isn't answered yet.
    pub(crate) fn is_waiting(&self) -> bool {
        self.stage == Stage::Waits
    }

    /// Notes that the visitor's reply is there.
    pub(crate) fn send(&mut self) {
        self.stage = Stage::IsTold;
    }

    /// Adds bytes to those that came of the request.
    fn take(&mut self, alloc: Global, bytes: &[u8]) -> Step {
        if self.came.extend_from_slice(bytes).is_err() {
            return Step::Gone;
        }
        if is_enough(alloc, self.came.as_slice()) {
            self.stage = Stage::Waits;
        }
        Step::Moved
    }

    /// Reads bytes of the request.
    fn receive(&mut self, alloc: Global) -> Step {
        let mut piece = [0u8; PIECE];
        let read = self.stream.read(&mut piece);
        match read {
            Ok(count) if count > 0 => self.take(alloc, piece.get(..count).unwrap_or(&[])),
            other => step_of(other),
        }
    }

    /// Writes what is left of the reply. Once nothing is, the stream is shut down for writes.
    fn speak(&mut self) -> Step {
        let rest = self.reply.as_slice().get(self.sent..).unwrap_or(&[]);
        if rest.is_empty() {
            let _ = self.stream.shutdown(Shutdown::Write);
            self.stage = Stage::Leaves;
            return Step::Moved;
        }
        let written = self.stream.write(rest);
        if let Ok(count) = &written {
            self.sent = self.sent.saturating_add(*count);
        }
        step_of(written)
    }

    /// Reads bytes and throws them away.
    fn drain(&mut self) -> Step {
        let mut piece = [0u8; PIECE];
        step_of(self.stream.read(&mut piece))
    }

    /// Reads or writes what can be read or written at once.
    pub(crate) fn step(&mut self, alloc: Global) -> Step {
        match self.stage {
            Stage::Asks => self.receive(alloc),
            Stage::Waits => Step::Waits,
            Stage::IsTold => self.speak(),
            Stage::Leaves => self.drain(),
        }
    }
}
