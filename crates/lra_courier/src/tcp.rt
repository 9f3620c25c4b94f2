//! The system's sockets.

ghost use Rattle.std.specs.Prelude.{◌≡◌};

use crate::calling::DiallingCourier;
use crate::dialler::Dialler;
use lra_clocks::{seconds_on, time_until};
use std::alloc::Global;
use std::io;
use std::io::{Read, Write};
use std::net::{Net, OpenStream, SocketAddr, TcpStream, ToSocketAddrs};
use std::time::{Clock, Instant};

/// Seconds that a member has to accept the connection.
const CONNECT_SECS: u64 = 5;

/// Seconds in all until the whole reply has to have come.
const REPLY_SECS: u64 = 30;

/// Stream that can be read and written until a moment, and fails from then on.
#[derive(Drop)]
pub struct Timed<S, R> {
    stream: S,
    clock: R,
    end: Instant,
}

impl<S: Read + OpenStream, R: Clock> Read for Timed<S, R> {
    fn read(&mut self, buf: &mut [u8]) -> io::Result<usize> {
        let left = time_until(&self.clock, self.end)?;
        self.stream.set_read_timeout(Some(left))?;
        self.stream.read(buf)
    }
}

impl<S: Write + OpenStream, R: Clock> Write for Timed<S, R> {
    fn write(&mut self, buf: &[u8]) -> io::Result<usize> {
        let left = time_until(&self.clock, self.end)?;
        self.stream.set_write_timeout(Some(left))?;
        self.stream.write(buf)
    }

    fn flush(&mut self) -> io::Result<()> {
        self.stream.flush()
    }
}

/// Dialler over the system's sockets. A peer has 5 s to accept a connection, and 30 s in all until its whole reply has
/// come. From then on the stream fails. The system looks up the host's name, with no such limit.
#[derive(Clone, Copy)]
pub struct Sockets<R> {
    rt: R,
}

impl<R: Net + Clock> Sockets<R> {
    /// Opens a connection to the first address of a socket that accepts one.
    fn connect(&self, socket: &str) -> Option<R::Stream> {
        let end = seconds_on(&self.rt, CONNECT_SECS).ok()?;
        for addr in socket.to_socket_addrs(&self.rt).ok()? {
            if let Some(stream) = self.open(&addr, end) {
                return Some(stream);
            }
        }
        None
    }

    fn open(&self, addr: &SocketAddr, end: Instant) -> Option<R::Stream> {
        let left = time_until(&self.rt, end).ok()?;
        let stream = TcpStream::connect_timeout(&self.rt, addr, left).ok()?;
        stream.set_nodelay(true).ok()?;
        Some(stream)
    }
}

impl<R: Net + Clock + Copy> Dialler for Sockets<R> {
    ghost use Rattle.std.specs.Prelude.{⊤};

    type Stream = Timed<R::Stream, R>;

    // Nothing is known of the network.
    ghost gives = { λ _ _ _. ⊤ };

    fn dial(&self, socket: &str) -> Option<Timed<R::Stream, R>> {
        let end = seconds_on(&self.rt, REPLY_SECS).ok()?;
        let stream = self.connect(socket)?;
        Some(Timed {
            stream,
            clock: self.rt,
            end,
        })
    }
}

/// Courier over TCP, with a connection for each errand. A member has 5 s to accept the connection, and 30 s in all
/// until its whole reply has come. After that the outcome is [`Outcome::Silent`](lra_model::Outcome::Silent).
pub type TcpCourier<R> = DiallingCourier<Sockets<R>>;

impl<R: Net + Clock + Copy> DiallingCourier<Sockets<R>> {
    /// Makes a courier over the system's sockets.
    pub fn new(rt: R, alloc: Global) -> TcpCourier<R>
        ensures { result.dialler.rt ≡ rt }
    {
        DiallingCourier::over(Sockets { rt }, alloc)
    }
}
