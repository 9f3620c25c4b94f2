//! Connections, and the acceptor that they come in by.

ghost use Rattle.std.specs.Io.{ReadsAtMost, WritesAtMost};

use std::io::{self, Read, Write};
use std::net::{Shutdown, TcpListener, TcpStream};
use std::sync::{Mutex, Wait};

/// Connection, which two halves read and write at once.
pub trait Line {
    /// Reads the bytes that came, as `Read::read` does.
    fn read(&self, buffer: &mut [u8]) -> io::Result<usize>
        ensures { ReadsAtMost result buffer.new };

    /// Writes, as `Write::write` does.
    fn write(&self, bytes: &[u8]) -> io::Result<usize>
        ensures { WritesAtMost result bytes.now };
}

/// Acceptor of connections.
pub trait Acceptor {
    type Line: Line + Drop;

    /// Waits for the next connection and returns it. Fails if none can be accepted.
    fn open<R: Wait>(&self, rt: &R) -> io::Result<Self::Line>;
}

impl Line for TcpStream {
    fn read(&self, buffer: &mut [u8]) -> io::Result<usize> {
        let mut half = self;
        Read::read(&mut half, buffer)
    }

    fn write(&self, bytes: &[u8]) -> io::Result<usize> {
        let mut half = self;
        Write::write(&mut half, bytes)
    }
}

/// Acceptor that one thread at a time waits at. What is written to a connection is sent at once (RFC 9293, section
/// 3.7.4); if a socket can't be set up so, its connection is ended.
impl Acceptor for Mutex<TcpListener> {
    type Line = TcpStream;

    fn open<R: Wait>(&self, rt: &R) -> io::Result<TcpStream> {
        let listener = self.lock(rt);
        let (stream, _) = listener.accept()?;
        if stream.set_nodelay(true).is_err() {
            let _ = stream.shutdown(Shutdown::Both);
        }
        Ok(stream)
    }
}
