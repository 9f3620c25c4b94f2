//! Diallers, which open connections.

use std::io::{Read, Write};

/// Dialler, which opens connections. Each is one stream that is written and read.
///
/// A stream has the relations of a writer and of a reader: what it holds (`contents`) and what it has left to read
/// (`remaining`). Neither says anything of the other. What a stream has left after a request was written to it is what
/// the peer then sends.
pub trait Dialler {
    ghost use Rattle.std.specs.Prelude.{ℕ, List, Option};

    type Stream: Read + Write + Drop;

    // The stream that it returns for a socket's text, or that it returns none.
    ghost gives: { Self → List ℕ → Option Self.Stream → Type 0 };

    /// Opens a connection to a socket, whose text is `HOST:PORT`. Returns none where that fails.
    fn dial(&self, socket: &str) -> Option<Self::Stream>
        ensures { gives self.now socket.now result };
}
