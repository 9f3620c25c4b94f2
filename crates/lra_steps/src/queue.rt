//! A queue of bytes.
ghost use Rattle.std.specs.Prelude.{◌≡◌, ◌≤◌, [], ◌++◌, length, drop, OnOk, OnErr};

use std::alloc::{AllocError, Global};
use std::marker::Model;

/// Largest capacity that an empty queue keeps. It is enough for a short message, so that short messages one after
/// another need no new memory.
const LEAST: usize = 256;

/// Queue of bytes: they enter at the back and leave at the front. A contract sees the bytes that are still there. An
/// empty queue has little memory.
#[derive(Drop)]
pub(crate) struct Queue {
    bytes: Vec<u8>,
    advance_by: usize,
}

impl Model for Queue {
    ghost use Rattle.std.specs.Prelude.{ℕ, List, drop, ◌≤◌, vec_len};

    ghost Value = { List ℕ };

    ghost view = { λ q. drop q.advance_by q.bytes.items };

    ghost invariant = { λ q. q.advance_by ≤ vec_len q.bytes };
}

impl Queue {
    pub(crate) fn new(alloc: Global) -> Queue
        ensures { result ≡ [] }
    {
        Queue {
            bytes: Vec::new(alloc),
            advance_by: 0,
        }
    }

    pub(crate) fn as_slice(&self) -> &[u8]
        ensures { result.now ≡ self.now }
    {
        &self.bytes.as_slice()[self.advance_by..]
    }

    /// Appends bytes. It first moves the bytes that are still there to the front of their buffer.
    pub(crate) fn push(&mut self, more: &[u8]) -> Result<(), AllocError>
        ensures ok { OnOk result (self.new ≡ self.old ++ more.now) }
        ensures err { OnErr result (self.new ≡ self.old) }
    {
        let left = self.bytes.len() - self.advance_by;
        self.bytes.copy_within(self.advance_by.., 0);
        self.bytes.truncate(left);
        self.advance_by = 0;
        self.bytes.extend_from_slice(more)
    }

    /// Removes the first `count` bytes.
    pub(crate) fn advance(&mut self, count: usize)
        requires { count ≤ length self.old }
        ensures { self.new ≡ drop count self.old }
    {
        self.advance_by += count;
        if self.advance_by == self.bytes.len() {
            self.clear();
        }
    }

    /// Removes all bytes, and frees the memory where that is more than a little.
    fn clear(&mut self)
        ensures { self.new ≡ [] }
    {
        if self.bytes.capacity() > LEAST {
            self.bytes = Vec::new(*self.bytes.allocator());
        } else {
            self.bytes.clear();
        }
        self.advance_by = 0;
    }
}
