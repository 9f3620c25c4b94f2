//! A reader over memory.

use std::io;
use std::io::Read;

/// Reader that gives its bytes in pieces of at most this size.
#[derive(Drop)]
pub(crate) struct Pieces<'a> {
    pub(crate) rest: &'a [u8],
    pub(crate) size: usize,
}

impl Read for Pieces<'_> {
    fn read(&mut self, buf: &mut [u8]) -> io::Result<usize> {
        let count = self.size.min(self.rest.len()).min(buf.len());
        let (front, rest) = self.rest.split_at(count);
        buf[..count].copy_from_slice(front);
        self.rest = rest;
        Ok(count)
    }
}
