//! A reader, and the bytes that it gave before they were asked for.
ghost use Rattle.std.specs.Prelude.{◌≡◌, ◌<◌, ◌≤◌, take, vec_len, IfOk, IfErr, Ok};
ghost use Rattle.std.specs.Io.KnownBytes.{Consumes, IsAtEnd};

use crate::fault::WireFault;
use std::alloc::{AllocError, Global};
use std::io::Read;
use std::snapshot::Snapshot;

/// Number of bytes that a read asks for.
const PIECE: usize = 4096;

/// Reads once into the piece, and returns how many bytes came.
fn read_piece<R: Read>(reader: &mut R, piece: &mut Vec<u8>) -> Result<usize, WireFault>
    requires { 0 < vec_len piece.old }
    ensures len { vec_len piece.new ≡ vec_len piece.old }
    ensures bound { IfOk result (λ n. n ≤ vec_len piece.new) }
    ensures ok { IfOk result (λ n. Consumes (R.remaining reader.old) (R.remaining reader.new)
        (take n piece.new.items)) }
    ensures end { result ≡ Ok 0 → IsAtEnd (R.remaining reader.new) }
    ensures err { IfErr result (λ fault. fault ≡ WireFault.Io) }
{
    match reader.read(piece.as_mut_slice()) {
        Ok(count) => Ok(count),
        Err(_) => Err(WireFault::Io),
    }
}

/// Reader, together with the bytes of later messages that it gave early.
///
/// After a fault nothing more is read, and each further call returns [`WireFault::Cut`].
#[derive(Drop)]
pub struct Inbox<R> {
    reader: R,
    /// Buffer that a read puts its bytes in. It is as long as a read may be.
    piece: Vec<u8>,
    kept: Vec<u8>,
    taken: usize,
    /// Bytes that were kept when the reader was last asked for more. They are for contracts, and take no memory.
    asked: Snapshot<Vec<u8>>,
    pub(crate) spent: bool,
    ghost in_range: { taken ≤ vec_len kept },
    ghost room: { 0 < vec_len piece },
}

impl<R: Read + Drop> Inbox<R> {
    ghost use Rattle.std.specs.Prelude.{length, drop, IsFalse};
    ghost use Rattle.lra_wire.specs.Inbox.{kept_bytes, stream_of, asked_at, is_spent, AsksAt};
    ghost use Rattle.lra_wire.specs.inner.Growth.{Fills};

    /// Makes an inbox that has read nothing yet. Where memory is refused, the reader is dropped.
    pub fn new(alloc: Global, reader: R) -> Result<Inbox<R>, AllocError>
        ensures stream { IfOk result (λ inbox. stream_of R.remaining inbox ≡ R.remaining reader) }
        ensures spent { IfOk result (λ inbox. IsFalse (is_spent inbox)) }
    {
        let piece = vec![in alloc; 0; PIECE]?;
        let kept = Vec::new(alloc);
        let asked = Snapshot::of(&kept);
        Ok(Inbox {
            reader,
            piece,
            kept,
            taken: 0,
            asked,
            spent: false,
        })
    }

    /// Returns the bytes that came and belong to no message yet.
    pub(crate) fn bytes(&self) -> &[u8]
        ensures { result.now ≡ kept_bytes self.now }
    {
        &self.kept.as_slice()[self.taken..]
    }

    /// Reads once, and returns whether bytes came. None come only at the end of the stream. No other function reads
    /// from the reader.
    pub(crate) fn fill(&mut self) -> Result<bool, WireFault>
        ensures fills { Fills R.remaining self.old self.new result }
        ensures asks { AsksAt (λ bytes. bytes ≡ kept_bytes self.old) self.old self.new }
    {
        self.drop_taken();
        self.asked = Snapshot::of(&self.kept);
        let count = read_piece(&mut self.reader, &mut self.piece)?;
        self.kept
            .extend_from_slice(&self.piece.as_slice()[..count])?;
        Ok(count > 0)
    }

    /// Drops the first `len` bytes, which were a message's.
    pub(crate) fn take(&mut self, len: usize)
        requires { len ≤ length (kept_bytes self.old) }
        ensures kept { kept_bytes self.new ≡ drop len (kept_bytes self.old) }
        ensures reader { self.new.reader ≡ self.old.reader }
        ensures asked { asked_at self.new ≡ asked_at self.old }
    {
        self.taken += len;
    }

    /// Moves the bytes that belong to no message yet to the front of their buffer, which keeps its capacity.
    fn drop_taken(&mut self)
        ensures kept { kept_bytes self.new ≡ kept_bytes self.old }
        ensures taken { self.new.taken ≡ 0 }
        ensures reader { self.new.reader ≡ self.old.reader }
        ensures asked { asked_at self.new ≡ asked_at self.old }
        ensures piece { self.new.piece ≡ self.old.piece }
    {
        if self.taken > 0 {
            let left = self.bytes().len();
            self.kept.copy_within(self.taken.., 0);
            self.kept.truncate(left);
            self.taken = 0;
        }
    }
}
