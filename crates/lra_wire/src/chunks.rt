//! Reading of a body's chunks from the bytes that came (RFC 9112, section 7.1).
ghost use Rattle.std.specs.Prelude.{◌≡◌, ◌≤◌, ◌+◌, [], length};
ghost use Rattle.lra_wire.specs.inner.Chunked.{FindsLine, FindsTrailer, has_line_end, OneMore};
ghost use Rattle.lra_wire.specs.inner.Chunked.{HasRead, FindsEnd, FindsContent, FindsPart};
ghost use Rattle.lra_wire.specs.inner.Parts.{FindsBodyFront, IsLastFrom};

use crate::fault::WireFault;
use crate::framing::Framing;
use crate::head::MAX_FIELDS;
use crate::request::MAX_BODY;
use crate::wanted::{BodyFront, Wanted, behind};
use httparse::spans::{EMPTY_HEADER_SPAN, parse_headers};
use httparse::{Status, parse_chunk_size};
use std::alloc::Global;
use std::mem;

/// Largest number of bytes of a response, including the interim heads before it.
pub const MAX_RESPONSE: usize = 1 << 20;

/// Next part of a chunked body, as far as it came.
#[derive(Clone, Copy)]
enum Part {
    /// Chunk, whose content lies between these offsets. Two bytes of line end follow it.
    Content(usize, usize),
    /// Last line and the trailer, which end at this offset.
    Last(usize),
    /// Part that isn't whole.
    Open(Wanted),
}

/// Chunks of a body that were read so far.
#[derive(Drop)]
pub(crate) struct ChunksRead {
    pub(crate) start: usize,
    pub(crate) end: usize,
    pub(crate) body: Vec<u8>,
    /// Offset of the last line, once the body was whole.
    pub(crate) last: usize,
}

impl ChunksRead {
    /// Returns the whole body, and resets the reading to where the body began.
    fn hand_out(&mut self, alloc: Global) -> Vec<u8>
        ensures body { result.items ≡ self.old.body.items }
        ensures start { self.new.start ≡ self.old.start }
        ensures end { self.new.end ≡ self.old.start }
        ensures none { self.new.body.items ≡ [] }
        ensures last { self.new.last ≡ self.old.end }
    {
        self.last = self.end;
        self.end = self.start;
        mem::replace(&mut self.body, Vec::new(alloc))
    }
}

/// Returns whether the bytes at `at` are CRLF.
fn has_line_end(bytes: &[u8], at: usize) -> bool
    requires { at + 2 ≤ length bytes.now }
    ensures { result ≡ has_line_end bytes.now at }
{
    bytes[at] == b'\r' && bytes[at + 1] == b'\n'
}

/// Returns the length of the chunk line that the bytes begin with, and the chunk's size, or none where more bytes may
/// complete the line.
fn line_at(bytes: &[u8]) -> Result<Option<(usize, u64)>, WireFault>
    ensures { FindsLine bytes.now result }
{
    match parse_chunk_size(bytes) {
        Ok(Status::Complete(line)) => Ok(Some(line)),
        Ok(Status::Partial) => Ok(None),
        Err(_) => Err(WireFault::BadLength),
    }
}

/// Returns the length of the trailer that the bytes begin with, or none where more bytes may complete it.
fn trailer_at(bytes: &[u8]) -> Result<Option<usize>, WireFault>
    ensures { FindsTrailer bytes.now result }
{
    let mut headers = [EMPTY_HEADER_SPAN; MAX_FIELDS];
    match parse_headers(bytes, &mut headers) {
        Ok(Status::Complete((length, _))) => Ok(Some(length)),
        Ok(Status::Partial) => Ok(None),
        Err(_) => Err(WireFault::BadLength),
    }
}

/// Returns that a line feed is wanted after these bytes, or `TooLarge` where a response may have no more bytes.
fn next_feed(bytes: &[u8]) -> Result<Wanted, WireFault>
    ensures { OneMore bytes.now result }
{
    if bytes.len() >= MAX_RESPONSE {
        return Err(WireFault::TooLarge);
    }
    Ok(Wanted::Feed(bytes.len()))
}

/// Reads the trailer that begins at `start`, after the last line.
fn last_at(bytes: &[u8], start: usize) -> Result<Part, WireFault>
    requires { start ≤ length bytes.now }
    ensures { FindsEnd start bytes.now result }
{
    let Some(len) = trailer_at(behind(bytes, start))? else {
        return Ok(Part::Open(next_feed(bytes)?));
    };
    let end = start + len;
    if end > MAX_RESPONSE {
        return Err(WireFault::TooLarge);
    }
    Ok(Part::Last(end))
}

/// Reads the content of a chunk, of `size` bytes from `start` on. The body has room for `room` more bytes.
fn content_at(bytes: &[u8], start: usize, room: usize, size: u64) -> Result<Part, WireFault>
    requires start { start ≤ length bytes.now }
    requires room { room ≤ 65536 }
    ensures { FindsContent start room size bytes.now result }
{
    if size > room as u64 {
        return Err(WireFault::TooLarge);
    }
    let to = start + size as usize;
    if to + 2 > MAX_RESPONSE {
        return Err(WireFault::TooLarge);
    }
    if bytes.len() < to + 2 {
        return Ok(Part::Open(Wanted::Bytes(to + 2)));
    }
    if !has_line_end(bytes, to) {
        return Err(WireFault::BadLength);
    }
    Ok(Part::Content(start, to))
}

/// Reads the part of a chunked body that begins at `start`. The body has room for `room` more bytes.
fn part_at(bytes: &[u8], start: usize, room: usize) -> Result<Part, WireFault>
    requires start { start ≤ length bytes.now }
    requires room { room ≤ 65536 }
    ensures { FindsPart start room bytes.now result }
{
    let Some((line, size)) = line_at(behind(bytes, start))? else {
        return Ok(Part::Open(next_feed(bytes)?));
    };
    if size == 0 {
        last_at(bytes, start + line)
    } else {
        content_at(bytes, start + line, room, size)
    }
}

/// Reads the rest of the chunks and the trailer, as far as they came.
pub(crate) fn chunks_at(
    alloc: Global,
    bytes: &[u8],
    chunks: &mut ChunksRead,
) -> Result<BodyFront, WireFault>
    requires { HasRead bytes.now chunks.old }
    ensures start { chunks.new.start ≡ chunks.old.start }
    ensures read { HasRead bytes.now chunks.new }
    ensures finds { FindsBodyFront Framing.Chunks chunks.old.start bytes.now result }

    // The last line and the trailer begin there, if the body is whole.
    ensures last { IsLastFrom chunks.old.start chunks.new.last bytes.now result }
{
    loop {
        match part_at(bytes, chunks.end, MAX_BODY - chunks.body.len())? {
            Part::Content(from, to) => {
                chunks.body.extend_from_slice(&bytes[from..to])?;
                chunks.end = to + 2;
            }
            Part::Last(end) => return Ok(BodyFront::Whole(chunks.hand_out(alloc), end)),
            Part::Open(wanted) => return Ok(BodyFront::Open(wanted)),
        }
    }
}
