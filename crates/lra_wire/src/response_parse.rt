//! The response that the bytes which came begin with, read without a reader.
ghost use Rattle.std.specs.Prelude.{◌≡◌, ◌≤◌, ℕ, List, ◌++◌, length, IfOk, IfSome, IfNone};
ghost use Rattle.lra_wire.specs.declared.response_parse.ResponseCursor.{ResponseCursor};
ghost use Rattle.lra_wire.specs.ResponseParse.{IsComing};
ghost use Rattle.lra_wire.specs.Response.{AwaitsResponse};
ghost use Rattle.lra_wire.specs.RequestCursor.{SeesResponse};
ghost use Rattle.lra_wire.specs.inner.Wanted.{IsMissing, count_wanted, IsOpenAt};
ghost use Rattle.lra_wire.specs.inner.Parts.{
  most_bytes,
  Passes,
  FindsHead,
  FindsFinal,
  FindsBodyFront,
  EndsOpen,
  EndsAsOpen,
  IsSmall,
};
ghost use Rattle.lra_wire.specs.inner.Chunked.{HasRead};
ghost use Rattle.lra_wire.specs.inner.Reading.{IsLast};

use crate::chunks::{ChunksRead, MAX_RESPONSE, chunks_at};
use crate::fault::WireFault;
use crate::framing::Framing;
use crate::head::MAX_HEAD;
use crate::request::MAX_BODY;
use crate::response::{Head, MAX_INTERIM, ResponseRead, head_at, is_interim};
use crate::wanted::{BodyFront, Wanted, behind};
use std::alloc::Global;

/// Response that the bytes which came begin with, whole or not yet.
#[derive(Debug, Drop)]
pub enum ResponseParse {
    /// Whole response, and the number of its bytes, including the interim heads before it.
    Whole(ResponseRead, usize),
    /// Number of bytes that have to come before the response can be whole.
    Open(usize),
}

/// Interim heads that were read.
#[derive(Clone, Copy)]
struct InterimHeads {
    /// Offset at which they end.
    end: usize,
    count: usize,
}

/// Findings on bytes that hold no whole response, so that the bytes needn't be read anew whenever a piece comes.
#[derive(Drop)]
pub struct ResponseCursor {
    passed: InterimHeads,
    /// Final head, once it was read.
    head: Option<Head>,
    /// Chunks that were read of a chunked body after it.
    chunks: ChunksRead,
    wanted: Wanted,
}

impl ResponseCursor {
    /// Makes findings on no bytes.
    pub fn nothing(alloc: Global) -> ResponseCursor
        ensures { (bytes : List ℕ) → SeesResponse result bytes }
    {
        ResponseCursor {
            passed: InterimHeads { end: 0, count: 0 },
            head: None,
            chunks: ChunksRead {
                start: 0,
                end: 0,
                body: Vec::new(alloc),
                last: 0,
            },
            wanted: Wanted::Bytes(0),
        }
    }

    /// Returns the number of bytes at which a line that isn't whole is too long.
    fn most(&self) -> usize
        requires { self.now.passed.end ≤ 65536 }
        ensures is { result ≡ most_bytes self.now.head self.now.passed }
        ensures limit { result ≤ 1048576 }
    {
        match self.head {
            None => self.passed.end + MAX_HEAD,
            Some(_) => MAX_RESPONSE,
        }
    }

    /// Returns what is still wanted after these bytes, of which a prefix was seen, or nothing where it came.
    fn still_wanted(&self, bytes: &[u8]) -> Option<Wanted>
        requires { SeesResponse self.now bytes.now }
        ensures some { IfSome result (IsOpenAt AwaitsResponse 0 bytes.now) }

        // The bytes are read anew before that only where they are too many for a line that isn't whole.
        ensures none { IfNone result (IsMissing self.now.wanted bytes.now
            → most_bytes self.now.head self.now.passed ≤ length bytes.now) }
    {
        match self.wanted {
            Wanted::Feed(looked) => {
                if bytes.len() >= self.most() {
                    return None;
                }
                if bytes[looked..].contains(&b'\n') {
                    return None;
                }
                Some(Wanted::Feed(bytes.len()))
            }
            Wanted::Bytes(count) => {
                if bytes.len() >= count {
                    return None;
                }
                Some(Wanted::Bytes(count))
            }
        }
    }

    /// Returns the final head, or none where more bytes may complete it. The head is read only once.
    fn find_head(&mut self, bytes: &[u8]) -> Result<Option<Head>, WireFault>
        requires { SeesResponse self.old bytes.now }
        ensures sees { SeesResponse self.new bytes.now }
        ensures finds { FindsHead self.new.head bytes.now result }
    {
        if let Some(head) = self.head {
            return Ok(Some(head));
        }
        let Some(head) = final_head(bytes, &mut self.passed)? else {
            return Ok(None);
        };
        self.head = Some(head);
        self.chunks.start = head.len;
        self.chunks.end = head.len;
        Ok(Some(head))
    }

    /// Returns the response whose body ends with the stream, and the number of its bytes.
    fn rest(&self, alloc: Global, bytes: &[u8]) -> Result<(ResponseRead, usize), WireFault>
        requires sees { SeesResponse self.now bytes.now }
        requires ends { EndsOpen self.now.head bytes.now }
        ensures { IsLast bytes.now result }
    {
        let Some(head) = self.head else {
            return Err(WireFault::Cut);
        };
        match head.framing? {
            Framing::ToTheEnd => {
                let body = Vec::from_slice(alloc, behind(bytes, head.len))?;
                let code = head.code;
                Ok((ResponseRead { code, body }, bytes.len()))
            }
            Framing::Sized(_) => Err(WireFault::Cut),
            Framing::Chunks => Err(WireFault::Cut),
        }
    }

    /// Notes what is wanted before a response can be whole, and returns how many bytes that takes.
    fn open(&mut self, wanted: Wanted) -> ResponseParse
        requires { count_wanted wanted ≤ 1048576 }
        ensures new { self.new ≡ record self.old { wanted = wanted } }
        ensures result { result ≡ ResponseParse.Open (count_wanted wanted) }
    {
        self.wanted = wanted;
        match wanted {
            Wanted::Feed(looked) => ResponseParse::Open(looked + 1),
            Wanted::Bytes(count) => ResponseParse::Open(count),
        }
    }
}

/// Returns the head after the interim ones, or none where more bytes may complete it. Its `len` is the offset at which
/// it ends.
fn final_head(bytes: &[u8], passed: &mut InterimHeads) -> Result<Option<Head>, WireFault>
    requires { Passes bytes.now passed.old }
    ensures passes { Passes bytes.now passed.new }
    ensures finds { FindsFinal passed.new.end bytes.now result }
{
    loop {
        let Some(head) = head_at(behind(bytes, passed.end))? else {
            return Ok(None);
        };
        let end = passed.end + head.len;
        if !is_interim(head.code) {
            return Ok(Some(Head {
                code: head.code,
                len: end,
                framing: head.framing,
            }));
        }
        if passed.count == MAX_INTERIM {
            return Err(WireFault::BadHead);
        }
        passed.end = end;
        passed.count += 1;
    }
}

/// Reads the body on from the chunks that were read so far, if it has chunks. A body that ends with the stream isn't
/// whole here.
pub(crate) fn body_at(
    alloc: Global,
    bytes: &[u8],
    framing: Framing,
    chunks: &mut ChunksRead,
) -> Result<BodyFront, WireFault>
    requires limit { chunks.old.start ≤ 73728 }
    requires small { IsSmall framing }
    requires read { HasRead bytes.now chunks.old }
    ensures start { chunks.new.start ≡ chunks.old.start }
    ensures read { HasRead bytes.now chunks.new }
    ensures finds { FindsBodyFront framing chunks.old.start bytes.now result }
{
    let start = chunks.start;
    match framing {
        Framing::Chunks => chunks_at(alloc, bytes, chunks),
        Framing::Sized(size) => {
            let end = start + size;
            if bytes.len() < end {
                return Ok(BodyFront::Open(Wanted::Bytes(end)));
            }
            let body = Vec::from_slice(alloc, &bytes[start..end])?;
            Ok(BodyFront::Whole(body, end))
        }
        Framing::ToTheEnd => {
            let most = start + MAX_BODY;
            if bytes.len() > most {
                return Err(WireFault::TooLarge);
            }
            Ok(BodyFront::Open(Wanted::Bytes(most + 1)))
        }
    }
}

/// Returns the response that the bytes which came so far begin with, or how many bytes there have to be before it can
/// be whole. Its faults are those of [`read_response`](crate::read_response), without those of a stream's end and of a
/// reader. A body that ends with the stream is never whole here.
pub fn response_front(alloc: Global, bytes: &[u8]) -> Result<ResponseParse, WireFault>
    ensures { IsComing bytes.now result }
{
    response_front_seen(alloc, bytes, &mut ResponseCursor::nothing(alloc))
}

/// Returns the same as [`response_front`] for bytes of which a prefix was seen. It reads on from there, and only where
/// a line or a body may end in what came since.
pub fn response_front_seen(
    alloc: Global,
    bytes: &[u8],
    seen: &mut ResponseCursor,
) -> Result<ResponseParse, WireFault>
    requires { SeesResponse seen.old bytes.now }
    ensures response_parse { IsComing bytes.now result }
    ensures seen { SeesResponse seen.new bytes.now }
{
    if let Some(wanted) = seen.still_wanted(bytes) {
        return Ok(seen.open(wanted));
    }
    read_on(alloc, bytes, seen)
}

/// Reads the response on from what was seen of these bytes.
fn read_on(
    alloc: Global,
    bytes: &[u8],
    seen: &mut ResponseCursor,
) -> Result<ResponseParse, WireFault>
    requires { SeesResponse seen.old bytes.now }
    ensures response_parse { IsComing bytes.now result }
    ensures seen { SeesResponse seen.new bytes.now }
    ensures ends { IfOk result (EndsAsOpen seen.new.head bytes.now) }
{
    let Some(head) = seen.find_head(bytes)? else {
        return Ok(seen.open(Wanted::Feed(bytes.len())));
    };
    match body_at(alloc, bytes, head.framing?, &mut seen.chunks)? {
        BodyFront::Whole(body, len) => {
            let code = head.code;
            Ok(ResponseParse::Whole(ResponseRead { code, body }, len))
        }
        BodyFront::Open(wanted) => Ok(seen.open(wanted)),
    }
}

/// Returns the response of a stream that ends with these bytes, and the number of its bytes. A prefix of the bytes was
/// seen.
pub(crate) fn response_at_end(
    alloc: Global,
    bytes: &[u8],
    seen: &mut ResponseCursor,
) -> Result<(ResponseRead, usize), WireFault>
    requires { SeesResponse seen.old bytes.now }
    ensures { IsLast bytes.now result }
{
    match read_on(alloc, bytes, seen)? {
        ResponseParse::Whole(response, len) => Ok((response, len)),
        ResponseParse::Open(_) => seen.rest(alloc, bytes),
    }
}

/// States that findings on bytes hold also of longer ones that begin with them.
pub fn seen_stays()
    ensures { (seen : ResponseCursor) (bytes more : List ℕ)
        → SeesResponse seen bytes → SeesResponse seen (bytes ++ more) }
{}
