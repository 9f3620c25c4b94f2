//! The request that the bytes which came begin with, where chunked bodies and `Expect: 100-continue` are accepted.
ghost use Rattle.std.specs.Prelude.{◌≡◌, ◌≤◌, ℕ, Bool, List, ◌++◌, length, map, All, None, Ok, true, false};
ghost use Rattle.httparse.specs.Spans.{IsHeaderWithin, header_bytes};
ghost use Rattle.lra_wire.specs.declared.fault.WireFault.{WireFault};
ghost use Rattle.lra_wire.specs.declared.coded.CodedCursor.{CodedCursor};
ghost use Rattle.lra_wire.specs.Fronts.{RefusesFront};
ghost use Rattle.lra_wire.specs.Request.{Request};
ghost use Rattle.lra_wire.specs.Coded.{
  AwaitsContinue,
  IsFrontBy,
  IsFrontSeenBy,
  IsRequestBy,
  RefusesFrontBy,
  has_bare_feed,
  is_expected,
};
ghost use Rattle.lra_wire.specs.CodedCursor.{SeesCoded};
ghost use Rattle.lra_wire.specs.inner.CodedParts.{
  FindsCodedBody,
  FindsCodedHead,
  IsBounded,
  IsCodedBodyTo,
  IsCodedFront,
  IsCodedHeadOf,
  IsHeadSeen,
};
ghost use Rattle.lra_wire.specs.inner.Chunked.{HasRead};
ghost use Rattle.lra_wire.specs.inner.Wanted.{IsOpenAt};
ghost use Rattle.lra_wire.specs.Response.{AwaitsBody};

use crate::chunks::{ChunksRead, chunks_at};
use crate::fault::WireFault;
use crate::fields::has;
use crate::framing::{Framing, request_framing};
use crate::front::{Front, RequestCursor, request_front, request_front_seen};
use crate::head::MAX_FIELDS;
use crate::request::{head_at, request_at};
use crate::response_parse::body_at;
use crate::wanted::{BodyFront, Wanted};
use httparse::spans::{EMPTY_HEADER_SPAN, HeaderSpan};
use std::alloc::Global;

/// Largest number of bytes of a request that has a coding or an expectation: those of the largest head and of the
/// largest body, and as many as a body for the lines of its chunks and the trailer.
const MAX_CODED: usize = 139_264;

/// Values of a head that has a coding or an expectation.
#[derive(Clone, Copy)]
pub(crate) struct CodedHead {
    /// Number of bytes of the head.
    pub(crate) len: usize,
    pub(crate) framing: Framing,
    /// The client may wait for `100 Continue` before it sends the body.
    pub(crate) expects: bool,
}

/// Findings on bytes that hold no whole request, where chunked bodies may be accepted.
#[derive(Drop)]
pub struct CodedCursor {
    plain: RequestCursor,
    /// Head that has a coding or an expectation, once it was read.
    head: Option<CodedHead>,
    /// Chunks that were read of a chunked body after it.
    chunks: ChunksRead,
    wanted: Wanted,
    /// `100 Continue` was sent for that head.
    is_continued: bool,
}

impl CodedCursor {
    /// Makes findings on no bytes.
    pub fn nothing(alloc: Global) -> CodedCursor
        ensures { (bytes : List ℕ) → SeesCoded result bytes }
    {
        CodedCursor {
            plain: RequestCursor::nothing(),
            head: None,
            chunks: ChunksRead {
                start: 0,
                end: 0,
                body: Vec::new(alloc),
                last: 0,
            },
            wanted: Wanted::Bytes(0),
            is_continued: false,
        }
    }

    /// Returns whether the client waits for `100 Continue`, which wasn't sent yet.
    pub fn awaits_continue(&self, bytes: &[u8]) -> bool
        requires { SeesCoded self.now bytes.now }
        ensures { result ≡ true → AwaitsContinue bytes.now }
    {
        match self.head {
            Some(head) => head.expects && head.len == bytes.len() && !self.is_continued,
            None => false,
        }
    }

    /// Notes that `100 Continue` was sent.
    pub fn note_continued(&mut self)
        ensures { (bytes : List ℕ) → SeesCoded self.old bytes → SeesCoded self.new bytes }
    {
        self.is_continued = true;
    }

    /// Returns whether these bytes can't hold a whole request yet, after a head that was read. A prefix of them was
    /// seen.
    fn stays_open(&self, bytes: &[u8]) -> bool
        requires { SeesCoded self.now bytes.now }
        ensures { result ≡ true → IsCodedFront bytes.now (Ok None) }
    {
        if bytes.len() >= MAX_CODED {
            return false;
        }
        match self.wanted {
            Wanted::Feed(looked) => !bytes[looked..].contains(&b'\n'),
            Wanted::Bytes(count) => bytes.len() < count,
        }
    }

    /// Returns the head, which is read only once.
    fn find_head(&mut self, bytes: &[u8]) -> Result<CodedHead, WireFault>
        requires sees { SeesCoded self.old bytes.now }
        requires coded { self.old.head ≡ None → RefusesFront bytes.now WireFault.Chunked }
        ensures sees { SeesCoded self.new bytes.now }
        ensures finds { IsHeadSeen self.new.head bytes.now result }
    {
        if let Some(head) = self.head {
            return Ok(head);
        }
        let head = coded_head_at(bytes)?;
        self.head = Some(head);
        self.chunks.start = head.len;
        self.chunks.end = head.len;
        Ok(head)
    }

    /// Notes what is wanted before the request can be whole. Returns that it isn't, or `TooLarge` where a request may
    /// have no more bytes.
    fn open(
        &mut self,
        bytes: &[u8],
        head: CodedHead,
        wanted: Wanted,
    ) -> Result<Option<Front>, WireFault>
        requires sees { SeesCoded self.old bytes.now }
        requires head { IsCodedHeadOf bytes.now head }
        requires wanted { IsOpenAt (AwaitsBody head.framing) head.len bytes.now wanted }
        ensures front { IsCodedFront bytes.now result }
        ensures sees { SeesCoded self.new bytes.now }
    {
        if bytes.len() >= MAX_CODED {
            return Err(WireFault::TooLarge);
        }
        self.wanted = wanted;
        Ok(None)
    }
}

/// Returns the head that the bytes begin with, which has a coding or an expectation.
fn coded_head_at(bytes: &[u8]) -> Result<CodedHead, WireFault>
    requires { RefusesFront bytes.now WireFault.Chunked }
    ensures { FindsCodedHead bytes.now result }
{
    let mut headers = [EMPTY_HEADER_SPAN; MAX_FIELDS];
    match head_at(bytes, &mut headers) {
        Ok(Some(head)) => {
            let fields = &headers[..head.headers];
            let framing = request_framing(bytes, head.version, fields)?;
            Ok(CodedHead {
                len: head.len,
                framing,
                expects: is_expected(bytes, head.version, fields),
            })
        }
        Ok(None) => unreachable!(),
        Err(_) => unreachable!(),
    }
}

/// Returns whether a head asks for `100 Continue`: one of HTTP/1.0 doesn't, whatever it says.
fn is_expected(bytes: &[u8], minor: u8, fields: &[HeaderSpan]) -> bool
    requires { All (IsHeaderWithin (length bytes.now)) fields.now }
    ensures { result ≡ is_expected minor (map (header_bytes bytes.now) fields.now) }
{
    minor == 1 && has(bytes, fields, b"expect")
}

/// Returns whether the bytes have a line feed without CR before it.
fn has_bare_feed(bytes: &[u8]) -> bool
    ensures { result ≡ has_bare_feed false bytes.now }
{
    let mut is_return = false;
    for b in bytes {
        let b = *b;
        if b == b'\n' && !is_return {
            return true;
        }
        is_return = b == b'\r';
    }
    false
}

/// Reads the rest of the chunks and the trailer, as far as they came. No line of the trailer may end in a bare line
/// feed.
fn strict_chunks_at(
    alloc: Global,
    bytes: &[u8],
    chunks: &mut ChunksRead,
) -> Result<BodyFront, WireFault>
    requires { HasRead bytes.now chunks.old }
    ensures start { chunks.new.start ≡ chunks.old.start }
    ensures read { HasRead bytes.now chunks.new }
    ensures finds { FindsCodedBody Framing.Chunks chunks.old.start bytes.now result }
{
    match chunks_at(alloc, bytes, chunks)? {
        BodyFront::Whole(body, end) => {
            if has_bare_feed(&bytes[chunks.last..end]) {
                return Err(WireFault::BadLength);
            }
            Ok(BodyFront::Whole(body, end))
        }
        BodyFront::Open(wanted) => Ok(BodyFront::Open(wanted)),
    }
}

/// Reads the body on from the chunks that were read so far, if it has chunks.
fn coded_body_at(
    alloc: Global,
    bytes: &[u8],
    framing: Framing,
    chunks: &mut ChunksRead,
) -> Result<BodyFront, WireFault>
    requires limit { chunks.old.start ≤ 8192 }
    requires bounded { IsBounded framing }
    requires read { HasRead bytes.now chunks.old }
    ensures start { chunks.new.start ≡ chunks.old.start }
    ensures read { HasRead bytes.now chunks.new }
    ensures finds { FindsCodedBody framing chunks.old.start bytes.now result }
{
    match framing {
        Framing::Chunks => strict_chunks_at(alloc, bytes, chunks),
        Framing::Sized(_) => body_at(alloc, bytes, framing, chunks),
        Framing::ToTheEnd => unreachable!(),
    }
}

/// Returns the request with its head and that body, of `len` bytes in all.
fn coded_request(
    alloc: Global,
    bytes: &[u8],
    found: CodedHead,
    body: Vec<u8>,
    len: usize,
) -> Result<Option<Front>, WireFault>
    requires head { IsCodedHeadOf bytes.now found }
    requires body { IsCodedBodyTo found.framing found.len bytes.now body.items len }
    ensures { IsCodedFront bytes.now result }
{
    if len > MAX_CODED {
        return Err(WireFault::TooLarge);
    }
    let mut headers = [EMPTY_HEADER_SPAN; MAX_FIELDS];
    match head_at(bytes, &mut headers) {
        Ok(Some(head)) => {
            let mut request = request_at(alloc, bytes, &headers, &head)?;
            request.body = body;
            Ok(Some(Front { request, len }))
        }
        Ok(None) => unreachable!(),
        Err(_) => unreachable!(),
    }
}

/// Reads the request on from what was seen of these bytes. Its head has a coding or an expectation.
fn read_coded(
    alloc: Global,
    bytes: &[u8],
    seen: &mut CodedCursor,
) -> Result<Option<Front>, WireFault>
    requires sees { SeesCoded seen.old bytes.now }
    requires coded { seen.old.head ≡ None → RefusesFront bytes.now WireFault.Chunked }
    ensures front { IsCodedFront bytes.now result }
    ensures seen { SeesCoded seen.new bytes.now }
{
    let head = seen.find_head(bytes)?;
    match coded_body_at(alloc, bytes, head.framing, &mut seen.chunks)? {
        BodyFront::Whole(body, len) => coded_request(alloc, bytes, head, body, len),
        BodyFront::Open(wanted) => seen.open(bytes, head, wanted),
    }
}

/// Returns the request that the bytes which came so far begin with, or none where more are wanted. Chunked bodies and
/// the expectation `100-continue` are accepted, if that is said.
pub fn front_by(alloc: Global, bytes: &[u8], chunked: bool) -> Result<Option<Front>, WireFault>
    ensures { IsFrontBy chunked bytes.now result }
{
    match request_front(alloc, bytes) {
        Ok(front) => Ok(front),
        Err(fault) => {
            if chunked && fault == WireFault::Chunked {
                let mut seen = CodedCursor::nothing(alloc);
                read_coded(alloc, bytes, &mut seen)
            } else {
                Err(fault)
            }
        }
    }
}

/// Returns the same as [`front_by`] for bytes of which a prefix was seen. It reads them only where a head, a line or a
/// body may end in what came since.
pub fn front_seen_by(
    alloc: Global,
    bytes: &[u8],
    chunked: bool,
    seen: &mut CodedCursor,
) -> Result<Option<Front>, WireFault>
    requires { SeesCoded seen.old bytes.now }
    ensures front { IsFrontSeenBy chunked bytes.now result }
    ensures seen { SeesCoded seen.new bytes.now }
{
    if chunked {
        coded_front_seen(alloc, bytes, seen)
    } else {
        request_front_seen(alloc, bytes, &mut seen.plain)
    }
}

/// Returns the same where chunked bodies are accepted.
fn coded_front_seen(
    alloc: Global,
    bytes: &[u8],
    seen: &mut CodedCursor,
) -> Result<Option<Front>, WireFault>
    requires { SeesCoded seen.old bytes.now }
    ensures front { IsFrontSeenBy true bytes.now result }
    ensures seen { SeesCoded seen.new bytes.now }
{
    if seen.head.is_some() {
        return coded_front_on(alloc, bytes, seen);
    }
    match request_front_seen(alloc, bytes, &mut seen.plain) {
        Ok(front) => Ok(front),
        Err(fault) => {
            if fault == WireFault::Chunked {
                read_coded(alloc, bytes, seen)
            } else {
                Err(fault)
            }
        }
    }
}

/// Reads the request on whose head was read.
fn coded_front_on(
    alloc: Global,
    bytes: &[u8],
    seen: &mut CodedCursor,
) -> Result<Option<Front>, WireFault>
    requires sees { SeesCoded seen.old bytes.now }
    requires head { seen.old.head ≡ None → RefusesFront bytes.now WireFault.Chunked }
    ensures front { IsCodedFront bytes.now result }
    ensures seen { SeesCoded seen.new bytes.now }
{
    if seen.stays_open(bytes) {
        return Ok(None);
    }
    read_coded(alloc, bytes, seen)
}

/// States that these readings stay, whatever follows the bytes.
pub fn one_front_by()
    ensures stays { (chunked : Bool) (bytes more : List ℕ) (request : Request) (rest : List ℕ)
        → IsRequestBy chunked bytes request rest → IsRequestBy chunked (bytes ++ more) request (rest ++ more) }
    ensures seen { (seen : CodedCursor) (bytes more : List ℕ) → SeesCoded seen bytes → SeesCoded seen (bytes ++ more) }
    ensures refused { (chunked : Bool) (bytes more : List ℕ) (fault : WireFault)
        → RefusesFrontBy chunked bytes fault → RefusesFrontBy chunked (bytes ++ more) fault }
{}
