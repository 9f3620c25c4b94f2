//! The request that the bytes which came begin with, read without a reader.
ghost use Rattle.std.specs.Prelude.{◌≡◌, ◌≢◌, ℕ, List, ◌++◌, true};
ghost use Rattle.lra_wire.specs.declared.fault.WireFault.{WireFault};
ghost use Rattle.lra_wire.specs.declared.fault.WireFault.TheVariants.{Memory};
ghost use Rattle.lra_wire.specs.declared.front.RequestCursor.{RequestCursor};
ghost use Rattle.lra_wire.specs.Fronts.{RefusesFront, IsUnfinished, IsFront, Sees, IsFrontSeen, EndsWith};
ghost use Rattle.lra_wire.specs.inner.RequestParse.{IsSought, StaysOpen};
ghost use Rattle.lra_wire.specs.Request.{Request, IsRequest};

use crate::fault::WireFault;
use crate::head::{MAX_FIELDS, MAX_HEAD};
use crate::request::{RequestRead, body_length_at, head_at, request_at};
use httparse::spans::EMPTY_HEADER_SPAN;
use std::alloc::Global;

/// Request, and the number of its bytes.
#[derive(Debug, Drop)]
pub struct Front {
    pub request: RequestRead,
    pub len: usize,
}

/// Request that bytes begin with: whole, or unfinished in its head or its body.
#[derive(Drop)]
enum RequestParse {
    Whole(Front),
    OpenHead,
    /// Whole head, and the number of bytes that there are once the body is whole.
    OpenBody(usize),
}

/// Findings on bytes that hold no whole request, so that the bytes needn't be read anew whenever a piece comes.
#[derive(Clone, Copy)]
pub struct RequestCursor {
    looked: usize,
    /// Number of bytes that there are once the body is whole, or 0 where the head isn't whole.
    wanted: usize,
}

impl RequestCursor {
    /// Makes findings on no bytes.
    pub fn nothing() -> RequestCursor
        ensures { (bytes : List ℕ) → Sees result bytes }
    {
        RequestCursor {
            looked: 0,
            wanted: 0,
        }
    }

    /// Returns whether these bytes can't hold a whole request yet. A prefix of them was seen.
    fn stays_open(&self, bytes: &[u8]) -> bool
        requires { Sees self.now bytes.now }
        ensures { result ≡ true → StaysOpen self.now.wanted bytes.now }
    {
        if self.wanted > 0 {
            return bytes.len() < self.wanted;
        }
        if bytes.len() >= MAX_HEAD {
            return false;
        }
        !bytes[self.looked..].contains(&b'\n')
    }
}

fn find_front(alloc: Global, bytes: &[u8]) -> Result<RequestParse, WireFault>
    ensures { IsSought bytes.now result }
{
    let mut headers = [EMPTY_HEADER_SPAN; MAX_FIELDS];
    let Some(head) = head_at(bytes, &mut headers)? else {
        return Ok(RequestParse::OpenHead);
    };
    let size = body_length_at(bytes, &headers, &head)?;
    let len = head.len + size;
    if bytes.len() < len {
        return Ok(RequestParse::OpenBody(len));
    }
    let mut request = request_at(alloc, bytes, &headers, &head)?;
    request.body = Vec::from_slice(alloc, &bytes[head.len..len])?;
    Ok(RequestParse::Whole(Front { request, len }))
}

/// Returns the request that the bytes which came so far begin with, or none where more are wanted. Its faults are those
/// of [`read_request`](crate::read_request), without those of a stream's end and of a reader.
pub fn request_front(alloc: Global, bytes: &[u8]) -> Result<Option<Front>, WireFault>
    ensures { IsFront bytes.now result }
{
    match find_front(alloc, bytes) {
        Ok(RequestParse::Whole(front)) => Ok(Some(front)),
        Ok(RequestParse::OpenHead) => Ok(None),
        Ok(RequestParse::OpenBody(_)) => Ok(None),
        Err(fault) => Err(fault),
    }
}

/// Returns the same as [`request_front`] for bytes of which a prefix was seen. It reads them only where a head or a
/// body may end in what came since.
pub fn request_front_seen(
    alloc: Global,
    bytes: &[u8],
    seen: &mut RequestCursor,
) -> Result<Option<Front>, WireFault>
    requires { Sees seen.old bytes.now }
    ensures front { IsFrontSeen bytes.now result }
    ensures seen { Sees seen.new bytes.now }
{
    if seen.stays_open(bytes) {
        seen.looked = bytes.len();
        return Ok(None);
    }
    match find_front(alloc, bytes) {
        Ok(RequestParse::Whole(front)) => Ok(Some(front)),
        Ok(RequestParse::OpenHead) => {
            seen.looked = bytes.len();
            seen.wanted = 0;
            Ok(None)
        }
        Ok(RequestParse::OpenBody(wanted)) => {
            seen.wanted = wanted;
            Ok(None)
        }
        Err(fault) => Err(fault),
    }
}

/// Returns the fault of a stream that ends with these bytes, where more of a request is wanted: `Cut`, or none where
/// there are no bytes.
pub fn end_fault(bytes: &[u8]) -> Option<WireFault>
    requires { IsUnfinished bytes.now }
    ensures { EndsWith bytes.now result }
{
    if bytes.is_empty() {
        None
    } else {
        Some(WireFault::Cut)
    }
}

/// States that [`request_front`] gives the only reading of the bytes, whatever follows them.
pub fn one_front()
    ensures stays { (bytes more : List ℕ) (request : Request) (rest : List ℕ)
        → IsRequest bytes request rest → IsRequest (bytes ++ more) request (rest ++ more) }
    ensures one { (bytes : List ℕ) (request other : Request) (rest tail : List ℕ)
        → IsRequest bytes request rest → IsRequest bytes other tail → (request ≡ other) × (rest ≡ tail) }
    ensures seen { (seen : RequestCursor) (bytes more : List ℕ) → Sees seen bytes → Sees seen (bytes ++ more) }
    ensures refused { (bytes more : List ℕ) (fault : WireFault)
        → RefusesFront bytes fault → RefusesFront (bytes ++ more) fault }

    // Where more is wanted, or a fault of the bytes is found, they spell no request.
    ensures unfinished { (bytes : List ℕ) (request : Request) (rest : List ℕ)
        → IsUnfinished bytes → ¬ (IsRequest bytes request rest) }
    ensures faulty { (bytes : List ℕ) (fault : WireFault) (request : Request) (rest : List ℕ)
        → fault ≢ Memory → RefusesFront bytes fault → ¬ (IsRequest bytes request rest) }
{}
