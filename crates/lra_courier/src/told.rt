//! The outcome of the bytes that come after a request.
ghost use Rattle.std.specs.Prelude.{◌≡◌, true, false, IfOk, IfSome, IsTrue};
ghost use Rattle.lra_courier.specs.Replies.{classify};
ghost use Rattle.lra_model.specs.Words.{outcome_suits};
ghost use Rattle.lra_wire.specs.RequestCursor.{SeesResponse};
ghost use Rattle.lra_courier.specs.Codes.{HasCode};
ghost use Rattle.lra_courier.specs.inner.Told.{TellsSoFar, TellsAtEnd, Looks};

use crate::reply::classify;
use lra_model::{AskKind, Direction, Memory, Outcome};
use lra_wire::{
    Inbox, ResponseCursor, ResponseParse, ResponseRead, WireFault, read_response, response_front,
    response_front_seen,
};
use std::alloc::{AllocError, Global};

/// Kind and direction that were asked for.
#[derive(Clone, Copy)]
pub(crate) struct Asked {
    pub kind: AskKind,
    pub direction: Direction,
}

/// Returns the outcome of the response that the bytes so far begin with, or its fault, or nothing where more bytes are
/// wanted. It doesn't read anew what was seen of them.
fn told_so_far(
    alloc: Global,
    bytes: &[u8],
    seen: &mut ResponseCursor,
    asked: Asked,
) -> Result<Option<Result<Outcome, WireFault>>, Memory>
    requires { SeesResponse seen.old bytes.now }
    ensures sees { SeesResponse seen.new bytes.now }
    ensures tells { TellsSoFar asked.kind asked.direction bytes.now result }
{
    match response_front_seen(alloc, bytes, seen) {
        Ok(ResponseParse::Whole(response, _)) => Ok(Some(Ok(asked.outcome(&response)))),
        Ok(ResponseParse::Open(_)) => Ok(None),
        Err(fault) => {
            if fault == WireFault::Memory {
                return Err(AllocError);
            }
            Ok(Some(Err(fault)))
        }
    }
}

/// Returns the outcome of the response of a stream that ends with these bytes, or its fault.
fn told_at_end(
    alloc: Global,
    bytes: &[u8],
    asked: Asked,
) -> Result<Result<Outcome, WireFault>, Memory>
    ensures { TellsAtEnd asked.kind asked.direction bytes.now result }
{
    let mut inbox = Inbox::new(alloc, bytes)?;
    match read_response(alloc, &mut inbox) {
        Ok(response) => Ok(Ok(asked.outcome(&response))),
        Err(fault) => {
            // Reading bytes in memory doesn't fail with `Io`.
            if fault == WireFault::Memory || fault == WireFault::Io {
                return Err(AllocError);
            }
            Ok(Err(fault))
        }
    }
}

/// Returns the outcome of the bytes after a request, or their fault, or nothing where more bytes are wanted and may
/// come.
pub(crate) fn look(
    alloc: Global,
    bytes: &[u8],
    seen: &mut ResponseCursor,
    closed: bool,
    failed: bool,
    asked: Asked,
) -> Result<Option<Result<Outcome, WireFault>>, Memory>
    requires { SeesResponse seen.old bytes.now }
    ensures sees { SeesResponse seen.new bytes.now }
    ensures looks { Looks closed failed asked.kind asked.direction bytes.now result }
{
    if let Some(told) = told_so_far(alloc, bytes, seen, asked)? {
        return Ok(Some(told));
    }
    if failed {
        return Ok(Some(Err(WireFault::Io)));
    }
    if closed {
        return Ok(Some(told_at_end(alloc, bytes, asked)?));
    }
    Ok(None)
}

/// Returns the code of the response that bytes begin with, if it is whole whatever follows them.
fn code_ahead(alloc: Global, bytes: &[u8]) -> Result<Option<u16>, Memory>
    ensures { IfOk result (λ code. IfSome code (HasCode false bytes.now)) }
{
    match response_front(alloc, bytes) {
        Ok(ResponseParse::Whole(response, _)) => Ok(Some(response.code)),
        Err(WireFault::Memory) => Err(AllocError),
        _ => Ok(None),
    }
}

/// Returns the code of the response of a stream that ends with these bytes, if it begins with one.
fn code_at_end(alloc: Global, bytes: &[u8]) -> Result<Option<u16>, Memory>
    ensures { IfOk result (λ code. IfSome code (HasCode true bytes.now)) }
{
    let mut inbox = Inbox::new(alloc, bytes)?;
    match read_response(alloc, &mut inbox) {
        Ok(response) => Ok(Some(response.code)),
        Err(WireFault::Memory) => Err(AllocError),
        Err(_) => Ok(None),
    }
}

/// Returns the code of the response that bytes begin with, if they begin with one. No more bytes come where `closed` is
/// set.
pub(crate) fn code_of(alloc: Global, bytes: &[u8], closed: bool) -> Result<Option<u16>, Memory>
    ensures { IfOk result (λ code. IfSome code (HasCode closed bytes.now)) }
{
    let code = code_ahead(alloc, bytes)?;
    if code.is_some() || !closed {
        return Ok(code);
    }
    code_at_end(alloc, bytes)
}

impl Asked {
    fn outcome(&self, response: &ResponseRead) -> Outcome
        ensures class { result ≡ classify self.now.kind self.now.direction response.now.code response.now.body.items }
        ensures suits { IsTrue (outcome_suits self.now.kind result) }
    {
        classify(
            self.kind,
            self.direction,
            response.code,
            response.body.as_slice(),
        )
    }
}
