//! Replies that are reported for callbacks that have ended.

ghost use Rattle.std.specs.Prelude.{◌≡◌};
ghost use Rattle.lra_callbacks.specs.inner.Replies as spec;

use lra_courier::CallFault;
use lra_model::Outcome;
use lra_outcomes::Reply;
use lra_wire::WireFault;
use std::io;

/// End of a callback, as far as its socket shows.
#[derive(Clone, Copy, PartialEq, Eq)]
pub(crate) enum End {
    /// The request wasn't sent.
    NotSent,
    /// The rules for members don't allow the address.
    NotAllowed,
    /// The name of the host has no address.
    NoAddress,
    /// The peer didn't accept the connection.
    NotConnected,
    /// It took longer than this limit, in milliseconds.
    TimedOut { limit: u64 },
    /// Its connection was made, and nothing more comes from it.
    Heard,
}

/// Returns the reply for an end before any bytes came.
fn reply_at(end: End) -> Reply
    ensures { result ≡ spec.reply_at end }
{
    match end {
        End::NotSent => Reply::NotSent,
        End::NotAllowed => Reply::NotAllowed,
        End::NoAddress => Reply::NoAddress,
        End::NotConnected => Reply::NotConnected,
        End::TimedOut { limit } => Reply::TimedOut {
            seconds: limit.div_ceil(1_000),
        },
        End::Heard => Reply::Cut,
    }
}

/// Returns the reply for a fault.
fn reply_to(fault: CallFault) -> Reply
    ensures { result ≡ spec.reply_to fault }
{
    match fault {
        CallFault::Unreached => Reply::NotConnected,
        CallFault::Send(_) => Reply::Cut,
        CallFault::Reply(fault) => match fault {
            WireFault::Cut | WireFault::Io | WireFault::Memory => Reply::Cut,
            _ => Reply::NotHttp,
        },
    }
}

/// Returns the reply for a response with that code, or `None` if the response brought its member further.
fn reply_with(outcome: Outcome, code: u16) -> Option<Reply>
    ensures { result ≡ spec.reply_with outcome code }
{
    match outcome {
        Outcome::Silent if code == 200 => Some(Reply::NoState { code }),
        Outcome::Silent => Some(Reply::Answered { code }),
        Outcome::Accepted => Some(Reply::AtIt { code }),
        Outcome::Done | Outcome::Failed => None,
    }
}

/// Returns the reply for a callback by its end, what came of its bytes, and the code of the response. Returns `None` if
/// the callback brought its member further.
pub(crate) fn reply_of(
    end: End,
    told: Option<Result<Outcome, CallFault>>,
    code: Option<u16>,
) -> Option<Reply>
    ensures { result ≡ spec.reply_of end told code }
{
    match told {
        None => Some(reply_at(end)),
        Some(Err(fault)) => Some(reply_to(fault)),
        Some(Ok(outcome)) => match code {
            Some(code) => reply_with(outcome, code),
            None => None,
        },
    }
}

/// System's codes for want of memory, of files on the whole machine or in this process, and of room for sockets.
const SCARCE: [i32; 4] = [12, 23, 24, 105];

/// Returns the end of a callback whose socket couldn't be connected, by the system's error. Where the system has no
/// file or no memory for a socket, that tells nothing of the member; any other error concerns its address.
pub(crate) fn end_of(error: &io::Error) -> End {
    match error.raw_os_error() {
        Some(code) if SCARCE.contains(&code) => End::NotSent,
        Some(_) => End::NotConnected,
        None => End::NotSent,
    }
}
