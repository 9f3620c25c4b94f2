//! Bytes of one callback.

ghost use Rattle.lra_callbacks.specs.inner.Attempts.{IsOfSame, HandsOut, TakesIn};

use lra_courier::{CallbackExchange, Step};
use std::io::{ErrorKind, Read, Write};

/// Largest number of steps that a callback takes: more than it has bytes.
const MOST_STEPS: u32 = 1 << 22;

/// State of a callback after its bytes were moved.
#[derive(Clone, Copy, PartialEq, Eq)]
pub(crate) enum Moved {
    /// Its stream accepts no more bytes and has no more bytes now.
    Waits,
    /// The callback has ended.
    Ended,
}

/// Writes bytes of the request to a stream. Returns whether the stream may accept more now.
fn hand_out<S: Write>(callback_exchange: &mut CallbackExchange, stream: &mut S) -> bool
    ensures same { IsOfSame callback_exchange.old callback_exchange.new }
    ensures out { HandsOut callback_exchange.old callback_exchange.new (S.contents stream.old) (S.contents stream.new) }
{
    match stream.write(callback_exchange.out()) {
        Ok(0) => callback_exchange.failed(),
        Ok(count) => callback_exchange.advance_by(count),
        Err(error) => match error.kind() {
            ErrorKind::WouldBlock => return false,
            ErrorKind::Interrupted => {}
            _ => callback_exchange.failed(),
        },
    }
    true
}

/// Reads bytes of the response from a stream. Returns whether the stream may have more now.
fn take_in<S: Read>(
    callback_exchange: &mut CallbackExchange,
    stream: &mut S,
    buffer: &mut [u8],
) -> bool
    ensures same { IsOfSame callback_exchange.old callback_exchange.new }
    ensures taken { TakesIn callback_exchange.old callback_exchange.new (S.remaining stream.old)
        (S.remaining stream.new) }
{
    let room = callback_exchange.room().min(buffer.len());
    match stream.read(&mut buffer[..room]) {
        Ok(0) => callback_exchange.ended(),
        Ok(count) => {
            // If memory is refused for these bytes, the stream counts as cut.
            if !callback_exchange.take(&buffer[..count]).unwrap_or(false) {
                callback_exchange.failed();
            }
        }
        Err(error) => match error.kind() {
            ErrorKind::WouldBlock => return false,
            ErrorKind::Interrupted => {}
            _ => callback_exchange.failed(),
        },
    }
    true
}

/// Moves bytes until the callback has to wait for its stream, or has ended.
pub(crate) fn pump<S: Read + Write>(
    callback_exchange: &mut CallbackExchange,
    stream: &mut S,
    buffer: &mut [u8],
) -> Moved
    ensures { IsOfSame callback_exchange.old callback_exchange.new }
{
    for _ in 0..MOST_STEPS {
        let goes_on = match callback_exchange.next() {
            Ok(Step::Sends) => hand_out(callback_exchange, stream),
            Ok(Step::NeedsInput) => take_in(callback_exchange, stream, buffer),
            Ok(Step::Came(_)) => return Moved::Ended,
            Err(_) => return Moved::Ended,
        };
        if !goes_on {
            return Moved::Waits;
        }
    }
    Moved::Ended
}
