//! The outcome of a callback, in words.

ghost use Rattle.std.specs.Prelude.{◌≡◌, ◌++◌, OnOk, codes};
ghost use Rattle.std.specs.Fmt.{decimal};
ghost use Rattle.lra_outcomes.specs.Replies.{words_of};

use itoa::Buffer;
use std::alloc::AllocError;

/// Outcome of a callback that didn't advance its member.
#[derive(Clone, Copy, PartialEq, Eq)]
pub enum Reply {
    /// The rules for members don't allow any of its addresses.
    NotAllowed,
    /// The name of its host has no address.
    NoAddress,
    /// No connection was made: it was refused, or reset.
    NotConnected,
    /// A limit of time passed.
    TimedOut { seconds: u64 },
    /// The connection ended before the whole response.
    Cut,
    /// The bytes that came are no response that can be read.
    NotHttp,
    /// The member answered with that code.
    Answered { code: u16 },
    /// The member answered with that code and a body that names no state, where a state was asked for.
    NoState { code: u16 },
    /// The member answered that it is still at work.
    AtIt { code: u16 },
    /// The request wasn't sent: memory or a descriptor was refused, or the disk has failed.
    NotSent,
}

/// Appends a text unchanged.
fn put(page: &mut Vec<u8>, text: &str) -> Result<(), AllocError>
    ensures { OnOk result (page.new.items ≡ page.old.items ++ text.now) }
{
    page.extend_from_slice(text.as_bytes())
}

/// Appends a number in digits.
fn put_number(page: &mut Vec<u8>, number: u64) -> Result<(), AllocError>
    ensures { OnOk result (page.new.items ≡ page.old.items ++ decimal number) }
{
    let mut buffer = Buffer::new();
    page.extend_from_slice(buffer.format(number).as_bytes())
}

/// Appends "answered" and a code.
fn put_code(code: u16, page: &mut Vec<u8>) -> Result<(), AllocError>
    ensures { OnOk result (page.new.items ≡ page.old.items ++ words_of (Reply.Answered code)) }
{
    put(page, "answered ")?;
    put_number(page, code as u64)
}

/// Appends "timed out after" and a number.
fn put_time(seconds: u64, page: &mut Vec<u8>) -> Result<(), AllocError>
    ensures { OnOk result (page.new.items ≡ page.old.items ++ codes "timed out after " ++ decimal seconds) }
{
    put(page, "timed out after ")?;
    put_number(page, seconds)
}

/// Appends an outcome in words. Where memory is refused, a prefix of them may have been appended.
pub fn put_words(reply: Reply, page: &mut Vec<u8>) -> Result<(), AllocError>
    ensures { OnOk result (page.new.items ≡ page.old.items ++ words_of reply) }
{
    match reply {
        Reply::NotAllowed => put(page, "the rules don't allow its address"),
        Reply::NoAddress => put(page, "its host's name has no address"),
        Reply::NotConnected => put(page, "connection refused"),
        Reply::TimedOut { seconds } => {
            put_time(seconds, page)?;
            put(page, " s")
        }
        Reply::Cut => { put(page, "the connection ended before the whole response") }
        Reply::NotHttp => put(page, "the response isn't HTTP"),
        Reply::Answered { code } => put_code(code, page),
        Reply::NoState { code } => {
            put_code(code, page)?;
            put(page, " with a body that names no state")
        }
        Reply::AtIt { code } => {
            put_code(code, page)?;
            put(page, ": it is at it")
        }
        Reply::NotSent => put(page, "the request was not sent"),
    }
}
