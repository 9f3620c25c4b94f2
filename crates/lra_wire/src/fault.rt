//! Reason why a message could not be read or written.
ghost use Rattle.std.specs.Prelude.{◌≡◌};
ghost use Rattle.lra_wire.specs.declared.fault.WireFault.TheVariants.{Memory};

use std::alloc::{AllocError, AllocFailed};
use std::error::Error;
use std::fmt;

/// Reason why a message could not be read or written.
#[derive(Clone, Copy, Debug, PartialEq, Eq)]
pub enum WireFault {
    /// The head isn't one of HTTP/1.0 or HTTP/1.1, exceeds the limits, or is one of HTTP/1.1 without exactly one
    /// `Host`.
    BadHead,
    /// The message has a coding or an expectation that isn't supported.
    Chunked,
    /// The length of the body is stated wrongly.
    BadLength,
    /// The body exceeds the limit.
    TooLarge,
    /// The stream ends inside the message.
    Cut,
    /// The reader or the writer failed.
    Io,
    /// Memory was refused.
    Memory,
}

impl WireFault {
    /// Returns the text for a user.
    const fn text(self) -> &'static str {
        match self {
            WireFault::BadHead => "bad head",
            WireFault::Chunked => "coding not served",
            WireFault::BadLength => "bad length",
            WireFault::TooLarge => "body too large",
            WireFault::Cut => "message cut short",
            WireFault::Io => "input or output failed",
            WireFault::Memory => "out of memory",
        }
    }
}

impl fmt::Display for WireFault {
    fn fmt<W: fmt::Write>(&self, f: &mut fmt::Formatter<W>) -> fmt::Result {
        f.write_str(self.text())
    }
}

impl Error for WireFault {}

impl From<AllocError> for WireFault {
    ghost from_gives = { λ _ e. e ≡ Memory };

    fn from(_error: AllocError) -> WireFault {
        WireFault::Memory
    }
}

impl<T: Drop> From<AllocFailed<T>> for WireFault {
    ghost from_gives = { λ _ e. e ≡ Memory };

    fn from(_error: AllocFailed<T>) -> WireFault {
        WireFault::Memory
    }
}
