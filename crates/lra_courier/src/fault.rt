//! Why a callback came to nothing.

use lra_wire::WireFault;
use thiserror::Error;

/// Why a request wasn't sent, or not all of it.
#[derive(Clone, Copy, Debug, PartialEq, Eq, Error)]
pub enum SendFault {
    /// The address isn't one as it stands; nothing was written.
    #[error("not an address")]
    BadAddress,
    /// The writer failed or took nothing.
    #[error("output failed")]
    Io,
    /// A growth was refused; nothing was written.
    #[error("out of memory")]
    Memory,
}

/// Why a text makes no token.
#[derive(Clone, Copy, Debug, PartialEq, Eq, Error)]
pub enum TokenFault {
    /// The text can't be a bearer token.
    #[error("not a bearer token")]
    NotToken,
    /// A growth was refused.
    #[error("out of memory")]
    Memory,
}

/// Why a callback came to nothing.
#[derive(Clone, Copy, Debug, PartialEq, Eq, Error)]
pub enum CallFault {
    /// No connection was had.
    #[error("no connection")]
    Unreached,
    /// The request wasn't sent, or not all of it.
    #[error("no request: {0}")]
    Send(SendFault),
    /// All of the request was sent, and what came is no response.
    #[error("no response: {0}")]
    Reply(WireFault),
}
