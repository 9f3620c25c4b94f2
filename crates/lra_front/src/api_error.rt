//! Why a request isn't done.

use crate::operation::Resource;
use lra_commands::Refusal;
use thiserror::Error;

/// Why a request isn't done.
#[derive(Clone, Copy, Debug, PartialEq, Eq, Error)]
pub enum ApiError {
    /// No key was given that is asked for, or another.
    #[error("wrong key")]
    WrongKey,
    /// It came by a name of the host that isn't one of those that are served.
    #[error("wrong host")]
    WrongHost,
    /// It came from a page of a place that isn't one of those that are served.
    #[error("wrong origin")]
    WrongOrigin,
    /// The head isn't one, or is past the limits.
    #[error("bad head")]
    BadHead,
    /// A coding or an expectation that isn't served here.
    #[error("coding not served")]
    Chunked,
    /// The length of the body isn't stated as it should be.
    #[error("bad length")]
    BadLength,
    /// The body is past the limit.
    #[error("body too large")]
    TooLarge,
    /// Nothing is served at the target.
    #[error("no such path")]
    NoSuchPath,
    /// The place doesn't take the method.
    #[error("method not allowed")]
    BadMethod(Resource),
    /// The body isn't one that the operation reads.
    #[error("bad body")]
    BadBody,
    /// The coordinator refused, or an identifier isn't one of it.
    #[error("{0}")]
    Refused(Refusal),
    /// Nothing can be given to the coordinator any more.
    #[error("the counter is worn")]
    Worn,
}
