//! Time limits of a client.

/// Time limits of a client, in milliseconds.
#[derive(Clone, Copy, PartialEq, Eq)]
pub struct Times {
    /// Longest time between requests, until the first byte of the next.
    pub idle: u64,
    /// Longest time of a request in all, from its first byte until it is whole.
    pub request: u64,
    /// Longest time in all to accept its replies.
    pub reply: u64,
}
