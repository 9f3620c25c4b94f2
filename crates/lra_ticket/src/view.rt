//! The knowledge of a caller of the lock. No value of these types is made.
use lra_model::Entry;
use std::collections::LinkedList;

/// The last act of a pass.
pub enum Place {
    Idle,
    /// It read the next ticket.
    Looked(u64),
    /// It drew a ticket that is not served yet.
    Waiting(u64),
    /// It holds the lock by this ticket.
    Holding(u64),
    /// It read the ticket that is served.
    Peeked(u64),
    /// It read the ticket that is served, and then found another one to be the next.
    Missed(u64, u64),
    /// It also stands for a second pass, with this number and what it had seen.
    Paired(u32, LinkedList<Entry>),
    /// Another pass stands for it.
    Spent,
}

/// The knowledge of a pass.
pub struct View<O> {
    /// The number that the caller's entries bear, or 0 before the first of them.
    pub number: u32,
    /// The origin of the value behind the lock.
    pub origin: O,
    /// The history that the caller has seen.
    pub seen: LinkedList<Entry>,
    /// The caller's own entries.
    pub mine: LinkedList<Entry>,
    /// The number of times that the caller asked for the lock without waiting for it.
    pub tries: u64,
    pub place: Place,
}
