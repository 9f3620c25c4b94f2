//! The facts of a history that its tables don't have: the want that is due and the action that is late.

/// The facts of a history that its tables don't have: the want that is due and the action that is late.
#[derive(Clone, Copy, PartialEq, Eq)]
pub struct DueFacts {
    /// The member whose want is due first at the moment of what is written; `next_ask` alone reads it.
    pub due: Option<u64>,
    /// The action whose limit has passed first by then; `tick` alone reads it.
    pub late: Option<u64>,
}
