//! The lock, and the tokens by which callers use it. A token has no bytes but a ticket.
ghost use Rattle.std.specs.Prelude.{◌≡◌, ◌+◌, ◌^◌, ◌<◌, [], ◌∷◌, true, None};
ghost use Rattle.lra_ticket.specs.Views.{is_resting, IsComplete};
ghost use Rattle.lra_ticket.specs.declared.view.Place.TheVariants.{Waiting, Holding};

use crate::kept::Kept;
use crate::rule::{Opening, Order};
use crate::view::View;
use atomic_table::{Seat, Table};
use std::alloc::Global;
use thiserror::Error;

/// A lock that callers hold one after the other, in the order of the tickets that they drew, round a value.
#[derive(Drop)]
pub struct TicketLock<V: Kept> {
    pub(crate) table: Table<Option<V>, View<V::Origin>, Opening<V>, Order, Global>,
    ghost sized: { (table.shared.table_id.words ≡ 2) × (table.shared.table_id.slots ≡ 1) },
}

/// The right to ask for the lock, with what its owner has seen of the value's history.
#[derive(Drop)]
pub struct Pass<V: Kept> {
    pub(crate) seat: Seat<Option<V>, View<V::Origin>>,
    ghost rests: { is_resting seat.me.0.place ≡ true },
    ghost empty: { seat.me.1 ≡ [] },
    ghost complete: { IsComplete seat.me.0 },
}

/// A drawn ticket. It has no `Drop`, so that it is waited for.
pub(crate) struct Queued<V: Kept> {
    pub(crate) seat: Seat<Option<V>, View<V::Origin>>,
    pub(crate) ticket: u64,
    ghost waits: { seat.me.0.place ≡ Waiting ticket },
    ghost empty: { seat.me.1 ≡ [] },
    ghost complete: { IsComplete seat.me.0 },
    ghost small: { ticket + 1 < 2 ^ 64 },
}

/// The lock is held, and the value is out of it. It has no `Drop`, so that it ends in `TicketLock::give`.
pub struct Held<V: Kept> {
    pub(crate) seat: Seat<Option<V>, View<V::Origin>>,
    pub(crate) ticket: u64,
    ghost holds: { seat.me.0.place ≡ Holding ticket },
    ghost emptied: { seat.me.1 ≡ (0, None) ∷ [] },
    ghost complete: { IsComplete seat.me.0 },
    ghost small: { ticket + 1 < 2 ^ 64 },
}

/// The parts of a lock when it ended.
#[derive(Drop)]
pub struct Parts<V> {
    /// The next ticket.
    pub next: u64,
    /// The ticket that was served.
    pub serving: u64,
    /// The value, where no one had it out of the lock.
    pub value: Option<V>,
}

/// No ticket is left: the next one would be 2^64 - 1.
#[derive(Debug, Drop, Clone, Copy, PartialEq, Eq, Error)]
#[error("the lock is worn")]
pub struct Worn;

/// Why the lock was not taken without waiting.
#[derive(Debug, Drop, Clone, Copy, PartialEq, Eq, Error)]
pub enum TryFault {
    /// Another caller holds the lock, or waits for it.
    #[error("the lock is another's")]
    Busy,
    /// No ticket is left: the next one would be 2^64 - 1.
    #[error("the lock is worn")]
    Worn,
}
