//! The rule of the lock's table: word 0 is the next ticket, word 1 the ticket that is served, and slot 0 has the value.
ghost use Rattle.lra_ticket.specs.Rule.{IsOrderly};
ghost use Rattle.lra_ticket.specs.Views.{first_view};

use crate::kept::Kept;
use crate::view::View;
use atomic_table::TableRule;
use std::snapshot::Snapshot;

/// The word of the next ticket.
pub const NEXT: usize = 0;

/// The word of the ticket that is served.
pub const SERVING: usize = 1;

/// The value that the lock began with, and the number of its first pass.
#[derive(Drop)]
pub struct Opening<V> {
    pub first: Snapshot<V>,
    pub number: u32,
}

pub struct Order;

impl<V: Kept> TableRule<Option<V>, View<V::Origin>, Opening<V>> for Order {
    ghost holds = { λ key. IsOrderly V.origin V.history V.lawful (V.origin key.first.value) };

    ghost first = { λ key. first_view key.number (V.origin key.first.value) (V.history key.first.value) };
}
