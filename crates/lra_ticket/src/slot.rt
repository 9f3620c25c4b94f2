//! The two moves of the value. Nothing else reaches the slot.
ghost use Rattle.std.specs.Prelude.{◌≡◌, ◌<◌, [], ◌∷◌, Some, None};

use crate::kept::Kept;
use crate::rule::{Opening, Order};
use crate::view::View;
use atomic_table::{Seat, Shared};

/// Takes the value out of the slot, which the seat has.
pub(crate) fn take_out<V: Kept>(
    shared: &Shared<Option<V>, View<V::Origin>, Opening<V>, Order>,
    seat: &mut Seat<Option<V>, View<V::Origin>>,
) -> V
    requires lock { seat.old.table_id ≡ shared.now.table_id }
    requires full { (x : V) × (seat.old.me.1 ≡ (0, Some x) ∷ []) }
    ensures lock { seat.new.table_id ≡ seat.old.table_id }
    ensures value { seat.old.me.1 ≡ (0, Some result) ∷ [] }
    ensures seat { seat.new.me ≡ (seat.old.me.0, (0, None) ∷ []) }
{
    shared.exchange(seat, 0, None).unwrap()
}

/// Puts a value into the slot, which the seat has.
pub(crate) fn put_in<V: Kept>(
    shared: &Shared<Option<V>, View<V::Origin>, Opening<V>, Order>,
    seat: &mut Seat<Option<V>, View<V::Origin>>,
    value: V,
)
    requires lock { seat.old.table_id ≡ shared.now.table_id }
    requires empty { seat.old.me.1 ≡ (0, None) ∷ [] }
    ensures lock { seat.new.table_id ≡ seat.old.table_id }
    ensures seat { seat.new.me ≡ (seat.old.me.0, (0, Some value) ∷ []) }
{
    drop(shared.exchange(seat, 0, Some(value)));
}
