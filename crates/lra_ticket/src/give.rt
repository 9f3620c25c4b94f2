//! Making a lock, and giving the value back.
ghost use Rattle.std.specs.Prelude.{◌≡◌, ◌≢◌, [], IfOk};
ghost use mathlib.Core.List.{IsPrefix};
ghost use Rattle.lra_ticket.specs.History.{MayAdd, block_after, entries_by};
ghost use Rattle.lra_ticket.specs.Locks.{lock_id, first_value, pass_id, held_id, pass_view, held_view};
ghost use Rattle.lra_ticket.specs.Views.{first_view, given};

use crate::kept::Kept;
use crate::lock::{Held, Pass, TicketLock};
use crate::plays::Give;
use crate::rule::{Opening, SERVING};
use crate::slot::put_in;
use atomic_table::{Refused, Table};
use lra_model::Memory;
use std::alloc::Global;
use std::snapshot::Snapshot;

impl<V: Kept> TicketLock<V> {
    /// Makes a lock round a value, and a pass that has no number yet. If memory is refused, the value is dropped.
    pub fn new(alloc: Global, value: V) -> Result<(TicketLock<V>, Pass<V>), Memory>
        requires { V.lawful value }
        ensures lock { IfOk result (λ r. pass_id r.1 ≡ lock_id r.0) }
        ensures view { IfOk result (λ r. pass_view r.1 ≡ first_view 0 (V.origin value) (V.history value)) }
    {
        open(alloc, value, 0, 0)
    }

    /// Makes such a lock and pass, with the first ticket that is drawn.
    pub fn starting_at(
        alloc: Global,
        value: V,
        first_ticket: u64,
    ) -> Result<(TicketLock<V>, Pass<V>), Memory>
        requires { V.lawful value }
        ensures lock { IfOk result (λ r. pass_id r.1 ≡ lock_id r.0) }
        ensures view { IfOk result (λ r. pass_view r.1 ≡ first_view 0 (V.origin value) (V.history value)) }
    {
        open(alloc, value, 0, first_ticket)
    }

    /// Makes a lock round a value, and a pass under a number that entries of its history bear.
    pub fn new_for(alloc: Global, value: V, number: u32) -> Result<(TicketLock<V>, Pass<V>), Memory>
        requires lawful { V.lawful value }
        requires enrolled { (number ≢ 0) × (entries_by number (V.history value) ≢ []) }
        ensures lock { IfOk result (λ r. pass_id r.1 ≡ lock_id r.0) }
        ensures view { IfOk result (λ r. pass_view r.1 ≡ first_view number (V.origin value) (V.history value)) }
    {
        open(alloc, value, number, 0)
    }

    /// Gives the value back, with a block of the holder's entries, and serves the next ticket.
    pub fn give(&self, held: Held<V>, value: V) -> Pass<V>
        requires lock { held_id held ≡ lock_id self.now }
        requires lawful { V.lawful value }
        requires origin { V.origin value ≡ (held_view held).origin }
        requires extends { IsPrefix (held_view held).seen (V.history value) }
        requires own { MayAdd (held_view held).number (held_view held).seen
            (block_after (held_view held).seen (V.history value)) }
        ensures lock { pass_id result ≡ lock_id self.now }
        ensures view { pass_view result ≡ given (held_view held) (V.history value) }
    {
        let Held { mut seat, ticket } = held;
        let shared = &self.table.shared;
        put_in(shared, &mut seat, value);
        shared.store::<Give>(&mut seat, SERVING, ticket + 1);
        Pass { seat }
    }
}

fn open<V: Kept>(
    alloc: Global,
    value: V,
    number: u32,
    first_ticket: u64,
) -> Result<(TicketLock<V>, Pass<V>), Memory>
    requires lawful { V.lawful value }
    requires enrolled { number ≢ 0 → entries_by number (V.history value) ≢ [] }
    ensures lock { IfOk result (λ r. (first_value r.0 ≡ value) × (pass_id r.1 ≡ lock_id r.0)) }
    ensures view { IfOk result (λ r. pass_view r.1 ≡ first_view number (V.origin value) (V.history value)) }
{
    let about = Opening {
        first: Snapshot::of(&value),
        number,
    };
    let mut slots = Vec::with_capacity(alloc, 1)?;
    slots.push_reserved(Some(value));
    match Table::new(alloc, &[first_ticket, first_ticket], slots, &about) {
        Ok((table, seat)) => Ok((TicketLock { table }, Pass { seat })),
        Err(Refused { slots: _ }) => Err(Memory),
    }
}
