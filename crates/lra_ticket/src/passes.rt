//! The acts of passes on one another: a pass is split, and two are compared or joined.
ghost use Rattle.std.specs.Prelude.{◌≡◌, ◌≢◌};
ghost use mathlib.Core.List.{IsPrefix};
ghost use Rattle.lra_ticket.specs.History.{Comparable, longer, entries_by};
ghost use Rattle.lra_ticket.specs.Locks.{lock_id, pass_id, pass_view};
ghost use Rattle.lra_ticket.specs.Views.{newcomer, moved};
ghost use Rattle.lra_ticket.specs.declared.view.Place.TheVariants.{Idle};

use crate::kept::Kept;
use crate::lock::{Pass, TicketLock};
use crate::plays::{Branch, Compare, Merge, Pair, Part};
use crate::rule::NEXT;

impl<V: Kept> TicketLock<V> {
    /// Makes a second pass, which has seen as much as the first and has no number yet.
    pub fn split(&self, pass: Pass<V>) -> (Pass<V>, Pass<V>)
        requires { pass_id pass ≡ lock_id self.now }
        ensures lock { (pass_id result.0 ≡ lock_id self.now) × (pass_id result.1 ≡ lock_id self.now) }
        ensures first { pass_view result.0 ≡ pass_view pass }
        ensures second { pass_view result.1 ≡ newcomer (pass_view pass) }
    {
        let Pass { mut seat } = pass;
        let second = self.table.shared.split_seat::<Branch>(&mut seat);
        (Pass { seat }, Pass { seat: second })
    }

    /// Compares two passes: of the histories that they have seen one begins the other, and no two have one number other
    /// than 0.
    pub fn meet(&self, first: Pass<V>, second: Pass<V>) -> (Pass<V>, Pass<V>)
        requires { (pass_id first ≡ lock_id self.now) × (pass_id second ≡ lock_id self.now) }
        ensures lock { (pass_id result.0 ≡ lock_id self.now) × (pass_id result.1 ≡ lock_id self.now) }
        ensures first { pass_view result.0 ≡ moved (pass_view first) Idle }
        ensures second { pass_view result.1 ≡ record (pass_view second)
            { origin = (pass_view first).origin; tries = 0; place = Idle } }
        ensures in_line { Comparable (pass_view first).seen (pass_view second).seen }
        ensures complete { IsPrefix (pass_view first).seen (pass_view second).seen
            → entries_by (pass_view first).number (pass_view second).seen ≡ (pass_view first).mine }
        ensures apart { (pass_view first).number ≢ 0 → (pass_view first).number ≢ (pass_view second).number }
    {
        let Pass { mut seat } = first;
        let Pass { seat: other } = second;
        let shared = &self.table.shared;
        shared.join_seat::<Pair<V>>(&mut seat, other);
        shared.load::<Compare>(&mut seat, NEXT);
        let other = shared.split_seat::<Part>(&mut seat);
        (Pass { seat }, Pass { seat: other })
    }

    /// Makes one pass of two: the first, which has then seen what both had. The number of the second is not used again.
    pub fn join(&self, first: Pass<V>, second: Pass<V>) -> Pass<V>
        requires { (pass_id first ≡ lock_id self.now) × (pass_id second ≡ lock_id self.now) }
        ensures lock { pass_id result ≡ lock_id self.now }
        ensures view { pass_view result ≡ record (pass_view first) {
          seen =
              longer (pass_view first).seen (pass_view second).seen;
          place = Idle;
        } }
        ensures seen { IsPrefix (pass_view first).seen (pass_view result).seen
            × IsPrefix (pass_view second).seen (pass_view result).seen }
    {
        let (first, second) = self.meet(first, second);
        let Pass { mut seat } = first;
        let Pass { seat: other } = second;
        self.table.shared.join_seat::<Merge<V>>(&mut seat, other);
        Pass { seat }
    }
}
