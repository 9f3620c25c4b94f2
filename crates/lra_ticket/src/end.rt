//! The end of a lock.
ghost use Rattle.std.specs.Prelude.{◌≡◌, ◌-◌, ◌^◌, ◌∷◌, [], Option, IfOk, IfErr};
ghost use Rattle.lra_ticket.specs.Locks.{
  lock_id,
  first_value,
  pass_id,
  pass_view,
  last_ticket,
  HasMissed,
  HasEnded,
  Suits,
};
ghost use Rattle.lra_ticket.specs.declared.view.Place.TheVariants.{Peeked};

use crate::kept::Kept;
use crate::lock::{Held, Parts, Pass, TicketLock};
use crate::rule::{NEXT, SERVING};

impl<V: Kept> TicketLock<V> {
    /// Ends the lock and returns its value, if no caller has the lock or waits for it. Otherwise returns the lock and
    /// the pass. It does not wait.
    pub fn close(self, pass: Pass<V>) -> Result<V, (TicketLock<V>, Pass<V>)>
        requires { pass_id pass ≡ lock_id self }
        ensures value { IfOk result (λ x. Suits V.origin V.history V.lawful (pass_view pass) x) }
        ensures refused { IfErr result (λ e. (e.0 ≡ self) × (pass_id e.1 ≡ lock_id self)
            × HasMissed (pass_view pass) (pass_view e.1)) }
    {
        let (served, pass) = self.peek(pass);
        if served == u64::MAX {
            return Ok(self.last_value(pass));
        }
        match self.grab(pass, served) {
            Ok((held, value)) => {
                let Held { seat: _, ticket: _ } = held;
                Ok(value)
            }
            Err(pass) => Err((self, pass)),
        }
    }

    /// Returns the value of a lock that serves the ticket which is never drawn.
    fn last_value(self, pass: Pass<V>) -> V
        requires lock { pass_id pass ≡ lock_id self }
        requires last { (pass_view pass).place ≡ Peeked last_ticket }
        ensures { Suits V.origin V.history V.lawful (pass_view pass) result }
    {
        self.into_parts(pass).value.unwrap()
    }

    /// Ends the lock as it is, held or not, and returns its parts: its two tickets, and the value if no caller holds
    /// it. A holder can't give its value back then.
    ///
    /// Shows that one state meets the rule of the lock, with these parts and with the view of this pass. The rule holds
    /// of the views of the other passes too, but which these are isn't shown; `meet` shows that of any two.
    pub fn into_parts(self, pass: Pass<V>) -> Parts<V>
        requires { pass_id pass ≡ lock_id self }
        ensures { HasEnded V.origin V.history V.lawful (V.origin (first_value self)) (pass_view pass) result }
    {
        let TicketLock { table } = self;
        let Pass { seat } = pass;
        let mut closed = table.close_with(seat);
        let next = closed.word(NEXT);
        let serving = closed.word(SERVING);
        let value = closed.take(0);
        closed.free();
        Parts {
            next,
            serving,
            value,
        }
    }
}
