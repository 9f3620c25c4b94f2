//! Taking the lock, with and without waiting.
ghost use Rattle.std.specs.Prelude.{◌≡◌, ◌≢◌, ℕ, ◌+◌, ◌-◌, ◌^◌, ◌<◌, IfOk, IfErr};
ghost use Rattle.lra_ticket.specs.Locks.{
  lock_id,
  pass_id,
  held_id,
  pass_view,
  held_view,
  last_ticket,
  HasTaken,
  HasMissed,
  HasFailed,
  tried,
  Suits,
};
ghost use Rattle.lra_ticket.specs.inner.Queue.{queued_id, queued_view};
ghost use Rattle.lra_ticket.specs.Views.{moved, taking};
ghost use Rattle.lra_ticket.specs.inner.Steps.{peeking};
ghost use Rattle.lra_ticket.specs.declared.view.Place.TheVariants.{Looked, Waiting, Holding, Peeked, Missed};

use crate::kept::Kept;
use crate::lock::{Held, Pass, Queued, TicketLock, TryFault, Worn};
use crate::plays::{Draw, Grab, Look, Peek, Watch};
use crate::rule::{NEXT, SERVING};
use crate::slot::take_out;
use std::hint::spin_loop;
use std::sync::Wait;
use std::thread::yield_now;
use std::time::Duration;

/// The number of times that a caller looks whether the lock is free before it lets other threads run.
const LOOKS: u32 = 30;

/// The number of times that it lets them run before it sleeps.
const TURNS: u32 = 5;

/// The number of times that a caller sleeps before it draws a ticket of a lock that isn't free.
const NAPS: u32 = 50;

/// The microseconds that it sleeps at a time.
const NAP: u64 = 50;

impl<V: Kept> TicketLock<V> {
    /// Waits until the lock is free, though not for long, draws a ticket, waits until it is served, and returns the
    /// value. If no ticket is left, it draws none.
    pub fn take<R: Wait>(&self, rt: &R, pass: Pass<V>) -> Result<(Held<V>, V), (Pass<V>, Worn)>
        requires { pass_id pass ≡ lock_id self.now }
        ensures lock { IfOk result (λ r. held_id r.0 ≡ lock_id self.now) }
        ensures view { IfOk result (λ r. HasTaken (pass_view pass) (V.history r.1) (held_view r.0)) }
        ensures value { IfOk result (λ r. Suits V.origin V.history V.lawful (pass_view pass) r.1) }
        ensures worn { IfErr result (λ e. (pass_id e.0 ≡ lock_id self.now)
            × (pass_view e.0 ≡ moved (pass_view pass) (Looked last_ticket))) }
    {
        self.linger(rt);
        let queued = self.draw(rt, pass)?;
        Ok(self.wait(rt, queued))
    }

    /// Spins, then parks, until no caller has the lock or waits for it, for some milliseconds at most. A drawn ticket
    /// has to be served in its turn, by whichever thread has it. While callers draw none, the lock goes to a thread
    /// that runs already, and none has to wake for its turn.
    fn linger<R: Wait>(&self, rt: &R) {
        let shared = &self.table.shared;
        for _ in 0..TURNS {
            if self.looks_free() {
                return;
            }
            yield_now();
        }
        let nap = Duration::from_micros(NAP);
        for _ in 0..NAPS {
            if self.looks_free() {
                return;
            }
            let served = shared.peek(SERVING) % (1 << 32);
            shared.park_timeout(rt, SERVING, served as u32, nap);
        }
    }

    /// Returns whether one of some looks shows that no caller has the lock or waits for it.
    fn looks_free(&self) -> bool {
        let shared = &self.table.shared;
        for _ in 0..LOOKS {
            if shared.peek(NEXT) == shared.peek(SERVING) {
                return true;
            }
            spin_loop();
        }
        false
    }

    fn draw<R: Wait>(&self, rt: &R, pass: Pass<V>) -> Result<Queued<V>, (Pass<V>, Worn)>
        requires { pass_id pass ≡ lock_id self.now }
        ensures ok { IfOk result (λ q. (queued_id q ≡ lock_id self.now)
            × (queued_view q ≡ moved (pass_view pass) (Waiting q.ticket))) }
        ensures worn { IfErr result (λ e. (pass_id e.0 ≡ lock_id self.now)
            × (pass_view e.0 ≡ moved (pass_view pass) (Looked last_ticket))) }
    {
        let Pass { mut seat } = pass;
        let shared = &self.table.shared;
        for _ in rt.forever() {
            let ticket = shared.load::<Look>(&mut seat, NEXT);
            if ticket == u64::MAX {
                return Err((Pass { seat }, Worn));
            }
            if shared.compare_exchange::<Draw>(&mut seat, NEXT, ticket, ticket + 1) == ticket {
                return Ok(Queued { seat, ticket });
            }
        }
        unreachable!()
    }

    fn wait<R: Wait>(&self, rt: &R, queued: Queued<V>) -> (Held<V>, V)
        requires { queued_id queued ≡ lock_id self.now }
        ensures lock { held_id result.0 ≡ lock_id self.now }
        ensures view { held_view result.0 ≡ taking (queued_view queued) queued.ticket (V.history result.1) }
        ensures value { Suits V.origin V.history V.lawful (queued_view queued) result.1 }
    {
        let Queued { mut seat, ticket } = queued;
        let shared = &self.table.shared;
        for _ in rt.forever() {
            if shared.load::<Watch>(&mut seat, SERVING) == ticket {
                let value = take_out(shared, &mut seat);
                return (Held { seat, ticket }, value);
            }
            yield_now();
        }
        unreachable!()
    }

    /// Takes the lock and returns the value, if no caller has the lock or waits for it. It does not wait: it reads the
    /// ticket that is served, and draws it if it is the next one.
    pub fn try_take(&self, pass: Pass<V>) -> Result<(Held<V>, V), (Pass<V>, TryFault)>
        requires { pass_id pass ≡ lock_id self.now }
        ensures lock { IfOk result (λ r. held_id r.0 ≡ lock_id self.now) }
        ensures view { IfOk result (λ r. HasTaken (tried (pass_view pass)) (V.history r.1) (held_view r.0)) }
        ensures value { IfOk result (λ r. Suits V.origin V.history V.lawful (pass_view pass) r.1) }
        ensures fault { IfErr result (λ e. (pass_id e.0 ≡ lock_id self.now)
            × HasFailed (pass_view pass) e.1 (pass_view e.0)) }
    {
        let (served, pass) = self.peek(pass);
        if served == u64::MAX {
            return Err((pass, TryFault::Worn));
        }
        match self.grab(pass, served) {
            Ok(taken) => Ok(taken),
            Err(pass) => Err((pass, TryFault::Busy)),
        }
    }

    /// Reads the ticket that is served.
    pub(crate) fn peek(&self, pass: Pass<V>) -> (u64, Pass<V>)
        requires { pass_id pass ≡ lock_id self.now }
        ensures lock { pass_id result.1 ≡ lock_id self.now }
        ensures view { pass_view result.1 ≡ peeking (pass_view pass) result.0 }
    {
        let Pass { mut seat } = pass;
        let served = self.table.shared.load::<Peek>(&mut seat, SERVING);
        (served, Pass { seat })
    }

    /// Draws the ticket that was served, if it is the next one, and takes the value.
    pub(crate) fn grab(&self, pass: Pass<V>, served: u64) -> Result<(Held<V>, V), Pass<V>>
        requires lock { pass_id pass ≡ lock_id self.now }
        requires peeked { (pass_view pass).place ≡ Peeked served }
        requires small { served + 1 < 2 ^ 64 }
        ensures lock { IfOk result (λ r. held_id r.0 ≡ lock_id self.now) }
        ensures view { IfOk result (λ r. held_view r.0 ≡ taking (pass_view pass) served (V.history r.1)) }
        ensures value { IfOk result (λ r. Suits V.origin V.history V.lawful (pass_view pass) r.1) }
        ensures missed { IfErr result (λ p. (pass_id p ≡ lock_id self.now)
            × ((n : ℕ) × (n ≢ served) × (pass_view p ≡ moved (pass_view pass) (Missed served n)))) }
    {
        let Pass { mut seat } = pass;
        let shared = &self.table.shared;
        if shared.compare_exchange::<Grab>(&mut seat, NEXT, served, served + 1) != served {
            return Err(Pass { seat });
        }
        let value = take_out(shared, &mut seat);
        Ok((
            Held {
                seat,
                ticket: served,
            },
            value,
        ))
    }
}
