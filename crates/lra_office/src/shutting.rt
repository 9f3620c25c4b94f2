//! The end of an office.

ghost use Rattle.std.specs.Prelude.{◌≡◌, IfOk, IfErr};
ghost use Rattle.lra_ticket.specs.Locks.{HasMissed};
ghost use Rattle.lra_office.specs.Clerks.{clerk_view, IsClerkOf};
ghost use Rattle.lra_office.specs.Positions.{has_text};
ghost use Rattle.lra_office.specs.Shut.{IsShut};

use crate::clerk::Clerk;
use crate::desk::Desk;
use crate::office::Office;
use lra_core::{CoordinatorOf, LengthOnly};
use lra_scribe::Scribe;
use std::io::Write;

impl<W: Write + Drop> Office<W> {
    /// Ends the office, if no other caller holds its lock or waits for it, and returns the coordinator and the scribe
    /// of its journal.
    pub fn shut(
        self,
        clerk: Clerk<Desk<W>>,
    ) -> Result<(CoordinatorOf<LengthOnly>, Scribe<W>), (Office<W>, Clerk<Desk<W>>)>
        requires { IsClerkOf self.lock has_text clerk }
        ensures shut { IfOk result (λ kept. IsShut W.contents (clerk_view clerk) kept.0 kept.1) }
        ensures same { IfErr result (λ left. left.0 ≡ self) }
        ensures clerk { IfErr result (λ left. IsClerkOf self.lock has_text left.1 × (left.1.number ≡ clerk.number)) }
        ensures missed { IfErr result (λ left. HasMissed (clerk_view clerk) (clerk_view left.1)) }
    {
        let Desk {
            coordinator,
            scribe,
            front: _,
            had: _,
        } = self.into_kept(clerk)?;
        Ok((Box::into_inner(coordinator), scribe))
    }
}
