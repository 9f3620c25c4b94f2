//! Commands that don't wait for the lock.

ghost use Rattle.std.specs.Prelude.{◌≡◌, true, IfErr};
ghost use Rattle.lra_commands.specs.declared.command.Command.TheVariants as Command;
ghost use Rattle.lra_commands.specs.declared.refusal.Refusal.TheVariants.{Stopped};
ghost use Rattle.lra_core.specs.Prepares.{is_suited};
ghost use Rattle.lra_ticket.specs.Locks.{lock_id, pass_id, pass_view};
ghost use Rattle.lra_office.specs.Clerks.{clerk_view, IsClerkOf};
ghost use Rattle.lra_office.specs.Stops.{HasStopped};
ghost use Rattle.lra_office.specs.declared.fault.TryRefusal.TheVariants.{Refused};
ghost use Rattle.lra_office.specs.Orders.{IsTried};
ghost use Rattle.lra_office.specs.inner.Placed.{IsTriedAt};
ghost use Rattle.lra_office.specs.inner.Given.{IsNumberOf, refusal_of};

use crate::clerk::Clerk;
use crate::fault::TryRefusal;
use crate::locked_service::LockedService;
use crate::office::OfficeOf;
use lra_commands::Told;
use lra_core::{Command, Committed};
use lra_ticket::{Pass, TryFault};

/// Returns a fault of the lock as one of a command.
fn refusal_of(fault: TryFault) -> TryRefusal
    ensures { result ≡ refusal_of fault }
{
    match fault {
        TryFault::Busy => TryRefusal::Busy,
        TryFault::Worn => TryRefusal::Worn,
    }
}

/// Returns the answer, and discards the errand.
pub(crate) fn told_alone(committed: Committed) -> Told
    ensures { result ≡ committed.told }
{
    let Committed { told, errand } = committed;
    if let Some(errand) = errand {
        errand.discard();
    }
    told
}

impl<V: LockedService> OfficeOf<V> {
    /// Does a command under the number of the pass, if the lock is free.
    fn try_give(
        &self,
        pass: Pass<V>,
        by: u32,
        moment: u64,
        command: &Command<'_>,
        position: &mut u64,
    ) -> (Pass<V>, Result<Told, TryRefusal>)
        requires lock { pass_id pass ≡ lock_id self.now.lock }
        requires suited { is_suited command.now ≡ true }
        requires number { IsNumberOf command.now by (pass_view pass).number }
        ensures lock { pass_id result.0 ≡ lock_id self.now.lock }
        ensures tried { IsTried (V.setting (pass_view pass).origin) (pass_view pass)
            (record { by = by; moment = moment; command = command.now }) result.1 (pass_view result.0) }
        ensures stopped { IfErr result.1 (λ r. r ≡ Refused Stopped → HasStopped V.origin V.history V.lawful
            V.has_stopped (pass_view result.0)) }
        ensures placed { IsTriedAt V.covers result.1 (pass_view result.0) position.old position.new }
    {
        let (held, mut value) = match self.lock.try_take(pass) {
            Ok(taken) => taken,
            Err((pass, fault)) => return (pass, Err(refusal_of(fault))),
        };
        let served = value.serve(by, moment, command);
        *position = value.position();
        let pass = self.lock.give(held, value);
        match served {
            Ok(committed) => (pass, Ok(told_alone(committed))),
            Err(refusal) => (pass, Err(TryRefusal::Refused(refusal))),
        }
    }

    /// Does a command of a clerk, if the lock is free.
    fn try_tell(
        &self,
        clerk: &mut Clerk<V>,
        moment: u64,
        command: &Command<'_>,
    ) -> Result<Told, TryRefusal>
        requires clerk { IsClerkOf self.now.lock V.covers clerk.old }
        requires suited { is_suited command.now ≡ true }
        requires other { IsNumberOf command.now clerk.old.number clerk.old.number }
        ensures clerk { IsClerkOf self.now.lock V.covers clerk.new }
        ensures number { clerk.new.number ≡ clerk.old.number }
        ensures tried { IsTried (V.setting (clerk_view clerk.old).origin) (clerk_view clerk.old)
            (record { by = clerk.old.number; moment = moment; command = command.now }) result (clerk_view clerk.new) }
        ensures stopped { IfErr result (λ r. r ≡ Refused Stopped → HasStopped V.origin V.history V.lawful V.has_stopped
            (clerk_view clerk.new)) }
    {
        let pass = clerk.take_pass();
        let (pass, tried) = self.try_give(pass, clerk.number, moment, command, &mut clerk.position);
        clerk.pass = Some(pass);
        tried
    }

    /// Returns the status of an action, if the lock is free.
    pub fn try_status(&self, clerk: &mut Clerk<V>, action: u64) -> Result<Told, TryRefusal>
        requires { IsClerkOf self.now.lock V.covers clerk.old }
        ensures clerk { IsClerkOf self.now.lock V.covers clerk.new }
        ensures number { clerk.new.number ≡ clerk.old.number }
        ensures tried { IsTried (V.setting (clerk_view clerk.old).origin) (clerk_view clerk.old)
            (record { by = clerk.old.number; moment = 0; command = Command.Status action }) result
            (clerk_view clerk.new) }
        ensures stopped { IfErr result (λ r. r ≡ Refused Stopped → HasStopped V.origin V.history V.lawful V.has_stopped
            (clerk_view clerk.new)) }
    {
        self.try_tell(clerk, 0, &Command::Status { action })
    }

    /// Closes an action, if the lock is free.
    pub fn try_close(
        &self,
        clerk: &mut Clerk<V>,
        moment: u64,
        action: u64,
    ) -> Result<Told, TryRefusal>
        requires { IsClerkOf self.now.lock V.covers clerk.old }
        ensures clerk { IsClerkOf self.now.lock V.covers clerk.new }
        ensures number { clerk.new.number ≡ clerk.old.number }
        ensures tried { IsTried (V.setting (clerk_view clerk.old).origin) (clerk_view clerk.old)
            (record { by = clerk.old.number; moment = moment; command = Command.Close action }) result
            (clerk_view clerk.new) }
        ensures stopped { IfErr result (λ r. r ≡ Refused Stopped → HasStopped V.origin V.history V.lawful V.has_stopped
            (clerk_view clerk.new)) }
    {
        self.try_tell(clerk, moment, &Command::Close { action })
    }
}
