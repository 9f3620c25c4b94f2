//! The commands of clerks, by name.

ghost use Rattle.std.specs.Prelude.{◌≡◌, true, IfErr};
ghost use Rattle.lra_model.specs.Words.{outcome_suits};
ghost use Rattle.lra_commands.specs.declared.command.Command.TheVariants as Command;
ghost use Rattle.lra_commands.specs.declared.refusal.Refusal.TheVariants.{Stopped};
ghost use Rattle.lra_core.specs.Prepares.{is_suited};
ghost use Rattle.lra_office.specs.Clerks.{clerk_view, IsClerkOf};
ghost use Rattle.lra_office.specs.Stops.{HasStopped};
ghost use Rattle.lra_office.specs.declared.fault.OfficeRefusal.TheVariants.{Refused};
ghost use Rattle.lra_office.specs.Orders.{IsTold, IsErrand, IsRecorded};
ghost use Rattle.lra_office.specs.inner.Given.{IsNumberOf};

use crate::clerk::Clerk;
use crate::fault::OfficeRefusal;
use crate::locked_service::LockedService;
use crate::office::OfficeOf;
use lra_commands::Told;
use lra_core::{Command, Committed, Errand};
use lra_model::{Ending, Outcome, Uris};
use std::sync::Wait;

impl<V: LockedService> OfficeOf<V> {
    /// Does a command that gives no errand.
    pub(crate) fn tell<R: Wait>(
        &self,
        rt: &R,
        clerk: &mut Clerk<V>,
        moment: u64,
        command: &Command<'_>,
    ) -> Result<Told, OfficeRefusal>
        requires clerk { IsClerkOf self.now.lock V.covers clerk.old }
        requires suited { is_suited command.now ≡ true }
        requires other { IsNumberOf command.now clerk.old.number clerk.old.number }
        ensures clerk { IsClerkOf self.now.lock V.covers clerk.new }
        ensures number { clerk.new.number ≡ clerk.old.number }
        ensures told { IsTold (V.setting (clerk_view clerk.old).origin) (clerk_view clerk.old)
            (record { by = clerk.old.number; moment = moment; command = command.now }) result (clerk_view clerk.new) }
        ensures stopped { IfErr result (λ r. r ≡ Refused Stopped → HasStopped V.origin V.history V.lawful V.has_stopped
            (clerk_view clerk.new)) }
    {
        let Committed { told, errand } = self.serve(rt, clerk, moment, command)?;
        if let Some(errand) = errand {
            errand.discard();
        }
        Ok(told)
    }

    /// Starts an action, nested in its parent where it has one (MicroProfile LRA 2.0, starting an LRA). The limit is in
    /// milliseconds from now, and 0 is none.
    pub fn start<R: Wait>(
        &self,
        rt: &R,
        clerk: &mut Clerk<V>,
        moment: u64,
        parent: Option<u64>,
        limit: u64,
    ) -> Result<Told, OfficeRefusal>
        requires { IsClerkOf self.now.lock V.covers clerk.old }
        ensures clerk { IsClerkOf self.now.lock V.covers clerk.new }
        ensures number { clerk.new.number ≡ clerk.old.number }
        ensures told { IsTold (V.setting (clerk_view clerk.old).origin) (clerk_view clerk.old)
            (record { by = clerk.old.number; moment = moment; command = Command.Start parent limit }) result
            (clerk_view clerk.new) }
        ensures stopped { IfErr result (λ r. r ≡ Refused Stopped → HasStopped V.origin V.history V.lawful V.has_stopped
            (clerk_view clerk.new)) }
    {
        self.tell(rt, clerk, moment, &Command::Start { parent, limit })
    }

    /// Lets a member join an action (MicroProfile LRA 2.0, joining an LRA).
    pub fn join<R: Wait>(
        &self,
        rt: &R,
        clerk: &mut Clerk<V>,
        moment: u64,
        action: u64,
        uris: &Uris,
    ) -> Result<Told, OfficeRefusal>
        requires { IsClerkOf self.now.lock V.covers clerk.old }
        ensures clerk { IsClerkOf self.now.lock V.covers clerk.new }
        ensures number { clerk.new.number ≡ clerk.old.number }
        ensures told { IsTold (V.setting (clerk_view clerk.old).origin) (clerk_view clerk.old)
            (record { by = clerk.old.number; moment = moment; command = Command.Join action uris.entry }) result
            (clerk_view clerk.new) }
        ensures stopped { IfErr result (λ r. r ≡ Refused Stopped → HasStopped V.origin V.history V.lawful V.has_stopped
            (clerk_view clerk.new)) }
    {
        self.tell(rt, clerk, moment, &Command::Join { action, uris })
    }

    /// Lets a member leave its action (MicroProfile LRA 2.0, leaving an LRA).
    pub fn leave<R: Wait>(
        &self,
        rt: &R,
        clerk: &mut Clerk<V>,
        moment: u64,
        action: u64,
        member: u64,
    ) -> Result<Told, OfficeRefusal>
        requires { IsClerkOf self.now.lock V.covers clerk.old }
        ensures clerk { IsClerkOf self.now.lock V.covers clerk.new }
        ensures number { clerk.new.number ≡ clerk.old.number }
        ensures told { IsTold (V.setting (clerk_view clerk.old).origin) (clerk_view clerk.old)
            (record { by = clerk.old.number; moment = moment; command = Command.Leave action member }) result
            (clerk_view clerk.new) }
        ensures stopped { IfErr result (λ r. r ≡ Refused Stopped → HasStopped V.origin V.history V.lawful V.has_stopped
            (clerk_view clerk.new)) }
    {
        self.tell(rt, clerk, moment, &Command::Leave { action, member })
    }

    /// Closes an action (MicroProfile LRA 2.0, closing an LRA).
    pub fn close<R: Wait>(
        &self,
        rt: &R,
        clerk: &mut Clerk<V>,
        moment: u64,
        action: u64,
    ) -> Result<Told, OfficeRefusal>
        requires { IsClerkOf self.now.lock V.covers clerk.old }
        ensures clerk { IsClerkOf self.now.lock V.covers clerk.new }
        ensures number { clerk.new.number ≡ clerk.old.number }
        ensures told { IsTold (V.setting (clerk_view clerk.old).origin) (clerk_view clerk.old)
            (record { by = clerk.old.number; moment = moment; command = Command.Close action }) result
            (clerk_view clerk.new) }
        ensures stopped { IfErr result (λ r. r ≡ Refused Stopped → HasStopped V.origin V.history V.lawful V.has_stopped
            (clerk_view clerk.new)) }
    {
        self.tell(rt, clerk, moment, &Command::Close { action })
    }

    /// Cancels an action (MicroProfile LRA 2.0, cancelling an LRA).
    pub fn cancel<R: Wait>(
        &self,
        rt: &R,
        clerk: &mut Clerk<V>,
        moment: u64,
        action: u64,
    ) -> Result<Told, OfficeRefusal>
        requires { IsClerkOf self.now.lock V.covers clerk.old }
        ensures clerk { IsClerkOf self.now.lock V.covers clerk.new }
        ensures number { clerk.new.number ≡ clerk.old.number }
        ensures told { IsTold (V.setting (clerk_view clerk.old).origin) (clerk_view clerk.old)
            (record { by = clerk.old.number; moment = moment; command = Command.Cancel action }) result
            (clerk_view clerk.new) }
        ensures stopped { IfErr result (λ r. r ≡ Refused Stopped → HasStopped V.origin V.history V.lawful V.has_stopped
            (clerk_view clerk.new)) }
    {
        self.tell(rt, clerk, moment, &Command::Cancel { action })
    }

    /// Cancels the action whose limit passed first, if any has (MicroProfile LRA 2.0, timeLimit).
    pub fn tick<R: Wait>(
        &self,
        rt: &R,
        clerk: &mut Clerk<V>,
        moment: u64,
    ) -> Result<Told, OfficeRefusal>
        requires { IsClerkOf self.now.lock V.covers clerk.old }
        ensures clerk { IsClerkOf self.now.lock V.covers clerk.new }
        ensures number { clerk.new.number ≡ clerk.old.number }
        ensures told { IsTold (V.setting (clerk_view clerk.old).origin) (clerk_view clerk.old)
            (record { by = clerk.old.number; moment = moment; command = Command.Tick }) result (clerk_view clerk.new) }
        ensures stopped { IfErr result (λ r. r ≡ Refused Stopped → HasStopped V.origin V.history V.lawful V.has_stopped
            (clerk_view clerk.new)) }
    {
        self.tell(rt, clerk, moment, &Command::Tick)
    }

    /// Records what a member reports of itself.
    pub fn report<R: Wait>(
        &self,
        rt: &R,
        clerk: &mut Clerk<V>,
        moment: u64,
        member: u64,
        ending: Ending,
    ) -> Result<Told, OfficeRefusal>
        requires { IsClerkOf self.now.lock V.covers clerk.old }
        ensures clerk { IsClerkOf self.now.lock V.covers clerk.new }
        ensures number { clerk.new.number ≡ clerk.old.number }
        ensures told { IsTold (V.setting (clerk_view clerk.old).origin) (clerk_view clerk.old)
            (record { by = clerk.old.number; moment = moment; command = Command.Report member ending }) result
            (clerk_view clerk.new) }
        ensures stopped { IfErr result (λ r. r ≡ Refused Stopped → HasStopped V.origin V.history V.lawful V.has_stopped
            (clerk_view clerk.new)) }
    {
        self.tell(rt, clerk, moment, &Command::Report { member, ending })
    }

    /// Makes every outstanding ask void.
    pub fn restart<R: Wait>(
        &self,
        rt: &R,
        clerk: &mut Clerk<V>,
        moment: u64,
    ) -> Result<Told, OfficeRefusal>
        requires { IsClerkOf self.now.lock V.covers clerk.old }
        ensures clerk { IsClerkOf self.now.lock V.covers clerk.new }
        ensures number { clerk.new.number ≡ clerk.old.number }
        ensures told { IsTold (V.setting (clerk_view clerk.old).origin) (clerk_view clerk.old)
            (record { by = clerk.old.number; moment = moment; command = Command.Restart }) result
            (clerk_view clerk.new) }
        ensures stopped { IfErr result (λ r. r ≡ Refused Stopped → HasStopped V.origin V.history V.lawful V.has_stopped
            (clerk_view clerk.new)) }
    {
        self.tell(rt, clerk, moment, &Command::Restart)
    }

    /// Sets the limit of an action anew, in milliseconds from now (MicroProfile LRA 2.0, timeLimit).
    pub fn renew<R: Wait>(
        &self,
        rt: &R,
        clerk: &mut Clerk<V>,
        moment: u64,
        action: u64,
        limit: u64,
    ) -> Result<Told, OfficeRefusal>
        requires { IsClerkOf self.now.lock V.covers clerk.old }
        ensures clerk { IsClerkOf self.now.lock V.covers clerk.new }
        ensures number { clerk.new.number ≡ clerk.old.number }
        ensures told { IsTold (V.setting (clerk_view clerk.old).origin) (clerk_view clerk.old)
            (record { by = clerk.old.number; moment = moment; command = Command.Renew action limit }) result
            (clerk_view clerk.new) }
        ensures stopped { IfErr result (λ r. r ≡ Refused Stopped → HasStopped V.origin V.history V.lawful V.has_stopped
            (clerk_view clerk.new)) }
    {
        self.tell(rt, clerk, moment, &Command::Renew { action, limit })
    }

    /// Returns the status of an action, at any moment.
    pub fn status<R: Wait>(
        &self,
        rt: &R,
        clerk: &mut Clerk<V>,
        action: u64,
    ) -> Result<Told, OfficeRefusal>
        requires { IsClerkOf self.now.lock V.covers clerk.old }
        ensures clerk { IsClerkOf self.now.lock V.covers clerk.new }
        ensures number { clerk.new.number ≡ clerk.old.number }
        ensures told { IsTold (V.setting (clerk_view clerk.old).origin) (clerk_view clerk.old)
            (record { by = clerk.old.number; moment = 0; command = Command.Status action }) result
            (clerk_view clerk.new) }
        ensures stopped { IfErr result (λ r. r ≡ Refused Stopped → HasStopped V.origin V.history V.lawful V.has_stopped
            (clerk_view clerk.new)) }
    {
        self.tell(rt, clerk, 0, &Command::Status { action })
    }

    /// Returns the status of a member, at any moment.
    pub fn member_status<R: Wait>(
        &self,
        rt: &R,
        clerk: &mut Clerk<V>,
        member: u64,
    ) -> Result<Told, OfficeRefusal>
        requires { IsClerkOf self.now.lock V.covers clerk.old }
        ensures clerk { IsClerkOf self.now.lock V.covers clerk.new }
        ensures number { clerk.new.number ≡ clerk.old.number }
        ensures told { IsTold (V.setting (clerk_view clerk.old).origin) (clerk_view clerk.old)
            (record { by = clerk.old.number; moment = 0; command = Command.MemberStatus member }) result
            (clerk_view clerk.new) }
        ensures stopped { IfErr result (λ r. r ≡ Refused Stopped → HasStopped V.origin V.history V.lawful V.has_stopped
            (clerk_view clerk.new)) }
    {
        self.tell(rt, clerk, 0, &Command::MemberStatus { member })
    }

    /// Writes the next ask, if one is due, and returns its errand, which carries the request and has to be spent.
    pub fn next_ask<R: Wait>(
        &self,
        rt: &R,
        clerk: &mut Clerk<V>,
        moment: u64,
    ) -> Result<Option<Errand>, OfficeRefusal>
        requires { IsClerkOf self.now.lock V.covers clerk.old }
        ensures clerk { IsClerkOf self.now.lock V.covers clerk.new }
        ensures number { clerk.new.number ≡ clerk.old.number }
        ensures errand { IsErrand (V.setting (clerk_view clerk.old).origin) (clerk_view clerk.old)
            (record { by = clerk.old.number; moment = moment; command = Command.NextAsk }) result
            (clerk_view clerk.new) }
        ensures stopped { IfErr result (λ r. r ≡ Refused Stopped → HasStopped V.origin V.history V.lawful V.has_stopped
            (clerk_view clerk.new)) }
    {
        let Committed { told: _, errand } = self.serve(rt, clerk, moment, &Command::NextAsk)?;
        Ok(errand)
    }

    /// Records the outcome of an ask. If that is refused, returns the errand.
    pub fn record<R: Wait>(
        &self,
        rt: &R,
        clerk: &mut Clerk<V>,
        moment: u64,
        errand: Errand,
        outcome: Outcome,
    ) -> Result<Told, (OfficeRefusal, Errand)>
        requires clerk { IsClerkOf self.now.lock V.covers clerk.old }
        requires suits { outcome_suits errand.kind outcome ≡ true }
        ensures clerk { IsClerkOf self.now.lock V.covers clerk.new }
        ensures number { clerk.new.number ≡ clerk.old.number }
        ensures recorded { IsRecorded (V.setting (clerk_view clerk.old).origin) (clerk_view clerk.old) clerk.old.number
            moment errand outcome result (clerk_view clerk.new) }
        ensures stopped { IfErr result (λ r. r.0 ≡ Refused Stopped → HasStopped V.origin V.history V.lawful
            V.has_stopped (clerk_view clerk.new)) }
    {
        match self.tell(
            rt,
            clerk,
            moment,
            &Command::Record {
                errand: &errand,
                outcome,
            },
        ) {
            Ok(told) => {
                errand.discard();
                Ok(told)
            }
            Err(refusal) => Err((refusal, errand)),
        }
    }
}
