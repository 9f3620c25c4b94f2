//! Enrolling the clerks of an office.

ghost use Rattle.std.specs.Prelude.{◌≡◌, ℕ, IfOk, IfErr};
ghost use Rattle.lra_commands.specs.declared.command.Told.TheVariants.{Clerk as ToldClerk};
ghost use Rattle.lra_commands.specs.declared.refusal.Refusal.TheVariants.{Stopped};
ghost use Rattle.lra_ticket.specs.Locks.{lock_id, pass_id, pass_view};
ghost use Rattle.lra_office.specs.Clerks.{clerk_view, IsClerkOf};
ghost use Rattle.lra_office.specs.Stops.{HasStopped};
ghost use Rattle.lra_office.specs.declared.fault.OfficeRefusal.TheVariants.{Refused};
ghost use Rattle.lra_ticket.specs.Views.{newcomer};
ghost use Rattle.lra_office.specs.Enrolled.{enrolment, IsEnrolled, IsNotEnrolled};
ghost use Rattle.lra_office.specs.Orders.{IsNotGiven};

use crate::clerk::Clerk;
use crate::fault::OfficeRefusal;
use crate::locked_service::LockedService;
use crate::office::OfficeOf;
use crate::trying::told_alone;
use lra_commands::Told;
use lra_core::Command;
use lra_ticket::Pass;
use std::sync::Wait;

/// Returns a new clerk's number, from the answer to its enrolment.
pub(crate) fn told_number(told: Told) -> u32
    requires { (n : ℕ) × (told ≡ ToldClerk n) }
    ensures { told ≡ ToldClerk result }
{
    let Told::Clerk(number) = told else {
        unreachable!();
    };
    number
}

impl<V: LockedService> OfficeOf<V> {
    /// Enrols a clerk, under a number that no entry bore. Refused where there are too many clerks or entries.
    pub fn clerk<R: Wait>(
        &self,
        rt: &R,
        pass: Pass<V>,
        moment: u64,
    ) -> Result<Clerk<V>, (Pass<V>, OfficeRefusal)>
        requires lock { pass_id pass ≡ lock_id self.now.lock }
        requires newcomer { (pass_view pass).number ≡ 0 }
        ensures clerk { IfOk result (IsClerkOf self.now.lock V.covers) }
        ensures enrolled { IfOk result (λ clerk. IsEnrolled (V.setting (pass_view pass).origin) (pass_view pass) moment
            clerk.number (clerk_view clerk)) }
        ensures same_lock { IfErr result (λ refused. pass_id refused.0 ≡ lock_id self.now.lock) }
        ensures refused { IfErr result (λ refused. IsNotGiven (V.setting (pass_view pass).origin) (pass_view pass)
            (enrolment moment) refused.1 (pass_view refused.0)) }
        ensures stopped { IfErr result (λ refused. refused.1 ≡ Refused Stopped
            → HasStopped V.origin V.history V.lawful V.has_stopped (pass_view refused.0)) }
    {
        let mut position = 0;
        let (pass, given) = self.give(rt, pass, 0, moment, &Command::Enrol, &mut position);
        match given {
            Ok(committed) => Ok(Clerk {
                number: told_number(told_alone(committed)),
                position,
                pass: Some(pass),
            }),
            Err(refusal) => Err((pass, refusal)),
        }
    }

    /// Enrols another clerk by one that is lent, which stays as it is, whether the enrolment is refused or not.
    pub fn enrol_beside<R: Wait>(
        &self,
        rt: &R,
        clerk: &mut Clerk<V>,
        moment: u64,
    ) -> Result<Clerk<V>, OfficeRefusal>
        requires { IsClerkOf self.now.lock V.covers clerk.old }
        ensures clerk { IsClerkOf self.now.lock V.covers clerk.new }
        ensures number { clerk.new.number ≡ clerk.old.number }
        ensures same { clerk_view clerk.new ≡ clerk_view clerk.old }
        ensures other { IfOk result (IsClerkOf self.now.lock V.covers) }
        ensures enrolled { IfOk result (λ other. IsEnrolled (V.setting (clerk_view clerk.old).origin)
            (newcomer (clerk_view clerk.old)) moment other.number (clerk_view other)) }
        ensures refused { IfErr result (IsNotEnrolled (V.setting (clerk_view clerk.old).origin)
            (newcomer (clerk_view clerk.old)) moment) }
    {
        let pass = clerk.take_pass();
        let (first, second) = self.lock.split(pass);
        clerk.pass = Some(first);
        match self.clerk(rt, second, moment) {
            Ok(other) => Ok(other),
            Err((pass, refusal)) => {
                drop(pass);
                Err(refusal)
            }
        }
    }
}
