//! An office as counters see it: its coordinator's instance and base, and orders of its clerks.

ghost use Rattle.std.specs.Prelude.{◌≡◌};
ghost use Rattle.lra_office.specs.Clerks.{clerk_view, IsClerkOf, sight_of};
ghost use Rattle.lra_office.specs.Stops.{KeepsInTurn};
ghost use Rattle.lra_office.specs.inner.Given.{fault_of};

use crate::clerk::Clerk;
use crate::fault::OfficeRefusal;
use crate::locked_service::LockedService;
use crate::office::OfficeOf;
use lra_commands::{CounterFault, Order, Told};
use lra_ids::{Base, Instance};
use std::sync::Wait;

fn fault_of(refusal: OfficeRefusal) -> CounterFault
    ensures { result ≡ fault_of refusal }
{
    match refusal {
        OfficeRefusal::Refused(refusal) => CounterFault::Refused(refusal),
        OfficeRefusal::Worn => CounterFault::Worn,
    }
}

impl<V: LockedService> OfficeOf<V> {
    /// Returns the instance of its coordinator.
    pub fn instance(&self) -> Instance
        ensures { result ≡ self.now.instance }
    {
        self.instance
    }

    /// Returns the base of its coordinator's identifiers.
    pub fn base(&self) -> &Base
        ensures { result.now ≡ self.now.base }
    {
        &self.base
    }

    /// Waits for the lock, and gives an order of a clerk, as a counter does.
    pub fn give_order<R: Wait>(
        &self,
        rt: &R,
        clerk: &mut Clerk<V>,
        moment: u64,
        order: &Order<'_>,
    ) -> Result<Told, CounterFault>
        requires { IsClerkOf self.now.lock V.covers clerk.old }
        ensures clerk { IsClerkOf self.now.lock V.covers clerk.new }
        ensures number { clerk.new.number ≡ clerk.old.number }
        ensures origin { (clerk_view clerk.new).origin ≡ (clerk_view clerk.old).origin }
        ensures given { KeepsInTurn V.setting V.origin V.history V.lawful V.has_stopped (sight_of V.setting clerk.old)
            moment order.now result (sight_of V.setting clerk.new) }
    {
        match self.tell(rt, clerk, moment, &order.command()) {
            Ok(told) => Ok(told),
            Err(refusal) => Err(fault_of(refusal)),
        }
    }
}
