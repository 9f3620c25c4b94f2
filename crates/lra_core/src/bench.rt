//! A coordinator of its own, as a counter.

ghost use Rattle.std.specs.Prelude.{◌≡◌};
ghost use Rattle.lra_core.specs.inner.Replied.{replied};

use crate::coordinator::Coordinator;
use lra_commands::{Counter, CounterFault, Order, Refusal, Session, Told};
use lra_ids::{Base, Instance};
use std::marker::Model;

/// A coordinator, with the number of the clerk that gives it orders. Nothing else writes its history, so the counter
/// sees all of it.
#[derive(Drop)]
pub struct Bench {
    coordinator: Coordinator,
    number: u32,
}

impl Model for Bench {
    ghost use Rattle.lra_core.specs.Benches.{Benched};

    ghost Value = { Benched };

    ghost view = { λ b. record { coordinator = b.coordinator; number = b.number } };
}

impl Bench {
    /// Makes the counter of a clerk at a coordinator.
    pub fn new(coordinator: Coordinator, by: u32) -> Bench
        ensures coordinator { result.coordinator ≡ coordinator }
        ensures number { result.number ≡ by }
    {
        Bench {
            coordinator,
            number: by,
        }
    }

    /// Returns the coordinator, as it is.
    pub fn into_coordinator(self) -> Coordinator
        ensures { result ≡ self.coordinator }
    {
        self.coordinator
    }
}

/// Returns a coordinator's answer as a reply.
fn reply_of(answer: Result<Told, Refusal>) -> Result<Told, CounterFault>
    ensures { result ≡ replied answer }
{
    match answer {
        Ok(told) => Ok(told),
        Err(refusal) => Err(CounterFault::Refused(refusal)),
    }
}

impl Counter for Bench {
    ghost use Rattle.lra_commands.specs.Counters.{OwnsHistory};
    ghost use Rattle.lra_commands.specs.inner.Owned.{owns_keeps};
    ghost use Rattle.lra_core.specs.Benches.{sight_of};

    ghost sight = { sight_of };

    ghost gives = { OwnsHistory };

    ghost keeps = { owns_keeps };

    fn instance(&self) -> Instance {
        self.coordinator.instance()
    }

    fn base(&self) -> &Base {
        self.coordinator.base()
    }

    fn give(&mut self, moment: u64, order: &Order<'_>) -> Result<Told, CounterFault> {
        self.coordinator.lawful();
        let answer = self.coordinator.tell(self.number, moment, &order.command());
        self.coordinator.lawful();
        reply_of(answer)
    }
}

impl Session for Bench {
    ghost use Rattle.std.specs.Prelude.{true};

    // It has no journal.
    ghost covers = { λ _ _. true };

    fn position(&self) -> u64 {
        0
    }
}
