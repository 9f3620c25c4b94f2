//! The journals of a registry that are near their end.

ghost use Rattle.std.specs.Prelude.{◌≡◌};

use crate::journal_registry::JournalRegistry;
use lra_capacity::CapacitySource;
use lra_model::Instance;
use std::sync::Wait;

/// Reserve of a registry: it finds which of the journals are near their end.
#[derive(Drop)]
pub struct Reservations<'s, 'a, R, B> {
    rt: &'a R,
    journal_registry: &'s JournalRegistry<B>,
}

impl<'s, 'a, R, B> Reservations<'s, 'a, R, B> {
    pub fn new(rt: &'a R, journal_registry: &'s JournalRegistry<B>) -> Reservations<'s, 'a, R, B>
        ensures { (result.rt ≡ rt.entry) × (result.journal_registry ≡ journal_registry.entry) }
    {
        Reservations {
            rt,
            journal_registry,
        }
    }
}

impl<R: Wait, B: Drop> CapacitySource for Reservations<'_, '_, R, B> {
    // Journals may grow at any time, so the contract says nothing of the result.
    ghost tells = { λ named told. Unit {0} };

    fn has_any(&self) -> bool {
        self.journal_registry.has_reserved()
    }

    fn near_end(&self, named: Option<Instance>) -> Option<Instance> {
        match named {
            Some(instance) if self.journal_registry.is_reserved(self.rt, instance) => Some(
                instance,
            ),
            Some(_) => None,
            None => self.journal_registry.reserved_newest(self.rt),
        }
    }
}
