//! Reasons why operators get no answer.

use lra_commands::{CounterFault, Refusal};
use std::alloc::{AllocError, AllocFailed};
use thiserror::Error;

/// Why operators aren't told what they ask.
#[derive(Clone, Copy, Debug, PartialEq, Eq, Error)]
pub enum Trouble {
    /// The coordinator refused it.
    #[error("{0}")]
    Refused(Refusal),
    /// Nothing can be asked any more.
    #[error("the counter is worn")]
    Worn,
    /// There is no journal of that instance.
    #[error("no such journal")]
    NoSuchJournal,
}

impl From<CounterFault> for Trouble {
    fn from(fault: CounterFault) -> Trouble {
        match fault {
            CounterFault::Refused(refusal) => Trouble::Refused(refusal),
            CounterFault::Worn => Trouble::Worn,
        }
    }
}

impl From<AllocError> for Trouble {
    fn from(_error: AllocError) -> Trouble {
        Trouble::Refused(Refusal::Memory)
    }
}

impl<T: Drop> From<AllocFailed<T>> for Trouble {
    fn from(_error: AllocFailed<T>) -> Trouble {
        Trouble::Refused(Refusal::Memory)
    }
}
