//! The entries that a command would append.

ghost use Rattle.std.specs.Prelude.{◌≡◌};

use lra_model::Entry;
use lra_rows::PackedAddresses;
use std::marker::Model;

/// An entry and all that settles after it, before any of it is appended. Dropping a plan changes nothing.
#[derive(Drop)]
pub struct Plan {
    pub(crate) entries: Vec<Entry>,
    pub(crate) members: Vec<u64>,
    pub(crate) actions: Vec<u64>,
    /// The addresses of the member that joins, for the tables to keep.
    pub(crate) uris: Option<PackedAddresses>,
}

impl Model for Plan {
    ghost use Rattle.lra_tables.specs.Plans.{Planned};
    ghost use Rattle.lra_tables.specs.inner.Adopting.{HasAddresses};

    ghost Value = { Planned };

    ghost view = { λ p. record { entries = p.entries.items; members = p.members.items; actions = p.actions.items } };

    ghost invariant = { λ p. HasAddresses p.entries.items p.uris };
}

impl Plan {
    /// Returns the entries that are to come, in order.
    pub fn entries(&self) -> &[Entry]
        ensures { result.now ≡ self.now.entries }
    {
        self.entries.as_slice()
    }

    /// Returns the members whose wants the entries may change: all others want what they want now.
    pub fn members(&self) -> &[u64]
        ensures { result.now ≡ self.now.members }
    {
        self.members.as_slice()
    }

    /// Returns the actions whose deadlines the entries may change.
    pub fn actions(&self) -> &[u64]
        ensures { result.now ≡ self.now.actions }
    {
        self.actions.as_slice()
    }
}
