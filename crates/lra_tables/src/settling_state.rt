//! The rows of a history with what settles it next.

ghost use Rattle.std.specs.Prelude.{◌≡◌, option_map};
ghost use Rattle.std.specs.Option.{option_or, option_and_then};
ghost use Rattle.lra_model.specs.declared.entry.Deed.TheVariants as deeds;
ghost use Rattle.lra_laws.specs.Settles.{turn_by, end_by};

use crate::settling_index::SettlingIndex;
use lra_model::{Deed, Entry, Memory};
use lra_rows::{PackedAddresses, Rows, Step};
use std::alloc::Global;
use std::marker::Model;

/// The rows of a history, and what settles it next, which is known without a walk.
#[derive(Drop)]
pub struct SettlingState {
    rows: Rows,
    settling_index: SettlingIndex,
}

impl Model for SettlingState {
    ghost use Rattle.std.specs.Prelude.{[]};
    ghost use Rattle.lra_tables.specs.inner.Boarded.{Boarded};
    ghost use Rattle.lra_tables.specs.inner.SettlingIndex.{MarkedBut};

    ghost Value = { Boarded };

    ghost view = { λ b. record {
      rows = b.rows;
      skips = b.settling_index.skips.room;
      turns = b.settling_index.turns.room;
      ends =
          b.settling_index.ends.room;
    } };

    ghost invariant = { λ b. MarkedBut b.rows.snapshot.state b.settling_index [] [] };
}

/// Returns what an action's parent does to it, if there is an action and its parent does anything.
fn turned(rows: &Rows, action: Option<u64>) -> Option<Deed>
    ensures { result ≡ option_and_then (turn_by rows.now.snapshot.state) action }
{
    match action {
        Some(action) => rows.by_parent(action),
        None => None,
    }
}

/// Returns the end of an action, if there is one and it may end.
fn ended(rows: &Rows, action: Option<u64>) -> Option<Deed>
    ensures { result ≡ option_and_then (end_by rows.now.snapshot.state) action }
{
    match action {
        Some(action) => rows.end(action),
        None => None,
    }
}

/// Returns the skip of a member; else what its parent does to an action; else the end of an action.
fn choose(rows: &Rows, skip: Option<u64>, turn: Option<u64>, end: Option<u64>) -> Option<Deed>
    ensures { result ≡ option_or (option_map deeds.Skip skip) (option_or
        (option_and_then (turn_by rows.now.snapshot.state) turn)
        (option_and_then (end_by rows.now.snapshot.state) end)) }
{
    if let Some(member) = skip {
        return Some(Deed::Skip { member });
    }
    match turned(rows, turn) {
        Some(deed) => Some(deed),
        None => ended(rows, end),
    }
}

impl SettlingState {
    ghost use Rattle.std.specs.Prelude.{◌≡◌, ◌++◌, ◌∷◌, [], true, false, OnOk, OnErr};
    ghost use Rattle.lra_model.specs.declared.entry.Entry.{Entry as EntryValue};
    ghost use Rattle.lra_model.specs.History.{History};
    ghost use Rattle.lra_model.specs.Rules.{allows};
    ghost use Rattle.lra_model.specs.Settling.{next_settling};
    ghost use Rattle.lra_laws.specs.Snapshots.{StandsFor, Follows};
    ghost use Rattle.lra_rows.specs.Rowed.{addresses_joined};
    ghost use Rattle.lra_rows.specs.Steps.{addresses_back};
    ghost use Rattle.lra_tables.specs.inner.Boarded.{has_room, carried, uncarried, CameBy};

    /// Returns the settling state of no entries.
    pub fn empty(alloc: Global) -> SettlingState
        ensures { StandsFor result.rows.snapshot [] }
    {
        SettlingState {
            rows: Rows::empty(alloc),
            settling_index: SettlingIndex::new(alloc),
        }
    }

    pub fn rows(&self) -> &Rows
        ensures { result.now ≡ self.now.rows }
    {
        &self.rows
    }

    /// Makes room for one more entry: it can then be applied with no memory. What could be applied before still can.
    pub fn reserve(&mut self, entry: &Entry) -> Result<(), Memory>
        ensures same { self.new.rows.snapshot ≡ self.old.rows.snapshot }
        ensures ok { OnOk result (has_room entry.now self.new ≡ true) }
        ensures err { OnErr result (has_room entry.now self.old ≡ false) }
        ensures kept { (e : EntryValue) → has_room e self.old ≡ true → has_room e self.new ≡ true }
    {
        self.rows.reserve(entry)?;
        self.settling_index.reserve(&entry.deed)
    }

    /// Applies one more entry, which is allowed after those that the rows stand for, and has room: this takes no
    /// memory. The addresses of a member that joins are handed in. Returns the step that undoes the entry.
    pub fn carry(&mut self, entry: &Entry, uris: Option<PackedAddresses>) -> Step
        requires follows { Follows self.old.rows.snapshot entry.now }
        requires room { has_room entry.now self.old ≡ true }
        requires uris { uris ≡ addresses_joined entry.now.deed }
        ensures carried { self.new ≡ carried entry.now self.old }
        ensures stands { (J : History) (h : StandsFor self.old.rows.snapshot J)
            → allows h.version h.is_address J entry.now
            ≡ true → StandsFor self.new.rows.snapshot (J ++ entry.now ∷ []) }
        ensures back { uncarried entry.now result self.new ≡ self.old }
        ensures uris { addresses_back result self.new.rows ≡ addresses_joined entry.now.deed }
    {
        let step = self.rows.carry(entry, uris);
        self.settling_index.grow(&entry.deed);
        self.settling_index.mark(&self.rows, &entry.deed);
        step
    }

    /// Undoes the entry that was applied last, by its step, and returns the addresses of the member that joined by it:
    /// all is as before the entry, and there is the room that there was. This takes no memory.
    pub fn undo(&mut self, entry: &Entry, step: Step) -> Option<PackedAddresses>
        requires { CameBy entry.now step self.old }
        ensures back { self.new ≡ uncarried entry.now step self.old }
        ensures uris { result ≡ addresses_back step self.old.rows }
    {
        let uris = self.rows.undo(step);
        self.settling_index.shrink(&entry.deed);
        self.settling_index.mark(&self.rows, &entry.deed);
        uris
    }

    /// Returns what a coordinator does next of itself: the skip of the least member that may be skipped; else what the
    /// parent does to the least action to which a parent does anything; else the end of the greatest action that may
    /// end.
    pub fn next_settling(&self) -> Option<Deed>
        ensures { (J : History) → StandsFor self.now.rows.snapshot J → result ≡ next_settling J }
    {
        choose(
            &self.rows,
            self.settling_index.skips.first(),
            self.settling_index.turns.first(),
            self.settling_index.ends.first(),
        )
    }
}
