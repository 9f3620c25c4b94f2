//! An entry with all that settles after it, applied to look ahead, and then undone.

ghost use Rattle.std.specs.Prelude.{
  ◌≡◌,
  ℕ,
  List,
  ◌∷◌,
  ◌++◌,
  [],
  true,
  ◌<◌,
  vec_len,
  vec_capacity,
  OnOk,
  IfSome,
  nat_lt,
  ◌^◌,
};
ghost use Rattle.lra_tables.specs.inner.UndoLog.{IsUndoLog, Going, SettlesTo};

use crate::settling_state::SettlingState;
use lra_model::{Deed, Entry, Memory};
use lra_rows::{PackedAddresses, Step, copy_joined};
use std::alloc::Global;

/// An entry with all that settles after it, and the addresses of the member that joins by the entry.
#[derive(Drop)]
pub struct Lookahead {
    pub entries: Vec<Entry>,
    pub uris: Option<PackedAddresses>,
}

/// Entries that were applied one after another, and the steps that undo them.
#[derive(Drop)]
struct UndoLog {
    entries: Vec<Entry>,
    steps: Vec<Step>,
}

impl UndoLog {
    ghost use Rattle.std.specs.Prelude.{◌≡◌, ◌<◌, [], vec_len, vec_capacity, OnOk};

    fn new(alloc: Global) -> UndoLog
        ensures entries { result.entries.items ≡ [] }
        ensures steps { result.steps.items ≡ [] }
    {
        UndoLog {
            entries: Vec::new(alloc),
            steps: Vec::new(alloc),
        }
    }

    /// Makes room for one more entry.
    fn reserve(&mut self) -> Result<(), Memory>
        ensures entries { self.new.entries.items ≡ self.old.entries.items }
        ensures steps { self.new.steps.items ≡ self.old.steps.items }
        ensures entry_room { OnOk result (vec_len self.new.entries < vec_capacity self.new.entries) }
        ensures step_room { OnOk result (vec_len self.new.steps < vec_capacity self.new.steps) }
    {
        self.entries.reserve(1)?;
        self.steps.reserve(1)?;
        Ok(())
    }

    fn push(&mut self, entry: Entry, step: Step)
        requires entries { vec_len self.old.entries < vec_capacity self.old.entries }
        requires steps { vec_len self.old.steps < vec_capacity self.old.steps }
        ensures entries { self.new.entries.items ≡ self.old.entries.items ++ entry ∷ [] }
        ensures steps { self.new.steps.items ≡ self.old.steps.items ++ step ∷ [] }
    {
        self.entries.push_reserved(entry);
        self.steps.push_reserved(step);
    }
}

impl SettlingState {
    ghost use Rattle.std.specs.Prelude.{
      ◌≡◌,
      ◌∷◌,
      ◌++◌,
      [],
      true,
      ◌<◌,
      vec_len,
      vec_capacity,
      length,
      nat_lt,
      slice_get,
      ◌^◌,
      OnOk,
      IfOk,
      Some,
      List,
      ℕ,
      Bool,
    };
    ghost use Rattle.lra_model.specs.declared.version.Version.{Version};
    ghost use Rattle.lra_model.specs.History.{History};
    ghost use Rattle.lra_model.specs.Settling.{next_settling, most_settling, with_settling};
    ghost use Rattle.lra_model.specs.Rules.{is_legal, allows};
    ghost use Rattle.lra_model.specs.declared.entry.Entry.{Entry as EntryValue};
    ghost use Rattle.lra_laws.specs.Snapshots.{StandsFor, Follows};
    ghost use Rattle.lra_rows.specs.Rowed.{addresses_joined};
    ghost use Rattle.lra_tables.specs.inner.Boarded.{Boarded, has_room, carried, uncarried, CameBy};
    ghost use Rattle.lra_tables.specs.inner.UndoLog.{IsUndoLog, HasUndoLog, MayGoOn, GoesOn, Going, SettlesTo};

    /// Applies an entry, for which the undo log has room.
    fn follow(&mut self, undo_log: &mut UndoLog, entry: Entry, uris: Option<PackedAddresses>)
        requires follows { Follows self.old.rows.snapshot entry }
        requires room { has_room entry self.old ≡ true }
        requires uris { uris ≡ addresses_joined entry.deed }
        requires entries { vec_len undo_log.old.entries < vec_capacity undo_log.old.entries }
        requires steps { vec_len undo_log.old.steps < vec_capacity undo_log.old.steps }
        ensures carried { self.new ≡ carried entry self.old }
        ensures entries { undo_log.new.entries.items ≡ undo_log.old.entries.items ++ entry ∷ [] }
        ensures undo_log { (b : Boarded) → IsUndoLog b undo_log.old.entries.items undo_log.old.steps.items self.old
            → IsUndoLog b undo_log.new.entries.items undo_log.new.steps.items self.new }
    {
        let step = self.carry(&entry, uris);
        undo_log.push(entry, step);
    }

    /// Undoes all entries of an undo log, the last one first, and returns the addresses of the member that joined by
    /// the first of them.
    fn go_back(&mut self, undo_log: &UndoLog) -> Option<PackedAddresses>
        requires { HasUndoLog undo_log.now.entries.items undo_log.now.steps.items self.old }
        ensures back { (b : Boarded) → IsUndoLog b undo_log.now.entries.items undo_log.now.steps.items self.old
            → self.new ≡ b }
        ensures uris { (e : EntryValue) → slice_get undo_log.now.entries.items 0 ≡ Some e → result
            ≡ addresses_joined e.deed }
    {
        let mut uris = None;
        for place in (0..undo_log.steps.len()).rev() {
            uris = self.undo(&undo_log.entries[place], undo_log.steps[place]);
        }
        uris
    }

    /// Checks that one more entry can be counted.
    fn count_one(&self) -> Result<(), Memory>
        ensures { OnOk result ((K : History) → StandsFor self.now.rows.snapshot K → nat_lt (length K) (2 ^ 63) ≡ true) }
    {
        if self.rows().count_entries() < 1 << 63 {
            Ok(())
        } else {
            Err(Memory)
        }
    }

    /// Returns how many entries can settle at most; `Memory` where they can't be counted.
    fn most_settling(&self) -> Result<u64, Memory>
        ensures { IfOk result (λ n. (K : History) → StandsFor self.now.rows.snapshot K → n ≡ most_settling K) }
    {
        let members = self.rows().count_members();
        let turns = self.rows().count_actions().checked_mul(4);
        match turns.and_then(|turns| turns.checked_add(members)) {
            Some(most) => Ok(most),
            None => Err(Memory),
        }
    }

    /// Applies the deed that settles next.
    fn settle_next(
        &mut self,
        by: u32,
        moment: u64,
        deed: Deed,
        undo_log: &mut UndoLog,
    ) -> Result<(), Memory>
        requires { GoesOn self.old by moment deed }
        ensures entries { OnOk result (undo_log.new.entries.items ≡ undo_log.old.entries.items
            ++ record { by = by; moment = moment; deed = deed } ∷ []) }
        ensures goes { OnOk result ((K : History) → MayGoOn self.old K by moment → Some deed ≡ next_settling K
            → MayGoOn self.new (K ++ record { by = by; moment = moment; deed = deed } ∷ []) by moment) }
        ensures undo_log { (b : Boarded) → IsUndoLog b undo_log.old.entries.items undo_log.old.steps.items self.old
            → IsUndoLog b undo_log.new.entries.items undo_log.new.steps.items self.new }
    {
        undo_log.reserve()?;
        self.count_one()?;
        self.follow(undo_log, Entry { by, moment, deed }, None);
        Ok(())
    }

    /// Applies all that settles, at most so many entries.
    fn settle_all(
        &mut self,
        by: u32,
        moment: u64,
        most: u64,
        undo_log: &mut UndoLog,
    ) -> Result<(), Memory>
        requires { Going self.old by moment }
        ensures whole { OnOk result ((J : History) (whole : List EntryValue)
            → SettlesTo J by moment most self.old undo_log.old.entries.items whole → undo_log.new.entries.items
            ≡ whole) }
        ensures undo_log { (b : Boarded) → IsUndoLog b undo_log.old.entries.items undo_log.old.steps.items self.old
            → IsUndoLog b undo_log.new.entries.items undo_log.new.steps.items self.new }
    {
        for done in 0..most {
            let Some(deed) = self.next_settling() else {
                return Ok(());
            };
            self.settle_next(by, moment, deed, undo_log)?;
        }
        Ok(())
    }

    fn settle_rest(&mut self, by: u32, moment: u64, undo_log: &mut UndoLog) -> Result<(), Memory>
        requires { Going self.old by moment }
        ensures whole { OnOk result ((J : History) (e : EntryValue) (v : Version) (t : List ℕ → Bool) → is_legal v t J
            ≡ true → allows v t J e ≡ true → StandsFor self.old.rows.snapshot (J ++ e ∷ []) → by ≡ e.by → moment
            ≡ e.moment
            → undo_log.old.entries.items ≡ e ∷ [] → undo_log.new.entries.items ≡ with_settling J e) }
        ensures undo_log { (b : Boarded) → IsUndoLog b undo_log.old.entries.items undo_log.old.steps.items self.old
            → IsUndoLog b undo_log.new.entries.items undo_log.new.steps.items self.new }
    {
        let most = self.most_settling()?;
        self.settle_all(by, moment, most, undo_log)
    }

    /// Returns an entry that is allowed now, and all that settles after it, with the addresses of the member that joins
    /// by it. Makes room for the entry. The rows stay as they are, also where memory was refused.
    pub fn plan(&mut self, entry: Entry, alloc: Global) -> Result<Lookahead, Memory>
        requires { Follows self.old.rows.snapshot entry }
        ensures same { self.new.rows.snapshot ≡ self.old.rows.snapshot }
        ensures kept { (e : EntryValue) → has_room e self.old ≡ true → has_room e self.new ≡ true }
        ensures room { OnOk result (has_room entry self.new ≡ true) }
        ensures entries { IfOk result (λ a. (J : History) (h : StandsFor self.old.rows.snapshot J)
            → allows h.version h.is_address J entry ≡ true → a.entries.items ≡ with_settling J entry) }
        ensures uris { IfOk result (λ a. a.uris ≡ addresses_joined entry.deed) }
    {
        let uris = copy_joined(alloc, &entry)?;
        let mut undo_log = UndoLog::new(alloc);
        undo_log.reserve()?;
        self.reserve(&entry)?;
        let by = entry.by;
        let moment = entry.moment;
        self.follow(&mut undo_log, entry, uris);
        let result = self.settle_rest(by, moment, &mut undo_log);
        let uris = self.go_back(&undo_log);
        result?;
        Ok(Lookahead {
            entries: undo_log.entries,
            uris,
        })
    }
}
