//! Room for one more entry.

ghost use Rattle.std.specs.Prelude.{◌≡◌, ◌^◌, true, false, ℕ, nat_lt, OnOk, OnErr, vec_capacity};
ghost use Rattle.std.specs.Option.{option_map_or};
ghost use Rattle.lra_rows.specs.inner.Nested.{nestings_in, has_place_at};
ghost use Rattle.lra_rows.specs.declared.nesting.Listed.{Listed};

use crate::asks::NARROW;
use crate::carry::top_of;
use crate::endpoint::is_undecided;
use crate::lists::{lent, place_of, reserve_one, takes_one};
use crate::nesting::{Listed, Nesting};
use crate::rows::Rows;
use lra_model::{Deed, Entry, Memory, Outcome};

/// Returns whether there is room for one more number in a list of an action, if the action is there.
fn has_place_at(nestings: &[Nesting], list: Listed, action: u64) -> bool
    ensures { result ≡ has_place_at list action nestings.now }
{
    match lent(nestings, action) {
        Some(nesting) => nesting.has_place(list),
        None => true,
    }
}

/// Makes room for one more number in a list of an action, if the action is there.
fn reserve_at(nestings: &mut Vec<Nesting>, list: Listed, action: u64) -> Result<(), Memory>
    ensures same { nestings_in nestings.new.items ≡ nestings_in nestings.old.items }
    ensures capacity { vec_capacity nestings.new ≡ vec_capacity nestings.old }
    ensures ok { OnOk result (has_place_at list action nestings.new.items ≡ true) }
    ensures kept { (l : Listed) (a : ℕ) → has_place_at l a nestings.old.items ≡ true
        → has_place_at l a nestings.new.items
        ≡ true }
{
    let Some(place) = place_of(action) else {
        return Ok(());
    };
    match nestings.get_mut(place) {
        Some(nesting) => nesting.reserve(list),
        None => Ok(()),
    }
}

impl Rows {
    ghost use Rattle.std.specs.Prelude.{◌≡◌, ℕ, true, false, OnOk, OnErr};
    ghost use Rattle.lra_model.specs.declared.entry.Deed.TheVariants as deeds;
    ghost use Rattle.lra_model.specs.declared.asks.AskKind.{AskKind};
    ghost use Rattle.lra_model.specs.declared.entry.Entry.{Entry};
    ghost use Rattle.lra_model.specs.Addresses.{Addresses};
    ghost use Rattle.lra_rows.specs.Rowed.{deed_has_room, has_room};
    ghost use Rattle.lra_rows.specs.inner.Room.{Keeps};

    fn start_has_room(&self, parent: Option<u64>) -> bool
        ensures { (a limit : ℕ) → result ≡ deed_has_room (deeds.Start a parent limit) self.now }
    {
        let room_for_child = match parent {
            Some(parent) => has_place_at(&self.nestings, Listed::Children, parent),
            None => true,
        };
        takes_one(&self.actions) && takes_one(&self.nestings) && room_for_child
    }

    fn join_has_room(&self, action: u64) -> bool
        ensures { (p : ℕ) (uris : Addresses) → result ≡ deed_has_room (deeds.Join p action uris) self.now }
    {
        takes_one(&self.members)
            && self.endpoints.take_one()
            && has_place_at(&self.nestings, Listed::Members, action)
            && has_place_at(&self.nestings, Listed::Under, top_of(&self.actions, action))
    }

    fn reply_has_room(&self, ask: u64, outcome: Outcome) -> bool
        ensures { result ≡ deed_has_room (deeds.Reply ask outcome) self.now }
    {
        if !is_undecided(outcome) {
            return true;
        }
        match self.asks.at(ask) {
            Some(asked) => self.endpoints.is_ready(asked.member),
            None => true,
        }
    }

    fn deed_has_room(&self, deed: &Deed) -> bool
        ensures { result ≡ deed_has_room deed.now self.now }
    {
        match deed {
            Deed::Start { parent, .. } => self.start_has_room(*parent),
            Deed::Join { action, .. } => self.join_has_room(*action),
            Deed::Ask { member, .. } => self.asks.take_one() && *member < NARROW,
            Deed::Reply { ask, outcome } => self.reply_has_room(*ask, *outcome),
            _ => true,
        }
    }

    /// Returns whether an entry can be applied with no memory: there are less than 2^63 entries, each list that it adds
    /// to takes one more, repeats have a place that it adds to, and a member that it asks has a number below 2^32.
    pub fn has_room(&self, entry: &Entry) -> bool
        ensures { result ≡ has_room entry.now self.now }
    {
        self.entries < 1 << 63 && self.deed_has_room(&entry.deed)
    }

    fn reserve_start(&mut self, parent: Option<u64>) -> Result<(), Memory>
        ensures snapshot { self.new.snapshot ≡ self.old.snapshot }
        ensures ok { OnOk result ((a limit : ℕ) → deed_has_room (deeds.Start a parent limit) self.new ≡ true) }
        ensures kept { Keeps self.old self.new }
    {
        reserve_one(&mut self.actions)?;
        reserve_one(&mut self.nestings)?;
        match parent {
            Some(parent) => reserve_at(&mut self.nestings, Listed::Children, parent),
            None => Ok(()),
        }
    }

    fn reserve_join(&mut self, action: u64) -> Result<(), Memory>
        ensures snapshot { self.new.snapshot ≡ self.old.snapshot }
        ensures ok { OnOk result ((p : ℕ) (uris : Addresses) → deed_has_room (deeds.Join p action uris) self.new
            ≡ true) }
        ensures kept { Keeps self.old self.new }
    {
        reserve_one(&mut self.members)?;
        self.endpoints.reserve_one()?;
        reserve_at(&mut self.nestings, Listed::Members, action)?;
        reserve_at(
            &mut self.nestings,
            Listed::Under,
            top_of(&self.actions, action),
        )
    }

    fn reserve_ask(&mut self, member: u64) -> Result<(), Memory>
        ensures snapshot { self.new.snapshot ≡ self.old.snapshot }
        ensures ok { OnOk result ((n : ℕ) (kind : AskKind) → deed_has_room (deeds.Ask n member kind) self.new ≡ true) }
        ensures kept { Keeps self.old self.new }
    {
        if member >= NARROW {
            return Err(Memory);
        }
        self.asks.reserve_one()
    }

    fn reserve_reply(&mut self, ask: u64, outcome: Outcome) -> Result<(), Memory>
        ensures snapshot { self.new.snapshot ≡ self.old.snapshot }
        ensures ok { OnOk result (deed_has_room (deeds.Reply ask outcome) self.new ≡ true) }
        ensures kept { Keeps self.old self.new }
    {
        if !is_undecided(outcome) {
            return Ok(());
        }
        match self.asks.at(ask) {
            Some(asked) => self.endpoints.make_ready(self.alloc, asked.member),
            None => Ok(()),
        }
    }

    fn reserve_deed(&mut self, deed: &Deed) -> Result<(), Memory>
        ensures snapshot { self.new.snapshot ≡ self.old.snapshot }
        ensures ok { OnOk result (deed_has_room deed.now self.new ≡ true) }
        ensures kept { Keeps self.old self.new }
    {
        match deed {
            Deed::Start { parent, .. } => self.reserve_start(*parent),
            Deed::Join { action, .. } => self.reserve_join(*action),
            Deed::Ask { member, .. } => self.reserve_ask(*member),
            Deed::Reply { ask, outcome } => self.reserve_reply(*ask, *outcome),
            _ => Ok(()),
        }
    }

    /// Makes room for one more entry: it can then be applied with no memory. What could be applied before still can,
    /// and where the entry could be, nothing changes. `Memory` where there is none for it, where there are 2^63
    /// entries, or where a member from 2^32 on is asked.
    pub fn reserve(&mut self, entry: &Entry) -> Result<(), Memory>
        ensures snapshot { self.new.snapshot ≡ self.old.snapshot }
        ensures ok { OnOk result (has_room entry.now self.new ≡ true) }
        ensures err { OnErr result (has_room entry.now self.old ≡ false) }
        ensures kept { (e : Entry) → has_room e self.old ≡ true → has_room e self.new ≡ true }
        ensures same { has_room entry.now self.old ≡ true → self.new ≡ self.old }
    {
        if self.has_room(entry) {
            return Ok(());
        }
        if self.entries >= 1 << 63 {
            return Err(Memory);
        }
        self.reserve_deed(&entry.deed)
    }
}
