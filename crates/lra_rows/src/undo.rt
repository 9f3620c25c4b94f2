//! The undoing of entries that were applied.

ghost use Rattle.std.specs.Prelude.{◌≡◌, vec_capacity};
ghost use Rattle.lra_laws.specs.Rows.{change_row};
ghost use Rattle.lra_rows.specs.inner.Nested.{without_number};

use crate::lists::{place_of, remove_last, restore};
use crate::nesting::{Listed, Nesting};
use crate::packed_addresses::PackedAddresses;
use crate::rows::Rows;
use crate::step::{Added, Counts, Step, Writes};

/// Removes the last number of a list of an action, if the action is there.
fn remove_at(nestings: &mut Vec<Nesting>, list: Listed, action: u64)
    ensures items { nestings.new.items ≡ change_row (without_number list) action nestings.old.items }
    ensures capacity { vec_capacity nestings.new ≡ vec_capacity nestings.old }
{
    let Some(place) = place_of(action) else {
        return;
    };
    if let Some(nesting) = nestings.get_mut(place) {
        nesting.remove(list);
    }
}

impl Rows {
    ghost use Rattle.std.specs.Prelude.{◌≡◌};
    ghost use Rattle.lra_rows.specs.declared.step.Added.TheVariants as kinds;
    ghost use Rattle.lra_rows.specs.Steps.{
      taken_back,
      addresses_back,
      with_counts,
      without_added,
      rewritten,
      added_addresses,
    };

    fn remove_action(&mut self, parent: Option<u64>)
        ensures { self.new ≡ without_added (kinds.Action parent) self.old }
    {
        remove_last(&mut self.actions);
        remove_last(&mut self.nestings);
        if let Some(parent) = parent {
            remove_at(&mut self.nestings, Listed::Children, parent);
        }
    }

    fn remove_member(&mut self, action: u64, top: u64) -> Option<PackedAddresses>
        ensures rows { self.new ≡ without_added (kinds.Member action top) self.old }
        ensures uris { result ≡ added_addresses (kinds.Member action top) self.old.snapshot.endpoints }
    {
        remove_last(&mut self.members);
        remove_at(&mut self.nestings, Listed::Under, top);
        remove_at(&mut self.nestings, Listed::Members, action);
        self.endpoints.remove_last()
    }

    /// Removes what was added last. Returns its addresses, where that is a member.
    fn remove(&mut self, added: Added) -> Option<PackedAddresses>
        ensures rows { self.new ≡ without_added added self.old }
        ensures uris { result ≡ added_addresses added self.old.snapshot.endpoints }
    {
        match added {
            Added::Nothing => None,
            Added::Action { parent } => {
                self.remove_action(parent);
                None
            }
            Added::Member { action, top } => self.remove_member(action, top),
            Added::Ask => {
                self.asks.remove_last();
                None
            }
        }
    }

    /// Puts each row that was written over back as it was.
    fn rewrite(&mut self, writes: Writes)
        ensures { self.new ≡ rewritten writes self.old }
    {
        restore(&mut self.actions, writes.parent);
        restore(&mut self.actions, writes.action);
        restore(&mut self.members, writes.member);
        self.endpoints.restore(writes.repeats);
    }

    fn set_counts(&mut self, counts: Counts)
        ensures { self.new ≡ with_counts counts self.old }
    {
        self.entries = counts.entries;
        self.moment = counts.moment;
        self.clerks = counts.clerks;
        self.asked = counts.asked;
        self.void = counts.void;
    }

    /// Undoes the last entry that was applied, by its step, and returns the addresses of the member that joined by it:
    /// the rows are as before it, and have the room that they had. This takes no memory.
    pub fn undo(&mut self, step: Step) -> Option<PackedAddresses>
        ensures rows { self.new ≡ taken_back step self.old }
        ensures uris { result ≡ addresses_back step self.old }
    {
        let uris = self.remove(step.writes.added);
        self.rewrite(step.writes);
        self.set_counts(step.before);
        uris
    }
}
