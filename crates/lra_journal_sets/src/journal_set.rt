//! Journal sets: counters, each with an instance of its own.

ghost use Rattle.std.specs.Prelude.{
  ◌≡◌,
  ◌⊎◌,
  ◌<◌,
  [],
  ◌∷◌,
  map,
  None,
  option_map,
  IfSome,
  IfNone,
  IfOk,
  IfErr,
  OnErr,
  OnOk,
  IsSomeAnd,
  MatchOption,
};
ghost use Rattle.lra_journal_sets.specs.JournalSets as spec;
ghost use Rattle.lra_journal_sets.specs.Counted.{name};
ghost use Rattle.lra_journal_sets.specs.inner.Places.{IsPlace};

use crate::visit::Visit;
use lra_commands::Counter;
use lra_ids::Instance;
use std::alloc::{AllocFailed, Global};
use std::marker::Model;

/// Journal set: counters, each with an instance of its own. The newest has the greatest instance, and there always is a
/// newest.
#[derive(Drop)]
pub struct JournalSet<C: Counter + Drop> {
    members: Vec<C>,
}

impl<C: Counter + Drop> Model for JournalSet<C> {
    ghost use Rattle.std.specs.Prelude.{List, map};
    ghost use Rattle.lra_commands.specs.Counters.{Sight};
    ghost use Rattle.lra_journal_sets.specs.Counted.{name};
    ghost use Rattle.lra_journal_sets.specs.JournalSets.{IsJournalSet};

    ghost Value = { List Sight };

    ghost view = { λ f. map C.sight f.members.items };

    ghost invariant = { λ f. IsJournalSet (map name (map C.sight f.members.items)) };
}

/// Returns the index of the member with that instance, if there is one.
fn place_of<C: Counter + Drop>(members: &[C], instance: Instance) -> Option<usize>
    ensures { IsPlace name instance (map C.sight members.now) result }
{
    for (place, member) in members.iter().enumerate() {
        let name = member.instance().number();
        if name == instance.number() {
            return Some(place);
        }
    }
    None
}

impl<C: Counter + Drop> JournalSet<C> {
    /// Makes the journal set of one counter. Where memory is refused, returns the counter.
    pub fn new(alloc: Global, first: C) -> Result<JournalSet<C>, AllocFailed<C>>
        ensures ok { IfOk result (λ journal_set. journal_set ≡ C.sight first ∷ []) }
        ensures err { IfErr result (λ fault. fault.value ≡ first) }
    {
        let mut members = Vec::new(alloc);
        members.push(first)?;
        Ok(JournalSet { members })
    }

    /// Returns the newest instance.
    pub fn newest(&self) -> Instance
        ensures newest { result ≡ spec.newest name self.now }
        ensures journal_set { spec.IsJournalSet (map name self.now) }
    {
        let last = self.members.len() - 1;
        self.members[last].instance()
    }

    /// Returns the counter of an instance, if there is one.
    pub fn member(&self, instance: Instance) -> Option<&C>
        ensures { option_map (λ c. C.sight c.now) result ≡ spec.member name instance self.now }
    {
        let place = place_of(self.members.as_slice(), instance)?;
        Some(&self.members[place])
    }

    /// Visits the counter of an instance, if there is one. Every other counter stays as it is.
    pub fn visit<V: Visit<C>>(&mut self, instance: Instance, visit: &V) -> Option<V::Answer>
        ensures { spec.MovesAt name instance self.old (λ s t. IsSomeAnd result (λ answer. V.does visit.now s answer t))
            (result ≡ None) self.new }
    {
        let place = place_of(self.members.as_slice(), instance)?;
        Some(visit.visit(&mut self.members[place]))
    }

    /// Adds a counter whose instance is greater than all others. It becomes the newest. Where memory is refused,
    /// returns the counter.
    pub fn rotate(&mut self, counter: C) -> Result<(), AllocFailed<C>>
        requires { spec.newest name self.old < name (C.sight counter) }
        ensures ok { OnOk result (spec.Joins name self.old (C.sight counter) self.new) }
        ensures err { OnErr result (self.new ≡ self.old) }
        ensures value { IfErr result (λ fault. fault.value ≡ counter) }
    {
        self.members.push(counter)?;
        Ok(())
    }

    /// Removes and returns the counter of an instance, if there is one and it isn't the newest.
    pub fn retire(&mut self, instance: Instance) -> Option<C>
        ensures some { IfSome result (λ counter. (name (C.sight counter) ≡ instance)
            × spec.Leaves name self.old (C.sight counter) self.new) }
        ensures none { IfNone result (((spec.member name instance self.old ≡ None)
            ⊎ (instance ≡ spec.newest name self.old)) × (self.new ≡ self.old)) }
    {
        if instance.number() == self.newest().number() {
            return None;
        }
        let place = place_of(self.members.as_slice(), instance)?;
        Some(self.members.remove(place))
    }
}
