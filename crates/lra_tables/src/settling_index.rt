//! The rows that are ready to settle.

ghost use Rattle.std.specs.Prelude.{
  ◌≡◌,
  ℕ,
  List,
  ◌∷◌,
  ◌++◌,
  [],
  is_some,
  option_map,
  option_to_list,
  true,
  false,
  OnOk,
  OnErr,
};
ghost use Rattle.lra_model.specs.History.{History};
ghost use Rattle.lra_model.specs.Actions.{parent, members_of};
ghost use Rattle.lra_model.specs.Members.{Asked, ask_of, action_of};
ghost use Rattle.lra_laws.specs.Rows.{State};
ghost use Rattle.lra_laws.specs.Settles.{turn_by, end_by};
ghost use Rattle.lra_laws.specs.Snapshots.{StandsFor};
ghost use Rattle.lra_laws.specs.inner.Concerned.{members_concerned, actions_concerned, around};
ghost use Rattle.lra_tables.specs.inner.SettlingIndex.{MarkedBut, SameRoom, MoreRoom, takes, grown, has_numbers};
ghost use Rattle.lra_tables.specs.inner.SettlingIndex.{shrunk};

use crate::indexed_set::{IndexedSet, Order};
use lra_model::{Deed, Memory};
use lra_rows::Rows;
use std::alloc::Global;

/// The members that may be skipped, the actions to which their parent does something, and the actions that may end.
#[derive(Drop)]
pub(crate) struct SettlingIndex {
    pub(crate) skips: IndexedSet,
    pub(crate) turns: IndexedSet,
    pub(crate) ends: IndexedSet,
}

/// Returns whether an action's parent does something to it.
fn is_turned(rows: &Rows, action: u64) -> bool
    ensures { result ≡ is_some (turn_by rows.now.snapshot.state action) }
{
    rows.by_parent(action).is_some()
}

fn may_end(rows: &Rows, action: u64) -> bool
    ensures { result ≡ is_some (end_by rows.now.snapshot.state action) }
{
    rows.end(action).is_some()
}

/// Returns the parent of an action, where it has one.
fn parent_of(rows: &Rows, action: u64) -> Option<u64>
    ensures { (K : History) → StandsFor rows.now.snapshot K → result ≡ parent K action }
{
    match rows.action(action) {
        Some(row) => row.parent,
        None => None,
    }
}

/// Returns the member that was asked, if the ask was made.
fn member_asked(rows: &Rows, ask: u64) -> Option<u64>
    ensures { (K : History) → StandsFor rows.now.snapshot K → result ≡ option_map (λ (x : Asked). x.member)
        (ask_of K ask) }
{
    match rows.ask(ask) {
        Some(row) => Some(row.member),
        None => None,
    }
}

impl SettlingIndex {
    /// Marks anew whether a member may be skipped.
    fn mark_member(&mut self, rows: &Rows, member: u64)
        ensures marked { (ps xs : List ℕ) → MarkedBut rows.now.snapshot.state self.old (member ∷ ps) xs
            → MarkedBut rows.now.snapshot.state self.new ps xs }
        ensures room { SameRoom self.old self.new }
    {
        if 0 < member && member <= self.skips.len() as u64 {
            self.skips.set(member, rows.may_be_skipped(member));
        }
    }

    /// Marks anew whether an action's parent does something to it, and whether it may end.
    fn mark_action(&mut self, rows: &Rows, action: u64)
        ensures marked { (ps xs : List ℕ) → MarkedBut rows.now.snapshot.state self.old ps (action ∷ xs)
            → MarkedBut rows.now.snapshot.state self.new ps xs }
        ensures room { SameRoom self.old self.new }
    {
        if 0 < action && action <= self.turns.len() as u64 && action <= self.ends.len() as u64 {
            self.turns.set(action, is_turned(rows, action));
            self.ends.set(action, may_end(rows, action));
        }
    }

    /// Marks an action anew, if there is one.
    fn mark_any(&mut self, rows: &Rows, action: Option<u64>)
        ensures marked { (ps xs : List ℕ) → MarkedBut rows.now.snapshot.state self.old ps (option_to_list action ++ xs)
            → MarkedBut rows.now.snapshot.state self.new ps xs }
        ensures room { SameRoom self.old self.new }
    {
        if let Some(action) = action {
            self.mark_action(rows, action);
        }
    }

    /// Marks some members anew.
    fn mark_members(&mut self, rows: &Rows, members: &[u64])
        ensures marked { (ps xs : List ℕ) → MarkedBut rows.now.snapshot.state self.old (members.now ++ ps) xs
            → MarkedBut rows.now.snapshot.state self.new ps xs }
        ensures room { SameRoom self.old self.new }
    {
        for member in members {
            self.mark_member(rows, *member);
        }
    }

    /// Marks some actions anew.
    fn mark_actions(&mut self, rows: &Rows, actions: &[u64])
        ensures marked { (ps xs : List ℕ) → MarkedBut rows.now.snapshot.state self.old ps (actions.now ++ xs)
            → MarkedBut rows.now.snapshot.state self.new ps xs }
        ensures room { SameRoom self.old self.new }
    {
        for action in actions {
            self.mark_action(rows, *action);
        }
    }

    /// Marks a member and its action anew.
    fn mark_with_action(&mut self, rows: &Rows, member: u64)
        ensures marked { (K : History) → StandsFor rows.now.snapshot K → MarkedBut rows.now.snapshot.state self.old
            (member ∷ []) (action_of K member ∷ []) → MarkedBut rows.now.snapshot.state self.new [] [] }
        ensures room { SameRoom self.old self.new }
    {
        self.mark_member(rows, member);
        if let Some(row) = rows.member(member) {
            self.mark_action(rows, row.action);
        }
    }

    /// Marks an action, its parent, its children and its members anew.
    fn mark_around(&mut self, rows: &Rows, action: u64)
        ensures marked { (K : History) → StandsFor rows.now.snapshot K → MarkedBut rows.now.snapshot.state self.old
            (members_of K action) (around K action) → MarkedBut rows.now.snapshot.state self.new [] [] }
        ensures room { SameRoom self.old self.new }
    {
        self.mark_action(rows, action);
        self.mark_any(rows, parent_of(rows, action));
        self.mark_actions(rows, rows.children(action));
        self.mark_members(rows, rows.members(action));
    }

    /// Marks all that a deed concerns anew.
    pub(crate) fn mark(&mut self, rows: &Rows, deed: &Deed)
        ensures marked { (K : History) → StandsFor rows.now.snapshot K → MarkedBut rows.now.snapshot.state self.old
            (members_concerned K deed.now) (actions_concerned K deed.now)
            → MarkedBut rows.now.snapshot.state self.new [] [] }
        ensures room { SameRoom self.old self.new }
    {
        match deed {
            Deed::Start { action, parent, .. } => {
                self.mark_action(rows, *action);
                self.mark_any(rows, *parent);
            }
            Deed::Join { member, action, .. } => {
                self.mark_member(rows, *member);
                self.mark_action(rows, *action);
            }
            Deed::Leave { member } => self.mark_with_action(rows, *member),
            Deed::Close { action, .. } => self.mark_around(rows, *action),
            Deed::Cancel { action, .. } => self.mark_around(rows, *action),
            Deed::Skip { member } => self.mark_with_action(rows, *member),
            Deed::Ask { member, .. } => self.mark_with_action(rows, *member),
            Deed::Reply { ask, .. } => {
                if let Some(member) = member_asked(rows, *ask) {
                    self.mark_with_action(rows, member);
                }
            }
            Deed::Report { member, .. } => self.mark_with_action(rows, *member),
            Deed::End { action, .. } => self.mark_around(rows, *action),
            Deed::Enrol => {}
            Deed::Restart => {}
            Deed::Renew { .. } => {}
        }
    }

    /// Returns the settling index of no rows.
    pub(crate) fn new(alloc: Global) -> SettlingIndex
        ensures { (s : State) → s.members ≡ [] → s.actions ≡ [] → MarkedBut s result [] [] }
    {
        SettlingIndex {
            skips: IndexedSet::new(Order::LeastFirst, alloc),
            turns: IndexedSet::new(Order::LeastFirst, alloc),
            ends: IndexedSet::new(Order::GreatestFirst, alloc),
        }
    }

    /// Makes room for what a deed brings.
    pub(crate) fn reserve(&mut self, deed: &Deed) -> Result<(), Memory>
        ensures same { MoreRoom self.old self.new }
        ensures ok { OnOk result (takes deed.now self.new ≡ true) }
        ensures err { OnErr result (takes deed.now self.old ≡ false) }
    {
        match deed {
            Deed::Start { .. } => {
                self.turns.reserve(1)?;
                self.ends.reserve(1)
            }
            Deed::Join { .. } => self.skips.reserve(1),
            _ => Ok(()),
        }
    }

    /// Adds what a deed brings, for which there is room. It isn't ready yet.
    pub(crate) fn grow(&mut self, deed: &Deed)
        requires { takes deed.now self.old ≡ true }
        ensures { self.new ≡ grown deed.now self.old }
    {
        match deed {
            Deed::Start { .. } => {
                self.turns.push(false);
                self.ends.push(false);
            }
            Deed::Join { .. } => self.skips.push(false),
            _ => {}
        }
    }

    /// Removes what a deed brought.
    pub(crate) fn shrink(&mut self, deed: &Deed)
        requires { has_numbers deed.now self.old ≡ true }
        ensures { self.new ≡ shrunk deed.now self.old }
    {
        match deed {
            Deed::Start { .. } => {
                let _ = self.turns.pop();
                let _ = self.ends.pop();
            }
            Deed::Join { .. } => {
                let _ = self.skips.pop();
            }
            _ => {}
        }
    }
}
