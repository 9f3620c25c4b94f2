//! Counts of a journal's entries and actions as it grows.

ghost use Rattle.std.specs.Prelude.{◌≡◌, ℕ, Bool, true, List, length, count_by, None, IfOk, OnOk, string_bytes};
ghost use Rattle.lra_model.specs.declared.version.Version.{Version as VersionValue};
ghost use Rattle.lra_model.specs.History.{History, actions};
ghost use Rattle.lra_model.specs.Rules.{is_legal};
ghost use Rattle.lra_model.specs.Tallies.{count_actions};
ghost use Rattle.lra_laws.specs.Rows.{is_unended};
ghost use Rattle.lra_entries.specs.Borrowed.{entry_seen};
ghost use Rattle.lra_inspect.specs.Counts as spec;
ghost use Rattle.lra_inspect.specs.Counts.{Count};
ghost use Rattle.lra_inspect.specs.inner.Statuses as inner;

use lra_auditor::Follower;
use lra_journal::{DeedRef, EntryRef};
use lra_model::{ActionStatus, Instance, Memory, Version};
use std::alloc::{AllocError, Global};

/// Number of entries so far, and the status of each action, in the order of the actions' numbers.
#[derive(Drop)]
pub struct FollowCounts {
    entries: u64,
    statuses: Vec<ActionStatus>,
}

/// Replaces the status of an action, if it is there.
fn set_status(statuses: &mut Vec<ActionStatus>, action: u64, status: ActionStatus)
    ensures { statuses.new.items ≡ inner.with_status status action statuses.old.items }
{
    if let Some(place) = action.checked_sub(1)
        && (place as usize) < statuses.len()
    {
        statuses[place as usize] = status;
    }
}

/// Adds or replaces the status of the action that an entry starts or turns, if it does.
fn turn(statuses: &mut Vec<ActionStatus>, entry: &EntryRef<'_>) -> Result<(), Memory>
    ensures { OnOk result (statuses.new.items
        ≡ inner.statuses_after (entry_seen entry.now).deed statuses.old.items) }
{
    match &entry.deed {
        DeedRef::Start { .. } => statuses.push(ActionStatus::Active)?,
        DeedRef::Close { action, .. } => set_status(statuses, *action, ActionStatus::Closing),
        DeedRef::Cancel { action, .. } => set_status(statuses, *action, ActionStatus::Cancelling),
        DeedRef::End { action, status } => set_status(statuses, *action, *status),
        _ => {}
    }
    Ok(())
}

/// Counts the statuses that are of no end.
fn count_unended(statuses: &[ActionStatus]) -> u64
    ensures { result ≡ count_by is_unended statuses.now }
{
    statuses.iter().filter(|status| !status.has_ended()).count() as u64
}

impl FollowCounts {
    /// Makes counts of no entry.
    pub fn new(alloc: Global) -> FollowCounts
        ensures { inner.Hears result None }
    {
        FollowCounts {
            entries: 0,
            statuses: Vec::new(alloc),
        }
    }

    /// Returns the number of entries so far.
    pub fn entries(&self) -> u64
        ensures { (J : History) → Count self.now J → result ≡ length J }
    {
        self.entries
    }

    /// Returns the number of actions that started.
    fn actions(&self) -> u64
        ensures { (J : History) → Count self.now J → result ≡ length (actions J) }
    {
        self.statuses.len() as u64
    }

    /// Counts the actions that haven't ended.
    fn unended(&self) -> u64
        ensures { (v : VersionValue) (t : List ℕ → Bool) (J : History) → Count self.now J → is_legal v t J ≡ true
            → result ≡ count_actions is_unended J }
    {
        count_unended(&self.statuses)
    }

    /// Returns the line for a journal that has been sound so far.
    pub fn sound_line(&self, alloc: Global) -> Result<String, Memory>
        ensures { (v : VersionValue) (t : List ℕ → Bool) (J : History) → Count self.now J → is_legal v t J ≡ true
            → IfOk result (λ line. string_bytes line ≡ spec.sound_line J) }
    {
        let entries = self.entries();
        let actions = self.actions();
        let unended = self.unended();
        format!(in alloc; "sound so far: {entries} entries, {actions} actions, {unended} unended\n")
    }
}

impl Follower for FollowCounts {
    ghost use Rattle.lra_inspect.specs.inner.Statuses.{Hears};

    ghost hears = { Hears };

    fn begin(&mut self, _version: Version, _instance: Instance) {}

    fn take(&mut self, entry: &EntryRef<'_>) -> Result<(), Memory> {
        let Some(entries) = self.entries.checked_add(1) else {
            return Err(AllocError);
        };
        turn(&mut self.statuses, entry)?;
        self.entries = entries;
        Ok(())
    }
}
