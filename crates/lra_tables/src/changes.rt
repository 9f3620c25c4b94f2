//! The members whose wants entries may change, and the actions whose deadlines.

ghost use Rattle.std.specs.Prelude.{◌≡◌, ◌++◌, OnOk, IfOk, cond, is_some, option_to_list};
ghost use Rattle.lra_model.specs.History.{History};
ghost use Rattle.lra_model.specs.Actions.{parent, members_of};
ghost use Rattle.lra_model.specs.Members.{members_under};
ghost use Rattle.lra_laws.specs.Snapshots.{StandsFor};
ghost use Rattle.lra_laws.specs.Changes.{
  member_awaited,
  members_awaited,
  members_changed,
  members_changed_by,
  actions_changed,
  actions_changed_by,
};

use lra_model::{Deed, Entry, Memory};
use lra_rows::Rows;
use std::alloc::Global;

/// The members whose wants entries may change, and the actions whose deadlines they may change.
#[derive(Drop)]
pub(crate) struct Changes {
    pub(crate) members: Vec<u64>,
    pub(crate) actions: Vec<u64>,
}

/// Adds the member of an ask, where the ask is outstanding.
fn add_awaited(rows: &Rows, ask: u64, members: &mut Vec<u64>) -> Result<(), Memory>
    ensures { OnOk result ((J : History) → StandsFor rows.now.snapshot J → members.new.items ≡ members.old.items
        ++ option_to_list (member_awaited J ask)) }
{
    if let Some(asked) = rows.ask(ask) {
        if asked.outstanding {
            members.push(asked.member)?;
        }
    }
    Ok(())
}

/// Adds the members of all outstanding asks, none of which was made before the last restart.
fn add_all_awaited(rows: &Rows, members: &mut Vec<u64>) -> Result<(), Memory>
    ensures { OnOk result ((J : History) → StandsFor rows.now.snapshot J → members.new.items ≡ members.old.items
        ++ members_awaited J) }
{
    for place in rows.count_void()..rows.count_asks() {
        add_awaited(rows, place + 1, members)?;
    }
    Ok(())
}

/// Returns whether an action is nested in another.
fn is_nested(rows: &Rows, action: u64) -> bool
    ensures { (J : History) → StandsFor rows.now.snapshot J → result ≡ is_some (parent J action) }
{
    match rows.action(action) {
        Some(row) => row.parent.is_some(),
        None => false,
    }
}

/// Returns the members of an action that ends, and of all below it where it is an outermost one.
fn ended(rows: &Rows, action: u64) -> &[u64]
    ensures { (J : History) → StandsFor rows.now.snapshot J → result.now ≡ cond (is_some (parent J action))
        (members_of J action) (members_under J action) }
{
    if is_nested(rows, action) {
        rows.members(action)
    } else {
        rows.under(action)
    }
}

/// Adds the members whose wants a deed may change.
fn add_members(rows: &Rows, deed: &Deed, members: &mut Vec<u64>) -> Result<(), Memory>
    ensures { OnOk result ((J : History) → StandsFor rows.now.snapshot J → members.new.items ≡ members.old.items
        ++ members_changed J deed.now) }
{
    match deed {
        Deed::Join { member, .. } => members.push(*member)?,
        Deed::Leave { member } => members.push(*member)?,
        Deed::Close { action, .. } => members.extend_from_slice(rows.members(*action))?,
        Deed::Cancel { action, .. } => members.extend_from_slice(rows.members(*action))?,
        Deed::Skip { member } => members.push(*member)?,
        Deed::Ask { member, .. } => members.push(*member)?,
        Deed::Reply { ask, .. } => {
            if let Some(asked) = rows.ask(*ask) {
                members.push(asked.member)?;
            }
        }
        Deed::Report { member, .. } => members.push(*member)?,
        Deed::End { action, .. } => members.extend_from_slice(ended(rows, *action))?,
        Deed::Restart => add_all_awaited(rows, members)?,
        Deed::Enrol | Deed::Start { .. } | Deed::Renew { .. } => {}
    }
    Ok(())
}

/// Adds the actions whose deadlines a deed may change.
fn add_actions(deed: &Deed, actions: &mut Vec<u64>) -> Result<(), Memory>
    ensures { OnOk result (actions.new.items ≡ actions.old.items ++ actions_changed deed.now) }
{
    match deed {
        Deed::Start { action, .. } => actions.push(*action)?,
        Deed::Close { action, .. } => actions.push(*action)?,
        Deed::Cancel { action, .. } => actions.push(*action)?,
        Deed::End { action, .. } => actions.push(*action)?,
        Deed::Renew { action, .. } => actions.push(*action)?,
        _ => {}
    }
    Ok(())
}

impl Changes {
    /// Lists what entries change that are to come after those of the rows: a number may come twice. This takes time
    /// linear in the entries, in what is listed and, for a restart, in the asks made since the last one.
    pub(crate) fn of(alloc: Global, rows: &Rows, entries: &[Entry]) -> Result<Changes, Memory>
        ensures members { IfOk result (λ c. (J : History) → StandsFor rows.now.snapshot J → c.members.items
            ≡ members_changed_by J entries.now) }
        ensures actions { IfOk result (λ c. c.actions.items ≡ actions_changed_by entries.now) }
    {
        let mut members = Vec::new(alloc);
        let mut actions = Vec::new(alloc);
        for entry in entries {
            add_members(rows, &entry.deed, &mut members)?;
            add_actions(&entry.deed, &mut actions)?;
        }
        Ok(Changes { members, actions })
    }
}
