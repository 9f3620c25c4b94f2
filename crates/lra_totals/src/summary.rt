//! The summary of a history, from its rows.

ghost use Rattle.std.specs.Prelude.{
  ◌≡◌,
  ◌<◌,
  ◌≤◌,
  ℕ,
  IfOk,
  Some,
  None,
  true,
  false,
  cond,
  count_by,
  nat_lt,
  option_map,
  unwrap_or,
};
ghost use Rattle.std.specs.Option.{option_map_or, option_or};
ghost use Rattle.lra_model.specs.Words as words;
ghost use Rattle.lra_laws.specs.Rows.{State, change_row, is_unended};
ghost use Rattle.lra_laws.specs.Rows.{row_at};
ghost use Rattle.lra_totals.specs.Totals.{
  has_failed_here,
  is_within_by,
  least_failed_by,
  failed_ends_from,
  of_rows,
  summary_by,
};
ghost use Rattle.lra_totals.specs.Summaries.{ended_cancelled};

use crate::totals::{FailedEnd, FailedEnds, Summary};
use lra_model::{ActionStatus, Memory};
use lra_states::{ActionState, MemberState, stays};
use std::alloc::Global;

fn count_unended(actions: &[ActionState]) -> u64
    ensures { result ≡ count_by (λ r. is_unended r.status) actions.now }
{
    actions.iter().filter(|row| !row.status.has_ended()).count() as u64
}

fn count_closed(actions: &[ActionState]) -> u64
    ensures { result ≡ count_by (λ r. words.is_closed r.status) actions.now }
{
    actions
        .iter()
        .filter(|row| matches!(row.status, ActionStatus::Closed))
        .count() as u64
}

fn count_cancelled(actions: &[ActionState]) -> u64
    ensures { result ≡ count_by (λ r. ended_cancelled r.status) actions.now }
{
    actions
        .iter()
        .filter(|row| matches!(row.status, ActionStatus::Cancelled))
        .count() as u64
}

/// Returns the parent of an action, if the action is there and has one.
fn parent_of(actions: &[ActionState], number: u64) -> Option<u64>
    ensures { result ≡ option_map_or (λ r. r.parent) (row_at actions.now number) None }
{
    let place = number.checked_sub(1)?;
    match actions.get(place as usize) {
        Some(row) => row.parent,
        None => None,
    }
}

/// Returns whether a member stays and has failed.
fn has_failed_here(row: &MemberState) -> bool
    ensures { result ≡ has_failed_here row.now }
{
    stays(row) && row.status.has_failed()
}

/// Returns the member at an action's number, counted from 1, if there is one.
fn at(least: &[Option<u64>], number: u64) -> Option<u64>
    ensures { result ≡ unwrap_or (row_at least.now number) None }
{
    let place = number.checked_sub(1)?;
    least.get(place as usize).copied().flatten()
}

/// Puts a member at a number, if none is there yet.
fn mark(least: &mut Vec<Option<u64>>, number: u64, member: u64)
    ensures { least.new.items ≡ change_row (λ o. option_or o (Some member)) number least.old.items }
{
    if let Some(place) = number.checked_sub(1)
        && (place as usize) < least.len()
    {
        let place = place as usize;
        least[place] = least[place].or(Some(member));
    }
}

/// Returns whether the parent of an action has a lesser number than the action, or there is no parent.
fn parent_is_less(row: &ActionState, number: u64) -> bool
    ensures { result ≡ option_map_or (λ b. nat_lt b number) row.now.parent true }
{
    match row.parent {
        Some(parent) => parent < number,
        None => true,
    }
}

/// Returns whether each parent's number is less than that of its action, as it is in the rows of a legal history.
fn parents_are_less(actions: &[ActionState]) -> bool
    ensures all { result ≡ true → (a b : ℕ) → option_map_or (λ r. r.parent) (row_at actions.now a) None ≡ Some b → b
        < a }
    ensures not_all { result ≡ false → (a : ℕ) × (b : ℕ) × (option_map_or (λ r. r.parent) (row_at actions.now a) None
        ≡ Some b) × (a ≤ b) }
{
    for (place, row) in actions.iter().enumerate() {
        if !parent_is_less(row, place as u64 + 1) {
            return false;
        }
    }
    true
}

/// Puts a member at its action and at each action above it, where none is there yet. If each parent's number is less,
/// all actions above one with a member have one too, so the walk stops there. So all walks mark an action once at most.
fn mark_up(
    actions: &[ActionState],
    are_less: bool,
    least: &mut Vec<Option<u64>>,
    action: u64,
    member: u64,
)
    requires less { are_less ≡ true → (a b : ℕ) → option_map_or (λ r. r.parent) (row_at actions.now a) None ≡ Some b → b
        < a }
    requires closed { are_less ≡ true → (a b : ℕ) → option_map_or (λ r. r.parent) (row_at actions.now a) None ≡ Some b
        → row_at least.old.items b ≡ Some None → row_at least.old.items a ≡ Some None }
    ensures marks { (t : ℕ) → row_at least.new.items t ≡ option_map (λ o. cond
        (is_within_by action actions.now t action) (option_or o (Some member)) o) (row_at least.old.items t) }
    ensures closed { are_less ≡ true → (a b : ℕ) → option_map_or (λ r. r.parent) (row_at actions.now a) None ≡ Some b
        → row_at least.new.items b ≡ Some None → row_at least.new.items a ≡ Some None }
{
    let mut above = action;
    for _step in 0..action {
        if are_less && at(least, above).is_some() {
            return;
        }
        mark(least, above, member);
        match parent_of(actions, above) {
            Some(parent) => above = parent,
            None => return,
        }
    }
    mark(least, above, member);
}

/// Returns for each action the least member that stays in it or below it and has failed.
fn least_failed(
    alloc: Global,
    actions: &[ActionState],
    members: &[MemberState],
) -> Result<Vec<Option<u64>>, Memory>
    ensures { IfOk result (λ least. (t : ℕ) → row_at least.items t
        ≡ option_map (λ r. least_failed_by (of_rows actions.now members.now) t) (row_at actions.now t)) }
{
    let are_less = parents_are_less(actions);
    let mut least = vec![in alloc; None; actions.len()]?;
    for (place, row) in members.iter().enumerate() {
        let action = row.action;
        if has_failed_here(row) {
            mark_up(actions, are_less, &mut least, action, place as u64 + 1);
        }
    }
    Ok(least)
}

fn failed_ends(
    alloc: Global,
    actions: &[ActionState],
    least: &[Option<u64>],
) -> Result<FailedEnds, Memory>
    ensures { IfOk result (λ ends. ends ≡ failed_ends_from (λ t. unwrap_or (row_at least.now t) None) 1 actions.now) }
{
    let mut ends = Vec::new(alloc);
    for (place, row) in actions.iter().enumerate() {
        let number = place as u64 + 1;
        if row.status.has_failed()
            && let Some(member) = at(least, number)
        {
            ends.push(FailedEnd {
                action: number,
                status: row.status,
                member,
            })?;
        }
    }
    Ok(FailedEnds::from_vec(ends))
}

/// Returns the actions that ended in failure, by the rows.
fn failed_by(
    alloc: Global,
    actions: &[ActionState],
    members: &[MemberState],
) -> Result<FailedEnds, Memory>
    ensures { IfOk result (λ ends. ends
        ≡ failed_ends_from (least_failed_by (of_rows actions.now members.now)) 1 actions.now) }
{
    let least = least_failed(alloc, actions, members)?;
    failed_ends(alloc, actions, &least)
}

/// Returns the summary of a history of so many entries, by its rows.
pub fn summarize(
    alloc: Global,
    actions: &[ActionState],
    members: &[MemberState],
    entries: u64,
) -> Result<Summary, Memory>
    ensures { IfOk result (λ s. s ≡ summary_by entries (of_rows actions.now members.now)) }
{
    Ok(Summary {
        entries,
        actions: actions.len() as u64,
        unended: count_unended(actions),
        closed: count_closed(actions),
        cancelled: count_cancelled(actions),
        failed: failed_by(alloc, actions, members)?,
    })
}
