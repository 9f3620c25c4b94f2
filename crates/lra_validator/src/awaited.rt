//! The rows of an action, and which of them block its end.

ghost use Rattle.std.specs.Prelude.{◌≡◌, length, slice_get};
ghost use Rattle.lra_model.specs.Words as words;
ghost use Rattle.lra_model.specs.History.{History};
ghost use Rattle.lra_laws.specs.Snapshots.{StandsFor};
ghost use Rattle.lra_validator.specs.inner.Blocker as awaits;

use lra_commands::{Blocker, QueryResult};
use lra_model::{ActionStatus, MemberStatus};
use lra_tables::{MemberRow, Tables};

/// Returns whether a Closing action needn't wait for a member with this status.
fn is_done_completing(status: MemberStatus) -> bool
    ensures { result ≡ words.is_done_completing status }
{
    matches!(
        status,
        MemberStatus::Completed | MemberStatus::FailedToComplete
    )
}

/// Returns whether a Cancelling action needn't wait for a member with this status.
fn is_done_compensating(status: MemberStatus) -> bool
    ensures { result ≡ words.is_done_compensating status }
{
    matches!(
        status,
        MemberStatus::Compensated
            | MemberStatus::FailedToCompensate
            | MemberStatus::FailedToComplete
    )
}

/// Returns whether an action has ended after it was cancelled.
fn has_finished_cancelling(status: ActionStatus) -> bool
    ensures { result ≡ words.has_finished_cancelling status }
{
    matches!(
        status,
        ActionStatus::Cancelled | ActionStatus::FailedToCancel
    )
}

/// Returns whether an action with this status waits for a member with that one.
fn waits_for_member(status: ActionStatus, member: MemberStatus) -> bool
    ensures { result ≡ awaits.waits_for_member status member }
{
    match status {
        ActionStatus::Closing => !is_done_completing(member),
        ActionStatus::Cancelling => !is_done_compensating(member),
        _ => false,
    }
}

/// Returns whether an action with this status waits for a nested one with that one.
fn waits_for_action(status: ActionStatus, nested: ActionStatus) -> bool
    ensures { result ≡ awaits.waits_for_action status nested }
{
    match status {
        ActionStatus::Closing => !nested.has_ended(),
        ActionStatus::Cancelling => !has_finished_cancelling(nested),
        _ => false,
    }
}

/// Returns whether a member can be compensated.
fn can_compensate(tables: &Tables, member: u64) -> bool
    ensures { (J : History) → StandsFor tables.now.snapshot J → result ≡ awaits.can_compensate J member }
{
    match tables.addresses(member) {
        Some(uris) => uris.compensate().is_some(),
        None => false,
    }
}

/// Returns whether an action with this status waits for a member, which it doesn't once the member has left.
fn waits_for_row(status: ActionStatus, row: &MemberRow) -> bool
    ensures { result ≡ awaits.waits_for_row status row.now }
{
    !row.status.has_gone() && waits_for_member(status, row.status)
}

/// Returns whether an action with this status waits for the member of that number, if it is there.
fn waits_for(tables: &Tables, status: ActionStatus, member: u64) -> bool
    ensures { (J : History) → StandsFor tables.now.snapshot J → result ≡ awaits.waits_for_found status J member }
{
    match tables.member(member) {
        Some(row) => waits_for_row(status, &row),
        None => false,
    }
}

/// Returns the status of an action; Active where it isn't there.
fn status_of(tables: &Tables, action: u64) -> ActionStatus
    ensures { (J : History) → StandsFor tables.now.snapshot J → result ≡ awaits.found_status J action }
{
    match tables.action(action) {
        Some(row) => row.status,
        None => ActionStatus::Active,
    }
}

/// Returns whether a row blocks the end of an action with this status.
fn holds(tables: &Tables, status: ActionStatus, row: Blocker) -> bool
    ensures { (J : History) → StandsFor tables.now.snapshot J → result ≡ awaits.held status J row }
{
    match row {
        Blocker::Member { member, .. } => {
            can_compensate(tables, member) && waits_for(tables, status, member)
        }
        Blocker::Action { action } => waits_for_action(status, status_of(tables, action)),
    }
}

/// Returns the outstanding ask of a member, if there is one.
fn ask_of(tables: &Tables, member: u64) -> Option<u64>
    ensures { (J : History) → StandsFor tables.now.snapshot J → result ≡ awaits.found_ask J member }
{
    match tables.member(member) {
        Some(row) => row.outstanding,
        None => None,
    }
}

/// Returns the row of a member.
fn member_row(tables: &Tables, member: u64) -> Blocker
    ensures { (J : History) → StandsFor tables.now.snapshot J → result ≡ awaits.member_row J member }
{
    Blocker::Member {
        member,
        ask: ask_of(tables, member),
    }
}

/// Returns the row of an action at a place, if there is one: its members come first, and then the actions nested
/// directly in it.
fn row_at(tables: &Tables, action: u64, place: u64) -> Option<Blocker>
    ensures { (J : History) → StandsFor tables.now.snapshot J → result ≡ slice_get (awaits.found_rows J action) place }
{
    let members = tables.members(action);
    let place = place as usize;
    if place < members.len() {
        return Some(member_row(tables, members[place]));
    }
    let nested = tables.children(action).get(place - members.len())?;
    Some(Blocker::Action { action: *nested })
}

/// Returns the number of rows that an action has.
pub(crate) fn count_awaited(tables: &Tables, action: u64) -> u64
    ensures { (J : History) → StandsFor tables.now.snapshot J → result ≡ length (awaits.found_rows J action) }
{
    (tables.members(action).len() + tables.children(action).len()) as u64
}

/// Returns the answer about the row at a place, if there is one and it blocks the end of an action with this status.
pub(crate) fn look_awaited(
    tables: &Tables,
    action: u64,
    status: ActionStatus,
    place: u64,
) -> Option<QueryResult>
    ensures { (J : History) → StandsFor tables.now.snapshot J → result ≡ awaits.look_awaited J action status place }
{
    let row = row_at(tables, action, place)?;
    if holds(tables, status, row) {
        Some(QueryResult::Awaits {
            place,
            awaited: row,
        })
    } else {
        None
    }
}
