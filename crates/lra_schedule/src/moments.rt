//! The moments, in milliseconds, that a row gives.

ghost use Rattle.std.specs.Prelude.{◌≡◌, ◌+◌, ◌<◌, ◌^◌};
ghost use Rattle.lra_model.specs.History.{History};
ghost use Rattle.lra_laws.specs.Snapshots.{StandsFor};
ghost use Rattle.lra_schedule.specs.inner.Renewals.{retry_by, limit_by, retry_in, limit_in};

use lra_commands::Limits;
use lra_model::ActionStatus;
use lra_tables::{ActionRow, MemberRow, Tables};

/// Returns when the want of a member is due, if it wants anything.
fn retry_by(limits: &Limits, row: &MemberRow) -> Option<u64>
    ensures { result ≡ retry_by limits.now row.now }
{
    match row.want {
        Some(_) => Some(limits.due_after(row.k, row.last)),
        None => None,
    }
}

/// Returns when the limit of an action passes, if it is Active and has one.
fn limit_by(row: &ActionRow) -> Option<u64>
    ensures { row.now.since + row.now.limit < 2 ^ 64 → result ≡ limit_by row.now }
{
    if row.status != ActionStatus::Active || row.limit == 0 {
        return None;
    }
    row.since.checked_add(row.limit)
}

/// Returns when the want of the member of that number is due, if it is there and wants anything.
pub(crate) fn retry_of(limits: &Limits, tables: &Tables, member: u64) -> Option<u64>
    ensures { (J : History) → StandsFor tables.now.snapshot J → result ≡ retry_in limits.now J member }
{
    let row = tables.member(member)?;
    retry_by(limits, &row)
}

/// Returns when the limit of the action of that number passes, if it is there, Active and has one.
pub(crate) fn limit_of(tables: &Tables, action: u64) -> Option<u64>
    ensures { (J : History) → StandsFor tables.now.snapshot J → result ≡ limit_in J action }
{
    let row = tables.action(action)?;
    limit_by(&row)
}
