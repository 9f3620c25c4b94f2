//! Limits of a journal, the pauses that they make, and the rows that are settled.

ghost use Rattle.std.specs.Prelude.{◌≡◌};
ghost use Rattle.lra_rotation.specs.Limits as spec;

use lra_commands::Row;
use lra_model::ActionStatus;

/// Counts of what a journal has.
#[derive(Clone, Copy, PartialEq, Eq)]
pub struct Counts {
    pub actions: u64,
    pub members: u64,
    pub entries: u64,
    pub bytes: u64,
}

/// Returns whether a journal has as much of something as it is to have, so that the next one takes its place.
pub fn has_reached(counts: &Counts, most: &Counts) -> bool
    ensures { result ≡ spec.has_reached counts.now most.now }
{
    most.actions <= counts.actions
        || most.members <= counts.members
        || most.entries <= counts.entries
        || most.bytes <= counts.bytes
}

/// Least number of milliseconds between two asks of a silent member, in a journal that has 3/4 of its entries.
const SELDOM: u64 = 600_000;

/// Returns whether a count has come to 15/16 of its limit. From then on, what was begun is ended, and nothing new is
/// begun.
pub fn is_near_limit(count: u64, limit: u64) -> bool
    ensures { result ≡ spec.is_near_limit count limit }
{
    u128::from(limit) * 15 <= u128::from(count) * 16
}

/// Returns the least number of milliseconds before a journal asks a silent member again, by the entries that it has and
/// those that it may have. If the result is `u64::MAX`, it never does.
pub fn least_pause(entries: u64, limit: u64) -> u64
    ensures { result ≡ spec.least_pause entries limit }
{
    if is_near_limit(entries, limit) {
        u64::MAX
    } else if u128::from(limit) * 3 <= u128::from(entries) * 4 {
        SELDOM
    } else {
        0
    }
}

/// Returns the number of milliseconds before the next attempt at a failed step, after a pause of so many.
pub fn longer_pause(pause: u64) -> u64
    ensures { result ≡ spec.longer_pause pause }
{
    if pause == 0 {
        1_000
    } else if pause < 32_000 {
        pause * 2
    } else {
        60_000
    }
}

/// Returns whether an action has ended.
fn has_ended(status: ActionStatus) -> bool
    ensures { result ≡ spec.has_ended status }
{
    match status {
        ActionStatus::Closed
        | ActionStatus::FailedToClose
        | ActionStatus::Cancelled
        | ActionStatus::FailedToCancel => true,
        ActionStatus::Active | ActionStatus::Closing | ActionStatus::Cancelling => false,
    }
}

/// Returns whether nothing of a listing's row is left to be done: its action has ended, or its member is asked nothing,
/// and is to be asked nothing.
pub fn is_settled(row: &Row) -> bool
    ensures { result ≡ spec.is_settled row.now }
{
    match row {
        Row::Action { status, .. } => has_ended(*status),
        Row::Member { ask, want, .. } => ask.is_none() && want.is_none(),
    }
}

/// Returns whether nothing of a row is left to be done. The row is of an action that has ended, or of one of its
/// members, which operators may have given up.
pub fn is_done_with(row: &Row, is_given_up: bool) -> bool
    ensures { result ≡ spec.is_done_with row.now is_given_up }
{
    is_settled(row) || (is_given_up && matches!(row, Row::Member { .. }))
}
