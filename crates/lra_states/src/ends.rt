//! The end of an action: whether it may end, and with which status.

ghost use Rattle.std.specs.Prelude.{◌≡◌};
ghost use Rattle.lra_laws.specs.Ends.{settled_by, right_end_by};

use crate::state::ActionState;
use lra_model::ActionStatus;

/// Returns whether an action may end, by its counts.
pub fn is_settled(row: &ActionState) -> bool
    ensures { result ≡ settled_by row.now }
{
    match row.status {
        ActionStatus::Closing => row.completing == 0 && row.unended == 0,
        ActionStatus::Cancelling => row.compensating == 0 && row.uncancelled == 0,
        _ => false,
    }
}

/// Returns the status that an action ends with, by its counts.
pub fn right_end(row: &ActionState) -> ActionStatus
    ensures { result ≡ right_end_by row.now }
{
    match row.status {
        ActionStatus::Closing => {
            if row.uncompleted == 0 && row.failed == 0 {
                ActionStatus::Closed
            } else {
                ActionStatus::FailedToClose
            }
        }
        _ => {
            if row.uncompensated == 0 && row.failed == 0 {
                ActionStatus::Cancelled
            } else {
                ActionStatus::FailedToCancel
            }
        }
    }
}
