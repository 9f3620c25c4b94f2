//! Conditions on an action's end, as its client and its members saw it.

use super::client::{Client, Finish};
use super::member::{Member, Stand};
use anyhow::{Result, ensure};
use lra_model::ActionStatus;

/// Returns whether an action of this status is being ended in this way, or was.
fn is_of(finish: Finish, status: ActionStatus) -> bool {
    match finish {
        Finish::Close => matches!(
            status,
            ActionStatus::Closing | ActionStatus::Closed | ActionStatus::FailedToClose
        ),
        Finish::Cancel => matches!(
            status,
            ActionStatus::Cancelling | ActionStatus::Cancelled | ActionStatus::FailedToCancel
        ),
        Finish::Never => false,
    }
}

/// Checks that a client's answered end is in the journal. A nested action that closed may be cancelled with its parent.
pub fn check_end(client: &Client, finish: Finish, status: ActionStatus) -> Result<()> {
    let is_undone = client.parent.is_some() && is_of(Finish::Cancel, status);
    ensure!(
        is_of(finish, status) || is_undone,
        "{finish:?} was answered, and the action is {status:?}"
    );
    Ok(())
}

/// Checks that a nested action's end fits that of its parent.
pub fn check_nested(status: ActionStatus, parent: ActionStatus) -> Result<()> {
    let suits = match parent {
        ActionStatus::Closed => { matches!(status, ActionStatus::Closed | ActionStatus::Cancelled) }
        ActionStatus::Cancelled => status == ActionStatus::Cancelled,
        _ => true,
    };
    ensure!(
        suits,
        "an action is {parent:?}, and one nested in it is {status:?}"
    );
    Ok(())
}

/// Checks that what a member saw fits its action's end.
pub fn check_member(member: &Member, status: ActionStatus) -> Result<()> {
    if status == ActionStatus::Closed {
        ensure!(
            !member.was_told_to_compensate,
            "an action is Closed, and a member of it was told to compensate"
        );
    }
    if member.number.is_none() || member.is_leaving {
        return Ok(());
    }
    match status {
        ActionStatus::Closed if member.doors.complete => ensure!(
            member.completion == Stand::Done,
            "an action is Closed, and a member of it is {:?}",
            member.completion
        ),
        ActionStatus::Cancelled => ensure!(
            member.compensation == Stand::Done,
            "an action is Cancelled, and a member of it is {:?}",
            member.compensation
        ),
        _ => {}
    }
    Ok(())
}
