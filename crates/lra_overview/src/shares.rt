//! Numbers of actions that have each status.

use lra_model::ActionStatus;

/// Number of actions that have a status.
#[derive(Clone, Copy)]
pub struct Share {
    pub status: ActionStatus,
    pub count: u64,
}

/// Numbers of actions that have each status, in the order in which replies list them.
pub type Shares = [Share; 7];

/// Numbers of no actions.
pub const NONE: Shares = [
    Share {
        status: ActionStatus::Active,
        count: 0,
    },
    Share {
        status: ActionStatus::Closing,
        count: 0,
    },
    Share {
        status: ActionStatus::Cancelling,
        count: 0,
    },
    Share {
        status: ActionStatus::Closed,
        count: 0,
    },
    Share {
        status: ActionStatus::Cancelled,
        count: 0,
    },
    Share {
        status: ActionStatus::FailedToClose,
        count: 0,
    },
    Share {
        status: ActionStatus::FailedToCancel,
        count: 0,
    },
];

/// Adds a number of actions of a status.
pub(crate) fn add(shares: &mut Shares, status: ActionStatus, count: u64) {
    for share in shares.iter_mut() {
        if share.status.is_same(status) {
            share.count = share.count.saturating_add(count);
        }
    }
}

/// Adds the numbers of other actions, by their status.
pub(crate) fn add_shares(shares: &mut Shares, others: &Shares) {
    for other in others {
        add(shares, other.status, other.count);
    }
}

/// Returns whether an action of that status has ended.
fn has_ended(status: ActionStatus) -> bool {
    !matches!(
        status,
        ActionStatus::Active | ActionStatus::Closing | ActionStatus::Cancelling
    )
}

/// Counts the actions that have ended.
pub(crate) fn count_ended(shares: &Shares) -> u64 {
    let mut all: u64 = 0;
    for share in shares {
        if has_ended(share.status) {
            all = all.saturating_add(share.count);
        }
    }
    all
}

/// Counts the actions that are closing or cancelling.
pub(crate) fn count_ending(shares: &Shares) -> u64 {
    let mut all: u64 = 0;
    for share in shares {
        if matches!(
            share.status,
            ActionStatus::Closing | ActionStatus::Cancelling
        ) {
            all = all.saturating_add(share.count);
        }
    }
    all
}

/// Counts the actions that have ended as failed.
pub(crate) fn count_failed(shares: &Shares) -> u64 {
    let mut all: u64 = 0;
    for share in shares {
        if matches!(
            share.status,
            ActionStatus::FailedToClose | ActionStatus::FailedToCancel
        ) {
            all = all.saturating_add(share.count);
        }
    }
    all
}
