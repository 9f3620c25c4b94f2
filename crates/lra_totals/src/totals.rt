//! Totals of a legal history.

ghost use Rattle.std.specs.Prelude.{◌≡◌};

use lra_model::ActionStatus;
use std::marker::Model;

/// An action that ended in failure: the status that it ended with, and the least numbered of the members that failed
/// and stay in it or in an action below it.
#[derive(Clone, Copy, Debug, PartialEq, Eq)]
pub struct FailedEnd {
    pub action: u64,
    pub status: ActionStatus,
    pub member: u64,
}

/// The actions that ended in failure, in the order of their numbers.
#[derive(Debug, Drop)]
pub struct FailedEnds {
    ends: Vec<FailedEnd>,
}

impl Model for FailedEnds {
    ghost use Rattle.std.specs.Prelude.{List};
    ghost use Rattle.lra_totals.specs.declared.totals.FailedEnd.{FailedEnd};

    ghost Value = { List FailedEnd };

    ghost view = { λ f. f.ends.items };
}

impl FailedEnds {
    /// Returns the ends of a list, which has to be in the order of their numbers.
    pub fn from_vec(ends: Vec<FailedEnd>) -> FailedEnds
        ensures { result ≡ ends.items }
    {
        FailedEnds { ends }
    }

    /// Returns the ends as a slice.
    pub fn as_slice(&self) -> &[FailedEnd]
        ensures { result.now ≡ self.now }
    {
        self.ends.as_slice()
    }

    /// Returns the ends as a list.
    pub fn into_vec(self) -> Vec<FailedEnd>
        ensures { result.items ≡ self }
    {
        self.ends
    }
}

/// The summary of a legal history.
#[derive(Debug, Drop)]
pub struct Summary {
    pub entries: u64,
    pub actions: u64,
    /// Actions that haven't ended.
    pub unended: u64,
    /// Actions that ended Closed.
    pub closed: u64,
    /// Actions that ended Cancelled.
    pub cancelled: u64,
    pub failed: FailedEnds,
}
