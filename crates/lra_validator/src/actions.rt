//! Commands on actions.

ghost use Rattle.std.specs.Prelude.{◌≡◌};
ghost use Rattle.lra_validator.specs.inner.Judged as judged;

use crate::decision::Decision;
use crate::validator::Validator;
use lra_commands::{Refusal, Resource, Told};
use lra_model::{ActionStatus, Cause, Deed, Version};

/// Checks that the version of the journal allows renewals of limits.
fn require_newer(version: Version) -> Result<(), Refusal>
    ensures { result ≡ judged.newer version }
{
    match version {
        Version::One => Err(Refusal::OldJournal),
        Version::Two => Ok(()),
    }
}

impl Validator<'_> {
    ghost use Rattle.std.specs.Prelude.{◌≡◌};
    ghost use Rattle.lra_model.specs.History.{History};
    ghost use Rattle.lra_laws.specs.Snapshots.{StandsFor};
    ghost use Rattle.lra_model.specs.declared.entry.Deed.TheVariants as deed;
    ghost use Rattle.lra_validator.specs.inner.Judged as judged;

    /// Returns the depth of a new action's parent, which has to be Active; 0 where there is to be none.
    fn depth_above(&self, parent: Option<u64>) -> Result<u64, Refusal>
        ensures { (J : History) → StandsFor self.now.tables.now.snapshot J → result ≡ judged.depth_above J parent }
    {
        match parent {
            None => Ok(0),
            Some(parent) => {
                let row = self.open_action(parent)?;
                Ok(row.depth)
            }
        }
    }

    /// Returns the number of a new action, unless there are as many as the limits allow.
    fn new_action(&self) -> Result<u64, Refusal>
        ensures { (J : History) → StandsFor self.now.tables.now.snapshot J → result
            ≡ judged.new_action self.now.terms.limits J }
    {
        let actions = self.tables.count_actions();
        if self.terms.limits.actions <= actions {
            return Err(Refusal::Full(Resource::Actions));
        }
        Ok(actions + 1)
    }

    /// Checks that an action below one of that depth isn't nested too deep.
    fn require_shallow(&self, above: u64) -> Result<(), Refusal>
        ensures { result ≡ judged.shallow self.now.terms.limits above }
    {
        if self.terms.limits.depth <= above {
            Err(Refusal::TooDeep)
        } else {
            Ok(())
        }
    }

    /// Decides on the start of an action.
    pub(crate) fn start(&self, parent: Option<u64>, limit: u64) -> Result<Decision, Refusal>
        ensures { (J : History) → StandsFor self.now.tables.now.snapshot J → result
            ≡ judged.start self.now.terms.limits J self.now.by self.now.moment parent limit }
    {
        self.require_clerk()?;
        let above = self.depth_above(parent)?;
        self.require_near(limit)?;
        self.require_shallow(above)?;
        let action = self.new_action()?;
        Ok(self.write(Deed::Start {
            action,
            parent,
            limit,
        }))
    }

    /// Decides on the close of an action: it is accepted where the action is Active, refused where it is being
    /// cancelled or was, and else a repeat.
    pub(crate) fn close(&self, action: u64) -> Result<Decision, Refusal>
        ensures { (J : History) → StandsFor self.now.tables.now.snapshot J → result
            ≡ judged.close J self.now.by self.now.moment action }
    {
        self.require_clerk()?;
        let row = self.action(action)?;
        self.close_at(action, row.status)
    }

    fn close_at(&self, action: u64, status: ActionStatus) -> Result<Decision, Refusal>
        ensures { result ≡ judged.close_at self.now.by self.now.moment action status }
    {
        match status {
            ActionStatus::Active => Ok(self.write(Deed::Close {
                action,
                cause: Cause::Client,
            })),
            ActionStatus::Closing => Ok(Decision::Told(Told::Already(status))),
            ActionStatus::Closed => Ok(Decision::Told(Told::Already(status))),
            ActionStatus::FailedToClose => Ok(Decision::Told(Told::Already(status))),
            ActionStatus::Cancelling => Err(Refusal::NotActive(status)),
            ActionStatus::Cancelled => Err(Refusal::NotActive(status)),
            ActionStatus::FailedToCancel => Err(Refusal::NotActive(status)),
        }
    }

    /// Returns whether there is a parent and it is Active.
    fn is_open_above(&self, parent: Option<u64>) -> bool
        ensures { (J : History) → StandsFor self.now.tables.now.snapshot J → result ≡ judged.is_open_above J parent }
    {
        let Some(parent) = parent else {
            return false;
        };
        match self.tables.action(parent) {
            Some(row) => row.status.is_active(),
            None => false,
        }
    }

    /// Returns whether the version lets a client cancel an action that has closed.
    fn takes_back(&self) -> bool
        ensures { result ≡ judged.takes_back self.now.terms.version }
    {
        match self.terms.version {
            Version::One => false,
            Version::Two => true,
        }
    }

    /// Decides on the cancel of an action: it is accepted where the action is Active, or is Closed below an Active
    /// parent and the version allows that; it is refused where the action is being closed or was; and else it is a
    /// repeat.
    pub(crate) fn cancel(&self, action: u64) -> Result<Decision, Refusal>
        ensures { (J : History) → StandsFor self.now.tables.now.snapshot J → result
            ≡ judged.cancel self.now.terms.version J self.now.by self.now.moment action }
    {
        self.require_clerk()?;
        let row = self.action(action)?;
        let back = self.takes_back() && self.is_open_above(row.parent);
        self.cancel_at(action, row.status, back)
    }

    fn cancel_at(&self, action: u64, status: ActionStatus, back: bool) -> Result<Decision, Refusal>
        ensures { result ≡ judged.cancel_at self.now.by self.now.moment action status back }
    {
        match status {
            ActionStatus::Active => Ok(self.cancel_now(action, Cause::Client)),
            ActionStatus::Closed if back => Ok(self.cancel_now(action, Cause::Client)),
            ActionStatus::Closed => Err(Refusal::NotActive(status)),
            ActionStatus::Closing => Err(Refusal::NotActive(status)),
            ActionStatus::FailedToClose => Err(Refusal::NotActive(status)),
            ActionStatus::Cancelling => Ok(Decision::Told(Told::Already(status))),
            ActionStatus::Cancelled => Ok(Decision::Told(Told::Already(status))),
            ActionStatus::FailedToCancel => Ok(Decision::Told(Told::Already(status))),
        }
    }

    fn cancel_now(&self, action: u64, cause: Cause) -> Decision
        ensures { result ≡ judged.written self.now.by self.now.moment (deed.Cancel action cause) }
    {
        self.write(Deed::Cancel { action, cause })
    }

    /// Decides on a tick: it cancels the action that is late, if one is.
    pub(crate) fn tick(&self, late: Option<u64>) -> Result<Decision, Refusal>
        ensures { (J : History) → StandsFor self.now.tables.now.snapshot J → result
            ≡ judged.tick J self.now.by self.now.moment late }
    {
        self.require_clerk()?;
        Ok(match late {
            Some(action) => self.cancel_now(action, Cause::Limit),
            None => Decision::Told(Told::Idle),
        })
    }

    /// Decides on a new limit of an action.
    pub(crate) fn renew(&self, action: u64, limit: u64) -> Result<Decision, Refusal>
        ensures { (J : History) → StandsFor self.now.tables.now.snapshot J → result
            ≡ judged.renew self.now.terms.version J self.now.by self.now.moment action limit }
    {
        self.require_clerk()?;
        require_newer(self.terms.version)?;
        self.open_action(action)?;
        self.require_near(limit)?;
        Ok(self.write(Deed::Renew { action, limit }))
    }
}
