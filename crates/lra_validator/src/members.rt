//! Commands on members.

ghost use Rattle.std.specs.Prelude.{◌≡◌};
ghost use Rattle.lra_validator.specs.inner.Judged as judged;
ghost use Rattle.lra_commands.specs.Deeds.{outcome_told};

use crate::decision::Decision;
use crate::stored::stored;
use crate::validator::{Validator, require_open};
use lra_commands::{Refusal, Resource, Told};
use lra_model::{Deed, Ending, MemberStatus, Outcome, Uris};
use lra_tables::MemberRow;
use std::alloc::Global;

/// Checks that a member hasn't left.
fn require_here(status: MemberStatus) -> Result<(), Refusal>
    ensures { result ≡ judged.here status }
{
    if status.has_gone() {
        Err(Refusal::HasLeft)
    } else {
        Ok(())
    }
}

/// Returns whether the direction of an ending is decided.
fn has_told(found: &MemberRow, ending: Ending) -> bool
    ensures { result ≡ judged.has_told found.now ending }
{
    match ending {
        Ending::Completed | Ending::FailedToComplete => found.completion.is_some(),
        Ending::Compensated | Ending::FailedToCompensate => found.compensation.is_some(),
    }
}

/// Returns whether a member is being asked for the ending that it reports.
fn is_awaited(status: MemberStatus, ending: Ending) -> bool
    ensures { result ≡ judged.is_awaited status ending }
{
    match ending {
        Ending::Completed | Ending::FailedToComplete => status.is_completing(),
        Ending::Compensated | Ending::FailedToCompensate => status.is_compensating(),
    }
}

/// Returns the outcome that an ending stands for.
fn outcome_told(ending: Ending) -> Outcome
    ensures { result ≡ outcome_told ending }
{
    match ending {
        Ending::Completed | Ending::Compensated => Outcome::Done,
        Ending::FailedToComplete | Ending::FailedToCompensate => Outcome::Failed,
    }
}

impl Validator<'_> {
    ghost use Rattle.std.specs.Prelude.{◌≡◌};
    ghost use Rattle.lra_model.specs.History.{History};
    ghost use Rattle.lra_laws.specs.Snapshots.{StandsFor};
    ghost use Rattle.lra_validator.specs.inner.Judged as judged;

    /// Returns the number of a new member, unless there are as many as the limits allow.
    fn new_member(&self) -> Result<u64, Refusal>
        ensures { (J : History) → StandsFor self.now.tables.now.snapshot J → result
            ≡ judged.new_member self.now.terms.limits J }
    {
        let members = self.tables.count_members();
        if self.terms.limits.members <= members {
            return Err(Refusal::Full(Resource::Members));
        }
        Ok(members + 1)
    }

    /// Decides on a join of an action that is Active, with addresses as they are stored.
    fn join_with(&self, action: u64, uris: Uris) -> Result<Decision, Refusal>
        ensures { (J : History) → StandsFor self.now.tables.now.snapshot J → result
            ≡ judged.join_with self.now.terms.limits J self.now.by self.now.moment action uris }
    {
        if let Some(member) = self.tables.joined(action, &uris) {
            return Ok(Decision::Told(Told::AlreadyMember(member)));
        }
        let member = self.new_member()?;
        Ok(self.write(Deed::Join {
            member,
            action,
            uris,
        }))
    }

    /// Checks that the clerk is enrolled, and that the action is Active, so that members may join it.
    fn require_joinable(&self, action: u64) -> Result<(), Refusal>
        ensures { (J : History) → StandsFor self.now.tables.now.snapshot J → result
            ≡ judged.joinable J self.now.by action }
    {
        self.require_clerk()?;
        self.open_action(action)?;
        Ok(())
    }

    /// Decides on a join of an action that is Active, by the result of reading the addresses.
    fn join_read(&self, action: u64, read: Result<Uris, Refusal>) -> Result<Decision, Refusal>
        ensures { (J : History) → StandsFor self.now.tables.now.snapshot J → result
            ≡ judged.join_read self.now.terms.limits J self.now.by self.now.moment action read }
    {
        self.join_with(action, read?)
    }

    /// Decides on the join of a member: it is a repeat where one with the same addresses has joined and hasn't left.
    /// Reading the addresses takes memory.
    pub(crate) fn join(&self, alloc: Global, action: u64, uris: &Uris) -> Result<Decision, Refusal>
        ensures { (J : History) → StandsFor self.now.tables.now.snapshot J
            → judged.IsJoin self.now.terms.limits J self.now.by self.now.moment action uris.now result
            (judged.joinable J self.now.by action) }
    {
        if let Err(refusal) = self.require_joinable(action) {
            return Err(refusal);
        }
        self.join_read(action, stored(alloc, uris))
    }

    /// Decides on the leave of a member.
    pub(crate) fn leave(&self, action: u64, member: u64) -> Result<Decision, Refusal>
        ensures { (J : History) → StandsFor self.now.tables.now.snapshot J → result
            ≡ judged.leave J self.now.by self.now.moment action member }
    {
        self.require_clerk()?;
        let row = self.action(action)?;
        let found = self.member(member)?;
        require_own(found.action, action)?;
        require_here(found.status)?;
        require_open(row.status)?;
        Ok(self.write(Deed::Leave { member }))
    }

    /// Decides on what a member reports of itself: the report is accepted where the member is asked for that, and is a
    /// repeat where that direction is decided.
    pub(crate) fn report(&self, member: u64, ending: Ending) -> Result<Decision, Refusal>
        ensures { (J : History) → StandsFor self.now.tables.now.snapshot J → result
            ≡ judged.report J self.now.by self.now.moment member ending }
    {
        self.require_clerk()?;
        let found = self.member(member)?;
        require_here(found.status)?;
        self.report_at(member, ending, &found)
    }

    fn report_at(&self, member: u64, ending: Ending, found: &MemberRow) -> Result<Decision, Refusal>
        ensures { result ≡ judged.report_at self.now.by self.now.moment member ending found.now }
    {
        if has_told(found, ending) {
            return Ok(Decision::Told(Told::MemberAlready(found.status)));
        }
        if !is_awaited(found.status, ending) {
            return Err(Refusal::NotAsked);
        }
        Ok(self.write(Deed::Report {
            member,
            outcome: outcome_told(ending),
        }))
    }
}

/// Checks that a member is the action's.
fn require_own(of: u64, action: u64) -> Result<(), Refusal>
    ensures { result ≡ judged.own of action }
{
    if of == action {
        Ok(())
    } else {
        Err(Refusal::WrongAction)
    }
}
