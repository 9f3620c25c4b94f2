//! The values that each command is validated by.

ghost use Rattle.std.specs.Prelude.{◌≡◌};
ghost use Rattle.lra_validator.specs.inner.Judged as judged;

use crate::decision::Decision;
use lra_commands::{Refusal, Terms};
use lra_model::{ActionStatus, Deed, Entry};
use lra_tables::{ActionRow, MemberRow, Tables};

/// The values that a clerk's command is validated by: among them the tables of the history before it, and the moment of
/// what it writes.
#[derive(Clone, Copy, Drop)]
pub(crate) struct Validator<'a> {
    pub(crate) terms: Terms,
    pub(crate) tables: &'a Tables,
    pub(crate) by: u32,
    pub(crate) moment: u64,
}

impl Validator<'_> {
    ghost use Rattle.std.specs.Prelude.{◌≡◌};
    ghost use Rattle.lra_model.specs.History.{History};
    ghost use Rattle.lra_laws.specs.Snapshots.{StandsFor};
    ghost use Rattle.lra_validator.specs.inner.Judged as judged;

    /// Checks that the clerk is enrolled.
    pub(crate) fn require_clerk(&self) -> Result<(), Refusal>
        ensures { (J : History) → StandsFor self.now.tables.now.snapshot J → result ≡ judged.known_clerk J self.now.by }
    {
        if self.tables.is_clerk(self.by) {
            Ok(())
        } else {
            Err(Refusal::NoSuchClerk)
        }
    }

    /// Returns the action of that number; `NoSuchAction` where it isn't there.
    pub(crate) fn action(&self, action: u64) -> Result<ActionRow, Refusal>
        ensures { (J : History) → StandsFor self.now.tables.now.snapshot J → result ≡ judged.known_action J action }
    {
        self.tables.action(action).ok_or(Refusal::NoSuchAction)
    }

    /// Returns the action of that number, which has to be there and Active.
    pub(crate) fn open_action(&self, action: u64) -> Result<ActionRow, Refusal>
        ensures { (J : History) → StandsFor self.now.tables.now.snapshot J → result ≡ judged.open_action J action }
    {
        let row = self.action(action)?;
        require_open(row.status)?;
        Ok(row)
    }

    /// Returns the member of that number; `NoSuchMember` where it isn't there.
    pub(crate) fn member(&self, member: u64) -> Result<MemberRow, Refusal>
        ensures { (J : History) → StandsFor self.now.tables.now.snapshot J → result ≡ judged.known_member J member }
    {
        self.tables.member(member).ok_or(Refusal::NoSuchMember)
    }

    /// Checks that a limit's end, counted from the moment of what is written, is a moment.
    pub(crate) fn require_near(&self, limit: u64) -> Result<(), Refusal>
        ensures { result ≡ judged.near self.now.moment limit }
    {
        if self.moment.checked_add(limit).is_some() {
            Ok(())
        } else {
            Err(Refusal::LimitTooFar)
        }
    }

    /// Returns the decision that the clerk writes a deed.
    pub(crate) fn write(&self, deed: Deed) -> Decision
        ensures { result ≡ judged.written self.now.by self.now.moment deed }
    {
        Decision::Write(Entry {
            by: self.by,
            moment: self.moment,
            deed,
        })
    }
}

/// Checks that the status of an action is Active.
pub(crate) fn require_open(status: ActionStatus) -> Result<(), Refusal>
    ensures { result ≡ judged.still_open status }
{
    if status.is_active() {
        Ok(())
    } else {
        Err(Refusal::NotActive(status))
    }
}
