//! Commands on asks.

ghost use Rattle.std.specs.Prelude.{◌≡◌};
ghost use Rattle.lra_model.specs.Words as words;
ghost use Rattle.lra_validator.specs.inner.Judged as judged;

use crate::decision::Decision;
use crate::errand::Carried;
use crate::validator::Validator;
use lra_commands::{Refusal, Told};
use lra_model::{AskKind, Deed, Direction, Outcome};
use lra_tables::AskRow;

/// Returns whether two kinds are the same.
fn is_same_kind(left: AskKind, right: AskKind) -> bool
    ensures { result ≡ words.same_kind left right }
{
    left == right
}

/// Returns whether two directions are the same.
fn is_same_direction(left: Direction, right: Direction) -> bool
    ensures { result ≡ words.same_direction left right }
{
    left == right
}

/// Returns whether an ask is outstanding, and has the errand's member, kind and direction.
fn is_carried(errand: Carried, row: AskRow) -> bool
    ensures { result ≡ judged.is_carried errand row }
{
    row.outstanding
        && row.member == errand.member
        && is_same_kind(row.kind, errand.kind)
        && is_same_direction(row.direction, errand.direction)
}

impl Validator<'_> {
    ghost use Rattle.std.specs.Prelude.{◌≡◌};
    ghost use Rattle.lra_model.specs.History.{History};
    ghost use Rattle.lra_laws.specs.Snapshots.{StandsFor};
    ghost use Rattle.lra_validator.specs.inner.Judged as judged;

    /// Returns the kind of ask that a member wants next.
    fn wanted_by(&self, member: u64) -> Option<AskKind>
        ensures { (J : History) → StandsFor self.now.tables.now.snapshot J → result ≡ judged.wanted_by J member }
    {
        self.tables.member(member)?.want
    }

    /// Decides on the next ask: of the member whose want is due, if one is, for what it wants.
    pub(crate) fn next_ask(&self, due: Option<u64>) -> Result<Decision, Refusal>
        ensures { (J : History) → StandsFor self.now.tables.now.snapshot J → result
            ≡ judged.next_ask J self.now.by self.now.moment due }
    {
        self.require_clerk()?;
        Ok(match due {
            Some(member) => self.ask_for(member, self.wanted_by(member)),
            None => Decision::Told(Told::Idle),
        })
    }

    fn ask_for(&self, member: u64, want: Option<AskKind>) -> Decision
        ensures { (J : History) → StandsFor self.now.tables.now.snapshot J → result
            ≡ judged.ask_for J self.now.by self.now.moment member want }
    {
        match want {
            Some(kind) => self.write(Deed::Ask {
                ask: self.tables.count_asks().saturating_add(1),
                member,
                kind,
            }),
            None => Decision::Told(Told::Idle),
        }
    }

    /// Checks that the errand's ask is outstanding, and has the errand's member, kind and direction.
    fn require_awaited(&self, errand: Carried) -> Result<(), Refusal>
        ensures { (J : History) → StandsFor self.now.tables.now.snapshot J → result ≡ judged.awaited J errand }
    {
        match self.tables.ask(errand.ask) {
            Some(row) if is_carried(errand, row) => Ok(()),
            _ => Err(Refusal::NotAsked),
        }
    }

    /// Records the outcome of the errand's ask, where that is outstanding and has its member, kind and direction.
    pub(crate) fn record(&self, errand: Carried, outcome: Outcome) -> Result<Decision, Refusal>
        ensures { (J : History) → StandsFor self.now.tables.now.snapshot J → result
            ≡ judged.reply J self.now.by self.now.moment errand outcome }
    {
        self.require_clerk()?;
        self.require_awaited(errand)?;
        Ok(self.write(Deed::Reply {
            ask: errand.ask,
            outcome,
        }))
    }

    /// Decides on a restart, which makes every outstanding ask void.
    pub(crate) fn restart(&self) -> Result<Decision, Refusal>
        ensures { (J : History) → StandsFor self.now.tables.now.snapshot J → result
            ≡ judged.restart J self.now.by self.now.moment }
    {
        self.require_clerk()?;
        Ok(self.write(Deed::Restart))
    }
}
