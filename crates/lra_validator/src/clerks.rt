//! The command of a new clerk.

use crate::decision::Decision;
use crate::validator::Validator;
use lra_commands::{Refusal, Resource};
use lra_model::{Deed, Entry};

impl Validator<'_> {
    ghost use Rattle.std.specs.Prelude.{◌≡◌};
    ghost use Rattle.lra_model.specs.History.{History};
    ghost use Rattle.lra_laws.specs.Snapshots.{StandsFor};
    ghost use Rattle.lra_validator.specs.inner.Judged as judged;

    /// Returns the number of a new clerk, unless there are as many as the limits allow.
    fn new_clerk(&self) -> Result<u32, Refusal>
        ensures { (J : History) → StandsFor self.now.tables.now.snapshot J → result
            ≡ judged.new_clerk self.now.terms.limits J }
    {
        let clerks = self.tables.count_clerks();
        if u64::from(self.terms.limits.clerks) <= clerks {
            return Err(Refusal::Full(Resource::Clerks));
        }
        Ok(clerks as u32 + 1)
    }

    /// Decides on the enrolment of a new clerk; unlike every other command, it needs no enrolled clerk.
    pub(crate) fn enrol(&self) -> Result<Decision, Refusal>
        ensures { (J : History) → StandsFor self.now.tables.now.snapshot J → result
            ≡ judged.enrol self.now.terms.limits J self.now.moment }
    {
        let by = self.new_clerk()?;
        Ok(Decision::Write(Entry {
            by,
            moment: self.moment,
            deed: Deed::Enrol,
        }))
    }
}
