//! The queries of a coordinator, which write nothing.

ghost use Rattle.std.specs.Prelude.{◌≡◌, Some};
ghost use Rattle.lra_commands.specs.Calls.{Call};
ghost use Rattle.lra_commands.specs.Answers.{answer};
ghost use Rattle.lra_commands.specs.Queries.{asks, answer_as, tell};
ghost use Rattle.lra_commands.specs.Counters.{terms_of};
ghost use Rattle.lra_schedule.specs.Schedules.{IsFirstMoment};

use crate::coordinator::CoordinatorOf;
use crate::history_store::HistoryStore;
use lra_commands::{Query, QueryResult, Refusal, Told};
use lra_validator::tell;

impl<P: HistoryStore> CoordinatorOf<P> {
    /// Returns the result of a query of the history, the same for every caller at every moment. This changes nothing
    /// and takes no memory. `NoSuchAction` and `NoSuchMember` alone refuse it, not the limits or a journal that can't
    /// be written.
    pub fn query(&self, query: Query) -> Result<QueryResult, Refusal>
        ensures { result ≡ tell self.now.setting.limits self.now.history query }
    {
        tell(&self.terms.limits, &self.tables, query)
    }

    /// Returns the first moment at which a want is due or a limit has passed, in milliseconds, if there is one: it may
    /// be in the past. A command comes no earlier than the last entry, so a want that isn't due yet at the clock's
    /// moment may be due at once for a command. This changes nothing and takes no memory.
    pub fn next_moment(&self) -> Option<u64>
        ensures { IsFirstMoment self.now.setting.limits self.now.history result }
    {
        self.schedule.next(&self.terms.limits, &self.tables)
    }

    /// Returns the answer to a clerk's command that only asks.
    pub(crate) fn ask(&self, by: u32, query: Query) -> Result<Told, Refusal>
        ensures { (c : Call) → c.by ≡ by → asks c.command ≡ Some query → result
            ≡ answer (terms_of self.now.setting) self.now.history c }
    {
        if !self.tables.is_clerk(by) {
            return Err(Refusal::NoSuchClerk);
        }
        answer_as(self.query(query))
    }
}

/// Returns the result of a query as the answer to a command.
fn answer_as(known: Result<QueryResult, Refusal>) -> Result<Told, Refusal>
    ensures { result ≡ answer_as known }
{
    match known {
        Ok(known) => Ok(known.told()),
        Err(refusal) => Err(refusal),
    }
}
