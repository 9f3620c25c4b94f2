//! The value behind the lock, as offices see it.

ghost use Rattle.std.specs.Prelude.{◌≡◌, true};

use lra_commands::{Query, QueryResult, Refusal};
use lra_core::{Command, Committed};
use lra_ticket::Kept;

/// A kept value that does the commands of clerks, and answers queries.
pub trait LockedService: Kept {
    ghost use Rattle.std.specs.Prelude.{ℕ, ◌-◌, ◌^◌, Bool, IsTrue, IfErr};
    ghost use Rattle.lra_model.specs.History.{History};
    ghost use Rattle.lra_core.specs.Prepares.{is_suited};
    ghost use Rattle.lra_commands.specs.declared.refusal.Refusal.TheVariants.{Stopped};
    ghost use Rattle.lra_commands.specs.Counters.{Setting};
    ghost use Rattle.lra_commands.specs.Queries.{tell};
    ghost use Rattle.lra_schedule.specs.Schedules.{IsFirstMoment};
    ghost use Rattle.lra_office.specs.Serves.{IsServed, IsKeptBy};

    // What the coordinator behind an origin was made with.
    ghost setting: { Self.Origin → Setting };

    // Whether the scribe of its journal has stopped.
    ghost has_stopped: { Self → Bool };

    // Whether so many bytes of the journal, from the first that was written behind an origin, tell of all of a history.
    ghost covers: { Self.Origin → History → ℕ → Bool };

    /// Does a command of a clerk, and returns its answer, or changes nothing. It returns `Stopped` only if its scribe
    /// has stopped.
    fn serve(&mut self, by: u32, moment: u64, command: &Command<'_>) -> Result<Committed, Refusal>
        requires suited { is_suited command.now ≡ true }
        requires lawful { Self.lawful self.old }
        ensures lawful { Self.lawful self.new }
        ensures origin { Self.origin self.new ≡ Self.origin self.old }
        ensures served { IsServed (setting (Self.origin self.old)) (Self.history self.old)
            (record { by = by; moment = moment; command = command.now }) result (Self.history self.new) }
        ensures stopped { IfErr result (λ refusal. refusal ≡ Stopped → has_stopped self.new ≡ true) }

        // Once it has stopped it stays so, and nothing is appended any more.
        ensures stays { has_stopped self.old ≡ true
            → (has_stopped self.new ≡ true) × (Self.history self.new ≡ Self.history self.old) };

    /// Returns the result of a query of its history.
    fn query(&self, query: Query) -> Result<QueryResult, Refusal>
        ensures { result ≡ tell (setting (Self.origin self.now)).limits (Self.history self.now) query };

    /// Returns the first moment at which something is due or late in its history, in milliseconds, if there is one.
    fn next_moment(&self) -> Option<u64>
        ensures { IsFirstMoment (setting (Self.origin self.now)).limits (Self.history self.now) result };

    /// Returns how many bytes of its journal have to be durable so that all of its history is.
    fn position(&self) -> u64
        requires { Self.lawful self.now }
        ensures { IsTrue (covers (Self.origin self.now) (Self.history self.now) result) };

    // The greatest position covers all.
    ghost most: { (o : Self.Origin) (J : History) → IsTrue (covers o J (2 ^ 64 - 1)) };

    // What its laws say of its history.
    ghost tells: { (x : Self) → Self.Kept.lawful x → IsKeptBy (setting (Self.Kept.origin x)) (Self.Kept.history x) };
}
