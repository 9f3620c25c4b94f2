//! The decision on a command.

ghost use Rattle.std.specs.Prelude.{◌≡◌, ℕ, true, max};
ghost use Rattle.lra_model.specs.History.{History, last_moment};
ghost use Rattle.lra_laws.specs.Snapshots.{StandsFor};
ghost use Rattle.lra_commands.specs.Terms.{AreKeepable};
ghost use Rattle.lra_commands.specs.Calls.{is_fitting};
ghost use Rattle.lra_commands.specs.Runs.{IsLawful};
ghost use Rattle.lra_validator.specs.CommandValues.{command_value};
ghost use Rattle.lra_validator.specs.Decisions.{IsDecided, HasDueFacts};
ghost use Rattle.lra_validator.specs.inner.Judged as judged;

use crate::decision::Decision;
use crate::due_facts::DueFacts;
use crate::errand::HasAsk;
use crate::validator::Validator;
use lra_commands::{Command, Query, Refusal, Terms};
use lra_tables::Tables;
use std::alloc::Global;

/// Returns the moment of what is written: the one handed in, but never before that of the last entry.
fn moment_of(tables: &Tables, moment: u64) -> u64
    ensures { (J : History) → StandsFor tables.now.snapshot J → result ≡ max moment (last_moment J) }
{
    moment.max(tables.last_moment())
}

/// Decides on a command, by its kind.
fn validator<E: HasAsk>(
    alloc: Global,
    validator: &Validator<'_>,
    due_facts: &DueFacts,
    command: &Command<'_, E>,
) -> Result<Decision, Refusal>
    ensures { (J : History) → StandsFor validator.now.tables.now.snapshot J
        → judged.IsJudged validator.now.terms J validator.now.by
        validator.now.moment due_facts.now (command_value E.asking command.now) result }
{
    match command {
        Command::Enrol => validator.enrol(),
        Command::Start { parent, limit } => validator.start(*parent, *limit),
        Command::Join { action, uris } => validator.join(alloc, *action, uris),
        Command::Leave { action, member } => validator.leave(*action, *member),
        Command::Close { action } => validator.close(*action),
        Command::Cancel { action } => validator.cancel(*action),
        Command::Tick => validator.tick(due_facts.late),
        Command::NextAsk => validator.next_ask(due_facts.due),
        Command::Record { errand, outcome } => validator.record(errand.carried(), *outcome),
        Command::Report { member, ending } => validator.report(*member, *ending),
        Command::Restart => validator.restart(),
        Command::Renew { action, limit } => validator.renew(*action, *limit),
        Command::Status { action } => validator.ask(Query::ActionStatus { action: *action }),
        Command::MemberStatus { member } => validator.ask(Query::MemberStatus { member: *member }),
    }
}

/// Decides on a clerk's command at the history that the tables stand for: returns its refusal, its answer where it
/// writes nothing, or the entry that it writes of its own. The moment, in milliseconds, is the one handed in; what is
/// written has that of the last entry where this is later.
///
/// It doesn't check that the entries fit, since what settles after the entry isn't known yet. Only a join takes memory,
/// to read its addresses; `Memory` comes in no other place.
pub fn decide<E: HasAsk>(
    alloc: Global,
    terms: &Terms,
    tables: &Tables,
    due_facts: &DueFacts,
    by: u32,
    moment: u64,
    command: &Command<'_, E>,
) -> Result<Decision, Refusal>
    requires keepable { AreKeepable terms.now.limits }
    requires fits { is_fitting (command_value E.asking command.now) ≡ true }
    ensures { (J : History) → StandsFor tables.now.snapshot J → IsLawful terms.now J
        → HasDueFacts terms.now J (max moment (last_moment J)) (command_value E.asking command.now) due_facts.now
        → IsDecided terms.now J (record { by = by; moment = moment; command = command_value E.asking command.now })
        result }
{
    let by_tables = Validator {
        terms: *terms,
        tables,
        by,
        moment: moment_of(tables, moment),
    };
    validator(alloc, &by_tables, due_facts, command)
}
