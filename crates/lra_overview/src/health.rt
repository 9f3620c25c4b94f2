//! The health of a service (MicroProfile Health 4.0).

ghost use Rattle.std.specs.Prelude.{◌≡◌, ◌++◌, OnOk};
ghost use Rattle.lra_overview.specs.Health as spec;

use crate::laying::{put, put_number};
use crate::overview::Facts;
use lra_ids::Instance;
use lra_model::Memory;

/// Question about a service's health.
#[derive(Clone, Copy, PartialEq, Eq)]
pub enum Probe {
    /// The question for all checks.
    Whole,
    /// The question whether the service should be started anew.
    Live,
    /// The question whether clients can send requests to the service.
    Ready,
    /// The question whether the service has started.
    Started,
}

/// Numbers of actions and of members that the coordinator reported.
#[derive(Clone, Copy)]
pub struct Answered {
    pub actions: u64,
    pub members: u64,
}

/// Returns whether the journal accepts writes and makes them durable.
fn keeps(facts: &Facts) -> bool
    ensures { result ≡ spec.keeps facts.now }
{
    !facts.has_failed
}

/// Returns whether there is room for bytes, entries, actions and members. If the coordinator reported no numbers,
/// actions and members count as having room.
fn has_room(facts: &Facts, answered: &Option<Answered>) -> bool
    ensures { result ≡ spec.has_room facts.now answered.now }
{
    let bytes = facts.bytes < facts.most_bytes;
    let entries = facts.entries < facts.most_entries;
    let counted = match answered {
        Some(told) => told.actions < facts.most_actions && told.members < facts.most_members,
        None => true,
    };
    bytes && entries && counted
}

/// Returns whether new actions may be started.
fn takes_starts(facts: &Facts) -> bool
    ensures { result ≡ spec.takes_starts facts.now }
{
    !facts.is_ending
}

/// Returns whether each worker knows the journals that there are.
fn follows(facts: &Facts) -> bool
    ensures { result ≡ spec.follows facts.now }
{
    !facts.lags
}

/// Returns whether no sync takes longer than it may.
fn syncs_in_time(facts: &Facts) -> bool
    ensures { result ≡ spec.syncs_in_time facts.now }
{
    facts.sync_age <= facts.sync_limit
}

/// Returns whether no worker and no callback worker has ended.
fn has_threads(facts: &Facts) -> bool
    ensures { result ≡ spec.has_threads facts.now }
{
    facts.lost_workers == 0 && facts.lost_callback_workers == 0
}

/// Returns whether nothing is wrong that a restart would mend.
fn is_live(facts: &Facts, answered: &Option<Answered>) -> bool
    ensures { result ≡ spec.is_live facts.now answered.now }
{
    keeps(facts) && answered.is_some() && has_threads(facts)
}

/// Returns whether the service accepts anything more.
fn takes_more(facts: &Facts, answered: &Option<Answered>) -> bool
    ensures { result ≡ spec.takes_more facts.now answered.now }
{
    has_room(facts, answered) && takes_starts(facts)
}

/// Returns whether nothing is late: no worker lags behind the set of journals, and no sync takes too long.
fn is_timely(facts: &Facts) -> bool
    ensures { result ≡ spec.is_timely facts.now }
{
    follows(facts) && syncs_in_time(facts)
}

/// Returns whether all checks of a probe succeed.
pub fn is_up(probe: Probe, facts: &Facts, answered: &Option<Answered>) -> bool
    ensures { result ≡ spec.is_up probe facts.now answered.now }
{
    match probe {
        Probe::Started => true,
        Probe::Live => is_live(facts, answered),
        Probe::Ready | Probe::Whole => {
            is_live(facts, answered) && takes_more(facts, answered) && is_timely(facts)
        }
    }
}

/// Returns the word for the outcome of a check.
fn word(up: bool) -> &'static str
    ensures { result.now ≡ spec.word up }
{
    if up { "UP" } else { "DOWN" }
}

/// Adds a check's beginning: its name and its outcome.
fn begin_check(page: &mut Vec<u8>, name: &'static str, up: bool) -> Result<(), Memory>
    ensures { OnOk result (page.new.items ≡ page.old.items ++ spec.check name.now up) }
{
    put(page, "{\"name\":\"")?;
    put(page, name)?;
    put(page, "\",\"status\":\"")?;
    put(page, word(up))?;
    put(page, "\"")
}

/// Adds a number of a check's data.
fn put_data(page: &mut Vec<u8>, name: &'static str, number: u64) -> Result<(), Memory>
    ensures { OnOk result (page.new.items ≡ page.old.items ++ spec.measured name.now number) }
{
    put(page, "\"")?;
    put(page, name)?;
    put(page, "\":")?;
    put_number(page, number)
}

/// Adds the check of whether the journal accepts writes and makes them durable.
fn put_journal(page: &mut Vec<u8>, facts: &Facts) -> Result<(), Memory>
    ensures { OnOk result (page.new.items ≡ page.old.items ++ spec.journal facts.now) }
{
    begin_check(page, "journal", keeps(facts))?;
    put(page, ",\"data\":{")?;
    put_data(page, "bytes", facts.bytes)?;
    put(page, ",")?;
    put_data(page, "entries", facts.entries)?;
    put(page, "}}")
}

/// Adds the check of a coordinator that answers, with the numbers that it reported.
fn put_answer(page: &mut Vec<u8>, told: Answered) -> Result<(), Memory>
    ensures { OnOk result (page.new.items ≡ page.old.items ++ spec.answer told) }
{
    begin_check(page, "lock", true)?;
    put(page, ",\"data\":{")?;
    put_data(page, "actions", told.actions)?;
    put(page, ",")?;
    put_data(page, "members", told.members)?;
    put(page, "}}")
}

/// Adds the check of a coordinator that doesn't answer.
fn put_silence(page: &mut Vec<u8>) -> Result<(), Memory>
    ensures { OnOk result (page.new.items ≡ page.old.items ++ spec.silence) }
{
    begin_check(page, "lock", false)?;
    put(page, "}")
}

/// Adds the check of whether the coordinator answers.
fn put_lock(page: &mut Vec<u8>, answered: &Option<Answered>) -> Result<(), Memory>
    ensures { OnOk result (page.new.items ≡ page.old.items ++ spec.lock answered.now) }
{
    match answered {
        Some(told) => put_answer(page, *told),
        None => put_silence(page),
    }
}

/// Adds the room for actions and members, by the numbers that there are.
fn put_room_left(page: &mut Vec<u8>, facts: &Facts, told: Answered) -> Result<(), Memory>
    ensures { OnOk result (page.new.items ≡ page.old.items ++ spec.room_left facts.now told) }
{
    let actions = facts.most_actions.saturating_sub(told.actions);
    let members = facts.most_members.saturating_sub(told.members);
    put(page, ",")?;
    put_data(page, "actions", actions)?;
    put(page, ",")?;
    put_data(page, "members", members)
}

/// Adds the room for actions and members, if their numbers are known.
fn put_room_counted(
    page: &mut Vec<u8>,
    facts: &Facts,
    answered: &Option<Answered>,
) -> Result<(), Memory>
    ensures { OnOk result (page.new.items ≡ page.old.items ++ spec.room_counted facts.now answered.now) }
{
    match answered {
        Some(told) => put_room_left(page, facts, *told),
        None => Ok(()),
    }
}

/// Adds the check of whether there is room, and how much.
fn put_room(page: &mut Vec<u8>, facts: &Facts, answered: &Option<Answered>) -> Result<(), Memory>
    ensures { OnOk result (page.new.items ≡ page.old.items ++ spec.room facts.now answered.now) }
{
    let bytes = facts.most_bytes.saturating_sub(facts.bytes);
    let entries = facts.most_entries.saturating_sub(facts.entries);
    begin_check(page, "room", has_room(facts, answered))?;
    put(page, ",\"data\":{")?;
    put_data(page, "bytes", bytes)?;
    put(page, ",")?;
    put_data(page, "entries", entries)?;
    put_room_counted(page, facts, answered)?;
    put(page, "}}")
}

/// Adds the check of whether new actions may be started.
fn put_starts(page: &mut Vec<u8>, facts: &Facts) -> Result<(), Memory>
    ensures { OnOk result (page.new.items ≡ page.old.items ++ spec.starts facts.now) }
{
    begin_check(page, "starts", takes_starts(facts))?;
    put(page, "}")
}

/// Adds the checks of whether the service accepts anything more.
fn put_openings(
    page: &mut Vec<u8>,
    facts: &Facts,
    answered: &Option<Answered>,
) -> Result<(), Memory>
    ensures { OnOk result (page.new.items ≡ page.old.items ++ spec.openings facts.now answered.now) }
{
    put_room(page, facts, answered)?;
    put(page, ",")?;
    put_starts(page, facts)
}

/// Adds the name of a journal's file, without its extension.
#[tactic(auto, using(crate::proofs::Stems::written))]
fn put_stem(page: &mut Vec<u8>, journal: Instance) -> Result<(), Memory>
    ensures { OnOk result (page.new.items ≡ page.old.items ++ spec.stem journal) }
{
    let number = journal.number();
    let stem = format!(in *page.allocator(); "{number:015x}")?;
    page.extend_from_slice(stem.as_str().as_bytes())
}

/// Adds the journal whose callbacks stand still.
fn put_journal_standing(page: &mut Vec<u8>, journal: Instance) -> Result<(), Memory>
    ensures { OnOk result (page.new.items ≡ page.old.items ++ spec.journal_standing journal) }
{
    put(page, ",\"callbacks_of\":\"")?;
    put_stem(page, journal)?;
    put(page, "\"")
}

/// Adds the journal whose callbacks stand still, if any do.
fn put_standing(page: &mut Vec<u8>, facts: &Facts) -> Result<(), Memory>
    ensures { OnOk result (page.new.items ≡ page.old.items ++ spec.standing facts.now) }
{
    match facts.standing {
        Some(journal) => put_journal_standing(page, journal),
        None => Ok(()),
    }
}

/// Adds how many workers and callback workers have ended.
fn put_lost(page: &mut Vec<u8>, facts: &Facts) -> Result<(), Memory>
    ensures { OnOk result (page.new.items ≡ page.old.items ++ spec.lost facts.now) }
{
    put_data(page, "ended_workers", facts.lost_workers)?;
    put(page, ",")?;
    put_data(page, "ended_callback_workers", facts.lost_callback_workers)
}

/// Adds the check of whether all threads run, and the journal whose callbacks stand still if they don't.
fn put_threads(page: &mut Vec<u8>, facts: &Facts) -> Result<(), Memory>
    ensures { OnOk result (page.new.items ≡ page.old.items ++ spec.threads facts.now) }
{
    begin_check(page, "threads", has_threads(facts))?;
    put(page, ",\"data\":{")?;
    put_lost(page, facts)?;
    put_standing(page, facts)?;
    put(page, "}}")
}

/// Adds how long the sync under way has taken, and how long it may take.
fn put_ages(page: &mut Vec<u8>, facts: &Facts) -> Result<(), Memory>
    ensures { OnOk result (page.new.items ≡ page.old.items ++ spec.ages facts.now) }
{
    put_data(page, "age_ms", facts.sync_age)?;
    put(page, ",")?;
    put_data(page, "limit_ms", facts.sync_limit)
}

/// Adds the check of whether a sync takes too long.
fn put_sync(page: &mut Vec<u8>, facts: &Facts) -> Result<(), Memory>
    ensures { OnOk result (page.new.items ≡ page.old.items ++ spec.sync facts.now) }
{
    begin_check(page, "sync", syncs_in_time(facts))?;
    put(page, ",\"data\":{")?;
    put_ages(page, facts)?;
    put(page, "}}")
}

/// Returns the end of the check of the set of journals. If a worker lags behind the set, it has the reason.
fn set_data(facts: &Facts) -> &'static str
    ensures { result.now ≡ spec.set_data facts.now }
{
    if facts.lags {
        ",\"data\":{\"reason\":\"a worker can't follow a change of the set of journals\"}}"
    } else {
        "}"
    }
}

/// Adds the check of whether a worker lags behind the set of journals.
fn put_set(page: &mut Vec<u8>, facts: &Facts) -> Result<(), Memory>
    ensures { OnOk result (page.new.items ≡ page.old.items ++ spec.set facts.now) }
{
    begin_check(page, "set", follows(facts))?;
    put(page, set_data(facts))
}

/// Adds the checks of whether nothing is late.
fn put_delays(page: &mut Vec<u8>, facts: &Facts) -> Result<(), Memory>
    ensures { OnOk result (page.new.items ≡ page.old.items ++ spec.delays facts.now) }
{
    put_set(page, facts)?;
    put(page, ",")?;
    put_sync(page, facts)
}

/// Adds the check of whether the service has started. That is so whenever it replies.
fn put_started(page: &mut Vec<u8>) -> Result<(), Memory>
    ensures { OnOk result (page.new.items ≡ page.old.items ++ spec.started) }
{
    begin_check(page, "started", true)?;
    put(page, "}")
}

/// Adds the checks of whether the service should be started anew.
fn put_live(page: &mut Vec<u8>, facts: &Facts, answered: &Option<Answered>) -> Result<(), Memory>
    ensures { OnOk result (page.new.items ≡ page.old.items ++ spec.live facts.now answered.now) }
{
    put_journal(page, facts)?;
    put(page, ",")?;
    put_lock(page, answered)?;
    put(page, ",")?;
    put_threads(page, facts)
}

/// Adds the checks of whether clients can send requests to the service.
fn put_ready(page: &mut Vec<u8>, facts: &Facts, answered: &Option<Answered>) -> Result<(), Memory>
    ensures { OnOk result (page.new.items ≡ page.old.items ++ spec.ready facts.now answered.now) }
{
    put_live(page, facts, answered)?;
    put(page, ",")?;
    put_openings(page, facts, answered)?;
    put(page, ",")?;
    put_delays(page, facts)
}

/// Adds the checks of a probe.
fn put_checks(
    page: &mut Vec<u8>,
    probe: Probe,
    facts: &Facts,
    answered: &Option<Answered>,
) -> Result<(), Memory>
    ensures { OnOk result (page.new.items ≡ page.old.items ++ spec.checks probe facts.now answered.now) }
{
    match probe {
        Probe::Started => put_started(page),
        Probe::Live => put_live(page, facts, answered),
        Probe::Ready => put_ready(page, facts, answered),
        Probe::Whole => put_ready(page, facts, answered),
    }
}

/// Adds the health of a service, as a probe asks for it.
pub fn put_health(
    page: &mut Vec<u8>,
    probe: Probe,
    facts: &Facts,
    answered: &Option<Answered>,
) -> Result<(), Memory>
    ensures { OnOk result (page.new.items ≡ page.old.items ++ spec.health probe facts.now answered.now) }
{
    put(page, "{\"status\":\"")?;
    put(page, word(is_up(probe, facts, answered)))?;
    put(page, "\",\"checks\":[")?;
    put_checks(page, probe, facts, answered)?;
    put(page, "]}\n")
}
