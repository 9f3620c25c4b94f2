//! The measures of a service, in the text format 0.0.4 of Prometheus.

ghost use Rattle.std.specs.Prelude.{◌≡◌, ◌++◌, OnOk};
ghost use Rattle.std.specs.List.{flat_map};
ghost use Rattle.lra_overview.specs.Measures as spec;

use crate::counts::{Counts, Totals};
use crate::laying::{put, put_number};
use crate::overdue::Overdue;
use crate::overview::Facts;
use crate::shares::Share;
use lra_model::Memory;

/// Kind of a measure's number.
#[derive(Clone, Copy, PartialEq, Eq)]
pub enum Kind {
    Gauge,
    Counter,
    Histogram,
}

/// Number of parts of a whole, in which ratios are written.
const PARTS: u64 = 1_000_000;

/// Description of the members that hold up ends.
const OVERDUE: &str =
    "Members of actions that are closing or cancelling that were asked in vain three times or more, or \
     are to be asked by now.";

/// Adds the end of the line that says the kind of a measure.
fn put_kind(page: &mut Vec<u8>, kind: Kind) -> Result<(), Memory>
    ensures { OnOk result (page.new.items ≡ page.old.items ++ spec.kind_end kind) }
{
    match kind {
        Kind::Gauge => put(page, " gauge\n"),
        Kind::Counter => put(page, " counter\n"),
        Kind::Histogram => put(page, " histogram\n"),
    }
}

/// Adds the description and the kind of a measure. These stand before its lines.
pub fn describe(page: &mut Vec<u8>, name: &str, kind: Kind, help: &str) -> Result<(), Memory>
    ensures { OnOk result (page.new.items ≡ page.old.items ++ spec.description name.now kind help.now) }
{
    put(page, "# HELP ")?;
    put(page, name)?;
    put(page, " ")?;
    put(page, help)?;
    put(page, "\n# TYPE ")?;
    put(page, name)?;
    put_kind(page, kind)
}

/// Adds a measure that is a whole number.
pub fn whole(
    page: &mut Vec<u8>,
    name: &str,
    kind: Kind,
    help: &str,
    number: u64,
) -> Result<(), Memory>
    ensures { OnOk result (page.new.items ≡ page.old.items ++ spec.whole_measure name.now kind help.now number) }
{
    describe(page, name, kind, help)?;
    put(page, name)?;
    put(page, " ")?;
    put_number(page, number)?;
    put(page, "\n")
}

/// Adds the last digit of how often a number has so many parts, or nothing if that is no part.
fn put_digit(page: &mut Vec<u8>, number: u64, scale: u64) -> Result<(), Memory>
    ensures { OnOk result (page.new.items ≡ page.old.items ++ spec.digit number scale) }
{
    if scale == 0 {
        Ok(())
    } else {
        put_number(page, number / scale % 10)
    }
}

/// Adds the digits after the point of a number of so many parts of one, six at most.
fn put_digits(page: &mut Vec<u8>, number: u64, parts: u64) -> Result<(), Memory>
    ensures { OnOk result (page.new.items ≡ page.old.items ++ spec.digits number parts) }
{
    put_digit(page, number, parts / 10)?;
    put_digit(page, number, parts / 100)?;
    put_digit(page, number, parts / 1_000)?;
    put_digit(page, number, parts / 10_000)?;
    put_digit(page, number, parts / 100_000)?;
    put_digit(page, number, parts / 1_000_000)
}

/// Returns how many whole ones a number of so many parts of one has.
fn ones(number: u64, parts: u64) -> u64
    ensures { result ≡ spec.ones number parts }
{
    if parts == 0 { 0 } else { number / parts }
}

/// Returns how many parts a number of so many parts of one has beside the whole ones.
fn rest(number: u64, parts: u64) -> u64
    ensures { result ≡ spec.rest number parts }
{
    if parts == 0 { 0 } else { number % parts }
}

/// Adds a number of so many parts of one. The number of parts is a power of ten, a million at most.
pub fn put_parts(page: &mut Vec<u8>, number: u64, parts: u64) -> Result<(), Memory>
    ensures { OnOk result (page.new.items ≡ page.old.items ++ spec.in_parts number parts) }
{
    put_number(page, ones(number, parts))?;
    put(page, ".")?;
    put_digits(page, rest(number, parts), parts)
}

/// Adds a measure of so many parts of one.
fn parts(
    page: &mut Vec<u8>,
    name: &str,
    kind: Kind,
    help: &str,
    number: u64,
    of: u64,
) -> Result<(), Memory>
    ensures { OnOk result (page.new.items ≡ page.old.items ++ spec.parts_measure name.now kind help.now number of) }
{
    describe(page, name, kind, help)?;
    put(page, name)?;
    put(page, " ")?;
    put_parts(page, number, of)?;
    put(page, "\n")
}

/// Adds a measure that is a whole number, if the number is known.
fn whole_if(
    page: &mut Vec<u8>,
    name: &str,
    kind: Kind,
    help: &str,
    number: Option<u64>,
) -> Result<(), Memory>
    ensures { OnOk result (page.new.items ≡ page.old.items ++ spec.whole_if name.now kind help.now number) }
{
    match number {
        Some(number) => whole(page, name, kind, help, number),
        None => Ok(()),
    }
}

/// Adds a measure of so many parts of one, if the number is known.
fn parts_if(
    page: &mut Vec<u8>,
    name: &str,
    kind: Kind,
    help: &str,
    number: Option<u64>,
    of: u64,
) -> Result<(), Memory>
    ensures { OnOk result (page.new.items ≡ page.old.items ++ spec.parts_if name.now kind help.now number of) }
{
    match number {
        Some(number) => parts(page, name, kind, help, number, of),
        None => Ok(()),
    }
}

/// Begins a line of a measure that has a label. The label's value is a word of this program.
fn labelled(page: &mut Vec<u8>, name: &str, label: &str, value: &str) -> Result<(), Memory>
    ensures { OnOk result (page.new.items ≡ page.old.items ++ spec.labelled name.now label.now value.now) }
{
    put(page, name)?;
    put(page, "{")?;
    put(page, label)?;
    put(page, "=\"")?;
    put(page, value)?;
    put(page, "\"} ")
}

/// Adds a line of a measure that has a label, with a whole number.
fn put_line(
    page: &mut Vec<u8>,
    name: &str,
    label: &str,
    value: &str,
    number: u64,
) -> Result<(), Memory>
    ensures { OnOk result (page.new.items ≡ page.old.items ++ spec.line name.now label.now value.now number) }
{
    labelled(page, name, label, value)?;
    put_number(page, number)?;
    put(page, "\n")
}

/// Returns a flag as a number.
fn number_of(flag: bool) -> u64
    ensures { result ≡ spec.number_of flag }
{
    if flag { 1 } else { 0 }
}

/// Adds how many actions have a status.
#[tactic(auto, unfolding(crate::specs::Measures::share))]
fn put_share(page: &mut Vec<u8>, share: &Share) -> Result<(), Memory>
    ensures { OnOk result (page.new.items ≡ page.old.items ++ spec.share share.now) }
{
    put_line(
        page,
        "lra_actions",
        "state",
        share.status.name(),
        share.count,
    )
}

/// Adds how many actions have each status.
fn put_shares(page: &mut Vec<u8>, shares: &[Share]) -> Result<(), Memory>
    ensures { OnOk result (page.new.items ≡ page.old.items ++ flat_map spec.share shares.now) }
{
    for share in shares {
        put_share(page, share)?;
    }
    Ok(())
}

/// Adds the totals of actions and members.
fn put_totals(page: &mut Vec<u8>, totals: &Totals) -> Result<(), Memory>
    ensures { OnOk result (page.new.items ≡ page.old.items ++ spec.totals totals.now) }
{
    whole(
        page,
        "lra_actions_started_total",
        Kind::Counter,
        "Actions that were started, of the journals that are served and of those that were archived since.",
        totals.actions,
    )?;
    whole(
        page,
        "lra_members_joined_total",
        Kind::Counter,
        "Members that joined, of the journals that are served and of those that were archived since.",
        totals.members,
    )?;
    whole(
        page,
        "lra_actions_failed_total",
        Kind::Counter,
        "Actions that ended as failed, of the journals that are served and of those that were archived since.",
        totals.failed,
    )
}

/// Adds how many actions have each status, and the totals of actions and members.
fn put_counts(page: &mut Vec<u8>, shares: &[Share], totals: &Totals) -> Result<(), Memory>
    ensures { OnOk result (page.new.items ≡ page.old.items ++ spec.counts shares.now totals.now) }
{
    describe(page, "lra_actions", Kind::Gauge, "Actions by their status.")?;
    put_shares(page, shares)?;
    put_totals(page, totals)
}

/// Adds how many members hold up ends.
fn put_overdue(page: &mut Vec<u8>, overdue: &Overdue) -> Result<(), Memory>
    ensures { OnOk result (page.new.items ≡ page.old.items ++ spec.overdue overdue.now) }
{
    describe(page, "lra_members_overdue", Kind::Gauge, OVERDUE)?;
    put_line(page, "lra_members_overdue", "why", "silent", overdue.silent)?;
    put_line(
        page,
        "lra_members_overdue",
        "why",
        "waiting",
        overdue.waiting,
    )?;
    whole(
        page,
        "lra_members_at_it",
        Kind::Gauge,
        "Members of actions that are closing or cancelling that answered last that they are at it.",
        overdue.at_it,
    )
}

/// Adds how many members are still to be told how their action ended.
fn put_untold(page: &mut Vec<u8>, untold: u64) -> Result<(), Memory>
    ensures { OnOk result (page.new.items ≡ page.old.items ++ spec.untold untold) }
{
    whole(
        page,
        "lra_members_untold",
        Kind::Gauge,
        "Members of actions that have ended that are still to be told so, or to be forgotten.",
        untold,
    )
}

/// Returns how many millionths of a limit are left.
fn left(count: u64, most: u64) -> u64
    ensures { result ≡ spec.left count most }
{
    if most == 0 {
        0
    } else {
        most.saturating_sub(count).saturating_mul(PARTS) / most
    }
}

/// Adds the part of a limit that is left.
fn put_left(page: &mut Vec<u8>, limit: &str, count: u64, most: u64) -> Result<(), Memory>
    ensures { OnOk result (page.new.items ≡ page.old.items ++ spec.left_line limit.now count most) }
{
    labelled(page, "lra_journal_room_ratio", "limit", limit)?;
    put_parts(page, left(count, most), PARTS)?;
    put(page, "\n")
}

/// Adds the part of each limit of the newest journal that is left.
fn put_room(page: &mut Vec<u8>, facts: &Facts, newest: &Counts) -> Result<(), Memory>
    ensures { OnOk result (page.new.items ≡ page.old.items ++ spec.room facts.now newest.now) }
{
    describe(
        page,
        "lra_journal_room_ratio",
        Kind::Gauge,
        "Which part of a limit of the newest journal is left.",
    )?;
    put_left(page, "actions", newest.actions, facts.most_actions)?;
    put_left(page, "bytes", facts.bytes, facts.most_bytes)?;
    put_left(page, "entries", facts.entries, facts.most_entries)?;
    put_left(page, "members", newest.members, facts.most_members)
}

/// Adds the measures of the journals.
fn put_journal(page: &mut Vec<u8>, facts: &Facts) -> Result<(), Memory>
    ensures { OnOk result (page.new.items ≡ page.old.items ++ spec.journal facts.now) }
{
    whole(
        page,
        "lra_journal_bytes",
        Kind::Gauge,
        "Bytes that the newest journal has.",
        facts.bytes,
    )?;
    whole(
        page,
        "lra_journal_entries",
        Kind::Gauge,
        "Entries that the newest journal has.",
        facts.entries,
    )?;
    whole(
        page,
        "lra_journal_failed",
        Kind::Gauge,
        "Whether the disk of the journals has failed.",
        number_of(facts.has_failed),
    )?;
    whole(
        page,
        "lra_journals",
        Kind::Gauge,
        "Journals that are served.",
        facts.journals,
    )
}

/// Adds how long the sync under way has taken, how many threads have ended, and whether a worker lags behind the set of
/// journals.
fn put_sync(page: &mut Vec<u8>, facts: &Facts) -> Result<(), Memory>
    ensures { OnOk result (page.new.items ≡ page.old.items ++ spec.sync facts.now) }
{
    parts(
        page,
        "lra_sync_age_seconds",
        Kind::Gauge,
        "How long the sync of the disk that is under way has taken; 0 where none is.",
        facts.sync_age,
        1_000,
    )?;
    describe(
        page,
        "lra_threads_ended",
        Kind::Gauge,
        "Threads that have ended though the service goes on.",
    )?;
    put_line(
        page,
        "lra_threads_ended",
        "kind",
        "worker",
        facts.lost_workers,
    )?;
    put_line(
        page,
        "lra_threads_ended",
        "kind",
        "callback_worker",
        facts.lost_callback_workers,
    )?;
    whole(
        page,
        "lra_set_behind",
        Kind::Gauge,
        "Whether a worker can't follow a change of the set of journals.",
        number_of(facts.lags),
    )
}

/// Adds the measures of connections and callbacks.
fn put_traffic(page: &mut Vec<u8>, facts: &Facts) -> Result<(), Memory>
    ensures { OnOk result (page.new.items ≡ page.old.items ++ spec.traffic facts.now) }
{
    whole(
        page,
        "lra_connections",
        Kind::Gauge,
        "Connections of services that are open.",
        facts.connections,
    )?;
    whole(
        page,
        "lra_callbacks_in_flight",
        Kind::Gauge,
        "Callbacks to members that are under way.",
        facts.callbacks,
    )
}

/// Adds the measures of the process, as far as the system reports them.
fn put_process(page: &mut Vec<u8>, facts: &Facts) -> Result<(), Memory>
    ensures { OnOk result (page.new.items ≡ page.old.items ++ spec.process facts.now) }
{
    parts(
        page,
        "process_start_time_seconds",
        Kind::Gauge,
        "Start time of the process since unix epoch in seconds.",
        facts.began,
        1_000,
    )?;
    parts_if(
        page,
        "process_cpu_seconds_total",
        Kind::Counter,
        "Total user and system CPU time spent in seconds.",
        facts.processor_ticks,
        100,
    )?;
    whole_if(
        page,
        "process_resident_memory_bytes",
        Kind::Gauge,
        "Resident memory size in bytes.",
        facts.resident_bytes,
    )?;
    whole_if(
        page,
        "process_virtual_memory_bytes",
        Kind::Gauge,
        "Virtual memory size in bytes.",
        facts.virtual_bytes,
    )
}

/// Adds the measures of actions and members.
fn put_histories(
    page: &mut Vec<u8>,
    counts: &Counts,
    totals: &Totals,
    oldest: u64,
) -> Result<(), Memory>
    ensures { OnOk result (page.new.items ≡ page.old.items ++ spec.histories counts.now totals.now oldest) }
{
    put_counts(page, &counts.shares, totals)?;
    put_overdue(page, &counts.overdue)?;
    put_untold(page, counts.untold)?;
    parts(
        page,
        "lra_oldest_unended_seconds",
        Kind::Gauge,
        "How long the oldest action that has not ended is known to be there; 0 where none is.",
        oldest,
        1_000,
    )
}

/// Adds the measures of the service and of its process.
fn put_service(page: &mut Vec<u8>, facts: &Facts, newest: &Counts) -> Result<(), Memory>
    ensures { OnOk result (page.new.items ≡ page.old.items ++ spec.service facts.now newest.now) }
{
    put_journal(page, facts)?;
    put_sync(page, facts)?;
    put_room(page, facts, newest)?;
    put_traffic(page, facts)?;
    put_process(page, facts)
}

/// Adds the measures of a service, from its latest counts. `counts` are those of all journals that are served, `totals`
/// those with the journals that left, and `newest` those of the newest journal. `oldest` is for how many milliseconds
/// the oldest action that hasn't ended has been known of.
pub fn put_metrics(
    page: &mut Vec<u8>,
    facts: &Facts,
    counts: &Counts,
    totals: &Totals,
    newest: &Counts,
    oldest: u64,
) -> Result<(), Memory>
    ensures { OnOk result (page.new.items ≡ page.old.items ++ spec.metrics facts.now counts.now totals.now newest.now
        oldest) }
{
    put_histories(page, counts, totals, oldest)?;
    put_service(page, facts, newest)
}
