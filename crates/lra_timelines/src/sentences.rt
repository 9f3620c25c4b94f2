//! Sentences of a timeline.

ghost use Rattle.std.specs.Prelude.{◌≡◌, IfOk, string_bytes};
ghost use Rattle.std.specs.Option.{option_copied};
ghost use Rattle.lra_model.specs.History.{History};
ghost use Rattle.lra_model.specs.Words.{is_silent};
ghost use Rattle.lra_laws.specs.Snapshots.{StandsFor};
ghost use Rattle.lra_rows.specs.Found.{found_addresses};
ghost use Rattle.lra_timelines.specs.Sentences as sentences;

use crate::timeline_items::{TimelineItem, Told};
use crate::times::{length_text, moment_text};
use lra_model::{ActionStatus, AskKind, Cause, Memory, Outcome};
use lra_rows::{PackedAddresses, Rows};
use std::alloc::Global;

/// Returns the words for the parent of an action, or an empty text if it isn't nested.
fn below_text(alloc: Global, parent: Option<u64>) -> Result<String, Memory>
    ensures { IfOk result (λ text. string_bytes text ≡ sentences.below_text parent) }
{
    match parent {
        Some(parent) => format!(in alloc; ", below action {parent}"),
        None => Ok(String::new(alloc)),
    }
}

/// Returns the words for a limit in milliseconds, or an empty text if it is 0.
fn limit_text(alloc: Global, limit: u64) -> Result<String, Memory>
    ensures { IfOk result (λ text. string_bytes text ≡ sentences.limit_text limit) }
{
    if limit == 0 {
        return Ok(String::new(alloc));
    }
    let length = length_text(alloc, limit)?;
    format!(in alloc; ", with a limit of {length}")
}

fn started_text(
    alloc: Global,
    by: u32,
    moment: u64,
    parent: Option<u64>,
    limit: u64,
) -> Result<String, Memory>
    ensures { IfOk result (λ text. string_bytes text ≡ sentences.started_text by moment parent limit) }
{
    let moment = moment_text(alloc, moment)?;
    let below = below_text(alloc, parent)?;
    let limit = limit_text(alloc, limit)?;
    format!(in alloc; "started by clerk {by} at {moment}{below}{limit}")
}

/// Returns the reason why an action is closed.
fn close_reason(cause: Cause) -> &'static str
    ensures { result.now ≡ sentences.close_reason cause }
{
    match cause {
        Cause::Client => "its client closes it",
        Cause::Parent => "the action above it is closed",
        Cause::Limit => "its limit passed",
    }
}

/// Returns the reason why an action is cancelled.
fn cancel_reason(cause: Cause) -> &'static str
    ensures { result.now ≡ sentences.cancel_reason cause }
{
    match cause {
        Cause::Client => "its client cancels it",
        Cause::Parent => "the action above it is cancelled",
        Cause::Limit => "its limit passed",
    }
}

/// Returns the sentence that says that an action has a status, and why.
fn turned_text(alloc: Global, reason: &str, status: ActionStatus) -> Result<String, Memory>
    ensures { IfOk result (λ text. string_bytes text ≡ sentences.turned_text reason.now status) }
{
    let status = status.name();
    format!(in alloc; "{reason}: it is {status}")
}

/// Returns the sentence that says how an action ended, and why.
fn ended_text(alloc: Global, status: ActionStatus) -> Result<String, Memory>
    ensures { IfOk result (λ text. string_bytes text ≡ sentences.ended_text status) }
{
    let name = status.name();
    if status.has_failed() {
        format!(in alloc; "it is {name}: all that it waited for has ended, and not all of it well")
    } else {
        format!(in alloc; "it is {name}: all that it waited for has ended well")
    }
}

/// Returns the words for an address, with its name.
fn named_text(alloc: Global, name: &str, address: &str) -> Result<String, Memory>
    ensures { IfOk result (λ text. string_bytes text ≡ sentences.named_text name.now address.now) }
{
    format!(in alloc; ", {name} {address}")
}

/// Returns the words for an address of a member, or an empty text if it has none of that name.
fn address_text(alloc: Global, name: &str, address: Option<&str>) -> Result<String, Memory>
    ensures { IfOk result (λ text. string_bytes text ≡ sentences.address_text name.now (option_copied address.entry)) }
{
    match address {
        Some(address) => named_text(alloc, name, address),
        None => Ok(String::new(alloc)),
    }
}

/// Returns the words for the addresses with which a member joined.
fn addresses_text(alloc: Global, uris: &PackedAddresses) -> Result<String, Memory>
    ensures { IfOk result (λ text. string_bytes text ≡ sentences.addresses_text uris.now) }
{
    let compensate = address_text(alloc, "compensate", uris.compensate())?;
    let complete = address_text(alloc, "complete", uris.complete())?;
    let status = address_text(alloc, "status", uris.status())?;
    let forget = address_text(alloc, "forget", uris.forget())?;
    let after = address_text(alloc, "after", uris.after())?;
    format!(in alloc; "{compensate}{complete}{status}{forget}{after}")
}

/// Returns the sentence that says that a member joined, and with which addresses.
fn joined_text(alloc: Global, rows: &Rows, member: u64) -> Result<String, Memory>
    ensures { (J : History) → StandsFor rows.now.snapshot J → IfOk result
        (λ text. string_bytes text ≡ sentences.joined_text member (found_addresses J member)) }
{
    match rows.addresses(member) {
        Some(uris) => {
            let addresses = addresses_text(alloc, uris)?;
            format!(in alloc; "member {member} joined{addresses}")
        }
        None => format!(in alloc; "member {member} joined"),
    }
}

/// Returns the words for a kind of ask.
pub(crate) fn ask_words(kind: AskKind) -> &'static str
    ensures { result.now ≡ sentences.ask_words kind }
{
    match kind {
        AskKind::Complete => "asked to complete",
        AskKind::Compensate => "asked to compensate",
        AskKind::Status => "asked how far it is",
        AskKind::Forget => "asked to forget",
        AskKind::After => "told how the action ended",
    }
}

fn asked_text(alloc: Global, ask: u64, member: u64, kind: AskKind) -> Result<String, Memory>
    ensures { IfOk result (λ text. string_bytes text ≡ sentences.asked_text ask member kind) }
{
    let words = ask_words(kind);
    format!(in alloc; "member {member} is {words} (ask {ask})")
}

/// Returns the words for the success of a member in a stage.
fn done_words(stage: AskKind) -> &'static str
    ensures { result.now ≡ sentences.done_words stage }
{
    match stage {
        AskKind::Complete => "it is completed",
        AskKind::Compensate => "it is compensated",
        AskKind::Status => "it is done",
        AskKind::Forget => "it has forgotten",
        AskKind::After => "it knows how the action ended",
    }
}

/// Returns the words for the failure of a member in a stage.
fn failed_words(stage: AskKind) -> &'static str
    ensures { result.now ≡ sentences.failed_words stage }
{
    match stage {
        AskKind::Complete => "it failed to complete",
        AskKind::Compensate => "it failed to compensate",
        AskKind::Status => "it failed",
        AskKind::Forget => "it failed to forget",
        AskKind::After => "it failed to note how the action ended",
    }
}

/// Returns the words for an outcome of a member in a stage.
fn outcome_words(stage: AskKind, outcome: Outcome) -> &'static str
    ensures { result.now ≡ sentences.outcome_words stage outcome }
{
    match outcome {
        Outcome::Done => done_words(stage),
        Outcome::Failed => failed_words(stage),
        Outcome::Accepted => "it goes on",
        Outcome::Silent => "nothing",
    }
}

/// Returns whether an outcome is that the member gave no answer.
pub(crate) fn is_silent(outcome: Outcome) -> bool
    ensures { result ≡ is_silent outcome }
{
    matches!(outcome, Outcome::Silent)
}

/// Returns the sentence that says that a member gave no answer.
fn silent_text(alloc: Global, ask: u64, member: u64) -> Result<String, Memory>
    ensures { IfOk result (λ text. string_bytes text ≡ sentences.silent_text ask member) }
{
    format!(in alloc; "member {member} gave no answer to ask {ask}")
}

/// Returns the sentence that says what a member answered.
fn said_text(alloc: Global, member: u64, stage: AskKind, outcome: Outcome) -> Result<String, Memory>
    ensures { IfOk result (λ text. string_bytes text ≡ sentences.said_text member stage outcome) }
{
    let words = outcome_words(stage, outcome);
    format!(in alloc; "member {member} answered that {words}")
}

fn answered_text(
    alloc: Global,
    ask: u64,
    member: u64,
    stage: AskKind,
    outcome: Outcome,
) -> Result<String, Memory>
    ensures { IfOk result (λ text. string_bytes text ≡ sentences.answered_text ask member stage outcome) }
{
    if is_silent(outcome) {
        silent_text(alloc, ask, member)
    } else {
        said_text(alloc, member, stage, outcome)
    }
}

fn reported_text(
    alloc: Global,
    member: u64,
    stage: AskKind,
    outcome: Outcome,
) -> Result<String, Memory>
    ensures { IfOk result (λ text. string_bytes text ≡ sentences.reported_text member stage outcome) }
{
    let words = outcome_words(stage, outcome);
    format!(in alloc; "member {member} reported that {words}")
}

fn skipped_text(alloc: Global, member: u64) -> Result<String, Memory>
    ensures { IfOk result (λ text. string_bytes text ≡ sentences.skipped_text member) }
{
    format!(in alloc; "member {member} is completed without being asked")
}

fn restarted_text(alloc: Global) -> Result<String, Memory>
    ensures { IfOk result (λ text. string_bytes text ≡ sentences.restarted_text) }
{
    let text = "the coordinator restarted, and waits for no answer any more";
    String::from_str(alloc, text)
}

fn renewed_text(alloc: Global, limit: u64) -> Result<String, Memory>
    ensures { IfOk result (λ text. string_bytes text ≡ sentences.renewed_text limit) }
{
    if limit == 0 {
        return String::from_str(alloc, "its limit is lifted");
    }
    let length = length_text(alloc, limit)?;
    format!(in alloc; "its limit is set anew, to {length} from now")
}

fn nested_ended_text(alloc: Global, action: u64, status: ActionStatus) -> Result<String, Memory>
    ensures { IfOk result (λ text. string_bytes text ≡ sentences.nested_ended_text action status) }
{
    let status = status.name();
    format!(in alloc; "action {action} below it is {status}")
}

/// Returns the sentence of a timeline item after which the action has this status.
fn fact_text(
    alloc: Global,
    rows: &Rows,
    status: ActionStatus,
    timeline_item: TimelineItem,
) -> Result<String, Memory>
    ensures { (J : History) → StandsFor rows.now.snapshot J → IfOk result
        (λ text. string_bytes text ≡ sentences.fact_text J status timeline_item) }
{
    match timeline_item {
        TimelineItem::Started {
            by,
            moment,
            parent,
            limit,
        } => started_text(alloc, by, moment, parent, limit),
        TimelineItem::Joined { member } => joined_text(alloc, rows, member),
        TimelineItem::Left { member } => format!(in alloc; "member {member} left"),
        TimelineItem::Closes { cause } => turned_text(alloc, close_reason(cause), status),
        TimelineItem::Cancels { cause } => turned_text(alloc, cancel_reason(cause), status),
        TimelineItem::Skipped { member } => skipped_text(alloc, member),
        TimelineItem::Asked { ask, member, kind } => asked_text(alloc, ask, member, kind),
        TimelineItem::Answered {
            ask,
            member,
            stage,
            outcome,
        } => answered_text(alloc, ask, member, stage, outcome),
        TimelineItem::Reported {
            member,
            stage,
            outcome,
        } => reported_text(alloc, member, stage, outcome),
        TimelineItem::Ended => ended_text(alloc, status),
        TimelineItem::Restarted => restarted_text(alloc),
        TimelineItem::Renewed { limit } => renewed_text(alloc, limit),
        TimelineItem::NestedStarted { action } => format!(in alloc;
            "action {action} started below it"
        ),
        TimelineItem::NestedCloses { action } => format!(in alloc;
            "action {action} below it is Closing"
        ),
        TimelineItem::NestedCancels { action } => {
            format!(in alloc; "action {action} below it is Cancelling")
        }
        TimelineItem::NestedEnded { action, status } => nested_ended_text(alloc, action, status),
    }
}

/// Returns the line of a timeline item.
pub(crate) fn told_line(alloc: Global, rows: &Rows, told: &Told) -> Result<String, Memory>
    ensures { (J : History) → StandsFor rows.now.snapshot J → IfOk result
        (λ text. string_bytes text ≡ sentences.told_line J told.now) }
{
    let line = told.line;
    let words = fact_text(alloc, rows, told.status, told.timeline_item)?;
    format!(in alloc; "line {line}: {words}\n")
}

/// Returns the head line, which says what status an action has now.
pub(crate) fn head_line(
    alloc: Global,
    action: u64,
    parent: Option<u64>,
    status: ActionStatus,
) -> Result<String, Memory>
    ensures { IfOk result (λ text. string_bytes text ≡ sentences.head_line action parent status) }
{
    let status = status.name();
    match parent {
        Some(parent) => format!(in alloc; "action {action} (nested in {parent}) is {status}\n"),
        None => format!(in alloc; "action {action} is {status}\n"),
    }
}
