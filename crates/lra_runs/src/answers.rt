//! Printed form of answers, errands and refusals.

ghost use Rattle.std.specs.Prelude.{◌≡◌, ◌++◌, ◌∷◌, [], IfOk, Ok, Err, codes, string_bytes};
ghost use Rattle.std.specs.Fmt.{decimal};
ghost use Rattle.lra_verdict_lines.specs.VerdictLines.{joined, line_feed};
ghost use Rattle.std.specs.Option.{option_copied, option_map_or};
ghost use Rattle.lra_runs.specs.Play.{told_text, refusal_detail, answer_line, errand_line};
ghost use Rattle.lra_runs.specs.inner.Details.{detail_text};

use lra_core::{Block, Memory, Refusal, Request, Told};
use std::alloc::Global;

/// Returns the line of a word and a number.
fn line_of_number(alloc: Global, word: &str, number: u64) -> Result<String, Memory>
    ensures { IfOk result (λ text. string_bytes text
        ≡ joined (word.now ∷ codes " " ∷ decimal number ∷ line_feed ∷ [])) }
{
    format!(in alloc; "{word} {number}\n")
}

/// Returns the line of two words.
fn line_of_words(alloc: Global, word: &str, other: &str) -> Result<String, Memory>
    ensures { IfOk result (λ text. string_bytes text ≡ joined (word.now ∷ codes " " ∷ other.now ∷ line_feed ∷ [])) }
{
    format!(in alloc; "{word} {other}\n")
}

/// Returns the line of an answer that isn't a refusal.
pub(crate) fn line_of_told(alloc: Global, told: Told) -> Result<String, Memory>
    ensures { IfOk result (λ text. string_bytes text ≡ told_text told ++ line_feed) }
{
    match told {
        Told::Clerk(clerk) => line_of_number(alloc, "clerk", u64::from(clerk)),
        Told::Action(action) => line_of_number(alloc, "action", action),
        Told::Member(member) => line_of_number(alloc, "member", member),
        Told::AlreadyMember(member) => line_of_number(alloc, "already", member),
        Told::Left => String::from_str(alloc, "left\n"),
        Told::Now(status) => line_of_words(alloc, "now", status.name()),
        Told::Already(status) => line_of_words(alloc, "already", status.name()),
        Told::Fired(action) => line_of_number(alloc, "fired", action),
        Told::Idle => String::from_str(alloc, "idle\n"),
        Told::Asked(ask) => line_of_number(alloc, "ask", ask),
        Told::Recorded => String::from_str(alloc, "recorded\n"),
        Told::MemberNow(status) => line_of_words(alloc, "now", status.name()),
        Told::MemberAlready(status) => line_of_words(alloc, "already", status.name()),
        Told::Restarted => String::from_str(alloc, "restarted\n"),
        Told::Renewed => String::from_str(alloc, "renewed\n"),
        Told::ActionIs(status) => line_of_words(alloc, "status", status.name()),
        Told::MemberIs(status) => line_of_words(alloc, "status", status.name()),
    }
}

/// Returns the line of an errand: the ask, the member, the kind and the address.
fn line_of_request(alloc: Global, request: &Request) -> Result<String, Memory>
    ensures { IfOk result (λ text. string_bytes text ≡ errand_line request.now) }
{
    let ask = request.ask;
    let member = request.member;
    let kind = request.kind.name();
    let address = request.address.as_str();
    format!(in alloc; "ask {ask} {member} {kind} {address}\n")
}

/// Returns the line of a block: that of its errand, or that of its answer if it has no errand.
pub(crate) fn line_of_block(alloc: Global, block: &Block) -> Result<String, Memory>
    ensures { IfOk result (λ text. string_bytes text ≡ option_map_or errand_line block.now.errand
        (answer_line (Ok block.now.told))) }
{
    match block.request() {
        Some(request) => line_of_request(alloc, request),
        None => line_of_told(alloc, block.told()),
    }
}

/// Returns the detail of a refusal: the action's status, or the resource that is full. Returns None if it has no
/// detail.
fn detail(refusal: Refusal) -> Option<&'static str>
    ensures { detail_text (option_copied result) ≡ refusal_detail refusal }
{
    match refusal {
        Refusal::NotActive(status) => Some(status.name()),
        Refusal::Full(resource) => Some(resource.name()),
        Refusal::NoSuchClerk
        | Refusal::OldJournal
        | Refusal::NoSuchAction
        | Refusal::NoSuchMember
        | Refusal::WrongAction
        | Refusal::HasLeft
        | Refusal::BadAddresses
        | Refusal::LimitTooFar
        | Refusal::TooDeep
        | Refusal::NotAsked
        | Refusal::Stopped
        | Refusal::Memory => None,
    }
}

/// Returns the line of a refusal.
pub(crate) fn line_of_refusal(alloc: Global, refusal: Refusal) -> Result<String, Memory>
    ensures { IfOk result (λ text. string_bytes text ≡ answer_line (Err refusal)) }
{
    let name = refusal.name();
    match detail(refusal) {
        Some(detail) => format!(in alloc; "refused {name} {detail}\n"),
        None => format!(in alloc; "refused {name}\n"),
    }
}
