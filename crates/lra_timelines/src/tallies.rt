//! Counts of an action's members by their status.

ghost use Rattle.std.specs.Prelude.{
  ◌≡◌,
  ◌<◌,
  ◌+◌,
  ◌*◌,
  ◌++◌,
  ℕ,
  List,
  IfOk,
  OnOk,
  IfSome,
  string_bytes,
  get_or,
  map,
  option_to_list,
};
ghost use Rattle.lra_course.specs.declared.listing.ListedMember.{ListedMember as ListedMemberValue};
ghost use Rattle.lra_timelines.specs.Lines as lines;
ghost use Rattle.lra_timelines.specs.inner.Tallied.{Tallied, IsMore};

use lra_auditor::{ListedMember, Listing};
use lra_model::{MemberStatus, Memory};
use std::alloc::{AllocError, Global};

/// All statuses of members, in the order in which they are listed.
const STATUSES: [MemberStatus; 8] = [
    MemberStatus::Active,
    MemberStatus::Completing,
    MemberStatus::Completed,
    MemberStatus::FailedToComplete,
    MemberStatus::Compensating,
    MemberStatus::Compensated,
    MemberStatus::FailedToCompensate,
    MemberStatus::Left,
];

/// Returns the index of a status in `STATUSES`.
fn place_of(status: MemberStatus) -> usize
    ensures place { result ≡ lines.place_of status }
    ensures small { result < 8 }
{
    match status {
        MemberStatus::Active => 0,
        MemberStatus::Completing => 1,
        MemberStatus::Completed => 2,
        MemberStatus::FailedToComplete => 3,
        MemberStatus::Compensating => 4,
        MemberStatus::Compensated => 5,
        MemberStatus::FailedToCompensate => 6,
        MemberStatus::Left => 7,
    }
}

/// Returns the index of the count of an action's members that have the status of a place. Each action has eight counts,
/// in the order of the actions' numbers.
fn slot_of(action: u64, place: usize) -> Option<usize>
    ensures { IfSome result (λ slot. slot + 8 ≡ 8 * action + place) }
{
    let row = usize::try_from(action).ok()?.checked_sub(1)?;
    row.checked_mul(8)?.checked_add(place)
}

/// Counts a member for its action and its status.
fn count(counts: &mut Vec<u64>, member: &ListedMember) -> Result<(), Memory>
    ensures { OnOk result (IsMore member.now counts.old.items counts.new.items) }
{
    let Some(slot) = slot_of(member.action, place_of(member.status)) else {
        return Err(AllocError);
    };
    if slot >= counts.len() {
        return Err(AllocError);
    }
    let Some(next) = counts[slot].checked_add(1) else {
        return Err(AllocError);
    };
    counts[slot] = next;
    Ok(())
}

/// Makes the counts of a number of actions, each 0.
fn zeros(alloc: Global, actions: u64) -> Result<Vec<u64>, Memory>
    ensures { IfOk result (λ counts. (slot : ℕ) → get_or counts.items slot 0 ≡ 0) }
{
    match usize::try_from(actions).ok() {
        Some(actions) => match actions.checked_mul(8) {
            Some(count) => vec![in alloc; 0u64; count],
            None => Err(AllocError),
        },
        None => Err(AllocError),
    }
}

/// Counts the members of each action by their status.
pub(crate) fn tallies_of(alloc: Global, listing: &Listing) -> Result<Vec<u64>, Memory>
    ensures { IfOk result (λ counts. Tallied listing.now.members counts.items) }
{
    let mut counts = zeros(alloc, listing.action_count())?;
    for place in 0..listing.member_count() {
        match listing.member(place + 1) {
            Some(member) => count(&mut counts, &member)?,
            None => return Err(AllocError),
        }
    }
    Ok(counts)
}

/// Returns the number of members of an action that have a status.
fn count_at(counts: &[u64], action: u64, status: MemberStatus) -> Result<u64, Memory>
    ensures { (ms : List ListedMemberValue) → Tallied ms counts.now → IfOk result
        (λ count. count ≡ lines.count_of ms action (lines.place_of status)) }
{
    match slot_of(action, place_of(status)) {
        Some(slot) => match counts.get(slot) {
            Some(count) => Ok(*count),
            None => Err(AllocError),
        },
        None => Err(AllocError),
    }
}

/// Adds the word for a status and the number of members that have it, unless that is 0.
fn push_counted(
    alloc: Global,
    words: &mut Vec<String>,
    status: MemberStatus,
    count: u64,
) -> Result<(), Memory>
    ensures { OnOk result (map string_bytes words.new.items ≡ map string_bytes words.old.items
        ++ option_to_list (lines.counted status count)) }
{
    if count == 0 {
        return Ok(());
    }
    let name = status.name();
    let word = format!(in alloc; "{name}={count}")?;
    words.push(word)?;
    Ok(())
}

/// Joins words with commas. Returns `*` if there is none.
fn listed_words(alloc: Global, words: &[String]) -> Result<String, Memory>
    ensures { IfOk result (λ text. string_bytes text ≡ lines.listed_words (map string_bytes words.now)) }
{
    if words.is_empty() {
        String::from_str(alloc, "*")
    } else {
        words.join(alloc, ",")
    }
}

/// Returns the text of an action's counts: each status that a member has, with its number of members. Returns `*` if
/// the action has no member.
pub(crate) fn tally_text(alloc: Global, counts: &[u64], action: u64) -> Result<String, Memory>
    ensures { (ms : List ListedMemberValue) → Tallied ms counts.now → IfOk result
        (λ text. string_bytes text ≡ lines.tally_text (lines.count_of ms action)) }
{
    let mut words = Vec::new(alloc);
    for place in 0..STATUSES.len() {
        let status = STATUSES[place];
        let count = count_at(counts, action, status)?;
        push_counted(alloc, &mut words, status, count)?;
    }
    listed_words(alloc, &words)
}
