//! The changes that one more entry makes to the states that the rules read.

ghost use Rattle.std.specs.Prelude.{◌≡◌, ◌-◌, ◌^◌, ◌≤◌, ◌&&◌, not, ℕ, Some};
ghost use Rattle.lra_model.specs.Addresses.{Addresses, presence_of};
ghost use Rattle.lra_model.specs.Words as words;
ghost use Rattle.lra_laws.specs.Rows as rows;
ghost use Rattle.lra_model.specs.declared.asks.Direction.TheVariants as direction;
ghost use Rattle.lra_states.specs.Counts.{CanCount};

use crate::state::{ActionState, Awaited, Limit, MemberState, Presence, Standing};
use lra_model::{ActionStatus, AskKind, Direction, MemberStatus, Outcome};

fn is_left_to_complete(status: MemberStatus) -> bool
    ensures { result ≡ rows.is_left_to_complete status }
{
    !matches!(
        status,
        MemberStatus::Completed | MemberStatus::FailedToComplete
    )
}

fn is_left_to_compensate(status: MemberStatus) -> bool
    ensures { result ≡ rows.is_left_to_compensate status }
{
    !matches!(
        status,
        MemberStatus::Compensated
            | MemberStatus::FailedToCompensate
            | MemberStatus::FailedToComplete
    )
}

fn is_uncompleted(status: MemberStatus) -> bool
    ensures { result ≡ rows.is_uncompleted status }
{
    !matches!(status, MemberStatus::Completed)
}

fn is_uncompensated(status: MemberStatus) -> bool
    ensures { result ≡ rows.is_uncompensated status }
{
    !matches!(status, MemberStatus::Compensated)
}

fn is_uncancelled(status: ActionStatus) -> bool
    ensures { result ≡ rows.is_uncancelled status }
{
    !matches!(
        status,
        ActionStatus::Cancelled | ActionStatus::FailedToCancel
    )
}

/// Returns whether a member stays in its action: it has a compensate address and hasn't left.
pub fn stays(row: &MemberState) -> bool
    ensures { result ≡ (row.now.addresses.compensate && not (words.has_gone row.now.status)) }
{
    row.addresses.compensate && !row.status.has_gone()
}

fn recount(before: bool, now: bool, count: u64) -> u64
    requires { count ≤ 2 ^ 64 - 2 }
    ensures { result ≡ rows.recount before now count }
{
    (count + u64::from(now)).saturating_sub(u64::from(before))
}

/// Returns the state of an action after one of its members changes.
pub fn with_member(before: &MemberState, now: &MemberState, row: &ActionState) -> ActionState
    requires { CanCount row.now }
    ensures { result ≡ rows.with_member before.now now.now row.now }
{
    let stayed = stays(before);
    let stay = stays(now);
    ActionState {
        completing: recount(
            stayed && is_left_to_complete(before.status),
            stay && is_left_to_complete(now.status),
            row.completing,
        ),
        compensating: recount(
            stayed && is_left_to_compensate(before.status),
            stay && is_left_to_compensate(now.status),
            row.compensating,
        ),
        uncompleted: recount(
            stayed && is_uncompleted(before.status),
            stay && is_uncompleted(now.status),
            row.uncompleted,
        ),
        uncompensated: recount(
            stayed && is_uncompensated(before.status),
            stay && is_uncompensated(now.status),
            row.uncompensated,
        ),
        ..*row
    }
}

/// Returns the state of an action after a member joins it.
pub fn with_new_member(now: &MemberState, row: &ActionState) -> ActionState
    requires { CanCount row.now }
    ensures { result ≡ rows.with_new_member now.now row.now }
{
    let stay = stays(now);
    ActionState {
        completing: row.completing + u64::from(stay && is_left_to_complete(now.status)),
        compensating: row.compensating + u64::from(stay && is_left_to_compensate(now.status)),
        uncompleted: row.uncompleted + u64::from(stay && is_uncompleted(now.status)),
        uncompensated: row.uncompensated + u64::from(stay && is_uncompensated(now.status)),
        ..*row
    }
}

/// Returns the state of an action after one of its nested actions changes its status.
pub fn with_child(before: ActionStatus, now: ActionStatus, row: &ActionState) -> ActionState
    requires { CanCount row.now }
    ensures { result ≡ rows.with_child before now row.now }
{
    ActionState {
        unended: recount(!before.has_ended(), !now.has_ended(), row.unended),
        uncancelled: recount(is_uncancelled(before), is_uncancelled(now), row.uncancelled),
        failed: recount(before.has_failed(), now.has_failed(), row.failed),
        ..*row
    }
}

/// Returns the state of an action after another action is started in it.
pub fn with_new_child(row: &ActionState) -> ActionState
    requires { CanCount row.now }
    ensures { result ≡ rows.with_new_child row.now }
{
    ActionState {
        unended: row.unended + 1,
        uncancelled: row.uncancelled + 1,
        ..*row
    }
}

/// Returns a member's status after an outcome, which changes it if it is decisive and the member goes that direction.
fn decided_as(direction: Direction, outcome: Outcome, status: MemberStatus) -> MemberStatus
    ensures { result ≡ rows.decided_as direction outcome status }
{
    match (direction, outcome) {
        (Direction::Completion, Outcome::Done) if status.is_completing() => MemberStatus::Completed,
        (Direction::Completion, Outcome::Failed) if status.is_completing() => {
            MemberStatus::FailedToComplete
        }
        (Direction::Compensation, Outcome::Done) if status.is_compensating() => {
            MemberStatus::Compensated
        }
        (Direction::Compensation, Outcome::Failed) if status.is_compensating() => {
            MemberStatus::FailedToCompensate
        }
        _ => status,
    }
}

/// Returns the direction of a status ask or of a report, by the member's status.
fn way_of(status: MemberStatus) -> Direction
    ensures { result ≡ rows.way_of status }
{
    if status.is_compensating() {
        Direction::Compensation
    } else {
        Direction::Completion
    }
}

/// Returns the direction of an ask, by the member's status.
pub fn way_asked(kind: AskKind, status: MemberStatus) -> Direction
    ensures { result ≡ rows.way_asked kind status }
{
    match kind {
        AskKind::Complete => Direction::Completion,
        AskKind::Compensate => Direction::Compensation,
        AskKind::Status => way_of(status),
        AskKind::Forget | AskKind::After => Direction::Neither,
    }
}

fn asked_as(kind: AskKind, status: MemberStatus) -> MemberStatus
    ensures { result ≡ rows.asked_as kind status }
{
    match kind {
        AskKind::Complete => MemberStatus::Completing,
        AskKind::Compensate => MemberStatus::Compensating,
        _ => status,
    }
}

/// Returns the state of a member after it is asked.
pub fn with_ask(number: u64, kind: AskKind, row: &MemberState) -> MemberState
    ensures { result ≡ rows.with_ask number kind row.now }
{
    MemberState {
        status: asked_as(kind, row.status),
        asked: Awaited::of(Standing {
            number,
            kind,
            direction: way_asked(kind, row.status),
        }),
        ..*row
    }
}

/// Returns the last reply in completion, after one more reply.
fn completion_after(direction: Direction, outcome: Outcome, row: &MemberState) -> Option<Outcome>
    ensures { result ≡ rows.by_way direction (Some outcome) row.now.completion row.now.completion }
{
    match direction {
        Direction::Completion => Some(outcome),
        _ => row.completion,
    }
}

/// Returns the last reply in compensation, after one more reply.
fn compensation_after(direction: Direction, outcome: Outcome, row: &MemberState) -> Option<Outcome>
    ensures { result ≡ rows.by_way direction row.now.compensation (Some outcome) row.now.compensation }
{
    match direction {
        Direction::Compensation => Some(outcome),
        _ => row.compensation,
    }
}

/// Returns the outcome that decides completion, after one more: the first decisive one in that direction.
fn completed_by(way: Direction, outcome: Outcome, before: Option<Outcome>) -> Option<Outcome>
    ensures { result ≡ rows.decided_by direction.Completion way outcome before }
{
    match (before, way, outcome) {
        (None, Direction::Completion, Outcome::Done | Outcome::Failed) => Some(outcome),
        _ => before,
    }
}

/// Returns the outcome that decides compensation, after one more: the first decisive one in that direction.
fn compensated_by(way: Direction, outcome: Outcome, before: Option<Outcome>) -> Option<Outcome>
    ensures { result ≡ rows.decided_by direction.Compensation way outcome before }
{
    match (before, way, outcome) {
        (None, Direction::Compensation, Outcome::Done | Outcome::Failed) => Some(outcome),
        _ => before,
    }
}

/// Returns whether the ask was one to forget, and its outcome is Done.
fn forgets(kind: AskKind, outcome: Outcome) -> bool
    ensures { result ≡ (words.same_kind kind AskKind.Forget && words.is_done outcome) }
{
    matches!(kind, AskKind::Forget) && matches!(outcome, Outcome::Done)
}

/// Returns whether the ask was a notice of the end, and its outcome is Done.
fn hears(kind: AskKind, outcome: Outcome) -> bool
    ensures { result ≡ (words.same_kind kind AskKind.After && words.is_done outcome) }
{
    matches!(kind, AskKind::After) && matches!(outcome, Outcome::Done)
}

fn with_reply_to(asked: Standing, outcome: Outcome, row: &MemberState) -> MemberState
    ensures { result ≡ rows.with_reply_to asked outcome row.now }
{
    MemberState {
        status: decided_as(asked.direction, outcome, row.status),
        completion: completion_after(asked.direction, outcome, row),
        compensation: compensation_after(asked.direction, outcome, row),
        completed_as: completed_by(asked.direction, outcome, row.completed_as),
        compensated_as: compensated_by(asked.direction, outcome, row.compensated_as),
        asked: Awaited::none(),
        has_forgotten: row.has_forgotten || forgets(asked.kind, outcome),
        was_told: row.was_told || hears(asked.kind, outcome),
        ..*row
    }
}

/// Returns the state of a member after it answers its ask, or the same state if it has no unanswered ask.
pub fn with_reply(outcome: Outcome, row: &MemberState) -> MemberState
    ensures { result ≡ rows.with_reply outcome row.now }
{
    match row.asked.get() {
        Some(asked) => with_reply_to(asked, outcome, row),
        None => *row,
    }
}

/// Returns the state of a member after it reports an outcome.
pub fn with_report(outcome: Outcome, row: &MemberState) -> MemberState
    ensures { result ≡ rows.with_report outcome row.now }
{
    let way = way_of(row.status);
    MemberState {
        status: decided_as(way, outcome, row.status),
        completed_as: completed_by(way, outcome, row.completed_as),
        compensated_as: compensated_by(way, outcome, row.compensated_as),
        ..*row
    }
}

/// Returns the state of a member after it is skipped, which completes it.
pub fn with_skip(row: &MemberState) -> MemberState
    ensures { result ≡ rows.with_skip row.now }
{
    MemberState {
        status: MemberStatus::Completed,
        completed_as: Some(row.completed_as.unwrap_or(Outcome::Done)),
        ..*row
    }
}

/// Returns the state of a member with another status.
pub fn with_status(status: MemberStatus, row: &MemberState) -> MemberState
    ensures { result ≡ record row.now { status = status } }
{
    MemberState { status, ..*row }
}

/// Returns the state of an action with another status.
pub fn turned(status: ActionStatus, row: &ActionState) -> ActionState
    ensures { result ≡ record row.now { status = status } }
{
    ActionState { status, ..*row }
}

/// Returns the state of an action with a new limit in milliseconds, which counts from the moment `since`.
pub fn renewed(length: u64, since: u64, row: &ActionState) -> ActionState
    ensures { result ≡ record row.now { limit = record { length_of = length; since = since } } }
{
    ActionState {
        limit: Limit { length, since },
        ..*row
    }
}

/// Returns the state of a member that has just joined with these addresses.
pub fn new_member(action: u64, addresses: Presence) -> MemberState
    ensures { (u : Addresses) → addresses ≡ presence_of u → result ≡ rows.new_member action u }
{
    MemberState {
        action,
        addresses,
        status: MemberStatus::Active,
        completion: None,
        compensation: None,
        completed_as: None,
        compensated_as: None,
        asked: Awaited::none(),
        has_forgotten: false,
        was_told: false,
    }
}

/// Returns the state of an action that has just started.
pub fn new_action(parent: Option<u64>, top: u64, limit: u64, moment: u64) -> ActionState
    ensures { (a : ℕ) → result ≡ rows.new_action a parent top limit moment }
{
    ActionState {
        parent,
        top,
        status: ActionStatus::Active,
        limit: Limit {
            length: limit,
            since: moment,
        },
        completing: 0,
        compensating: 0,
        uncompleted: 0,
        uncompensated: 0,
        unended: 0,
        uncancelled: 0,
        failed: 0,
    }
}
