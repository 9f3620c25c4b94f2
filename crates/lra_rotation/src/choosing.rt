//! Choice of the next action, from some journals and observations of them.

ghost use Rattle.std.specs.Prelude.{◌≡◌};
ghost use Rattle.lra_rotation.specs.Deciding as deciding;
ghost use Rattle.lra_rotation.specs.declared.action.RotationAction.TheVariants as RotationAction;

use crate::action::{RotationAction, Stage};
use crate::journal::{Observation, RotationJournal, RotationWorker};

/// Returns whether a journal is observed to have as much as it is to have.
pub(crate) fn is_full(observations: &[Observation], instance: u64) -> bool
    ensures { result ≡ deciding.is_full observations.now instance }
{
    observations.iter().any(|observed| observed.instance == instance && observed.is_full)
}

/// Returns whether a journal is observed to have hardly any room left.
pub(crate) fn is_near_end(observations: &[Observation], instance: u64) -> bool
    ensures { result ≡ deciding.is_near_end observations.now instance }
{
    observations.iter().any(|observed| observed.instance == instance && observed.is_near_end)
}

/// Returns whether nothing of a journal is left to be done, and nobody is to ask for it any more.
pub(crate) fn is_done(observations: &[Observation], remember: u64, instance: u64) -> bool
    ensures { result ≡ deciding.is_done observations.now remember instance }
{
    observations.iter().any(|observed| observed.instance == instance
        && observed.is_settled
        && remember <= observed.quiet)
}

/// Returns whether nobody is at work in a journal.
pub(crate) fn is_free(observations: &[Observation], instance: u64) -> bool
    ensures { result ≡ deciding.is_free observations.now instance }
{
    observations.iter().any(|observed| observed.instance == instance && observed.is_free)
}

/// Returns whether a step on a journal has failed lately, so that the next attempt waits.
pub(crate) fn is_waiting(observations: &[Observation], instance: u64) -> bool
    ensures { result ≡ deciding.is_waiting observations.now instance }
{
    observations.iter().any(|observed| observed.instance == instance && observed.is_waiting)
}

/// Returns whether all workers follow the set of that version, or a later one.
fn is_followed_by_all(workers: &[RotationWorker], version: u64) -> bool
    ensures { result ≡ deciding.is_followed_by_all workers.now version }
{
    workers.iter().all(|worker| version <= worker.seen)
}

/// Returns whether a journal is in no worker's set.
fn is_left_by_all(workers: &[RotationWorker], journal: RotationJournal) -> bool
    ensures { result ≡ deciding.is_left_by_all workers.now journal }
{
    match journal.left {
        Some(version) => is_followed_by_all(workers, version),
        None => false,
    }
}

/// Returns whether a journal is to be closed.
pub(crate) fn wants_close(observations: &[Observation], journal: RotationJournal) -> bool
    ensures { result ≡ deciding.wants_close observations.now journal }
{
    !journal.is_closed && is_near_end(observations, journal.instance)
}

/// Returns whether a journal that isn't the newest is to leave the set.
fn wants_leave(observations: &[Observation], remember: u64, journal: RotationJournal) -> bool
    ensures { result ≡ deciding.wants_leave observations.now remember journal }
{
    journal.left.is_none()
        && is_done(observations, remember, journal.instance)
        && !is_waiting(observations, journal.instance)
}

/// Returns whether a journal may be archived: all of it has ended, everybody has left it, and no pause is left.
fn may_archive(
    workers: &[RotationWorker],
    observations: &[Observation],
    remember: u64,
    journal: RotationJournal,
) -> bool
    ensures { result ≡ deciding.may_archive workers.now observations.now remember journal }
{
    is_done(observations, remember, journal.instance)
        && is_free(observations, journal.instance)
        && !is_waiting(observations, journal.instance)
        && is_left_by_all(workers, journal)
}

/// Returns whether a journal is to be archived for the first time.
fn wants_archive(
    workers: &[RotationWorker],
    observations: &[Observation],
    remember: u64,
    journal: RotationJournal,
) -> bool
    ensures { result ≡ deciding.wants_archive workers.now observations.now remember journal }
{
    !journal.stays && may_archive(workers, observations, remember, journal)
}

/// Returns whether archiving a journal is to be tried again.
fn wants_again(
    workers: &[RotationWorker],
    observations: &[Observation],
    remember: u64,
    journal: RotationJournal,
) -> bool
    ensures { result ≡ deciding.wants_again workers.now observations.now remember journal }
{
    journal.stays && may_archive(workers, observations, remember, journal)
}

/// Returns the action that closes the first journal that is to be closed.
pub(crate) fn first_closing(
    journals: &[RotationJournal],
    observations: &[Observation],
) -> Option<RotationAction>
    ensures { result ≡ deciding.first_that (deciding.wants_close observations.now) RotationAction.Close journals.now }
{
    for journal in journals {
        if wants_close(observations, *journal) {
            return Some(RotationAction::Close(journal.instance));
        }
    }
    None
}

/// Returns the action that withdraws the first journal that is to leave the set.
pub(crate) fn first_withdrawing(
    journals: &[RotationJournal],
    observations: &[Observation],
    remember: u64,
) -> Option<RotationAction>
    ensures { result ≡ deciding.first_that (deciding.wants_leave observations.now remember) RotationAction.Withdraw
        journals.now }
{
    for journal in journals {
        if wants_leave(observations, remember, *journal) {
            return Some(RotationAction::Withdraw(journal.instance));
        }
    }
    None
}

/// Returns the action that archives the first journal that is to be archived.
pub(crate) fn first_archiving(
    journals: &[RotationJournal],
    workers: &[RotationWorker],
    observations: &[Observation],
    remember: u64,
) -> Option<RotationAction>
    ensures { result ≡ deciding.first_that (deciding.wants_archive workers.now observations.now remember)
        RotationAction.Archive journals.now }
{
    for journal in journals {
        if wants_archive(workers, observations, remember, *journal) {
            return Some(RotationAction::Archive(journal.instance));
        }
    }
    None
}

/// Returns the action that archives the first journal whose archiving is to be tried again.
pub(crate) fn first_retrying(
    journals: &[RotationJournal],
    workers: &[RotationWorker],
    observations: &[Observation],
    remember: u64,
) -> Option<RotationAction>
    ensures { result ≡ deciding.first_that (deciding.wants_again workers.now observations.now remember)
        RotationAction.Archive journals.now }
{
    for journal in journals {
        if wants_again(workers, observations, remember, *journal) {
            return Some(RotationAction::Archive(journal.instance));
        }
    }
    None
}

/// Returns whether each journal is done, and couldn't be archived.
pub(crate) fn are_drained(
    journals: &[RotationJournal],
    observations: &[Observation],
    remember: u64,
) -> bool
    ensures { result ≡ deciding.are_drained journals.now observations.now remember }
{
    for journal in journals {
        if !journal.stays || !is_done(observations, remember, journal.instance) {
            return false;
        }
    }
    true
}

/// Returns the action that comes next for the journal that is being prepared.
pub(crate) fn forward(stage: Stage, is_wanted: bool, next: Option<u64>) -> Option<RotationAction>
    ensures { result ≡ deciding.forward stage is_wanted next }
{
    match stage {
        Stage::Idle => match next {
            Some(instance) => Some(RotationAction::Note(instance)),
            None => None,
        },
        Stage::Noted(instance) => Some(RotationAction::Prepare(instance)),
        Stage::Prepared(instance) => {
            if is_wanted {
                Some(RotationAction::Name(instance))
            } else {
                None
            }
        }
        Stage::Named(instance) => Some(RotationAction::Switch(instance)),
    }
}
