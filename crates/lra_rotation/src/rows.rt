//! Lists of journals, of workers and of instances, and changes of them.

ghost use Rattle.std.specs.Prelude.{◌≡◌, IfOk};
ghost use Rattle.lra_rotation.specs.States as spec;
ghost use Rattle.lra_rotation.specs.Disks as disks;
ghost use Rattle.lra_rotation.specs.Runs as runs;

use crate::action::Change;
use crate::journal::{RotationJournal, RotationWorker};
use std::alloc::{AllocError, Global};

/// Removes a number.
pub(crate) fn remove_number(numbers: &mut Vec<u64>, number: u64)
    ensures { numbers.new.items ≡ disks.without number numbers.old.items }
{
    numbers.retain(|other| *other != number);
}

/// Removes the journal of an instance.
pub(crate) fn remove_journal(journals: &mut Vec<RotationJournal>, instance: u64)
    ensures { journals.new.items ≡ runs.apart_from instance journals.old.items }
{
    journals.retain(|journal| journal.instance != instance);
}

/// Removes a worker.
pub(crate) fn remove_worker(workers: &mut Vec<RotationWorker>, number: u64)
    ensures { workers.new.items ≡ runs.other_workers number workers.old.items }
{
    workers.retain(|worker| worker.number != number);
}

/// Returns whether a worker follows the set of a version.
pub(crate) fn is_current(workers: &[RotationWorker], number: u64, version: u64) -> bool
    ensures { result ≡ spec.is_current workers.now number version }
{
    workers
        .iter()
        .any(|worker| worker.number == number && worker.seen == version)
}

/// Returns whether a journal has an instance, and is closed.
pub(crate) fn is_closed_at(instance: u64, journal: RotationJournal) -> bool
    ensures { result ≡ spec.is_closed_at instance journal }
{
    journal.instance == instance && journal.is_closed
}

/// Returns whether one of some journals has an instance, and is closed.
pub(crate) fn has_closed(journals: &[RotationJournal], instance: u64) -> bool
    ensures { result ≡ spec.has_closed journals.now instance }
{
    journals.iter().any(|journal| journal.instance == instance && journal.is_closed)
}

/// Returns a journal after a change.
fn changed(change: Change, journal: RotationJournal) -> RotationJournal
    ensures { result ≡ runs.changed change journal }
{
    match change {
        Change::Close => RotationJournal {
            is_closed: true,
            ..journal
        },
        Change::Leave(version) => RotationJournal {
            left: Some(version),
            stays: false,
            ..journal
        },
        Change::Stay => RotationJournal {
            stays: true,
            ..journal
        },
    }
}

/// Returns a journal after a change of an instance's journal.
pub(crate) fn changed_at(change: Change, instance: u64, journal: RotationJournal) -> RotationJournal
    ensures { result ≡ runs.changed_at change instance journal }
{
    if journal.instance == instance {
        changed(change, journal)
    } else {
        journal
    }
}

/// Changes the journal of an instance.
pub(crate) fn change_all(journals: &mut [RotationJournal], instance: u64, change: Change)
    ensures { journals.new ≡ runs.change_all change instance journals.old }
{
    for journal in journals.iter_mut() {
        *journal = changed_at(change, instance, *journal);
    }
}

/// Returns the instances of the journals that are in the set.
pub(crate) fn listed(alloc: Global, journals: &[RotationJournal]) -> Result<Vec<u64>, AllocError>
    ensures { IfOk result (λ is. is.items ≡ spec.listed journals.now) }
{
    let mut instances = Vec::new(alloc);
    for journal in journals {
        if journal.left.is_none() {
            instances.push(journal.instance)?;
        }
    }
    Ok(instances)
}
