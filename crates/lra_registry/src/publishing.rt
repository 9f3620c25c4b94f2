//! The journals of a set that the rotation has decided, as they are published.

ghost use Rattle.std.specs.Prelude.{◌≡◌, map, IfOk, IfSome};

use crate::journal::ServedJournal;
use crate::journal_registry::PublishedSet;
use crate::watching::JournalMonitor;
use lra_model::{Instance, Memory};
use std::alloc::Global;
use std::sync::Arc;

/// Returns the journal of an instance, if it is among those of the monitors, which are in the order of their instances.
fn journal_of<B: Drop>(
    monitors: &[JournalMonitor<B>],
    instance: u64,
) -> Option<&Arc<ServedJournal<B>>>
    ensures { IfSome result (λ journal. journal.now.value.instance ≡ instance) }
{
    let place = monitors.partition_point(|monitor| monitor.journal.instance.number() < instance);
    match monitors.get(place) {
        Some(monitor) if monitor.journal.instance.number() == instance => Some(&monitor.journal),
        _ => None,
    }
}

/// Returns the journals of these instances, in their order. If one isn't among those of the monitors, returns the
/// fault of refused memory, so that nothing is published.
fn journals_of<B: Drop>(
    alloc: Global,
    instances: &[u64],
    monitors: &[JournalMonitor<B>],
) -> Result<Vec<Arc<ServedJournal<B>>>, Memory>
    ensures { IfOk result (λ journals. map (λ journal. journal.value.instance) journals.items ≡ instances.now) }
{
    let mut journals = Vec::new(alloc);
    for instance in instances {
        let Some(journal) = journal_of(monitors, *instance) else {
            return Err(Memory);
        };
        journals.push(Arc::try_clone(journal)?)?;
    }
    Ok(journals)
}

/// Returns the instances of the other journals, which have left the set and aren't archived yet.
fn others_of<B: Drop>(
    alloc: Global,
    instances: &[u64],
    monitors: &[JournalMonitor<B>],
) -> Result<Vec<Instance>, Memory> {
    let mut others = Vec::new(alloc);
    for monitor in monitors {
        let instance = monitor.journal.instance;
        if instances.binary_search(&instance.number()).is_err() {
            others.push(instance)?;
        }
    }
    Ok(others)
}

/// Returns the set of a version that has the journals of these instances, in ascending order, and no others. The
/// journals are those of monitors, which are in the order of their instances too.
pub fn published_set<B: Drop>(
    alloc: Global,
    version: u64,
    instances: &[u64],
    monitors: &[JournalMonitor<B>],
) -> Result<PublishedSet<B>, Memory>
    ensures version { IfOk result (λ set. set.version ≡ version) }
    ensures served { IfOk result (λ set. map (λ journal. journal.value.instance) set.served.items ≡ instances.now) }
{
    let served = journals_of(alloc, instances, monitors)?;
    let retiring = others_of(alloc, instances, monitors)?;
    Ok(PublishedSet {
        version,
        served,
        retiring,
    })
}
