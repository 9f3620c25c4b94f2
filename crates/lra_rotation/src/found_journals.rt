//! Journals that a service finds at its start.

ghost use Rattle.std.specs.Prelude.{◌≡◌, IfOk, max, option_map};
ghost use Rattle.lra_rotation.specs.Disks as disks;

use crate::action::Stage;
use crate::choosing::is_near_end;
use crate::journal::{Observation, RotationJournal};
use crate::rotation::Rotation;
use crate::settings::RotationSettings;
use std::alloc::{AllocError, Global};
use std::marker::Model;

/// Journals that a service finds at its start. The service of one file finds one.
#[derive(Drop)]
pub struct FoundJournals {
    /// Instance that was noted last.
    pub newest: u64,
    /// Least instance in whose journal anything is begun, as a restore left it, or 0.
    pub first: u64,
    /// Instances of the journals in use, the oldest first.
    pub journals: Vec<u64>,
    /// Instances of journals that were being prepared.
    pub prepared: Vec<u64>,
    /// Instances of journals that have ended.
    pub ended: Vec<u64>,
}

impl Model for FoundJournals {
    ghost use Rattle.lra_rotation.specs.Disks.{Disk};

    ghost Value = { Disk };

    ghost view = { λ f. record {
      newest = f.newest;
      first = f.first;
      journals = f.journals.items;
      prepared = f.prepared.items;
      ended = f.ended.items;
    } };
}

/// Returns the greatest of some numbers, or 0 if there is none.
fn greatest(numbers: &[u64]) -> u64
    ensures { result ≡ disks.greatest numbers.now }
{
    let mut most = 0;
    for number in numbers {
        most = most.max(*number);
    }
    most
}

/// Returns the journal of an instance that was found.
fn found(first: u64, observations: &[Observation], instance: u64) -> RotationJournal
    ensures { result ≡ disks.found first observations.now instance }
{
    RotationJournal {
        instance,
        is_closed: instance < first || is_near_end(observations, instance),
        left: None,
        stays: false,
    }
}

/// Returns the journals of all instances that were found.
fn found_all(
    alloc: Global,
    first: u64,
    observations: &[Observation],
    instances: &[u64],
) -> Result<Vec<RotationJournal>, AllocError>
    ensures { IfOk result (λ js. js.items ≡ disks.found_all first observations.now instances.now) }
{
    let mut journals = Vec::new(alloc);
    for instance in instances {
        journals.push(found(first, observations, *instance))?;
    }
    Ok(journals)
}

/// Returns the greatest instance that was noted, or whose journal is in use or has ended.
fn noted_on(found: &FoundJournals) -> u64
    ensures { result ≡ disks.noted_on found.now }
{
    found
        .newest
        .max(greatest(&found.journals).max(greatest(&found.ended)))
}

/// Takes the last number off, if there is one.
fn pop_last(numbers: &mut Vec<u64>) -> Option<u64>
    ensures last { result ≡ disks.last_of numbers.old.items }
    ensures front { numbers.new.items ≡ disks.front_of numbers.old.items }
{
    numbers.pop()
}

/// Returns the journal of the last instance, if there is one.
fn found_last(
    first: u64,
    observations: &[Observation],
    last: Option<u64>,
) -> Option<RotationJournal>
    ensures { result ≡ option_map (disks.found first observations.now) last }
{
    match last {
        Some(instance) => Some(found(first, observations, instance)),
        None => None,
    }
}

impl Rotation {
    /// Returns the rotation of a service that starts with the journals that it found, and observations of them. It has
    /// no worker yet.
    pub fn open(
        alloc: Global,
        settings: RotationSettings,
        mut found: FoundJournals,
        observations: &[Observation],
    ) -> Result<Rotation, AllocError>
        ensures { IfOk result (λ rotation. rotation ≡ disks.opened settings found observations.now) }
    {
        let noted = noted_on(&found);
        let last = pop_last(&mut found.journals);
        Ok(Rotation {
            settings,
            noted,
            older: found_all(alloc, found.first, observations, &found.journals)?,
            newest: found_last(found.first, observations, last),
            stage: Stage::Idle,
            leftovers: found.prepared,
            version: 0,
            workers: Vec::new(alloc),
            is_over: false,
        })
    }
}
