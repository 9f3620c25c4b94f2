//! Clerks of a service.

ghost use Rattle.std.specs.Prelude.{All, IfOk, IfErr, OnOk};
ghost use Rattle.lra_opening.specs.Faults.{IsOfNoScript};
ghost use Rattle.lra_service.specs.inner.Opened.{IsAt};

use lra_office::{Clerk, LockedService, OfficeOf};
use lra_opening::{ServeFault, enrol_fault};
use std::alloc::Global;
use std::sync::Wait;

/// Role of a clerk of a service.
#[derive(Clone, Copy, PartialEq, Eq)]
pub(crate) enum Role {
    /// Answers the connections of the accept queue at that index.
    Answer(u32),
    /// Lets limits fire and makes the callbacks of errands, in that slot.
    Callbacks(u32),
    /// Answers operators.
    Watch,
}

/// Gives a clerk its role, and enrols another beside it. Returns the other.
fn register_worker<V: LockedService, R: Wait>(
    rt: &R,
    office: &OfficeOf<V>,
    clerk: Clerk<V>,
    role: Role,
    moment: u64,
    jobs: &mut Vec<(Role, Clerk<V>)>,
) -> Result<Clerk<V>, ServeFault>
    requires clerk { IsAt V.setting V.covers office.now clerk }
    requires hired { All (λ job. IsAt V.setting V.covers office.now job.1) jobs.old.items }
    ensures other { IfOk result (λ other. IsAt V.setting V.covers office.now other) }
    ensures hired { OnOk result (All (λ job. IsAt V.setting V.covers office.now job.1) jobs.new.items) }
    ensures fault { IfErr result IsOfNoScript }
{
    let (clerk, pass) = office.split(clerk);
    jobs.push((role, clerk))?;
    match office.clerk(rt, pass, moment) {
        Ok(other) => Ok(other),
        Err((pass, refusal)) => {
            drop(pass);
            Err(enrol_fault(refusal))
        }
    }
}

/// Adds the clerks of a service, of which one is there already.
fn add_all<V: LockedService, R: Wait>(
    rt: &R,
    office: &OfficeOf<V>,
    first: Clerk<V>,
    moment: u64,
    workers: u32,
    jobs: &mut Vec<(Role, Clerk<V>)>,
) -> Result<(), ServeFault>
    requires first { IsAt V.setting V.covers office.now first }
    requires hired { All (λ job. IsAt V.setting V.covers office.now job.1) jobs.old.items }
    ensures hired { OnOk result (All (λ job. IsAt V.setting V.covers office.now job.1) jobs.new.items) }
    ensures fault { IfErr result IsOfNoScript }
{
    let mut next = first;
    for place in 1..workers {
        let other = register_worker(rt, office, next, Role::Callbacks(place), moment, jobs)?;
        next = register_worker(rt, office, other, Role::Answer(place), moment, jobs)?;
    }
    let last = register_worker(rt, office, next, Role::Callbacks(0), moment, jobs)?;
    jobs.push((Role::Answer(0), last))?;
    Ok(())
}

/// Adds the clerks of a service, and one for the operators' thread if there is one.
fn add_each<V: LockedService, R: Wait>(
    rt: &R,
    office: &OfficeOf<V>,
    first: Clerk<V>,
    moment: u64,
    workers: u32,
    is_watched: bool,
    jobs: &mut Vec<(Role, Clerk<V>)>,
) -> Result<(), ServeFault>
    requires first { IsAt V.setting V.covers office.now first }
    requires hired { All (λ job. IsAt V.setting V.covers office.now job.1) jobs.old.items }
    ensures hired { OnOk result (All (λ job. IsAt V.setting V.covers office.now job.1) jobs.new.items) }
    ensures fault { IfErr result IsOfNoScript }
{
    if is_watched {
        let next = register_worker(rt, office, first, Role::Watch, moment, jobs)?;
        return add_all(rt, office, next, moment, workers, jobs);
    }
    add_all(rt, office, first, moment, workers, jobs)
}

/// Returns the clerks of a service with their roles, of which one is there already: one for each of so many connection
/// workers and as many callback workers, and one for the operators' thread if there is one.
pub(crate) fn spawn_all<V: LockedService, R: Wait>(
    rt: &R,
    alloc: Global,
    office: &OfficeOf<V>,
    first: Clerk<V>,
    moment: u64,
    workers: u32,
    is_watched: bool,
) -> Result<Vec<(Role, Clerk<V>)>, ServeFault>
    requires { IsAt V.setting V.covers office.now first }
    ensures hired { IfOk result (λ jobs. All (λ job. IsAt V.setting V.covers office.now job.1) jobs.items) }
    ensures fault { IfErr result IsOfNoScript }
{
    let mut jobs = Vec::new(alloc);
    match add_each(rt, office, first, moment, workers, is_watched, &mut jobs) {
        Ok(()) => Ok(jobs),
        Err(fault) => {
            drop(jobs);
            Err(fault)
        }
    }
}
