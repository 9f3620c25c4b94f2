//! The office of a service, and its first clerk.

ghost use Rattle.std.specs.Prelude.{◌≡◌, ℕ, List, true, IfOk, IfErr};
ghost use Rattle.lra_commands.specs.Terms.{AreKeepable};
ghost use Rattle.lra_core.specs.Fed.{IsFed};
ghost use Rattle.lra_office.specs.Made.{new_origin};
ghost use Rattle.lra_opening.specs.Faults.{IsOfNoScript};
ghost use Rattle.lra_opening.specs.Opened.{IsBegun, GoesOn};

use crate::fault::{ServeFault, enrol_fault};
use crate::feeding::is_new;
use lra_audits::RunFault;
use lra_commands::Limits;
use lra_core::Opening;
use lra_ids::{Base, Instance};
use lra_office::{Clerk, Desk, Office, ReopenFault, StartFault};
use std::alloc::Global;
use std::io::Write;
use std::sync::Wait;

/// Returns why nothing is served, from the fault that keeps a new office from being made.
fn start_fault(fault: StartFault) -> ServeFault
    ensures { IsOfNoScript result }
{
    match fault {
        StartFault::Stopped => ServeFault::File,
        StartFault::Memory => ServeFault::Run(RunFault::Memory),
    }
}

/// Returns why nothing is served, from the fault that keeps an office from going on from a journal.
fn reopen_fault(fault: ReopenFault) -> ServeFault
    ensures { IsOfNoScript result }
{
    match fault {
        ReopenFault::Stopped => ServeFault::File,
        ReopenFault::Memory => ServeFault::Run(RunFault::Memory),
        ReopenFault::Full | ReopenFault::Unsound { .. } => ServeFault::Address,
    }
}

/// Returns the instance of a new journal, which is the moment.
fn instance_at(moment: u64) -> Result<Instance, ServeFault>
    ensures instance { IfOk result (λ instance. instance ≡ moment) }
    ensures fault { IfErr result IsOfNoScript }
{
    match Instance::new(moment) {
        Some(instance) => Ok(instance),
        None => Err(ServeFault::Address),
    }
}

/// Returns an office with a new journal of an instance, and its first clerk.
pub fn begin_office<W: Write + Drop, R: Wait>(
    rt: &R,
    alloc: Global,
    instance: Instance,
    base: Base,
    limits: Limits,
    writer: W,
    moment: u64,
) -> Result<(Office<W>, Clerk<Desk<W>>), ServeFault>
    requires limits { AreKeepable limits }
    ensures opened { IfOk result (λ opened. IsBegun (new_origin instance base limits (W.contents writer)) moment
        opened.0 opened.1) }
    ensures fault { IfErr result IsOfNoScript }
{
    match Office::with_base(alloc, instance, base, limits, writer) {
        Ok((office, pass)) => match office.clerk(rt, pass, moment) {
            Ok(clerk) => Ok((office, clerk)),
            Err((pass, refusal)) => {
                drop(pass);
                drop(office);
                Err(enrol_fault(refusal))
            }
        },
        Err((fault, writer)) => {
            drop(writer);
            Err(start_fault(fault))
        }
    }
}

/// Returns an office with a new journal, whose instance is the moment, and its first clerk.
fn begin<W: Write + Drop, R: Wait>(
    rt: &R,
    alloc: Global,
    base: Base,
    limits: Limits,
    writer: W,
    moment: u64,
) -> Result<(Office<W>, Clerk<Desk<W>>), ServeFault>
    requires limits { AreKeepable limits }
    ensures opened { IfOk result (λ opened. IsBegun (new_origin moment base limits (W.contents writer)) moment opened.0
        opened.1) }
    ensures fault { IfErr result IsOfNoScript }
{
    match instance_at(moment) {
        Ok(instance) => begin_office(rt, alloc, instance, base, limits, writer, moment),
        Err(fault) => {
            drop(base);
            drop(writer);
            Err(fault)
        }
    }
}

/// Returns an office that goes on from the journal that an opening was fed, and its first clerk. If there is no journal
/// yet, the office begins one.
pub fn open_office<W: Write + Drop, R: Wait>(
    rt: &R,
    alloc: Global,
    base: Base,
    limits: Limits,
    opening: Opening,
    writer: W,
    moment: u64,
) -> Result<(Office<W>, Clerk<Desk<W>>), ServeFault>
    requires limits { AreKeepable limits }
    ensures opened { IfOk result (λ opened. (b : List ℕ) → IsFed b opening
        → GoesOn base limits b moment (W.contents writer) opened.0 opened.1) }
    ensures fault { IfErr result IsOfNoScript }
{
    if is_new(&opening) {
        return begin(rt, alloc, base, limits, writer, moment);
    }
    match Office::resume(alloc, opening, base, limits, writer, moment) {
        Ok(opened) => Ok(opened),
        Err((fault, _)) => Err(reopen_fault(fault)),
    }
}
