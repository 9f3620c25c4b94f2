//! The run that the words of a command line ask for, and its input.

ghost use Rattle.std.specs.Prelude.{IfOk, IfErr, IfSome};
ghost use Rattle.lra_audits.specs.Faults.{NamesNoLine, IsMeasured, LeavesOutput};
ghost use Rattle.lra_reports.specs.Invoked.{input_bytes, Runs};

use crate::show::show_run;
use crate::sources::Sources;
use crate::upgrade::upgrade_file;
use crate::words::Invocation;
use lra_audits::{RunFault, audit_run};
use std::alloc::Global;
use std::io::Write;

/// Carries out an invocation, and returns the program's status.
pub fn run<S: Sources, W: Write>(
    alloc: Global,
    sources: &S,
    invocation: Invocation<'_>,
    writer: &mut W,
) -> Result<u8, RunFault>
    ensures ok { IfOk result
        (λ status. IfSome (input_bytes (S.standard sources.now) (S.named sources.now) invocation.entry) (λ input.
        Runs invocation.entry input status (W.contents writer.old) (W.contents writer.new))) }
    ensures measured { IfSome (input_bytes (S.standard sources.now) (S.named sources.now) invocation.entry)
        (IsMeasured result) }
    ensures left { LeavesOutput result (W.contents writer.old) (W.contents writer.new) }
    ensures fault { IfErr result NamesNoLine }
{
    match invocation {
        Invocation::AuditInput => audit_run(alloc, sources.input(), writer),
        Invocation::Audit { file } => audit_run(alloc, sources.open(file)?, writer),
        Invocation::Show { file } => show_run(alloc, sources.open(file)?, writer),
        Invocation::Upgrade { file } => upgrade_file(alloc, sources, file, writer),
    }
}
