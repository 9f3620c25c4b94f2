//! The audit of a journal.

ghost use Rattle.std.specs.Prelude.{◌≡◌, ℕ, List, IfOk, IfErr, IfSome, OnOk};
ghost use Rattle.std.specs.Io.KnownBytes.{Appends};
ghost use Rattle.lra_auditor.specs.Verdicts.{IsFault};
ghost use Rattle.lra_audits.specs.Faults.{NamesNoLine, IsMeasured, LeavesOutput, IsNotPut, IsOfOutput};
ghost use Rattle.lra_audits.specs.Report.{ReportsAudit};
ghost use Rattle.lra_verdict_lines.specs.VerdictLines.{report_of};

use crate::fault::RunFault;
use crate::input::audit_input;
use crate::output::put;
use lra_auditor::{Rule, Verdict};
use lra_verdict_lines::{report, status};
use std::alloc::Global;
use std::io::{Read, Write};

/// Writes the report on a verdict.
pub fn put_report<W: Write>(
    alloc: Global,
    verdict: &Verdict,
    writer: &mut W,
) -> Result<(), RunFault>
    ensures written { OnOk result (Appends (W.contents writer.old) (W.contents writer.new) (report_of verdict.now)) }
    ensures fault { IfErr result IsOfOutput }
    ensures memory { IfErr result (λ fault. fault ≡ RunFault.Memory → W.contents writer.new ≡ W.contents writer.old) }
{
    let text = report(alloc, verdict)?;
    put(writer, text.as_bytes())
}

/// Writes the report on an input whose first fault is known, as its audit would. Returns the program's status.
pub fn report_fault<W: Write>(
    alloc: Global,
    line: u64,
    rule: Rule,
    writer: &mut W,
) -> Result<u8, RunFault>
    ensures ok { IfOk result (λ status. (input : List ℕ) → IsFault input line rule
        → ReportsAudit input status (W.contents writer.old) (W.contents writer.new)) }
    ensures unsound { IfOk result (λ status. status ≡ 1) }
    ensures fault { IfErr result (IsNotPut (W.contents writer.old) (W.contents writer.new)) }
{
    let verdict = Verdict::Unsound { line, rule };
    put_report(alloc, &verdict, writer)?;
    Ok(status(&verdict))
}

/// Audits what the reader gives, and writes the report. Returns the program's status: 0 for a sound journal, else 1.
pub fn audit_run<R: Read + Drop, W: Write>(
    alloc: Global,
    mut reader: R,
    writer: &mut W,
) -> Result<u8, RunFault>
    ensures ok { IfOk result (λ status. IfSome (R.remaining reader) (λ input.
        ReportsAudit input status (W.contents writer.old) (W.contents writer.new))) }
    ensures measured { IfSome (R.remaining reader) (IsMeasured result) }
    ensures left { LeavesOutput result (W.contents writer.old) (W.contents writer.new) }
    ensures fault { IfErr result NamesNoLine }
{
    let verdict = audit_input(alloc, &mut reader)?;
    put_report(alloc, &verdict, writer)?;
    Ok(status(&verdict))
}
