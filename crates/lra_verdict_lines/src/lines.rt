//! The text that is printed of a verdict.

ghost use Rattle.std.specs.Prelude.{◌≡◌, IfOk, string_bytes};
ghost use Rattle.lra_verdict_lines.specs.VerdictLines.{failed_line, entries_counted, ends_counted, fault_line};
ghost use Rattle.lra_verdict_lines.specs.VerdictLines.{report_of, status_of};

use lra_course::{FailedEnd, Summary, Verdict};
use lra_model::{Memory, Rule};
use std::alloc::Global;

fn line_of_failed(alloc: Global, end: &FailedEnd) -> Result<String, Memory>
    ensures { IfOk result (λ text. string_bytes text ≡ failed_line end.now) }
{
    let action = end.action;
    let status = end.status.name();
    let member = end.member;
    format!(in alloc; "failed {action} {status} {member}\n")
}

fn count_of_entries(alloc: Global, summary: &Summary) -> Result<String, Memory>
    ensures { IfOk result (λ text. string_bytes text ≡ entries_counted summary.now) }
{
    let entries = summary.entries;
    let actions = summary.actions;
    let unended = summary.unended;
    format!(in alloc; "sound entries {entries} actions {actions} unended {unended}")
}

fn count_of_ends(alloc: Global, summary: &Summary) -> Result<String, Memory>
    ensures { IfOk result (λ text. string_bytes text ≡ ends_counted summary.now) }
{
    let closed = summary.closed;
    let cancelled = summary.cancelled;
    let failed = summary.failed.as_slice().len();
    format!(in alloc; " closed {closed} cancelled {cancelled} failed {failed}\n")
}

/// Returns the line that is printed of a fault.
pub fn line_of_fault(alloc: Global, line: u64, rule: Rule) -> Result<String, Memory>
    ensures { IfOk result (λ text. string_bytes text ≡ fault_line line rule) }
{
    let rule = rule.name();
    format!(in alloc; "unsound line {line} {rule}\n")
}

/// Returns the lines that are printed of a verdict.
pub fn report(alloc: Global, verdict: &Verdict) -> Result<String, Memory>
    ensures { IfOk result (λ text. string_bytes text ≡ report_of verdict.now) }
{
    match verdict {
        Verdict::Sound(summary) => {
            let mut text = count_of_entries(alloc, summary)?;
            text.push_str(&count_of_ends(alloc, summary)?)?;
            for end in summary.failed.as_slice() {
                text.push_str(&line_of_failed(alloc, end)?)?;
            }
            Ok(text)
        }
        Verdict::Unsound { line, rule } => line_of_fault(alloc, *line, *rule),
    }
}

/// Returns the program's status for a verdict: 0 for a sound journal, else 1.
pub fn status(verdict: &Verdict) -> u8
    ensures { result ≡ status_of verdict.now }
{
    match verdict {
        Verdict::Sound(_) => 0,
        Verdict::Unsound { .. } => 1,
    }
}
