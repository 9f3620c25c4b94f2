//! The texts on standard error that name the input of a run, and the command that salvages it.

ghost use Rattle.std.specs.Prelude.{◌≡◌, IfOk, string_bytes};
ghost use Rattle.lra_reports.specs.Invoked.{input_name};
ghost use Rattle.lra_reports.specs.Salvage.{hint_line};

use crate::words::Invocation;
use lra_auditor::Memory;
use std::alloc::Global;

/// Returns the name of the input of an invocation: its file's, or `-` for standard input.
pub fn input_name<'a>(invocation: Invocation<'a>) -> &'a str
    ensures { result.now ≡ input_name invocation.entry }
{
    match invocation {
        Invocation::AuditInput => "-",
        Invocation::Audit { file } | Invocation::Show { file } | Invocation::Upgrade { file } =>
            file,
    }
}

/// Returns the line on standard error that names the command to salvage a file, where its journal isn't sound.
pub fn hint_line(alloc: Global, file: &str) -> Result<String, Memory>
    ensures { IfOk result (λ text. string_bytes text ≡ hint_line file.now) }
{
    format!(in alloc; "lra: what is sound of it: lra salvage {file}\n")
}
