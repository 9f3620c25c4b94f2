//! The program on a system, where a folder may stand in a file's place.

use crate::deed::Deed;
use crate::finding::{find, is_folder, stray_line};
use crate::journals::{FolderAudit, audit_journals, list_journals};
use lra_audits::{RunFault, settle, tell};
use lra_reports::{Invocation, Question, Sources, System};
use std::alloc::Global;
use std::fs::File;
use std::io;
use std::io::{Read, Write};
use std::marker::{Send, Sync};
use std::rt::Files;
use std::thread::Threads;

/// Prints a line on standard error for each of the names in a folder that is no journal's.
pub fn tell_others<R: AllocGlobal + Eprint>(rt: &R, folder: &str, others: &[String]) {
    for name in others {
        let _ = tell(rt, stray_line(rt.alloc(), folder, name.as_str()));
    }
}

/// Prints on standard error that a folder has no journal. Returns the program's status.
pub fn tell_none<R: AllocGlobal + Eprint>(rt: &R, folder: &str) -> u8 {
    tell(rt, format!(in rt.alloc(); "lra: no journal in {folder}\n"))
}

/// Audits or lists the journals of these names.
fn run_on<R: Threads + Sync, F: Read + Send + Drop, S: Sources<File = F>, W: Write>(
    rt: &R,
    alloc: Global,
    deed: Deed,
    sources: &S,
    folder: &str,
    names: &[String],
    writer: &mut W,
) -> Result<FolderAudit, RunFault> {
    match deed {
        Deed::Audit => audit_journals(rt, alloc, sources, folder, names, writer),
        Deed::Show => list_journals(rt, alloc, sources, folder, names, writer),
    }
}

/// Audits or lists the journals that a folder has, and returns the program's status. A folder without any is a fault.
pub fn run_folder<
    R: AllocGlobal + Files + Threads + Eprint + Sync + Clone + Drop,
    F: Read + Send + Drop,
    S: Sources<File = F>,
    W: Write,
>(rt: &R, sources: &S, writer: &mut W, deed: Deed, folder: &str) -> Result<u8, RunFault> {
    let found = find(rt, folder)?;
    tell_others(rt, folder, &found.others);
    if found.journals.is_empty() {
        return Ok(tell_none(rt, folder));
    }
    let done = run_on(
        rt,
        rt.alloc(),
        deed,
        sources,
        folder,
        &found.journals,
        writer,
    )?;
    let told = done.told.as_str();
    let _ = eprint!(rt; "{told}");
    Ok(done.status)
}

/// Audits or lists the journals of a folder of the system, and returns the program's status.
fn answer_folder<
    R: AllocGlobal + Files<File = File> + Threads + Input + Print + Eprint + Sync + Clone + Drop,
>(rt: &R, deed: Deed, folder: &str) -> u8 {
    let outcome = run_folder(rt, &System { rt }, &mut io::writer(rt), deed, folder);
    settle(rt, outcome, folder)
}

/// Answers a question on standard output, and returns the program's status. An audit or a listing may be of a folder.
pub fn answer_question<
    R: AllocGlobal + Files<File = File> + Threads + Input + Print + Eprint + Sync + Clone + Drop,
>(rt: &R, question: Question<'_>) -> u8 {
    match question {
        Question::Run(Invocation::Audit { file }) if is_folder(rt, file) => {
            answer_folder(rt, Deed::Audit, file)
        }
        Question::Run(Invocation::Show { file }) if is_folder(rt, file) => {
            answer_folder(rt, Deed::Show, file)
        }
        _ => lra_reports::answer_question(rt, question),
    }
}
