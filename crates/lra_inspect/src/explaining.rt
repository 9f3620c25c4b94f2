//! Timeline of an action, in a journal or in the journal of a folder that has it.

use lra_audits::{RunFault, error_line, next_piece, put, settle, tell, tell_usage};
use lra_folders::{Found, find, is_folder, tell_none};
use lra_journal::{Instance, first_line, read_header};
use lra_reports::{Sources, System};
use lra_timelines::{Form, Wanted, explain_run, missing_text, read_wanted};
use std::io;
use std::io::Read;
use std::rt::Files;

/// Number of bytes that no header reaches.
const HEADER: usize = 64;

/// Result of a search for the journal of an instance.
#[derive(Drop)]
enum JournalSearch {
    /// The path of the journal.
    Found(String),
    /// No journal has the instance.
    Missing,
    /// No journal that can be read has it, and one can't be read.
    Unread,
}

/// Returns the instance in the header of a journal's first bytes, if there is a header.
fn instance_in(front: &[u8]) -> Option<Instance> {
    let end = first_line(front)?;
    match read_header(front.get(..end)?) {
        Ok((_, instance)) => Some(instance),
        Err(_) => None,
    }
}

/// Reads the first bytes of a journal, and returns its instance, if it has one.
fn instance_of<F: Read>(reader: &mut F) -> Result<Option<Instance>, RunFault> {
    let mut front = [0u8; HEADER];
    let mut count = 0;
    for _ in 0..HEADER {
        if count >= HEADER {
            break;
        }
        let read = next_piece(reader, &mut front[count..])?;
        if read == 0 {
            break;
        }
        count = count.saturating_add(read);
    }
    Ok(instance_in(front.get(..count).unwrap_or(&[])))
}

/// Returns whether the journal of a path has an instance.
fn has_instance<R: AllocGlobal + Files + Input>(
    rt: &R,
    path: &str,
    instance: Instance,
) -> Result<bool, RunFault> {
    let mut file = System { rt }.open(path)?;
    match instance_of(&mut file)? {
        Some(own) => Ok(own.number() == instance.number()),
        None => Ok(false),
    }
}

/// Searches a folder's journals for that of an instance. Reports each journal that can't be read.
fn find_in<R: AllocGlobal + Files + Input + Eprint>(
    rt: &R,
    folder: &str,
    found: &Found,
    instance: Instance,
) -> Result<JournalSearch, RunFault> {
    let alloc = rt.alloc();
    let mut outcome = JournalSearch::Missing;
    for name in &found.journals {
        let name = name.as_str();
        let path = format!(in alloc; "{folder}/{name}")?;
        match has_instance(rt, path.as_str(), instance) {
            Ok(true) => return Ok(JournalSearch::Found(path)),
            Ok(false) => {}
            Err(RunFault::Memory) => return Err(RunFault::Memory),
            Err(fault) => {
                let _ = tell(rt, error_line(alloc, fault, path.as_str()));
                outcome = JournalSearch::Unread;
            }
        }
    }
    Ok(outcome)
}

/// Reports that a number alone names an action in each of a folder's journals. Returns the program's status.
fn report_ambiguous<R: AllocGlobal + Eprint>(rt: &R, folder: &str, name: &str) -> u8 {
    tell(
        rt,
        format!(in rt.alloc();
            "lra: {name} is ambiguous in {folder}: name the action by its UUID or URI\n"
        ),
    )
}

/// Prints the timeline of an action of a file's journal, or of standard input's.
fn explain<R: AllocGlobal + Files + Input + Print + Eprint>(
    rt: &R,
    file: &str,
    wanted: Wanted,
    form: Form,
    name: &str,
) -> Result<u8, RunFault> {
    let sources = System { rt };
    if file == "-" {
        return explain_run(
            rt.alloc(),
            sources.input(),
            wanted,
            form,
            name,
            &mut io::writer(rt),
        );
    }
    let input = sources.open(file)?;
    explain_run(rt.alloc(), input, wanted, form, name, &mut io::writer(rt))
}

/// Prints the timeline of an action of the journal of an instance in a folder.
fn explain_found<R: AllocGlobal + Files + Input + Print + Eprint>(
    rt: &R,
    folder: &str,
    found: &Found,
    instance: Instance,
    wanted: Wanted,
    form: Form,
    name: &str,
) -> Result<u8, RunFault> {
    if found.journals.is_empty() {
        return Ok(tell_none(rt, folder));
    }
    match find_in(rt, folder, found, instance)? {
        JournalSearch::Found(path) => {
            let outcome = explain(rt, path.as_str(), wanted, form, name);
            Ok(settle(rt, outcome, path.as_str()))
        }
        JournalSearch::Missing => {
            let line = missing_text(rt.alloc(), name)?;
            put(&mut io::writer(rt), line.as_bytes())?;
            Ok(1)
        }
        JournalSearch::Unread => Ok(2),
    }
}

/// Prints the timeline of an action of a folder's journals, and returns the program's status.
fn explain_in<R: AllocGlobal + Files + Input + Print + Eprint + Clone + Drop>(
    rt: &R,
    folder: &str,
    wanted: Wanted,
    form: Form,
    name: &str,
) -> u8 {
    let Some(instance) = wanted.instance else {
        return report_ambiguous(rt, folder, name);
    };
    let outcome = match find(rt, folder) {
        Ok(found) => explain_found(rt, folder, &found, instance, wanted, form, name),
        Err(fault) => Err(fault),
    };
    settle(rt, outcome, folder)
}

/// Prints the timeline of an action of a journal, or of a folder's, and returns the program's status.
pub(crate) fn answer_explain<R: AllocGlobal + Files + Input + Print + Eprint + Clone + Drop>(
    rt: &R,
    place: &str,
    form: Form,
    name: &str,
) -> u8 {
    let Some(wanted) = read_wanted(name) else {
        return tell_usage(rt);
    };
    if is_folder(rt, place) {
        explain_in(rt, place, wanted, form, name)
    } else {
        settle(rt, explain(rt, place, wanted, form, name), place)
    }
}
