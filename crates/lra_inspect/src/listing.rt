//! Listings of actions, of a journal or of each of a folder's.

use crate::asking::ListOptions;
use lra_audits::{RunFault, put, settle, tell};
use lra_clocks::milliseconds;
use lra_folders::{Found, find, is_folder, open_each, tell_none, tell_others, width};
use lra_model::Memory;
use lra_reports::{Sources, System};
use lra_timelines::{Choice, list_run};
use std::alloc::Global;
use std::fs::File;
use std::io::Read;
use std::marker::Sync;
use std::rt::Files;
use std::thread::Threads;
use std::time::Clock;
use std::{io, thread};

/// Returns the choice of the actions that are listed. Returns nothing if the moment now is asked for and the clock
/// fails.
fn choice_of<R: Clock>(rt: &R, listed: ListOptions) -> Option<Choice> {
    let now = if listed.is_now {
        Some(milliseconds(rt)?)
    } else {
        None
    };
    Some(Choice {
        status: listed.status,
        older_than: listed.older_than,
        now,
        waits: listed.waits,
    })
}

/// Lists the actions of a file's journal, or of standard input's.
fn list<R: AllocGlobal + Files + Input + Print + Eprint>(
    rt: &R,
    file: &str,
    choice: &Choice,
) -> Result<u8, RunFault> {
    let sources = System { rt };
    if file == "-" {
        return list_run(rt.alloc(), sources.input(), choice, "", &mut io::writer(rt));
    }
    let input = sources.open(file)?;
    list_run(rt.alloc(), input, choice, "", &mut io::writer(rt))
}

/// The listing of one of a folder's journals.
#[derive(Drop)]
struct FolderListing {
    name: String,
    /// Lines of each action, after the journal's name.
    text: Vec<u8>,
    outcome: Result<u8, RunFault>,
}

/// Adds the lines of a journal's actions to a text, each after the journal's name. Returns the journal's status.
fn add_listing<F: Read + Drop>(
    alloc: Global,
    choice: &Choice,
    name: &str,
    file: Option<F>,
    text: &mut Vec<u8>,
) -> Result<u8, RunFault> {
    let Some(file) = file else {
        return Err(RunFault::Read);
    };
    let prefix = format!(in alloc; "{name} ")?;
    list_run(alloc, file, choice, prefix.as_str(), text)
}

/// Returns the listing of a named journal. The file is its own, if that could be opened.
fn listing_of<F: Read + Drop>(
    alloc: Global,
    choice: &Choice,
    name: String,
    file: Option<F>,
) -> FolderListing {
    let mut text = Vec::new(alloc);
    let outcome = add_listing(alloc, choice, name.as_str(), file, &mut text);
    FolderListing {
        name,
        text,
        outcome,
    }
}

/// Lists the journals of these names, or as many as can be open at once. Each is listed by a thread of its own, where
/// one can be started.
fn list_side_by_side<R: AllocGlobal + Files<File = File> + Threads + Input + Sync>(
    rt: &R,
    folder: &str,
    names: &[String],
    choice: &Choice,
) -> Result<Vec<FolderListing>, Memory> {
    let alloc = rt.alloc();
    let jobs = open_each(alloc, &System { rt }, folder, names)?;
    thread::map_vec(
        rt,
        jobs,
        &|job: (String, Option<File>)| -> FolderListing { listing_of(alloc, choice, job.0, job.1) },
    )
}

/// Prints the listing of a journal, and returns its status. Reports a journal that can't be read.
fn print_listing<R: AllocGlobal + Print + Eprint>(
    rt: &R,
    folder: &str,
    listing: &FolderListing,
) -> Result<u8, RunFault> {
    put(&mut io::writer(rt), &listing.text)?;
    match listing.outcome {
        Err(RunFault::Read | RunFault::TooLong) => {
            let name = listing.name.as_str();
            let path = format!(in rt.alloc(); "{folder}/{name}")?;
            Ok(settle(rt, listing.outcome, path.as_str()))
        }
        outcome => outcome,
    }
}

/// Lists the actions of a folder's journals, as many side by side as threads run and files can be open. Returns the
/// greatest status of any.
fn list_found<R: AllocGlobal + Files<File = File> + Threads + Input + Print + Eprint + Sync>(
    rt: &R,
    folder: &str,
    found: &Found,
    choice: &Choice,
) -> Result<u8, RunFault> {
    tell_others(rt, folder, &found.others);
    if found.journals.is_empty() {
        return Ok(tell_none(rt, folder));
    }
    let mut greatest = 0;
    let mut rest = found.journals.as_slice();
    for _ in 0..rest.len() {
        let (next, _) = rest.split_at(width(rt).min(rest.len()));
        let listings = list_side_by_side(rt, folder, next, choice)?;
        for listing in &listings {
            greatest = greatest.max(print_listing(rt, folder, listing)?);
        }
        let Some(others) = rest.get(listings.len()..) else {
            break;
        };
        rest = others;
    }
    Ok(greatest)
}

/// Lists actions, and returns the program's status.
pub(crate) fn answer_list<
    R: AllocGlobal
        + Files<File = File>
        + Clock
        + Threads
        + Input
        + Print
        + Eprint
        + Sync
        + Clone
        + Drop,
>(rt: &R, place: &str, listed: ListOptions) -> u8 {
    let Some(choice) = choice_of(rt, listed) else {
        return tell(rt, format!(in rt.alloc(); "lra: cannot read the clock\n"));
    };
    if !is_folder(rt, place) {
        return settle(rt, list(rt, place, &choice), place);
    }
    let outcome = match find(rt, place) {
        Ok(found) => list_found(rt, place, &found, &choice),
        Err(fault) => Err(fault),
    };
    settle(rt, outcome, place)
}
