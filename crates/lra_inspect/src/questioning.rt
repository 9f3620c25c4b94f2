//! Audits, listings and upgrades, whose progress a terminal shows.

use crate::gauge::{Gauge, Gauged, Tidy};
use lra_audits::{RunFault, settle};
use lra_folders::{Deed, answer_question, find, is_folder, run_folder};
use lra_opening::Notifier;
use lra_reports::{Invocation, Question, System, input_name, run};
use std::fs::File;
use std::marker::Sync;
use std::rt::Files;
use std::thread::Threads;
use std::time::Clock;
use std::{fs, io};

/// Returns how many bytes a file has, or 0 where the system doesn't say.
fn size_of<R: Files>(rt: &R, path: &str) -> u64 {
    match fs::metadata(rt, path) {
        Ok(about) => about.len(),
        Err(_) => 0,
    }
}

/// Returns how many bytes the journals of a folder have together.
fn size_in<R: AllocGlobal + Files + Clone + Drop>(rt: &R, folder: &str) -> Result<u64, RunFault> {
    let found = find(rt, folder)?;
    let mut all = 0u64;
    for name in &found.journals {
        let name = name.as_str();
        let path = format!(in rt.alloc(); "{folder}/{name}")?;
        all = all.saturating_add(size_of(rt, path.as_str()));
    }
    Ok(all)
}

/// Returns the deed for each journal of a folder, if the invocation names a folder.
fn deed_of<R: Files>(rt: &R, invocation: Invocation<'_>) -> Option<Deed> {
    match invocation {
        Invocation::Audit { file } if is_folder(rt, file) => Some(Deed::Audit),
        Invocation::Show { file } if is_folder(rt, file) => Some(Deed::Show),
        _ => None,
    }
}

/// Returns how many bytes an invocation reads. An upgrade reads its file twice.
fn size_read<R: AllocGlobal + Files + Clone + Drop>(
    rt: &R,
    invocation: Invocation<'_>,
    deed: Option<Deed>,
) -> u64 {
    let place = input_name(invocation);
    match (invocation, deed) {
        (_, Some(_)) => size_in(rt, place).unwrap_or(0),
        (Invocation::Upgrade { .. }, None) => size_of(rt, place).saturating_mul(2),
        (_, None) => size_of(rt, place),
    }
}

/// Carries out an invocation, and returns the program's status. The watcher reports the progress.
fn answer_invocation<
    R: AllocGlobal
        + Files<File = File>
        + Clock
        + Threads
        + Input
        + Print
        + Eprint
        + Sync
        + Clone
        + Drop,
    H: Notifier + Sync,
>(rt: &R, watcher: &H, invocation: Invocation<'_>) -> u8 {
    let alloc = rt.alloc();
    let deed = deed_of(rt, invocation);
    let gauge = Gauge::new(alloc, rt, watcher, size_read(rt, invocation, deed));
    let sources = Gauged {
        system: System { rt },
        gauge: &gauge,
    };
    let mut writer = Tidy {
        writer: io::writer(rt),
        gauge: &gauge,
    };
    let place = input_name(invocation);
    let outcome = match deed {
        Some(deed) => run_folder(rt, &sources, &mut writer, deed, place),
        None => run(alloc, &sources, invocation, &mut writer),
    };
    gauge.clear();
    settle(rt, outcome, place)
}

/// Answers a question on standard output, and returns the program's status. The watcher reports the progress.
pub(crate) fn answer_watched<
    R: AllocGlobal
        + Files<File = File>
        + Clock
        + Threads
        + Input
        + Print
        + Eprint
        + Sync
        + Clone
        + Drop,
    H: Notifier + Sync,
>(rt: &R, watcher: &H, question: Question<'_>) -> u8 {
    match question {
        Question::Run(invocation) => answer_invocation(rt, watcher, invocation),
        _ => answer_question(rt, question),
    }
}
