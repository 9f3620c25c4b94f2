//! Reasons of the system for a fault, reported after the fault's line on a terminal.

use crate::misuse::{misuse_line, misuse_of};
use lra_audits::tell_usage;
use lra_folders::is_folder;
use lra_opening::Notifier;
use std::alloc::{AllocError, Global};
use std::fs;
use std::fs::File;
use std::io::{ErrorKind, Read};
use std::rt::Files;

/// Status of a call that fails.
pub const FAULT: u8 = 2;

/// Reason why something isn't available.
#[derive(Clone, Copy, PartialEq, Eq)]
pub enum Reason {
    /// Error of the system.
    System(ErrorKind),
    /// Another process holds the lock of the file.
    Held,
    /// The text is no host and port as they are spelled.
    NoAddress,
}

/// Returns the reason why a file can't be read, if a second try fails too.
pub fn why_unread<R: Files<File = File>>(rt: &R, path: &str) -> Option<Reason> {
    match fs::metadata(rt, path) {
        // Reading anything but a file or a folder may block.
        Ok(about) if !about.is_file() && !about.is_dir() => return None,
        Ok(_) => {}
        Err(error) => return Some(Reason::System(error.kind())),
    }
    let mut file = match fs::open(rt, path) {
        Ok(file) => file,
        Err(error) => return Some(Reason::System(error.kind())),
    };
    match file.read(&mut [0u8; 1]) {
        Ok(_) => None,
        Err(error) => Some(Reason::System(error.kind())),
    }
}

/// Returns the words of a reason.
fn reason_text(alloc: Global, reason: Reason) -> Result<String, AllocError> {
    match reason {
        Reason::System(ErrorKind::NotFound) => String::from_str(alloc, "no such file or folder"),
        Reason::System(ErrorKind::FilesystemLoop) => {
            String::from_str(alloc, "links that lead in a circle")
        }
        Reason::System(kind) => format!(in alloc; "{kind}"),
        Reason::Held => String::from_str(alloc, "another process holds its lock"),
        Reason::NoAddress => {
            String::from_str(
                alloc,
                "no host and port as they are spelled, as 127.0.0.1:8080",
            )
        }
    }
}

/// Returns the line of a fault with its reason.
pub fn with_reason(alloc: Global, line: &str, reason: Reason) -> Result<String, AllocError> {
    let said = line.strip_suffix("\n").unwrap_or(line);
    let text = reason_text(alloc, reason)?;
    format!(in alloc; "{said}: {text}\n")
}

/// Reports why the path that a failed call names can't be read, if standard error is a terminal. Returns the call's
/// status.
pub(crate) fn behind<R: AllocGlobal + Files<File = File>, H: Notifier>(
    rt: &R,
    watcher: &H,
    place: &str,
    takes_folders: bool,
    status: u8,
) -> u8 {
    if status != FAULT || place == "-" || takes_folders && is_folder(rt, place) {
        return status;
    }
    if let Some(reason) = why_unread(rt, place)
        && let Ok(line) = format!(in rt.alloc(); "lra: {place}\n")
        && let Ok(told) = with_reason(rt.alloc(), line.as_str(), reason)
    {
        watcher.notify(told.as_str());
    }
    status
}

/// Reports that a command line is refused, and the reason if standard error is a terminal. Returns the program's
/// status.
pub fn report_misuse<R: AllocGlobal + Eprint, H: Notifier>(
    rt: &R,
    watcher: &H,
    words: &[String],
) -> u8 {
    let status = tell_usage(rt);
    if let Ok(line) = misuse_line(rt.alloc(), misuse_of(words)) {
        watcher.notify(line.as_str());
    }
    status
}
