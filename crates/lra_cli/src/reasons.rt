//! Reasons of the system for a fault, reported after the fault's line on a terminal and in a log.

use lra_audits::tell;
use lra_inspect::{FAULT, Reason, why_unread, with_reason};
use lra_logs::Level;
use lra_opening::{Notifier, ServeFault};
use lra_options::OptionsFault;
use lra_server::{LoggingNotifier, site_at};
use std::alloc::{AllocError, Global};
use std::fs;
use std::fs::{File, OpenOptions, TryLockError};
use std::net::{Net, TcpListener, TcpStream};
use std::rt::Files;
use std::sync::Wait;
use std::time::Clock;

/// Thing that isn't available, by the line of a fault.
#[derive(Clone, Copy, PartialEq, Eq)]
enum Lacked<'a> {
    /// A file that can't be read.
    Read(&'a str),
    /// A file that can't be written.
    Written(&'a str),
    /// An address that can't be served.
    Served(&'a str),
    /// Nothing that the system could give a reason for.
    Nothing,
}

/// Returns the thing that isn't available, by the line of a fault.
fn lacked_in(line: &str) -> Lacked<'_> {
    let said = line.strip_suffix("\n").unwrap_or(line);
    if let Some(path) = said.strip_prefix("lra: cannot read ") {
        return Lacked::Read(path);
    }
    if let Some(path) = said.strip_prefix("lra: cannot write ") {
        return Lacked::Written(path);
    }
    match said.strip_prefix("lra: cannot serve ") {
        Some(address) => Lacked::Served(address),
        None => Lacked::Nothing,
    }
}

/// Returns the folder of a path.
fn folder_of(path: &str) -> &str {
    match path.rsplit_once('/') {
        Some(("", _)) => "/",
        Some((folder, _)) => folder,
        None => ".",
    }
}

/// Returns the reason why a file can't be written, if a second try fails too. Creates no file.
fn why_unwritten<R: Files<File = File>>(rt: &R, path: &str) -> Option<Reason> {
    match fs::metadata(rt, path) {
        Ok(about) if !about.is_file() => return None,
        Ok(_) => {}
        Err(_) => {
            return match fs::metadata(rt, folder_of(path)) {
                Ok(_) => None,
                Err(error) => Some(Reason::System(error.kind())),
            };
        }
    }
    match OpenOptions::new().append(true).open(rt, path) {
        Ok(file) => match file.try_lock() {
            Err(TryLockError::WouldBlock) => Some(Reason::Held),
            _ => None,
        },
        Err(error) => Some(Reason::System(error.kind())),
    }
}

/// Returns the reason why an address can't be served, if a second try fails too.
fn why_unserved<R: AllocGlobal + Net<Stream = TcpStream, Listener = TcpListener>>(
    rt: &R,
    address: &str,
) -> Option<Reason> {
    match site_at(rt.alloc(), address, None) {
        Ok(site) => match TcpListener::bind(rt, site.socket.as_str()) {
            Ok(_) => None,
            Err(error) => Some(Reason::System(error.kind())),
        },
        Err(ServeFault::Address) => Some(Reason::NoAddress),
        Err(_) => None,
    }
}

/// Returns the reason for the line of a fault, if the system gives one.
fn why<R: AllocGlobal + Files<File = File> + Net<Stream = TcpStream, Listener = TcpListener>>(
    rt: &R,
    line: &str,
) -> Option<Reason> {
    match lacked_in(line) {
        Lacked::Read(path) => why_unread(rt, path),
        Lacked::Written(path) => why_unwritten(rt, path),
        Lacked::Served(address) => why_unserved(rt, address),
        Lacked::Nothing => None,
    }
}

/// Log of faults, or none.
pub(crate) trait FaultLog {
    /// Writes a line at the level of errors.
    fn note_fault(&self, line: &str);
}

/// Absence of a log.
pub(crate) struct Unlogged;

impl FaultLog for Unlogged {
    fn note_fault(&self, _line: &str) {}
}

impl<R: Eprint + Clock + Wait> FaultLog for LoggingNotifier<R> {
    fn note_fault(&self, line: &str) {
        if !self.log.is_off() {
            self.log.tell(Level::Error, line);
        }
    }
}

/// Log that is absent where its options are wrong.
impl<R: Eprint + Clock + Wait> FaultLog for Result<LoggingNotifier<R>, OptionsFault> {
    fn note_fault(&self, line: &str) {
        if let Ok(logging_notifier) = self {
            logging_notifier.note_fault(line);
        }
    }
}

/// Logs that a journal isn't sound.
pub(crate) fn log_unsound<L: FaultLog>(alloc: Global, log: &L, file: &str) {
    if let Ok(line) = format!(in alloc; "lra: {file} is not sound\n") {
        log.note_fault(line.as_str());
    }
}

/// Reports the line of a fault. If standard error is a terminal, and in the log, if there is one, reports the reason
/// too. Returns the program's status.
pub(crate) fn fail<
    R: AllocGlobal + Files<File = File> + Net<Stream = TcpStream, Listener = TcpListener> + Eprint,
    H: Notifier,
    L: FaultLog,
>(rt: &R, watcher: &H, log: &L, line: Result<String, AllocError>) -> u8 {
    let Ok(line) = line else {
        return tell(rt, line);
    };
    let _ = eprint!(rt; "{line}");
    let told = match why(rt, line.as_str()) {
        Some(reason) => with_reason(rt.alloc(), line.as_str(), reason),
        None => {
            log.note_fault(line.as_str());
            return FAULT;
        }
    };
    if let Ok(told) = told {
        watcher.notify(told.as_str());
        log.note_fault(told.as_str());
    }
    FAULT
}
