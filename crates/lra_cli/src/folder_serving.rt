//! The service of a folder.

use crate::access_configuration::AccessConfiguration;
use crate::reasons::{FaultLog, Unlogged, fail, log_unsound};
use crate::serving::{put_words, report_way};
use lra_admission::KeyFiles;
use lra_folder_service::{
    FolderOptions, FolderOutcome, RollingFault, check_folder, rolling_line, serve_folder,
};
use lra_ids::Base;
use lra_opening::Notifier;
use lra_operators_server::OperatorsServer;
use lra_options::Options;
use lra_server::{LoggingNotifier, ServiceInput};
use lra_storage::Timed;
use std::env::Env;
use std::fs::File;
use std::io;
use std::marker::{Send, Sync};
use std::net::{Net, TcpListener, TcpStream};
use std::process::ChildStdout;
use std::rt::Files;
use std::sync::Wait;
use std::thread::Threads;
use std::time::Clock;

/// Returns the status of a service over a folder that has ended, or couldn't start. Reports a fault. If a journal isn't
/// sound, reports how to salvage it.
fn settle_folder<
    R: AllocGlobal + Files<File = File> + Net<Stream = TcpStream, Listener = TcpListener> + Eprint,
    H: Notifier,
    L: FaultLog,
>(
    rt: &R,
    outcome: Result<FolderOutcome, RollingFault>,
    options: &Options<'_>,
    watcher: &H,
    log: &L,
) -> u8 {
    match outcome {
        Ok(FolderOutcome::Ended) => 0,
        Ok(FolderOutcome::Unsound { status, path }) => {
            report_way(rt, path.as_str());
            log_unsound(rt.alloc(), log, path.as_str());
            status
        }
        Err(fault) => fail(
            rt,
            watcher,
            log,
            rolling_line(rt.alloc(), fault, options.address, options.file),
        ),
    }
}

/// Reports what would be served of a folder. The watcher reports how far journals have been read.
pub(crate) fn check_folder_service<
    R: AllocGlobal
        + Files<File = File>
        + Net<Stream = TcpStream, Listener = TcpListener>
        + Clone
        + Drop
        + Clock
        + Wait
        + Print
        + Eprint,
    H: Notifier + Sync,
>(rt: &R, options: &Options<'_>, base: Option<Base>, watcher: &H) -> u8 {
    let outcome = check_folder(
        rt,
        options.address,
        base,
        &options.also_bases,
        options.file,
        options.workers,
        &options.settings,
        watcher,
        &mut io::writer(rt),
    );
    let told = match outcome {
        Ok(FolderOutcome::Ended) => report_words(rt, options),
        other => other,
    };
    settle_folder(rt, told, options, watcher, &Unlogged)
}

/// Writes the values of the options that are texts, after the report of what would be served.
fn report_words<R: AllocGlobal + Print>(
    rt: &R,
    options: &Options<'_>,
) -> Result<FolderOutcome, RollingFault> {
    put_words(rt.alloc(), options, &mut io::writer(rt))?;
    Ok(FolderOutcome::Ended)
}

/// Serves a folder, and returns the program's status. The service ends once the input has ended, if there is one. The
/// watcher reports how far journals have been read.
pub(crate) fn serve_folder_service<
    R: AllocGlobal
        + Files<File = File>
        + KeyFiles
        + Net<Stream = TcpStream, Listener = TcpListener>
        + Clock
        + Threads
        + Wait
        + Print
        + Eprint
        + Env
        + Timed
        + Sync
        + Send
        + Clone
        + Drop,
    H: Notifier + Sync,
>(
    rt: &R,
    options: &Options<'_>,
    address: &str,
    access_configuration: AccessConfiguration,
    operators_server: Option<&OperatorsServer>,
    entry: ServiceInput<ChildStdout>,
    logging_notifier: &LoggingNotifier<R>,
    watcher: &H,
) -> u8 {
    let (base, access_configuration) = access_configuration.parted();
    let outcome = serve_folder(
        rt,
        address,
        base,
        access_configuration.access_policy(&options.also_bases),
        options.file,
        options.workers,
        options.settings,
        FolderOptions {
            drains: options.drains,
            is_restored: options.is_restored,
            fence: access_configuration.fence(),
        },
        operators_server,
        entry,
        watcher,
        logging_notifier,
        &mut io::writer(rt),
    );
    let status = settle_folder(rt, outcome, options, watcher, logging_notifier);
    logging_notifier.log.close();
    status
}
