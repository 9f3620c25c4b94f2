//! The service of a journal, or of a folder of them.

use crate::access_configuration::{AccessConfiguration, access_configuration_of, copy_base};
use crate::folder_serving::{check_folder_service, serve_folder_service};
use crate::nowhere::warn_of_nowhere;
use crate::reasons::{FaultLog, Unlogged, fail, log_unsound};
use lra_admission::KeyFiles;
use lra_audits::{RunFault, error_line, put, settle};
use lra_folders::is_folder;
use lra_ids::Base;
use lra_inspect::{report_misuse, standard_input};
use lra_logs::{Format, LevelFilter, Logbook, has_priorities, level_named};
use lra_opening::{NamedFile, Notifier, ServeFault, StandardErrorNotifier, fault_line};
use lra_operators_server::{OperatorsServer, PortFault, port_line, read_key};
use lra_options::{Options, OptionsFault, RawOptions, Word, read_options, wrong};
use lra_reports::hint_line;
use lra_server::{
    AccessPolicy, BoundAddress, LoggingNotifier, ServiceInput, bound_address_at, fit_descriptors,
    put_text, put_texts,
};
use lra_service::{ServiceOutcome, check_place, serve_with};
use lra_settings::{Settings, taken_by_file};
use lra_storage::{Fenced, Timed};
use std::alloc::{AllocError, Global};
use std::env::Env;
use std::fs::{File, OpenOptions};
use std::io;
use std::io::Write;
use std::marker::{Send, Sync};
use std::net::{Net, TcpListener, TcpStream};
use std::os::fd::AsFd;
use std::process::ChildStdout;
use std::rt::Files;
use std::sync::Wait;
use std::thread::Threads;
use std::time::Clock;

/// Opens a file that discards writes and is empty to read, if that can be had.
fn nothing<R: Files<File = File>>(rt: &R) -> Option<File> {
    OpenOptions::new()
        .read(true)
        .write(true)
        .open(rt, "/dev/null")
        .ok()
}

/// Opens files that take the descriptors of those standard streams that are closed. Otherwise the journal's file would
/// get one of these, and what is printed would be written to it.
fn stand_ins<R: Files<File = File>>(rt: &R) -> [Option<File>; 3] {
    [nothing(rt), nothing(rt), nothing(rt)]
}

/// Returns whether a command line asks for a service and has options.
pub(crate) fn have_options(words: &[String]) -> bool {
    match words {
        [verb, rest @ ..] => {
            verb.as_str() == "serve" && rest.iter().any(|word| word.as_str().starts_with("--"))
        }
        [] => false,
    }
}

/// Reports on standard error how to salvage a journal that isn't served.
pub(crate) fn report_way<R: AllocGlobal + Eprint>(rt: &R, file: &str) {
    if let Ok(line) = hint_line(rt.alloc(), file) {
        let _ = eprint!(rt; "{line}");
    }
}

/// Returns the status of a service that has ended, or couldn't start. Reports a fault. If the journal isn't sound,
/// reports how to salvage it.
fn settle_serving<
    R: AllocGlobal + Files<File = File> + Net<Stream = TcpStream, Listener = TcpListener> + Eprint,
    H: Notifier,
    L: FaultLog,
>(rt: &R, outcome: Result<u8, ServeFault>, options: &Options<'_>, watcher: &H, log: &L) -> u8 {
    match outcome {
        Ok(status) => {
            if status != 0 {
                report_way(rt, options.file);
                log_unsound(rt.alloc(), log, options.file);
            }
            status
        }
        Err(fault) => fail(
            rt,
            watcher,
            log,
            fault_line(rt.alloc(), fault, options.address, options.file),
        ),
    }
}

/// Writes the values of the options that are texts, without the bases, after the report of what would be served.
pub(crate) fn put_words<W: Write>(
    alloc: Global,
    options: &Options<'_>,
    writer: &mut W,
) -> Result<(), ServeFault> {
    for word in &Word::ALL {
        if *word == Word::Base || *word == Word::AlsoBase {
            continue;
        }
        if word.is_list() {
            put_texts(
                alloc,
                word.name(),
                &options.said.texts(alloc, *word)?,
                writer,
            )?;
        } else if let Some(text) = options.said.text(*word) {
            put_text(alloc, word.name(), text, writer)?;
        }
    }
    put_flag("drain = true\n", options.drains, writer)?;
    put_flag("restored = true\n", options.is_restored, writer)
}

/// Writes the line of an option that is set.
fn put_flag<W: Write>(line: &str, is_said: bool, writer: &mut W) -> Result<(), ServeFault> {
    if is_said {
        put(writer, line.as_bytes())?;
    }
    Ok(())
}

/// Returns the place of an option that needs a folder, if one is given.
fn folder_option(alloc: Global, options: &Options<'_>) -> Result<Option<String>, AllocError> {
    if options.drains {
        Ok(Some(String::from_str(alloc, "--drain")?))
    } else if options.is_restored {
        Ok(Some(String::from_str(alloc, "--restored")?))
    } else if options.said.text(Word::Fence).is_some() {
        Ok(Some(options.said.place(alloc, Word::Fence)?))
    } else {
        Ok(None)
    }
}

/// Returns a fault if an option that needs a folder is used with a file.
fn require_folder<R: AllocGlobal + Files>(
    rt: &R,
    options: &Options<'_>,
) -> Result<(), OptionsFault> {
    let Some(option) = folder_option(rt.alloc(), options)? else {
        return Ok(());
    };
    let file = options.file;
    if is_folder(rt, file) {
        Ok(())
    } else {
        Err(wrong(format!(in rt.alloc(); "{option}: {file} is no folder")))
    }
}

/// Returns the parts of the access policy of a service at an address. Checks first that the options fit the file.
fn sound_access_configuration<R: AllocGlobal + Files<File = File> + KeyFiles + Fenced>(
    rt: &R,
    options: &Options<'_>,
    address: &str,
) -> Result<AccessConfiguration, OptionsFault> {
    require_folder(rt, options)?;
    access_configuration_of(rt, options, address)
}

/// Checks the options, before anything is served.
fn look_over<R: AllocGlobal + Files<File = File> + KeyFiles + Fenced + Env + Clone + Drop>(
    rt: &R,
    options: &Options<'_>,
) -> Result<(), OptionsFault> {
    let access_configuration = sound_access_configuration(rt, options, options.address)?;
    drop(access_configuration);
    let logging_notifier = logging_notifier_of(rt, &options.said)?;
    drop(logging_notifier);
    Ok(())
}

/// Reports what would be served of a file. The watcher reports how far the journal has been read.
fn check_file<
    'a,
    R: AllocGlobal + Files<File = File> + Clone + Drop + Clock + Print + Eprint,
    H: Notifier + Sync,
>(
    rt: &'a R,
    options: &Options<'_>,
    file: &'a str,
    base: Option<Base>,
    watcher: &'a H,
) -> Result<u8, ServeFault> {
    check_place(
        rt.alloc(),
        options.address,
        base,
        &options.also_bases,
        file,
        &NamedFile::told(rt, file, watcher),
        options.workers,
        &options.settings,
        &mut io::writer(rt),
    )
}

/// Reports what would be served, and returns the program's status. The watcher reports how far the journal has been
/// read.
fn answer_check<
    R: AllocGlobal
        + Files<File = File>
        + KeyFiles
        + Fenced
        + Net<Stream = TcpStream, Listener = TcpListener>
        + Clock
        + Wait
        + Print
        + Eprint
        + Env
        + Clone
        + Drop,
    H: Notifier + Sync,
>(rt: &R, options: &Options<'_>, watcher: &H) -> u8 {
    if let Err(fault) = look_over(rt, options) {
        return report_fault(rt, watcher, &Unlogged, fault);
    }
    let Ok(base) = copy_base(options) else {
        return report_fault(rt, watcher, &Unlogged, OptionsFault::Memory);
    };
    warn_of_nowhere(
        rt.alloc(),
        options,
        options.address,
        &StandardErrorNotifier { rt },
    );
    if is_folder(rt, options.file) {
        return check_folder_service(rt, options, base, watcher);
    }
    let told = match check_file(rt, options, options.file, base, watcher) {
        Ok(0) => put_words(rt.alloc(), options, &mut io::writer(rt)).map(|_| 0),
        other => other,
    };
    settle_serving(rt, told, options, watcher, &Unlogged)
}

/// Reads the key that operators have to give, if its file is named.
fn key_of<R: AllocGlobal + Files<File = File>>(
    rt: &R,
    path: Option<&str>,
) -> Result<Option<String>, PortFault> {
    match path {
        Some(path) => Ok(Some(read_key(rt, rt.alloc(), path)?)),
        None => Ok(None),
    }
}

/// Opens the operators' server, if an address for it is named.
fn operators_of<
    R: AllocGlobal + Files<File = File> + Net<Stream = TcpStream, Listener = TcpListener> + Timed,
>(rt: &R, options: &Options<'_>) -> Result<Option<OperatorsServer>, PortFault> {
    let Some(address) = options.said.text(Word::Operators) else {
        return Ok(None);
    };
    let key = key_of(rt, options.said.text(Word::OperatorsKey))?;
    Ok(Some(OperatorsServer::open(rt, rt.alloc(), address, key)?))
}

/// Reports why there is no operators' server, and returns the program's status.
fn report_port<
    R: AllocGlobal + Files<File = File> + Net<Stream = TcpStream, Listener = TcpListener> + Eprint,
    H: Notifier,
    L: FaultLog,
>(rt: &R, fault: PortFault, options: &Options<'_>, watcher: &H, log: &L) -> u8 {
    let address = options.said.text(Word::Operators).unwrap_or("-");
    fail(rt, watcher, log, port_line(rt.alloc(), fault, address))
}

/// Returns the log of a service, as its options say. It is off if they ask for none.
fn logging_notifier_of<R: AllocGlobal + Env + Clone + Drop>(
    rt: &R,
    said: &RawOptions<'_>,
) -> Result<LoggingNotifier<R>, OptionsFault> {
    let alloc = rt.alloc();
    let filter = match said.text(Word::Log) {
        None => LevelFilter::Off,
        Some(text) => match level_named(text.as_bytes()) {
            Some(level) => level.to_level_filter(),
            None => {
                let what = format!(in alloc; "{text} is not error, warn, info or debug");
                return Err(said.refused(alloc, Word::Log, what));
            }
        },
    };
    let format = match said.text(Word::LogFormat) {
        None => Format::Text,
        Some(text) => match Format::from_name(text.as_bytes()) {
            Some(format) => format,
            None => {
                let what = format!(in alloc; "{text} is not text or json");
                return Err(said.refused(alloc, Word::LogFormat, what));
            }
        },
    };
    let has_priorities = has_priorities(rt, format);
    match rt.clone() {
        Ok(rt) => Ok(LoggingNotifier {
            log: Logbook::new(alloc, rt, filter, format, has_priorities),
        }),
        Err(_) => Err(OptionsFault::Memory),
    }
}

/// Serves a file's coordinator. The watcher reports how far the journal has been read.
fn serve_file<
    'a,
    R: AllocGlobal
        + Files<File = File>
        + KeyFiles
        + Net<Stream = TcpStream, Listener = TcpListener>
        + Clock
        + Threads
        + Wait
        + Print
        + Eprint
        + Timed
        + Sync
        + Send
        + Clone
        + Drop,
    H: Notifier + Sync,
>(
    rt: &'a R,
    address: &str,
    file: &'a str,
    base: Option<Base>,
    access_policy: AccessPolicy<'_>,
    workers: u32,
    settings: Settings,
    operators_server: Option<&OperatorsServer>,
    entry: ServiceInput<ChildStdout>,
    logging_notifier: &LoggingNotifier<R>,
    watcher: &'a H,
) -> Result<ServiceOutcome, ServeFault> {
    serve_with(
        rt,
        address,
        base,
        access_policy,
        &NamedFile::told(rt, file, watcher),
        workers,
        settings,
        operators_server,
        entry,
        logging_notifier,
        &mut io::writer(rt),
    )
}

/// Serves, and returns the program's status. The service ends once the input has ended, if there is one. The watcher
/// reports how far the journal has been read.
fn answer_until<
    R: AllocGlobal
        + Files<File = File>
        + KeyFiles
        + Fenced
        + Net<Stream = TcpStream, Listener = TcpListener>
        + Clock
        + Threads
        + Wait
        + Print
        + Eprint
        + Env
        + Timed
        + Sync
        + Send
        + Clone
        + Drop,
    H: Notifier + Sync,
>(rt: &R, options: &Options<'_>, input: Option<ChildStdout>, watcher: &H) -> u8 {
    // A fault of its options is reported after all others.
    let logging_notifier = logging_notifier_of(rt, &options.said);
    let operators_server = match operators_of(rt, options) {
        Ok(operators_server) => operators_server,
        Err(fault) => return report_port(rt, fault, options, watcher, &logging_notifier),
    };
    let bound_address = match bound_address_at(rt, rt.alloc(), options.address) {
        Ok(bound_address) => bound_address,
        Err(fault) => return settle_serving(rt, Err(fault), options, watcher, &logging_notifier),
    };
    let BoundAddress { address, listener } = bound_address;
    let access_configuration = match sound_access_configuration(rt, options, address.as_str()) {
        Ok(access_configuration) => access_configuration,
        Err(fault) => return report_fault(rt, watcher, &logging_notifier, fault),
    };
    let logging_notifier = match logging_notifier {
        Ok(logging_notifier) => logging_notifier,
        Err(fault) => return report_fault(rt, watcher, &Unlogged, fault),
    };
    warn_of_nowhere(rt.alloc(), options, address.as_str(), &logging_notifier);
    let entry = ServiceInput { listener, input };
    if is_folder(rt, options.file) {
        return serve_folder_service(
            rt,
            options,
            address.as_str(),
            access_configuration,
            operators_server.as_ref(),
            entry,
            &logging_notifier,
            watcher,
        );
    }
    let taken = taken_by_file(options.workers);
    let settings = match fit_descriptors(
        rt,
        rt.alloc(),
        &logging_notifier,
        taken,
        options.settings,
    ) {
        Ok(settings) => settings,
        Err(fault) => {
            let status = settle_serving(rt, Err(fault), options, watcher, &logging_notifier);
            logging_notifier.log.close();
            return status;
        }
    };
    let (base, access_configuration) = access_configuration.parted();
    let served = serve_file(
        rt,
        address.as_str(),
        options.file,
        base,
        access_configuration.access_policy(&options.also_bases),
        options.workers,
        settings,
        operators_server.as_ref(),
        entry,
        &logging_notifier,
        watcher,
    );
    let outcome = match served {
        Ok(ServiceOutcome::Unsound(status)) => Ok(status),
        Ok(ServiceOutcome::Ended) => Ok(0),
        Err(fault) => Err(fault),
    };
    let status = settle_serving(rt, outcome, options, watcher, &logging_notifier);
    logging_notifier.log.close();
    status
}

/// Serves with the default settings, and returns the program's status.
pub(crate) fn answer_serve<
    R: AllocGlobal
        + Files<File = File>
        + KeyFiles
        + Fenced
        + Net<Stream = TcpStream, Listener = TcpListener>
        + Clock
        + Threads
        + Wait
        + Print
        + Eprint
        + Env
        + Timed
        + Sync
        + Send
        + Clone
        + Drop,
    H: Notifier + Sync,
>(rt: &R, address: &str, file: &str, workers: u32, watcher: &H) -> u8 {
    let _streams = stand_ins(rt);
    let options = Options {
        address,
        file,
        workers,
        settings: Settings::usual(),
        base: None,
        also_bases: Vec::new(rt.alloc()),
        said: RawOptions::nothing(rt.alloc()),
        drains: false,
        is_restored: false,
        is_check: false,
    };
    answer_until(rt, &options, None, watcher)
}

/// Serves with options, and returns the program's status.
fn answer_serving<
    R: AllocGlobal
        + Files<File = File>
        + KeyFiles
        + Fenced
        + Net<Stream = TcpStream, Listener = TcpListener>
        + Clock
        + Threads
        + Wait
        + Input
        + Print
        + Eprint
        + Env
        + Timed
        + Sync
        + Send
        + Clone
        + Drop,
    H: Notifier + Sync,
>(rt: &R, options: &Options<'_>, watcher: &H) -> u8
where
    R::Reader: AsFd,
{
    let _streams = stand_ins(rt);
    if !options.settings.stop_at_eof {
        return answer_until(rt, options, None, watcher);
    }
    match standard_input(rt) {
        Ok(input) => answer_until(rt, options, Some(input), watcher),
        Err(_) => fail(
            rt,
            watcher,
            &Unlogged,
            error_line(rt.alloc(), RunFault::Read, "-"),
        ),
    }
}

/// Reports a fault of options on standard error, or prints help on standard output. Returns the program's status.
fn report_fault<
    R: AllocGlobal
        + Files<File = File>
        + Net<Stream = TcpStream, Listener = TcpListener>
        + Print
        + Eprint,
    H: Notifier,
    L: FaultLog,
>(rt: &R, watcher: &H, log: &L, fault: OptionsFault) -> u8 {
    match fault {
        OptionsFault::Help(text) => {
            let outcome = put(&mut io::writer(rt), text.as_str().as_bytes());
            settle(rt, outcome.map(|_| 0), "-")
        }
        OptionsFault::Wrong(text) => {
            fail(rt, watcher, log, format!(in rt.alloc(); "lra: {text}\n"))
        }
        OptionsFault::Memory => {
            fail(
                rt,
                watcher,
                log,
                error_line(rt.alloc(), RunFault::Memory, "-"),
            )
        }
    }
}

/// Carries out a command line of a service with options, and returns the program's status.
pub(crate) fn answer_options<
    R: AllocGlobal
        + Files<File = File>
        + KeyFiles
        + Fenced
        + Net<Stream = TcpStream, Listener = TcpListener>
        + Clock
        + Threads
        + Wait
        + Input
        + Print
        + Eprint
        + Env
        + Timed
        + Sync
        + Send
        + Clone
        + Drop,
    H: Notifier + Sync,
>(rt: &R, words: &[String], watcher: &H) -> u8
where
    R::Reader: AsFd,
{
    let [_verb, rest @ ..] = words else {
        return report_misuse(rt, watcher, words);
    };
    match read_options(rt, rest) {
        Ok(options) if options.is_check => answer_check(rt, &options, watcher),
        Ok(options) => answer_serving(rt, &options, watcher),
        Err(fault) => report_fault(rt, watcher, &Unlogged, fault),
    }
}
