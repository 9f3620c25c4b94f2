//! Words of the command line after `serve`.

use crate::fault::{OptionsFault, one_line, wrong};
use crate::number::{number_in, out_of_range, value_in};
use crate::said::{RawOptions, Word};
use clap::error::ErrorKind;
use clap::{Arg, ArgAction, ArgMatches, Command, Error};
use lra_settings::{Given, Parameter};
use std::alloc::{AllocError, Global};

/// Largest number of threads of a kind.
const MOST_WORKERS: u64 = 16;

/// Values of the words.
#[derive(Drop)]
pub(crate) struct Line<'a> {
    pub(crate) address: &'a str,
    pub(crate) file: &'a str,
    pub(crate) workers: u32,
    /// File with further settings, if one is named.
    pub(crate) config: Option<&'a str>,
    pub(crate) said: RawOptions<'a>,
    /// Mark that a folder accepts no more starts, and is served until all its work is done.
    pub(crate) drains: bool,
    /// Mark that a folder was restored from a copy.
    pub(crate) is_restored: bool,
    /// Mark that the program only reports what it would serve.
    pub(crate) is_check: bool,
    pub(crate) given: Given,
}

/// Returns the help of a parameter.
fn help_of(parameter: Parameter) -> &'static str {
    match parameter {
        Parameter::Connections => "Connections at once [10000]",
        Parameter::Callbacks => "Callbacks that go out at once [1024]",
        Parameter::HostShare => "Callbacks at once to one host and port [64]",
        Parameter::IdleTimeout => "How long a client has until its next request begins [30]",
        Parameter::RequestTimeout => "How long a client has for a whole request [10]",
        Parameter::ReplyTimeout => "How long a client has to take the replies that wait [10]",
        Parameter::ConnectTimeout => "How long a member has to take a connection [5]",
        Parameter::CallbackTimeout => "How long a member has for a whole callback [30]",
        Parameter::SyncSeconds => "How long a sync may take before readiness is DOWN [5]",
        Parameter::RetryFirst => "The pause before a member is first asked again [100]",
        Parameter::RetryLast => "The longest pause before it is asked again [60000]",
        Parameter::RollAfter => {
            "Actions that a folder's journal takes before the next one [50000]"
        }
        Parameter::Remember => "How long a folder's journal stays once it has ended [3600]",
        Parameter::Site => "The number that a folder's identifiers begin with [0]",
        Parameter::DefaultLimit => "The limit of starts that give none [none]",
        Parameter::RetryAfter => {
            "When to send again what is refused with 503 for what passes by itself [not said]"
        }
    }
}

/// Returns the unit of a parameter's value.
fn unit_of(parameter: Parameter) -> &'static str {
    match parameter {
        Parameter::Connections
        | Parameter::Callbacks
        | Parameter::HostShare
        | Parameter::RollAfter
        | Parameter::Site => "N",
        Parameter::RetryFirst | Parameter::RetryLast | Parameter::DefaultLimit => "MS",
        _ => "S",
    }
}

/// Returns an option with a value.
fn value_arg<'a>(alloc: Global, name: &'a str, unit: &'a str, help: &'a str) -> Arg<'a> {
    Arg::new(alloc, name)
        .long(name)
        .value_name(unit)
        .action(ArgAction::Set)
        .help(help)
}

/// Adds an option with a value.
fn with_value<'a>(
    alloc: Global,
    command: Command<'a>,
    name: &'a str,
    unit: &'a str,
    help: &'a str,
) -> Result<Command<'a>, AllocError> {
    command.arg(value_arg(alloc, name, unit, help))
}

/// Returns an option without a value.
fn flag_arg<'a>(alloc: Global, name: &'a str, help: &'a str) -> Arg<'a> {
    Arg::new(alloc, name)
        .long(name)
        .action(ArgAction::SetTrue)
        .help(help)
}

/// Returns a required word.
fn word_arg<'a>(alloc: Global, name: &'a str, help: &'a str) -> Arg<'a> {
    Arg::new(alloc, name)
        .required(true)
        .action(ArgAction::Set)
        .help(help)
}

/// Adds the three required words.
fn with_words(alloc: Global, command: Command<'_>) -> Result<Command<'_>, AllocError> {
    let address = word_arg(
        alloc,
        "ADDRESS",
        "Host and port, as services reach the coordinator",
    );
    let file = word_arg(
        alloc,
        "FILE",
        "The journal, made where it is missing or empty; or a folder of journals that roll",
    );
    let workers = word_arg(alloc, "WORKERS", "How many threads of a kind, from 1 to 16");
    command.arg(address)?.arg(file)?.arg(workers)
}

/// Adds an option that may be given any number of times.
fn with_list<'a>(
    alloc: Global,
    command: Command<'a>,
    name: &'a str,
    unit: &'a str,
    help: &'a str,
) -> Result<Command<'a>, AllocError> {
    command.arg(value_arg(alloc, name, unit, help).action(ArgAction::Append))
}

/// Adds the options whose values are texts.
fn with_texts<'a>(alloc: Global, command: Command<'a>) -> Result<Command<'a>, AllocError> {
    let mut command = command;
    for word in &Word::ALL {
        let (name, unit, help) = (word.name(), word.unit(), word.help());
        command = if word.is_list() {
            with_list(alloc, command, name, unit, help)?
        } else {
            with_value(alloc, command, name, unit, help)?
        };
    }
    Ok(command)
}

/// Adds the options that are no parameters and no texts.
fn with_flags(alloc: Global, command: Command<'_>) -> Result<Command<'_>, AllocError> {
    let config = value_arg(
        alloc,
        "config",
        "FILE",
        "A TOML file of settings, by the names of these options; the line goes before it",
    );
    let stop = flag_arg(
        alloc,
        "stop-at-eof",
        "Ends gently once standard input has ended",
    );
    let chunked = flag_arg(
        alloc,
        "chunked",
        "Takes requests with chunked bodies, and answers Expect: 100-continue",
    );
    let drain = flag_arg(
        alloc,
        "drain",
        "Takes no more starts of a folder's, and ends once all that it has is done",
    );
    let restored = flag_arg(
        alloc,
        "restored",
        "The folder was restored from a copy: nothing is begun any more in its journals",
    );
    let traces = flag_arg(
        alloc,
        "trace-context",
        "Callbacks bear the traceparent of the request that ended their action",
    );
    let check = flag_arg(alloc, "check", "Tells what would be served, and ends");
    command
        .arg(stop)?
        .arg(traces)?
        .arg(chunked)?
        .arg(drain)?
        .arg(restored)?
        .arg(config)?
        .arg(check)
}

/// Makes the command that parses the words.
fn command_of<'a>(alloc: Global) -> Result<Command<'a>, AllocError> {
    let mut command = Command::new(alloc, "lra serve").no_binary_name(true);
    for parameter in &Parameter::ALL {
        let (name, unit, help) = (parameter.name(), unit_of(*parameter), help_of(*parameter));
        command = with_value(alloc, command, name, unit, help)?;
    }
    with_words(alloc, with_flags(alloc, with_texts(alloc, command)?)?)
}

/// Returns the fault of a parser's error.
fn fault_of(alloc: Global, error: &Error) -> OptionsFault {
    let Ok(text) = format!(in alloc; "{error}") else {
        return OptionsFault::Memory;
    };
    match error.kind() {
        ErrorKind::OutOfMemory => OptionsFault::Memory,
        ErrorKind::DisplayHelp => OptionsFault::Help(text),
        _ => match text.as_str().strip_prefix("error: ") {
            Some(told) => wrong(one_line(alloc, told)),
            None => wrong(one_line(alloc, text.as_str())),
        },
    }
}

/// Returns the values that the words give to the settings.
fn given_in(alloc: Global, matches: &ArgMatches<'_>) -> Result<Given, OptionsFault> {
    let mut given = Given::nothing();
    for parameter in &Parameter::ALL {
        if let Some(text) = matches.get_str(parameter.name()) {
            let option = option_of(alloc, *parameter)?;
            let value = value_in(alloc, *parameter, option.as_str(), text)?;
            given.put(*parameter, value);
        }
    }
    if matches.get_flag("stop-at-eof") {
        given.stop_at_eof = Some(true);
    }
    if matches.get_flag("trace-context") {
        given.trace_context = Some(true);
    }
    if matches.get_flag("chunked") {
        given.chunked = Some(true);
    }
    Ok(given)
}

/// Returns the option of a parameter as it is typed.
fn option_of(alloc: Global, parameter: Parameter) -> Result<String, AllocError> {
    let name = parameter.name();
    format!(in alloc; "--{name}")
}

/// Reads the number of threads of a kind.
fn workers_in(alloc: Global, text: &str) -> Result<u32, OptionsFault> {
    match number_in(text) {
        Some(number) if 0 < number && number <= MOST_WORKERS => Ok(number as u32),
        _ => Err(out_of_range(alloc, "WORKERS", text, 1, MOST_WORKERS)),
    }
}

/// Returns the value of a required word.
fn word_in<'a>(matches: &ArgMatches<'a>, name: &str) -> &'a str {
    match matches.get_str(name) {
        Some(text) => text,
        // The parser refuses the words without it.
        None => "",
    }
}

/// Adds the values of an option that may be given any number of times.
fn note_texts(
    alloc: Global,
    matches: &ArgMatches<'_>,
    word: Word,
    said: &mut RawOptions<'_>,
) -> Result<(), AllocError> {
    if let Some(texts) = matches.get_strs(word.name()) {
        for text in texts {
            said.add(word, String::from_str(alloc, text)?)?;
        }
    }
    Ok(())
}

/// Returns the values of the options that are texts.
fn said_in<'a>(alloc: Global, matches: &ArgMatches<'a>) -> Result<RawOptions<'a>, AllocError> {
    let mut said = RawOptions::nothing(alloc);
    for word in &Word::ALL {
        if word.is_list() {
            note_texts(alloc, matches, *word, &mut said)?;
        } else if let Some(text) = matches.get_str(word.name()) {
            said.add(*word, String::from_str(alloc, text)?)?;
        }
    }
    Ok(said)
}

/// Returns the values in the parser's matches.
fn line_of<'a>(alloc: Global, matches: &ArgMatches<'a>) -> Result<Line<'a>, OptionsFault> {
    let given = given_in(alloc, matches)?;
    let workers = workers_in(alloc, word_in(matches, "WORKERS"))?;
    Ok(Line {
        address: word_in(matches, "ADDRESS"),
        file: word_in(matches, "FILE"),
        workers,
        config: matches.get_str("config"),
        said: said_in(alloc, matches)?,
        drains: matches.get_flag("drain"),
        is_restored: matches.get_flag("restored"),
        is_check: matches.get_flag("check"),
        given,
    })
}

/// Reads the words after `serve`.
pub(crate) fn read_line<'a>(alloc: Global, words: &'a [String]) -> Result<Line<'a>, OptionsFault> {
    let command = command_of(alloc)?;
    match command.try_get_matches_from(words) {
        Ok(matches) => line_of(alloc, &matches),
        Err(error) => Err(fault_of(alloc, &error)),
    }
}
