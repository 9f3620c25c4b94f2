//! Reasons why a command line is refused, and the call that was meant.

use lra_journal::read_number;
use lra_model::ActionStatus;
use std::alloc::{AllocError, Global};

/// Call of each verb, after the program's name.
const CALLS: [(&str, &str); 10] = [
    ("audit", "audit FILE"),
    ("show", "show FILE"),
    (
        "list",
        "list FILE [--state STATUS] [--older-than SECONDS] [--now] [--waits]",
    ),
    ("explain", "explain FILE ID [--svg]"),
    ("follow", "follow FILE [--stop-at-eof]"),
    ("upgrade", "upgrade FILE"),
    ("salvage", "salvage FILE"),
    ("play", "play SCRIPT"),
    ("serve", "serve ADDRESS FILE WORKERS"),
    ("lra", "--help"),
];

/// Reason why a command line is refused.
#[derive(Clone, Copy, PartialEq, Eq)]
pub(crate) enum Misuse<'a> {
    /// The first word is no verb.
    Verb(&'a str),
    /// A word is none of the verb's options.
    Option(&'a str),
    /// No value follows an option.
    NoValue(&'a str),
    /// A text is no status of an action.
    State(&'a str),
    /// A text is no number of seconds.
    Seconds(&'a str),
    /// A text is no number of threads.
    Workers(&'a str),
    /// A text names no action.
    Name(&'a str),
    /// A verb has too few words or too many. This is its call.
    Call(&'static str),
}

/// Returns the call of a verb, if there is one of that name.
fn call_of(verb: &str) -> Option<&'static str> {
    for (name, call) in &CALLS {
        if *name == verb {
            return Some(*call);
        }
    }
    None
}

/// Returns whether a word has the form of an option.
fn is_option(word: &str) -> bool {
    word.starts_with("--")
}

/// Returns the misuse in a value of a listing's option, if there is one.
fn value_misuse<'a>(option: &str, value: &'a str) -> Option<Misuse<'a>> {
    if option == "--state" {
        match ActionStatus::from_name(value.as_bytes()) {
            Some(_) => None,
            None => Some(Misuse::State(value)),
        }
    } else {
        match read_number(value.as_bytes()) {
            Some(_) => None,
            None => Some(Misuse::Seconds(value)),
        }
    }
}

/// Returns the misuse in the options of a listing, if there is one.
fn listing_misuse(options: &[String]) -> Option<Misuse<'_>> {
    let mut open: Option<&str> = None;
    for word in options {
        let word = word.as_str();
        match open {
            Some(option) => {
                let misuse = value_misuse(option, word);
                if misuse.is_some() {
                    return misuse;
                }
                open = None;
            }
            None if word == "--state" || word == "--older-than" => open = Some(word),
            None if word == "--now" || word == "--waits" => {}
            None => return Some(Misuse::Option(word)),
        }
    }
    match open {
        Some(option) => Some(Misuse::NoValue(option)),
        None => None,
    }
}

/// Returns the misuse of the first word that has the form of an option and isn't the known one.
fn other_option<'a>(words: &'a [String], known: &str) -> Option<Misuse<'a>> {
    for word in words {
        if is_option(word.as_str()) && word.as_str() != known {
            return Some(Misuse::Option(word.as_str()));
        }
    }
    None
}

/// Returns the option without a value that a verb has, or an empty text.
fn flag_of(verb: &str) -> &'static str {
    match verb {
        "explain" => "--svg",
        "follow" => "--stop-at-eof",
        _ => "",
    }
}

/// Returns the misuse in a verb with further words.
fn misuse_on<'a>(verb: &str, call: &'static str, rest: &'a [String]) -> Misuse<'a> {
    let found = match (verb, rest) {
        ("serve", [_, _, workers]) => Some(Misuse::Workers(workers.as_str())),
        ("list", [place, options @ ..]) if !is_option(place.as_str()) => listing_misuse(options),
        _ => other_option(rest, flag_of(verb)),
    };
    match (verb, rest, found) {
        (_, _, Some(misuse)) => misuse,
        ("explain", [place, name], None)
            if !is_option(place.as_str()) && !is_option(name.as_str()) => {
            Misuse::Name(name.as_str())
        }
        ("explain", [_, name, option], None) if option.as_str() == "--svg" => {
            Misuse::Name(name.as_str())
        }
        _ => Misuse::Call(call),
    }
}

/// Returns the misuse in a command line that was refused.
pub(crate) fn misuse_of(words: &[String]) -> Misuse<'_> {
    match words {
        [verb, rest @ ..] => match call_of(verb.as_str()) {
            Some(call) => misuse_on(verb.as_str(), call, rest),
            None if verb.as_str() == "--help" || verb.as_str() == "--version" => {
                Misuse::Call("--help or --version, alone")
            }
            None if is_option(verb.as_str()) => Misuse::Option(verb.as_str()),
            None => Misuse::Verb(verb.as_str()),
        },
        [] => Misuse::Call("--help"),
    }
}

/// Returns the line that reports a misuse, and the call that was meant.
pub(crate) fn misuse_line(alloc: Global, misuse: Misuse<'_>) -> Result<String, AllocError> {
    match misuse {
        Misuse::Verb(word) => format!(in alloc; "lra: no call {word}: lra --help prints them\n"),
        Misuse::Option(word) => format!(in alloc; "lra: unknown option {word}\n"),
        Misuse::NoValue(word) => format!(in alloc; "lra: {word} has no value\n"),
        Misuse::State(word) => {
            format!(in alloc;
                "lra: --state is Active, Closing, Closed, FailedToClose, Cancelling, Cancelled or \
                 FailedToCancel, not {word}\n"
            )
        }
        Misuse::Seconds(word) => {
            format!(in alloc; "lra: --older-than is a number of seconds, not {word}\n")
        }
        Misuse::Workers(word) => format!(in alloc; "lra: serve: WORKERS is 1 to 16, not {word}\n"),
        Misuse::Name(word) => {
            format!(in alloc;
                "lra: explain: ID is the number of an action, its UUID or its URI, not {word}\n"
            )
        }
        Misuse::Call(call) => format!(in alloc; "lra: it is called so: lra {call}\n"),
    }
}
