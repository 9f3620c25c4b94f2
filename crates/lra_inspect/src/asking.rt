//! Command lines that ask for a timeline, for a listing, or to follow a journal.

use lra_journal::read_number;
use lra_model::ActionStatus;
use lra_timelines::{Form, read_wanted};

/// Question for a timeline or a listing, or to follow a journal.
#[derive(Clone, Copy)]
pub(crate) enum Asking<'a> {
    /// The timeline of an action.
    Explain {
        place: &'a str,
        form: Form,
        name: &'a str,
    },
    /// A line for each action.
    List {
        place: &'a str,
        choice: ListOptions,
    },
    /// The audit of a journal, or of a folder's, as it grows.
    Follow {
        place: &'a str,
        stop_at_eof: bool,
    },
}

impl<'a> Asking<'a> {
    /// Returns the path that the question is about.
    pub(crate) fn place(&self) -> &'a str {
        match *self {
            Asking::Explain { place, .. }
            | Asking::List { place, .. }
            | Asking::Follow { place, .. } => place,
        }
    }
}

/// Options of a listing: which actions it has, whether their ages count up to now, and whether it says what they wait
/// for.
#[derive(Clone, Copy)]
pub(crate) struct ListOptions {
    pub(crate) status: Option<ActionStatus>,
    pub(crate) older_than: Option<u64>,
    pub(crate) is_now: bool,
    pub(crate) waits: bool,
}

impl ListOptions {
    const ALL: ListOptions = ListOptions {
        status: None,
        older_than: None,
        is_now: false,
        waits: false,
    };
}

/// Option that is followed by its value.
#[derive(Clone, Copy)]
enum Valued {
    State,
    OlderThan,
}

/// Options of a listing so far, and the one whose value comes next.
#[derive(Clone, Copy)]
struct Choosing {
    choice: ListOptions,
    open: Option<Valued>,
}

impl Choosing {
    /// Adds the value of an option. Returns nothing where it is no value of it.
    fn valued(self, option: Valued, value: &str) -> Option<Choosing> {
        let mut choice = self.choice;
        match option {
            Valued::State => choice.status = Some(ActionStatus::from_name(value.as_bytes())?),
            Valued::OlderThan => choice.older_than = Some(read_number(value.as_bytes())?),
        }
        Some(Choosing { choice, open: None })
    }

    /// Adds an option. Returns nothing where the word is none.
    fn with(self, option: &str) -> Option<Choosing> {
        let mut next = self;
        match option {
            "--state" => next.open = Some(Valued::State),
            "--older-than" => next.open = Some(Valued::OlderThan),
            "--now" => next.choice.is_now = true,
            "--waits" => next.choice.waits = true,
            _ => return None,
        }
        Some(next)
    }

    /// Adds a word.
    fn and(self, word: &str) -> Option<Choosing> {
        match self.open {
            Some(option) => self.valued(option, word),
            None => self.with(word),
        }
    }
}

/// Reads the options of a listing.
fn read_choice(options: &[String]) -> Option<ListOptions> {
    let mut choosing = Choosing {
        choice: ListOptions::ALL,
        open: None,
    };
    for word in options {
        choosing = choosing.and(word.as_str())?;
    }
    match choosing.open {
        Some(_) => None,
        None => Some(choosing.choice),
    }
}

/// Returns whether a word is a name, and no option.
fn is_name(word: &str) -> bool {
    !word.starts_with("--")
}

/// Returns the question for the timeline of an action in a form. Returns nothing where the name is no action's.
fn explain_of<'a>(place: &'a str, form: Form, name: &'a str) -> Option<Asking<'a>> {
    if read_wanted(name).is_some() {
        Some(Asking::Explain { place, form, name })
    } else {
        None
    }
}

/// Reads the question of a verb, a path and further words.
fn read_on<'a>(verb: &str, place: &'a str, rest: &'a [String]) -> Option<Asking<'a>> {
    match verb {
        "explain" => match rest {
            [name] => explain_of(place, Form::Text, name.as_str()),
            [name, option] if option.as_str() == "--svg" => {
                explain_of(place, Form::Svg, name.as_str())
            }
            _ => None,
        },
        "list" => Some(Asking::List {
            place,
            choice: read_choice(rest)?,
        }),
        "follow" => match rest {
            [] => Some(Asking::Follow {
                place,
                stop_at_eof: false,
            }),
            [option] if option.as_str() == "--stop-at-eof" => Some(Asking::Follow {
                place,
                stop_at_eof: true,
            }),
            _ => None,
        },
        _ => None,
    }
}

/// Reads the question of a command line. Returns nothing for other command lines.
pub(crate) fn read_asking(words: &[String]) -> Option<Asking<'_>> {
    match words {
        [verb, place, rest @ ..] if is_name(place.as_str()) => {
            read_on(verb.as_str(), place.as_str(), rest)
        }
        _ => None,
    }
}
