//! Options whose values are texts, and their values.

use crate::fault::{OptionsFault, wrong};
use std::alloc::{AllocError, Global};

/// An option whose value is a text.
#[derive(Clone, Copy, PartialEq, Eq)]
pub enum Word {
    /// Base that identifiers begin with.
    Base,
    /// Older base that identifiers may begin with as well.
    AlsoBase,
    /// The file with the secret that identifiers begin with, after the base.
    Token,
    /// The address of the operators' server.
    Operators,
    /// The file with the key that the operators' server requires.
    OperatorsKey,
    /// The file with the keys that API requests have to give.
    Key,
    /// A name by which clients call the service.
    Origin,
    /// A rule for the hosts and ports where members may be.
    Members,
    /// The address of the proxy by which members are called.
    MembersVia,
    /// The file with the token that callbacks give to members.
    MemberToken,
    /// The interface that services speak.
    Dialect,
    /// The level from which on events are logged.
    Log,
    /// Format in which events are logged.
    LogFormat,
    /// The file that names the owner of a folder.
    Fence,
}

impl Word {
    /// All these options, in the order of the help.
    pub const ALL: [Word; 14] = [
        Word::Base,
        Word::AlsoBase,
        Word::Token,
        Word::Operators,
        Word::OperatorsKey,
        Word::Key,
        Word::Origin,
        Word::Members,
        Word::MembersVia,
        Word::MemberToken,
        Word::Dialect,
        Word::Log,
        Word::LogFormat,
        Word::Fence,
    ];

    /// Returns the option's name on the command line and in a file.
    pub fn name(self) -> &'static str {
        match self {
            Word::Base => "base",
            Word::AlsoBase => "also-base",
            Word::Token => "token",
            Word::Operators => "operators",
            Word::OperatorsKey => "operators-key",
            Word::Key => "key",
            Word::Origin => "origin",
            Word::Members => "members",
            Word::MembersVia => "members-via",
            Word::MemberToken => "member-token",
            Word::Dialect => "dialect",
            Word::Log => "log",
            Word::LogFormat => "log-format",
            Word::Fence => "fence",
        }
    }

    /// Returns whether the option may be given any number of times. Its value in a file is a list then.
    pub fn is_list(self) -> bool {
        matches!(self, Word::AlsoBase | Word::Origin | Word::Members)
    }

    /// Returns the unit that the help shows for the value.
    pub(crate) fn unit(self) -> &'static str {
        match self {
            Word::Base | Word::AlsoBase => "URL",
            Word::Token | Word::OperatorsKey | Word::Key => "FILE",
            Word::MemberToken | Word::Fence => "FILE",
            Word::Operators => "ADDRESS",
            Word::Origin | Word::Dialect => "NAME",
            Word::Members => "RULE",
            Word::MembersVia => "IP:PORT",
            Word::Log => "LEVEL",
            Word::LogFormat => "FORMAT",
        }
    }

    /// Returns the help of the option.
    pub(crate) fn help(self) -> &'static str {
        match self {
            Word::Base => "What identifiers begin with [http://ADDRESS/]",
            Word::AlsoBase => {
                "An older base, which identifiers may begin with as well; any number of them"
            }
            Word::Token => {
                "The file with a secret that identifiers begin with, behind the base [none]"
            }
            Word::Operators => "Host and port where operators look and act [none]",
            Word::OperatorsKey => "The file with the key that operators give [none]",
            Word::Key =>
                "The file with the names and SHA-256 of the keys that requests give [none]",
            Word::Origin => {
                "A name by which the service is called, with its port or without; any number of them [any name]"
            }
            Word::Members => {
                "Where members may be: a host, .suffix, address or network, with a port or without; \
                 any number of them [anywhere]"
            }
            Word::MembersVia => {
                "The proxy by which members are called; joins may then name https addresses [none]"
            }
            Word::MemberToken => "The file with the token that callbacks give to members [none]",
            Word::Dialect => {
                "The interface that services speak: narayana, as clients of MicroProfile LRA do [its own]"
            }
            Word::Log =>
                "Events from this level on go to standard error: error, warn, info or debug [none]",
            Word::LogFormat => "How they are written: text or json [text]",
            Word::Fence => {
                "The file that says whose a folder is: once it is another, nothing is written any more [none]"
            }
        }
    }

    /// Returns the option of a name, if there is one.
    pub(crate) fn from_name(name: &str) -> Option<Word> {
        Word::ALL.iter().copied().find(|word| word.name() == name)
    }
}

/// A value of an option.
#[derive(Drop)]
struct RawOption<'a> {
    word: Word,
    text: String,
    /// File of settings that gives the value, unless the command line does.
    config: Option<&'a str>,
}

/// Values of the options that are texts, from the command line, from a file of settings, or from both.
#[derive(Drop)]
pub struct RawOptions<'a> {
    sayings: Vec<RawOption<'a>>,
    /// File of settings that gives the values that are added, unless the command line does.
    config: Option<&'a str>,
}

impl<'a> RawOptions<'a> {
    /// Returns no values of the command line.
    pub fn nothing(alloc: Global) -> RawOptions<'a> {
        RawOptions {
            sayings: Vec::new(alloc),
            config: None,
        }
    }

    /// Returns no values of a file of settings.
    pub(crate) fn of_config(alloc: Global, config: &'a str) -> RawOptions<'a> {
        RawOptions {
            sayings: Vec::new(alloc),
            config: Some(config),
        }
    }

    /// Adds a value of an option.
    pub(crate) fn add(&mut self, word: Word, text: String) -> Result<(), AllocError> {
        self.sayings.push(RawOption {
            word,
            text,
            config: self.config,
        })?;
        Ok(())
    }

    /// Returns whether an option has a value.
    fn has(&self, word: Word) -> bool {
        self.sayings.iter().any(|saying| saying.word == word)
    }

    /// Returns the first value of an option.
    pub fn text(&self, word: Word) -> Option<&str> {
        for saying in &self.sayings {
            if saying.word == word {
                return Some(saying.text.as_str());
            }
        }
        None
    }

    /// Returns all values of an option, in order.
    pub fn texts(&self, alloc: Global, word: Word) -> Result<Vec<&str>, AllocError> {
        let mut texts = Vec::new(alloc);
        for saying in &self.sayings {
            if saying.word == word {
                texts.push(saying.text.as_str())?;
            }
        }
        Ok(texts)
    }

    /// Returns the file of settings that gives the first value of an option, unless the command line does.
    fn config_of(&self, word: Word) -> Option<&'a str> {
        for saying in &self.sayings {
            if saying.word == word {
                return saying.config;
            }
        }
        None
    }

    /// Returns the place of an option's first value for a fault: the option on the command line, or the file of
    /// settings and the option's key.
    pub fn place(&self, alloc: Global, word: Word) -> Result<String, AllocError> {
        let name = word.name();
        match self.config_of(word) {
            Some(file) => format!(in alloc; "{file}: {name}"),
            None => format!(in alloc; "--{name}"),
        }
    }

    /// Returns the line about an option's first value: its place, and what is wrong with it.
    fn line(&self, alloc: Global, word: Word, what: &str) -> Result<String, AllocError> {
        let place = self.place(alloc, word)?;
        format!(in alloc; "{place}: {what}")
    }

    /// Returns the fault of an option's first value, by what is wrong with it.
    pub fn refused(
        &self,
        alloc: Global,
        word: Word,
        what: Result<String, AllocError>,
    ) -> OptionsFault {
        match what {
            Ok(what) => wrong(self.line(alloc, word, what.as_str())),
            Err(_) => OptionsFault::Memory,
        }
    }

    /// Adds another source's values of each option that has none here.
    fn add_others(&mut self, other: RawOptions<'a>) -> Result<(), AllocError> {
        let mut missing = RawOptions::nothing(*self.sayings.allocator());
        for saying in other.sayings {
            if !self.has(saying.word) {
                missing.sayings.push(saying)?;
            }
        }
        for saying in missing.sayings {
            self.sayings.push(saying)?;
        }
        Ok(())
    }

    /// Returns the values of the command line, and the file's values of the options that the line doesn't give.
    pub(crate) fn or(self, file: RawOptions<'a>) -> Result<RawOptions<'a>, AllocError> {
        let mut said = self;
        match said.add_others(file) {
            Ok(()) => Ok(said),
            Err(fault) => {
                drop(said);
                Err(fault)
            }
        }
    }
}
