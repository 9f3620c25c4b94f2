//! The program on a system, which answers a question on standard output and by its status.

ghost use Rattle.std.specs.Prelude.{◌≡◌, IfSome, IfNone};

use crate::dispatch::run;
use crate::errors::input_name;
use crate::salvage::salvage_file;
use crate::sources::Sources;
use crate::texts::{HELP, VERSION};
use crate::words::{Invocation, Question};
use lra_audits::{RunFault, open_file, put, settle};
use std::rt::Files;
use std::{fs, io};

/// Standard input, and the files of the system.
#[derive(Drop)]
pub struct System<'a, R> {
    pub rt: &'a R,
}

impl<R: Files + Input> Sources for System<'_, R> {
    type Input = R::Reader;

    type File = R::File;

    fn input(&self) -> R::Reader {
        self.rt.reader()
    }

    fn open(&self, name: &str) -> Result<R::File, RunFault> {
        open_file(self.rt, name)
    }

    fn open_again(&self, name: &str) -> Option<R::File> {
        match fs::metadata(self.rt, name) {
            Ok(about) if about.is_file() => fs::open(self.rt, name).ok(),
            _ => None,
        }
    }
}

/// Carries out an invocation, and returns the program's status.
fn answer_run<R: AllocGlobal + Files + Input + Print + Eprint>(
    rt: &R,
    invocation: Invocation<'_>,
) -> u8 {
    let outcome = run(rt.alloc(), &System { rt }, invocation, &mut io::writer(rt));
    settle(rt, outcome, input_name(invocation))
}

/// Prints the line that a salvage returned, if any, on standard error. Returns the program's status: 1 where something
/// was left out, else 0.
fn tell_end<R: Eprint>(rt: &R, told: Option<String>) -> u8
    ensures all { IfNone told (result ≡ 0) }
    ensures front { IfSome told (λ _. result ≡ 1) }
{
    match told {
        Some(line) => {
            let _ = eprint!(rt; "{line}");
            1
        }
        None => 0,
    }
}

/// Prints what is sound of a file's journal, and returns the program's status.
fn answer_salvage<R: AllocGlobal + Files + Input + Print + Eprint>(rt: &R, file: &str) -> u8 {
    let outcome = salvage_file(rt.alloc(), &System { rt }, file, &mut io::writer(rt));
    settle(rt, outcome.map(|told| tell_end(rt, told)), file)
}

/// Prints a text, and returns the program's status.
fn answer_text<R: AllocGlobal + Print + Eprint>(rt: &R, text: &str) -> u8 {
    let outcome = put(&mut io::writer(rt), text.as_bytes());
    settle(rt, outcome.map(|_| 0), "-")
}

/// Answers a question on standard output, and returns the program's status.
pub fn answer_question<R: AllocGlobal + Files + Input + Print + Eprint>(
    rt: &R,
    question: Question<'_>,
) -> u8 {
    match question {
        Question::Run(invocation) => answer_run(rt, invocation),
        Question::Salvage { file } => answer_salvage(rt, file),
        Question::Help => answer_text(rt, HELP),
        Question::Version => answer_text(rt, VERSION),
    }
}
