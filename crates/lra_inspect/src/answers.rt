//! Answers to the command lines that ask for something about journals, or play a script.

use crate::asking::{Asking, read_asking};
use crate::explaining::answer_explain;
use crate::following::answer_follow;
use crate::help::HELP;
use crate::listing::answer_list;
use crate::questioning::answer_watched;
use crate::reasons::{behind, report_misuse};
use lra_audits::{put, settle};
use lra_opening::Notifier;
use lra_reports::{Invocation, Question, System, input_name};
use lra_runs::play_file;
use std::fs::File;
use std::io;
use std::marker::Sync;
use std::os::fd::AsFd;
use std::rt::Files;
use std::sync::Wait;
use std::thread::Threads;
use std::time::Clock;

/// Prints the calls of the program, and returns its status.
fn answer_help<R: AllocGlobal + Print + Eprint>(rt: &R) -> u8 {
    let outcome = put(&mut io::writer(rt), HELP.as_bytes());
    settle(rt, outcome.map(|_| 0), "-")
}

/// Returns the path that a question is about, `-` for none or for standard input, and whether it may be a folder.
fn place_of(question: Question<'_>) -> (&str, bool) {
    match question {
        Question::Run(invocation) => {
            let takes_folders = matches!(
                invocation,
                Invocation::Audit { .. } | Invocation::Show { .. }
            );
            (input_name(invocation), takes_folders)
        }
        Question::Salvage { file } => (file, false),
        Question::Help | Question::Version => ("-", false),
    }
}

/// Answers a question on standard output, and returns the program's status. The watcher reports the progress of long
/// work, and why a file can't be read.
pub fn answer_question<
    R: AllocGlobal
        + Files<File = File>
        + Clock
        + Threads
        + Input
        + Print
        + Eprint
        + Sync
        + Clone
        + Drop,
    H: Notifier + Sync,
>(rt: &R, question: Question<'_>, watcher: &H) -> u8 {
    if let Question::Help = question {
        return answer_help(rt);
    }
    let (place, takes_folders) = place_of(question);
    let status = answer_watched(rt, watcher, question);
    behind(rt, watcher, place, takes_folders, status)
}

/// Plays a script, and returns the program's status. The watcher reports why a file can't be read.
pub fn answer_play<R: AllocGlobal + Files<File = File> + Input + Print + Eprint, H: Notifier>(
    rt: &R,
    script: &str,
    watcher: &H,
) -> u8 {
    let outcome = play_file(rt.alloc(), &System { rt }, script, &mut io::writer(rt));
    behind(rt, watcher, script, false, settle(rt, outcome, script))
}

/// Answers a question for a timeline or a listing, or follows journals, and returns the program's status.
fn answer_asking<
    R: AllocGlobal
        + Files<File = File>
        + Clock
        + Threads
        + Wait
        + Input
        + Print
        + Eprint
        + Sync
        + Clone
        + Drop,
>(rt: &R, asking: Asking<'_>) -> u8
where
    R::Reader: AsFd,
{
    match asking {
        Asking::Explain { place, form, name } => answer_explain(rt, place, form, name),
        Asking::List { place, choice } => answer_list(rt, place, choice),
        Asking::Follow { place, stop_at_eof } => answer_follow(rt, place, stop_at_eof),
    }
}

/// Carries out a command line that names a timeline, a listing or a journal to follow, and returns the program's
/// status. Reports any other as a misuse. The watcher reports why a file can't be read, and which call was meant.
pub fn answer_words<
    R: AllocGlobal
        + Files<File = File>
        + Clock
        + Threads
        + Wait
        + Input
        + Print
        + Eprint
        + Sync
        + Clone
        + Drop,
    H: Notifier,
>(rt: &R, words: &[String], watcher: &H) -> u8
where
    R::Reader: AsFd,
{
    match read_asking(words) {
        Some(asking) => behind(rt, watcher, asking.place(), true, answer_asking(rt, asking)),
        None => report_misuse(rt, watcher, words),
    }
}
