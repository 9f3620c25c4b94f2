//! `lra`: audits a journal of long running actions or a folder of them, lists its actions and members, prints the
//! timeline of an action, follows a journal as it grows, upgrades it, and salvages what is sound of it; plays scripts
//! of commands; and serves a coordinator.
#![tactic(auto)]

mod access_configuration;
mod folder_serving;
mod nowhere;
mod reasons;
mod serving;

use crate::serving::{answer_options, answer_serve, have_options};
use lra_admission::KeyFiles;
use lra_audits::words_of;
use lra_inspect::{answer_play, answer_question, answer_words};
use lra_opening::{Notifier, TerminalNotifier};
use lra_runs::{Task, read_task};
use lra_storage::{Fenced, Timed};
use std::env::Env;
use std::fs::File;
use std::io::IsTerminal;
use std::marker::{Send, Sync};
use std::net::{Net, TcpListener, TcpStream};
use std::os::fd::AsFd;
use std::process::ExitCode;
use std::rt::Files;
use std::sync::Wait;
use std::thread::Threads;
use std::time::Clock;

/// Carries out a command line, and returns the program's status. The watcher reports the progress of long work.
fn answer<
    R: AllocGlobal
        + Files<File = File>
        + KeyFiles
        + Fenced
        + Net<Stream = TcpStream, Listener = TcpListener>
        + Clock
        + Threads
        + Wait
        + Input
        + Print
        + Eprint
        + Env
        + Timed
        + Sync
        + Send
        + Clone
        + Drop,
    H: Notifier + Sync,
>(rt: &R, words: &[String], watcher: &H) -> u8
where
    R::Reader: AsFd,
{
    if have_options(words) {
        return answer_options(rt, words, watcher);
    }
    match read_task(words) {
        Ok(Task::Question(question)) => answer_question(rt, question, watcher),
        Ok(Task::Play { script }) => answer_play(rt, script, watcher),
        Ok(
            Task::Serve {
                address,
                file,
                workers,
            },
        ) => answer_serve(rt, address, file, workers, watcher),
        Err(_) => answer_words(rt, words, watcher),
    }
}

fn main(rt: HostRuntime) -> ExitCode {
    let watcher = TerminalNotifier {
        rt: &rt,
        is_terminal: rt.stderr().is_terminal(),
    };
    let status = match words_of(&rt) {
        Ok(words) => answer(&rt, &words, &watcher),
        Err(status) => status,
    };
    ExitCode::from(status)
}
