//! Following of a journal, or of those of a folder.

use crate::journals::FollowedJournals;
use crate::program::{Stop, follow, pause, watch_input};
use lra_audits::{RunFault, settle};
use lra_folders::{find, is_folder, tell_others};
use std::fs::File;
use std::io;
use std::os::fd::AsFd;
use std::process::ChildStdout;
use std::rt::Files;
use std::sync::{Arc, Wait};
use std::thread::Threads;
use std::time::Clock;

/// Returns standard input, for a thread of its own. The type that reads a child's output reads any descriptor.
pub fn standard_input<R: Input>(rt: &R) -> io::Result<ChildStdout>
where
    R::Reader: AsFd,
{
    let reader = rt.reader();
    let input = reader.as_fd().try_clone_to_owned()?;
    Ok(ChildStdout::from(input))
}

/// Begins to watch standard input, whose end stops the run, if that is configured.
fn watch_end<R: Threads + Input>(
    rt: &R,
    stop: &Arc<Stop>,
    stop_at_eof: bool,
) -> Result<(), RunFault>
where
    R::Reader: AsFd,
{
    if !stop_at_eof {
        return Ok(());
    }
    match standard_input(rt) {
        Ok(input) => watch_input(rt, stop, input),
        Err(_) => Err(RunFault::Read),
    }
}

/// Follows the journals of a folder, until a line of one is at fault, one is missing or can't be read, or a stop is
/// requested.
fn follow_found<R: AllocGlobal + Files<File = File> + Clock + Wait + Print + Eprint + Clone + Drop>(
    rt: &R,
    folder: &str,
    stop: &Arc<Stop>,
) -> Result<u8, RunFault> {
    tell_others(rt, folder, &find(rt, folder)?.others);
    let mut journals = FollowedJournals::new(rt.alloc(), folder);
    for _ in rt.forever() {
        let is_last = stop.is_asked();
        let found = find(rt, folder)?;
        let ended = journals.poll(rt, &found.journals, is_last, &mut io::writer(rt))?;
        if let Some(status) = ended {
            return Ok(status);
        }
        if is_last {
            return Ok(0);
        }
        pause(rt);
    }
    Ok(0)
}

/// Follows a journal or those of a folder, and returns the program's status.
fn follow_place<R: AllocGlobal + Files<File = File> + Clock + Wait + Print + Eprint + Clone + Drop>(
    rt: &R,
    place: &str,
    stop: &Arc<Stop>,
) -> u8 {
    if is_folder(rt, place) {
        settle(rt, follow_found(rt, place, stop), place)
    } else {
        follow(rt, place, stop)
    }
}

/// Follows a journal or those of a folder, and returns the program's status. Stops at the end of standard input, if
/// that is configured.
pub(crate) fn answer_follow<
    R: AllocGlobal
        + Files<File = File>
        + Clock
        + Threads
        + Wait
        + Input
        + Print
        + Eprint
        + Clone
        + Drop,
>(rt: &R, place: &str, stop_at_eof: bool) -> u8
where
    R::Reader: AsFd,
{
    let Ok(stop) = Arc::new(rt.alloc(), Stop::new()) else {
        return settle(rt, Err(RunFault::Memory), place);
    };
    match watch_end(rt, &stop, stop_at_eof) {
        Ok(()) => follow_place(rt, place, &stop),
        Err(fault) => settle(rt, Err(fault), "-"),
    }
}
