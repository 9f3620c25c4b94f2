//! The program that follows one journal, and its end.

use crate::followed::Followed;
use lra_audits::{RunFault, settle};
use std::fs::File;
use std::io;
use std::io::{ErrorKind, Read, Write};
use std::marker::Send;
use std::rt::Files;
use std::sync::atomic::{AtomicBool, Ordering};
use std::sync::{Arc, Wait};
use std::thread::{Builder, Threads, sleep};
use std::time::{Clock, Duration};

/// Number of milliseconds from one poll to the next.
const PAUSE: u64 = 250;

/// Number of bytes of ignored input that are read at once.
const IGNORED: usize = 256;

/// Request that the program ends.
#[derive(Drop)]
pub(crate) struct Stop {
    is_asked: AtomicBool,
}

impl Stop {
    /// Makes a request that isn't made yet: the program is to go on.
    pub(crate) fn new() -> Stop {
        Stop {
            is_asked: AtomicBool::new(false),
        }
    }

    /// Requests the end.
    fn ask(&self) {
        self.is_asked.store(true, Ordering::SeqCst);
    }

    /// Returns whether the program is to end.
    pub(crate) fn is_asked(&self) -> bool {
        self.is_asked.load(Ordering::SeqCst)
    }
}

/// Sleeps from one poll to the next.
pub(crate) fn pause<R: Clock>(rt: &R) {
    sleep(rt, Duration::from_millis(PAUSE));
}

/// Reads an input to its end or an error, and ignores its bytes.
fn read_out<I: Read>(input: &mut I) {
    let mut piece = [0u8; IGNORED];
    for _ in 0..u64::MAX {
        match input.read(&mut piece) {
            Ok(0) => return,
            Ok(_) => {}
            Err(error) if error.kind() == ErrorKind::Interrupted => {}
            Err(_) => return,
        }
    }
}

/// Starts a thread that reads an input to its end, and then requests the end of the program. The thread is never
/// joined, so that no caller waits for it.
pub(crate) fn watch_input<R: Threads, I: Read + Send + Drop + 'static>(
    rt: &R,
    stop: &Arc<Stop>,
    input: I,
) -> Result<(), RunFault> {
    let Ok(theirs) = Arc::try_clone(stop) else {
        drop(input);
        return Err(RunFault::Memory);
    };
    let mut input = input;
    let watched = Builder::new().spawn(rt, move || {
        read_out(&mut input);
        theirs.ask();
    });
    match watched {
        Ok(thread) => {
            drop(thread);
            Ok(())
        }
        Err(_) => Err(RunFault::Memory),
    }
}

/// Follows a journal until a line of it is at fault, its file is lost, or the end is requested. Returns the program's
/// status.
fn follow_to<R: AllocGlobal + Files<File = File> + Clock + Wait + Eprint, W: Write>(
    rt: &R,
    file: &str,
    stop: &Arc<Stop>,
    writer: &mut W,
) -> Result<u8, RunFault> {
    let alloc = rt.alloc();
    let mut journal = Followed::new(rt, alloc, file, String::new(alloc))?;
    for _ in rt.forever() {
        let is_last = stop.is_asked();
        let seen = journal.poll(rt)?;
        if let Some(status) = journal.tell(rt, seen, is_last, writer)? {
            return Ok(status);
        }
        if is_last {
            return Ok(0);
        }
        pause(rt);
    }
    Ok(0)
}

/// Follows a journal. Returns the program's status: 1 if a line of it is at fault, 2 if its file is lost or can't be
/// read, and 0 if the end was requested.
pub(crate) fn follow<R: AllocGlobal + Files<File = File> + Clock + Wait + Print + Eprint>(
    rt: &R,
    file: &str,
    stop: &Arc<Stop>,
) -> u8 {
    let outcome = follow_to(rt, file, stop, &mut io::writer(rt));
    settle(rt, outcome, file)
}
