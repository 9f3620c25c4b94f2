//! Progress of reading a file, reported once a second.

ghost use Rattle.std.specs.Prelude.{◌≡◌};

use crate::notifier::Notifier;
use std::alloc::Global;
use std::io;
use std::io::Read;
use std::time::{Clock, Duration, Instant};

/// Number of seconds from one line to the next.
const PAUSE: u64 = 1;

/// A megabyte, in bytes.
const MEGABYTE: u64 = 1_000_000;

/// Reader of a file that reports once a second how far it is. The reports aren't guaranteed: if the clock or memory
/// fails, a line is missing.
#[derive(Drop)]
pub(crate) struct Progress<'a, F, R, H> {
    reader: F,
    alloc: Global,
    clock: &'a R,
    notifier: &'a H,
    name: &'a str,
    /// Number of bytes that the file has.
    all: u64,
    /// Number of bytes that were read.
    read: u64,
    /// Moment from which the next line is due, if the clock could be read.
    due: Option<Instant>,
}

/// Returns the moment of the next line: a pause from now. Returns `None` if the clock can't be read.
fn next_due<R: Clock>(clock: &R) -> Option<Instant> {
    Instant::now(clock)
        .ok()?
        .checked_add(Duration::from_secs(PAUSE))
}

impl<'a, F: Read, R: Clock, H: Notifier> Progress<'a, F, R, H> {
    /// Returns a reader of the file of a name that has so many bytes.
    pub(crate) fn new(
        reader: F,
        alloc: Global,
        clock: &'a R,
        notifier: &'a H,
        name: &'a str,
        all: u64,
    ) -> Progress<'a, F, R, H> {
        Progress {
            reader,
            alloc,
            clock,
            notifier,
            name,
            all,
            read: 0,
            due: next_due(clock),
        }
    }

    /// Returns whether the next line is due.
    fn is_due(&self) -> bool {
        match (self.due, Instant::now(self.clock)) {
            (Some(due), Ok(now)) => due.saturating_duration_since(now).is_zero(),
            _ => false,
        }
    }

    /// Reports how far it is.
    fn notify(&self) {
        let (name, read, all) = (self.name, self.read / MEGABYTE, self.all / MEGABYTE);
        if let Ok(line) = format!(in self.alloc; "lra: reading {name}: {read} of {all} MB\n") {
            self.notifier.notify(&line);
        }
    }
}

impl<F: Read, R: Clock, H: Notifier> Read for Progress<'_, F, R, H> {
    ghost remaining = { λ p. F.remaining p.reader };

    fn read(&mut self, buf: &mut [u8]) -> io::Result<usize> {
        let count = self.reader.read(buf)?;
        self.read = self.read.saturating_add(count as u64);
        if self.is_due() {
            self.notify();
            self.due = next_due(self.clock);
        }
        Ok(count)
    }
}
