//! Progress of an audit, a listing or an upgrade, on a line of a terminal that is overwritten again and again.

use lra_audits::RunFault;
use lra_opening::Notifier;
use lra_reports::{Sources, System};
use std::alloc::Global;
use std::io;
use std::io::{Read, Write};
use std::rt::Files;
use std::sync::atomic::{AtomicBool, AtomicU64, Ordering};
use std::time::Clock;

/// Milliseconds until the line is first written, and between later writes of it.
const FIRST: u64 = 1000;

const PAUSE: u64 = 200;

/// A megabyte, in bytes.
const MEGABYTE: u64 = 1_000_000;

/// The bytes that clear the line.
const BLANK: &str = "\r                                                \r";

/// Progress of a run. Nothing is promised of it: where the clock or memory fails, or two threads report at once, a line
/// may be missing.
#[derive(Drop)]
pub(crate) struct Gauge<'a, R, H> {
    alloc: Global,
    clock: &'a R,
    notifier: &'a H,
    /// Number of bytes to read.
    all: u64,
    /// Number of bytes that were read.
    read: AtomicU64,
    /// Millisecond of the steady clock from which on the line is written.
    due: AtomicU64,
    /// Mark that the line is on the terminal.
    stands: AtomicBool,
}

/// Returns the milliseconds of the steady clock, or 0 where it fails.
fn steady<R: Clock>(clock: &R) -> u64 {
    match clock.monotonic() {
        Ok(since) => u64::try_from(since.as_millis()).unwrap_or(u64::MAX),
        Err(_) => 0,
    }
}

impl<'a, R: Clock, H: Notifier> Gauge<'a, R, H> {
    /// Returns the progress of a run that has so many bytes to read, and has read none.
    pub(crate) fn new(alloc: Global, clock: &'a R, notifier: &'a H, all: u64) -> Gauge<'a, R, H> {
        Gauge {
            alloc,
            clock,
            notifier,
            all,
            read: AtomicU64::new(0),
            due: AtomicU64::new(steady(clock).saturating_add(FIRST)),
            stands: AtomicBool::new(false),
        }
    }

    /// Writes the line.
    fn show(&self) {
        let (read, all) = (
            self.read.load(Ordering::SeqCst) / MEGABYTE,
            self.all / MEGABYTE,
        );
        if let Ok(line) = format!(in self.alloc; "\rlra: {read} of {all} MB") {
            self.stands.store(true, Ordering::SeqCst);
            self.notifier.notify(line.as_str());
        }
    }

    /// Counts bytes that were read, and writes the line if it is due.
    fn count(&self, bytes: u64) {
        self.read.fetch_add(bytes, Ordering::SeqCst);
        let now = steady(self.clock);
        if now >= self.due.load(Ordering::SeqCst) {
            self.due.store(now.saturating_add(PAUSE), Ordering::SeqCst);
            self.show();
        }
    }

    /// Clears the line, if it is on the terminal.
    pub(crate) fn clear(&self) {
        if self.stands.swap(false, Ordering::SeqCst) {
            self.notifier.notify(BLANK);
        }
    }
}

/// Reader whose bytes are counted. At its end, and where it fails, the line is cleared.
#[derive(Drop)]
pub(crate) struct CountedReader<'a, F, R, H> {
    reader: F,
    gauge: &'a Gauge<'a, R, H>,
}

impl<F: Read, R: Clock, H: Notifier> Read for CountedReader<'_, F, R, H> {
    ghost remaining = { λ c. F.remaining c.reader };

    fn read(&mut self, buf: &mut [u8]) -> io::Result<usize> {
        let outcome = self.reader.read(buf);
        match &outcome {
            Ok(count) if *count > 0 => self.gauge.count(*count as u64),
            _ => self.gauge.clear(),
        }
        outcome
    }
}

/// Writer that clears the line before each write.
#[derive(Drop)]
pub(crate) struct Tidy<'a, W, R, H> {
    pub(crate) writer: W,
    pub(crate) gauge: &'a Gauge<'a, R, H>,
}

impl<W: Write, R: Clock, H: Notifier> Write for Tidy<'_, W, R, H> {
    fn write(&mut self, bytes: &[u8]) -> io::Result<usize> {
        self.gauge.clear();
        self.writer.write(bytes)
    }

    fn flush(&mut self) -> io::Result<()> {
        self.writer.flush()
    }
}

/// Files of the system, whose bytes are counted.
#[derive(Drop)]
pub(crate) struct Gauged<'a, R, H> {
    pub(crate) system: System<'a, R>,
    pub(crate) gauge: &'a Gauge<'a, R, H>,
}

impl<'a, R: Files + Input + Clock, H: Notifier> Sources for Gauged<'a, R, H> {
    type Input = R::Reader;

    type File = CountedReader<'a, R::File, R, H>;

    fn input(&self) -> R::Reader {
        self.system.input()
    }

    fn open(&self, name: &str) -> Result<CountedReader<'a, R::File, R, H>, RunFault> {
        match self.system.open(name) {
            Ok(reader) => Ok(CountedReader {
                reader,
                gauge: self.gauge,
            }),
            Err(fault) => Err(fault),
        }
    }

    fn open_again(&self, name: &str) -> Option<CountedReader<'a, R::File, R, H>> {
        Some(CountedReader {
            reader: self.system.open_again(name)?,
            gauge: self.gauge,
        })
    }
}
