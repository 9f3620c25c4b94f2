//! The process statistics that the system reports.

ghost use Rattle.std.specs.Prelude.{◌≡◌, None};

use std::fs::File;
use std::os::unix::fs::FileExt;
use std::rt::Files;

/// Number of bytes in a page of memory.
const PAGE: u64 = 4_096;

/// Number of bytes that are read of a file of the system.
const MOST: usize = 1_024;

/// Process statistics that the system reports.
#[derive(Clone, Copy, PartialEq, Eq)]
pub struct ProcessStatistics {
    /// Numbers of bytes of memory that the process has: of virtual memory, and of resident memory.
    pub virtual_bytes: Option<u64>,
    pub resident_bytes: Option<u64>,
    /// Processor time that the process took, in hundredths of a second.
    pub ticks: Option<u64>,
}

impl ProcessStatistics {
    /// Makes statistics of which none is known.
    pub fn none() -> ProcessStatistics
        ensures memory { (result.virtual_bytes ≡ None) × (result.resident_bytes ≡ None) }
        ensures time { result.ticks ≡ None }
    {
        ProcessStatistics {
            virtual_bytes: None,
            resident_bytes: None,
            ticks: None,
        }
    }
}

/// Files that process statistics are read from, where they can be opened. They stay open, so that a thread that reads
/// them later needs no other files.
#[derive(Drop)]
pub(crate) struct Gauges {
    memory: Option<File>,
    time: Option<File>,
}

/// Reads a piece of a file of the system at once, and returns its length. The system writes the file's contents anew at
/// each read from its start.
fn read_file(file: Option<&File>, piece: &mut [u8; MOST]) -> Option<usize> {
    file?.read_at(piece, 0).ok()
}

/// Returns the number at a place among the words of a text.
fn word_at(text: &str, place: usize) -> Option<u64> {
    text.split(' ').nth(place)?.parse::<u64>().ok()
}

/// Returns the number of bytes of the number of pages at a place in a text.
fn pages_at(text: &str, place: usize) -> Option<u64> {
    word_at(text, place)?.checked_mul(PAGE)
}

/// Returns the numbers of bytes of virtual and of resident memory.
fn memory(file: Option<&File>) -> Option<(Option<u64>, Option<u64>)> {
    let mut piece = [0u8; MOST];
    let count = read_file(file, &mut piece)?;
    let text = str::from_utf8(piece.as_slice().get(..count)?).ok()?;
    Some((pages_at(text, 0), pages_at(text, 1)))
}

/// Returns the processor time that was taken, in the system's ticks.
fn ticks(file: Option<&File>) -> Option<u64> {
    let mut piece = [0u8; MOST];
    let count = read_file(file, &mut piece)?;
    let text = str::from_utf8(piece.as_slice().get(..count)?).ok()?;
    let (_, rest) = text.rsplit_once(") ")?;
    word_at(rest, 11)?.checked_add(word_at(rest, 12)?)
}

impl Gauges {
    /// Opens the files of this process.
    pub(crate) fn open<R: Files<File = File>>(rt: &R) -> Gauges {
        Gauges {
            memory: File::open(rt, "/proc/self/statm").ok(),
            time: File::open(rt, "/proc/self/stat").ok(),
        }
    }

    /// Reads the process statistics.
    pub(crate) fn read(&self) -> ProcessStatistics {
        let (virtual_bytes, resident_bytes) = memory(self.memory.as_ref()).unwrap_or((None, None));
        ProcessStatistics {
            virtual_bytes,
            resident_bytes,
            ticks: ticks(self.time.as_ref()),
        }
    }
}
