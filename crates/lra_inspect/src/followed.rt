//! One journal that is followed, and what was reported of it.

use crate::lost::{Lost, lost_line};
use crate::watch::{Extent, PollResult, WatchedFile};
use lra_auditor::FaultyLine;
use lra_audits::{RunFault, put, report_fault, tell};
use std::alloc::Global;
use std::fs::File;
use std::io::Write;
use std::rt::Files;

/// Least number of polls from one line that is written to the next.
const LOOKS: u64 = 4;

/// Journal that is followed.
#[derive(Drop)]
pub(crate) struct Followed {
    alloc: Global,
    /// Text before each line that is written of the journal.
    front: String,
    watch: WatchedFile,
    /// Number of entries in the last line that was written of the journal, if any was.
    told: Option<u64>,
    /// Number of polls since that line.
    looks: u64,
}

impl Followed {
    /// Opens the journal at a path. Nothing of it is read yet.
    pub(crate) fn new<R: Files<File = File>>(
        rt: &R,
        alloc: Global,
        path: &str,
        front: String,
    ) -> Result<Followed, RunFault> {
        let watch = WatchedFile::new(rt, alloc, path)?;
        Ok(Followed {
            alloc,
            front,
            watch,
            told: None,
            looks: LOOKS,
        })
    }

    /// Polls the journal: reads all that its file has now.
    pub(crate) fn poll<R: Files<File = File>>(&mut self, rt: &R) -> Result<PollResult, RunFault> {
        self.watch.poll(rt)
    }

    /// Returns which file was read, and how many bytes of it.
    pub(crate) fn extent(&self) -> Extent {
        self.watch.extent()
    }

    /// Goes on at another path, with another text before each line, if the file is there now. Returns whether it is.
    pub(crate) fn moves_to<R: Files<File = File>>(
        &mut self,
        rt: &R,
        path: String,
        front: String,
    ) -> bool {
        let is_there = self.watch.moves_to(rt, path);
        if is_there {
            self.front = front;
        }
        is_there
    }

    /// Returns the number of entries so far, or None before the first whole line.
    fn entries(&self) -> Option<u64> {
        match self.watch.file_tail() {
            Some(file_tail) if file_tail.fed() > 0 => Some(file_tail.counts().entries()),
            _ => None,
        }
    }

    /// Returns whether the last line that was written counts all entries so far.
    pub(crate) fn is_told(&self) -> bool {
        self.entries() == self.told
    }

    /// Writes that the journal has been sound so far.
    fn say_sound<W: Write>(&self, writer: &mut W) -> Result<(), RunFault> {
        let Some(file_tail) = self.watch.file_tail() else {
            return Err(RunFault::Memory);
        };
        let line = file_tail.counts().sound_line(self.alloc)?;
        put(writer, self.front.as_bytes())?;
        put(writer, line.as_bytes())?;
        writer.flush().map_err(|_| RunFault::Write)
    }

    /// Writes that the journal has been sound so far, if there are entries that weren't reported. Does so every `LOOKS`
    /// polls at most, and at the last poll.
    fn report_sound<W: Write>(&mut self, is_last: bool, writer: &mut W) -> Result<(), RunFault> {
        self.looks = self.looks.saturating_add(1);
        if !self.is_told() && (is_last || self.looks >= LOOKS) {
            self.say_sound(writer)?;
            self.told = self.entries();
            self.looks = 0;
        }
        Ok(())
    }

    /// Writes which line is at fault. Returns the program's status.
    fn tell_fault<W: Write>(&self, fault: FaultyLine, writer: &mut W) -> Result<u8, RunFault> {
        put(writer, self.front.as_bytes())?;
        report_fault(self.alloc, fault.line, fault.rule, writer)
    }

    /// Writes to standard error why the journal can't be followed any more. Returns the program's status.
    fn report_lost<R: Eprint>(&self, rt: &R, lost: Lost) -> u8 {
        tell(rt, lost_line(self.alloc, self.watch.path(), lost))
    }

    /// Writes the outcome of a poll. Returns the program's status if the program ends by that outcome.
    pub(crate) fn tell<R: Eprint, W: Write>(
        &mut self,
        rt: &R,
        seen: PollResult,
        is_last: bool,
        writer: &mut W,
    ) -> Result<Option<u8>, RunFault> {
        match seen {
            PollResult::Read => {
                self.report_sound(is_last, writer)?;
                Ok(None)
            }
            PollResult::Unsound(fault) => Ok(Some(self.tell_fault(fault, writer)?)),
            PollResult::Lost(lost) => Ok(Some(self.report_lost(rt, lost))),
        }
    }
}
