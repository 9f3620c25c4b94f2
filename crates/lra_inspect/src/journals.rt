//! Journals of a folder, followed side by side.

use crate::followed::Followed;
use crate::lost::Lost;
use crate::watch::{Extent, PollResult, extent_of};
use lra_audits::{RunFault, settle};
use lra_model::Memory;
use std::alloc::Global;
use std::fs::File;
use std::io::Write;
use std::rt::Files;

/// Text before the name of a journal that was archived.
const ENDED: &str = "ended/";

/// Journal of a folder.
#[derive(Drop)]
struct FollowedJournal {
    /// Journal's name in the folder.
    name: String,
    /// Journal as it is followed. None before the first poll, and once the journal is archived and all of it was
    /// reported: no process writes to it any more.
    followed: Option<Followed>,
    /// Part of the file that was read before the journal ceased to be followed.
    extent: Option<Extent>,
    /// Mark that the file isn't there any more, and that nothing more of it is to be reported.
    is_gone: bool,
}

/// Returns the path of a name in a folder.
fn path_of(alloc: Global, folder: &str, name: &str) -> Result<String, Memory> {
    format!(in alloc; "{folder}/{name}")
}

/// Returns the text before each line that is written of the journal of a name.
fn front_of(alloc: Global, name: &str) -> Result<String, Memory> {
    format!(in alloc; "{name} ")
}

/// Opens the journal of a name. Nothing of it is read yet. Returns None if the file isn't there any more.
fn begin<R: AllocGlobal + Files<File = File>>(
    rt: &R,
    path: &str,
    name: &str,
) -> Result<Option<Followed>, RunFault> {
    let front = front_of(rt.alloc(), name)?;
    match Followed::new(rt, rt.alloc(), path, front) {
        Ok(followed) => Ok(Some(followed)),
        Err(RunFault::Read) if extent_of(rt, path).is_none() => Ok(None),
        Err(fault) => Err(fault),
    }
}

impl FollowedJournal {
    /// Makes a journal that wasn't polled yet.
    fn new(alloc: Global, name: &str) -> Result<FollowedJournal, Memory> {
        Ok(FollowedJournal {
            name: String::from_str(alloc, name)?,
            followed: None,
            extent: None,
            is_gone: false,
        })
    }

    /// Returns whether the journal was archived.
    fn is_ended(&self) -> bool {
        self.name.starts_with(ENDED)
    }

    /// Follows the journal from its beginning, if it isn't followed and its file isn't just what was read.
    fn wake<R: AllocGlobal + Files<File = File>>(
        &mut self,
        rt: &R,
        path: &str,
    ) -> Result<(), RunFault> {
        if self.followed.is_some() {
            return Ok(());
        }
        let extent = extent_of(rt, path);
        self.is_gone = extent.is_none();
        if extent.is_some() && extent != self.extent {
            self.followed = begin(rt, path, self.name.as_str())?;
        }
        Ok(())
    }

    /// Returns the outcome of a poll after the journal's name ceased to stand for its file: the journal may have been
    /// archived, or its file deleted.
    fn see_moved<R: AllocGlobal + Files<File = File>>(
        &mut self,
        rt: &R,
        folder: &str,
        path: &str,
        followed: &mut Followed,
    ) -> Result<PollResult, RunFault> {
        let alloc = rt.alloc();
        if self.is_ended() {
            self.is_gone = extent_of(rt, path).is_none();
            return Ok(if self.is_gone {
                PollResult::Read
            } else {
                PollResult::Lost(Lost::Replaced)
            });
        }
        let name = path_of(alloc, "ended", self.name.as_str())?;
        let path = path_of(alloc, folder, name.as_str())?;
        let front = front_of(alloc, name.as_str())?;
        if !followed.moves_to(rt, path, front) {
            return Ok(PollResult::Lost(Lost::Replaced));
        }
        self.name = name;
        followed.poll(rt)
    }

    /// Polls the journal at a path, and writes the outcome. Returns the program's status if the program ends by that
    /// outcome.
    fn poll_next<R: AllocGlobal + Files<File = File> + Eprint, W: Write>(
        &mut self,
        rt: &R,
        folder: &str,
        path: &str,
        is_last: bool,
        writer: &mut W,
    ) -> Result<Option<u8>, RunFault> {
        self.wake(rt, path)?;
        let Some(mut followed) = self.followed.take() else {
            return Ok(None);
        };
        let seen = match followed.poll(rt)? {
            PollResult::Lost(Lost::Replaced) => self.see_moved(rt, folder, path, &mut followed)?,
            seen => seen,
        };
        let status = followed.tell(rt, seen, is_last, writer)?;
        if self.is_ended() && followed.is_told() {
            self.extent = Some(followed.extent());
            drop(followed);
        } else {
            self.followed = Some(followed);
        }
        Ok(status)
    }

    /// Polls the journal, and writes the outcome. Returns the program's status if the program ends by that outcome.
    /// Writes a fault to standard error, with the journal's path.
    fn poll<R: AllocGlobal + Files<File = File> + Eprint, W: Write>(
        &mut self,
        rt: &R,
        folder: &str,
        is_last: bool,
        writer: &mut W,
    ) -> Result<Option<u8>, RunFault> {
        let path = path_of(rt.alloc(), folder, self.name.as_str())?;
        match self.poll_next(rt, folder, path.as_str(), is_last, writer) {
            Ok(status) => Ok(status),
            Err(fault) => Ok(Some(settle(rt, Err(fault), path.as_str()))),
        }
    }
}

/// Journals of a folder that are followed, in the order of their names.
#[derive(Drop)]
pub(crate) struct FollowedJournals<'a> {
    alloc: Global,
    folder: &'a str,
    all: Vec<FollowedJournal>,
}

impl<'a> FollowedJournals<'a> {
    /// Makes a set of no journals yet.
    pub(crate) fn new(alloc: Global, folder: &'a str) -> FollowedJournals<'a> {
        FollowedJournals {
            alloc,
            folder,
            all: Vec::new(alloc),
        }
    }

    /// Polls the journals that were there at the last poll, and drops those whose files aren't there any more.
    fn poll_known<R: AllocGlobal + Files<File = File> + Eprint, W: Write>(
        &mut self,
        rt: &R,
        is_last: bool,
        writer: &mut W,
    ) -> Result<Option<u8>, RunFault> {
        for journal in self.all.iter_mut() {
            if let Some(status) = journal.poll(rt, self.folder, is_last, writer)? {
                return Ok(Some(status));
            }
        }
        self.all.retain(|journal| !journal.is_gone);
        self.all
            .sort_by(|one, other| one.name.as_str().cmp(other.name.as_str()))?;
        Ok(None)
    }

    /// Adds the journal of a name, if it is new, and polls it.
    fn add<R: AllocGlobal + Files<File = File> + Eprint, W: Write>(
        &mut self,
        rt: &R,
        name: &str,
        is_last: bool,
        writer: &mut W,
    ) -> Result<Option<u8>, RunFault> {
        let found = self
            .all
            .binary_search_by(|journal| journal.name.as_str().cmp(name));
        let Err(place) = found else {
            return Ok(None);
        };
        let mut journal = FollowedJournal::new(self.alloc, name)?;
        let status = journal.poll(rt, self.folder, is_last, writer)?;
        match self.all.insert(place, journal) {
            Ok(()) => Ok(status),
            Err(_) => Err(RunFault::Memory),
        }
    }

    /// Polls each journal, and those of these names that are new. Returns the program's status if the program ends by
    /// an outcome.
    pub(crate) fn poll<R: AllocGlobal + Files<File = File> + Eprint, W: Write>(
        &mut self,
        rt: &R,
        names: &[String],
        is_last: bool,
        writer: &mut W,
    ) -> Result<Option<u8>, RunFault> {
        if let Some(status) = self.poll_known(rt, is_last, writer)? {
            return Ok(Some(status));
        }
        for name in names {
            if let Some(status) = self.add(rt, name.as_str(), is_last, writer)? {
                return Ok(Some(status));
            }
        }
        Ok(None)
    }
}
