//! The file of the keys, and others that are read as it is.

ghost use Rattle.std.specs.Prelude.{IfOk, IfErr, IfSome};
ghost use Rattle.lra_admission.specs.inner.Files as spec;

use crate::fault::KeysFault;
use crate::keys::Keys;
use lra_files::{SmallFault, is_shared, read_whole};
use std::alloc::Global;
use std::fs;
use std::fs::File;
use std::io::Read;
use std::os::unix::fs::MetadataExt;
use std::rt::Files;

/// Largest number of bytes that the file may have.
const LONGEST: u32 = 65_536;

/// Fingerprint of a file, which shows that the file of a name is another, or has changed.
#[derive(Clone, Copy, PartialEq, Eq)]
pub struct FileStamp {
    pub device: u64,
    pub node: u64,
    pub length: u64,
    /// Time of the last change of the file or of its metadata.
    pub seconds: i64,
    pub nanoseconds: i64,
}

/// Source of files of keys: every runtime with the system's files. It names no other type, so that threads may share
/// it.
pub trait KeyFiles {
    /// Returns the fingerprint of the file of a name, if there is such a file.
    fn stamp(&self, path: &str) -> Option<FileStamp>;

    /// Reads the keys of a file, which nobody but its owner may read or write.
    fn read_keys(&self, alloc: Global, path: &str) -> Result<Keys, KeysFault>;

    /// Reads the text of a file of so many bytes at most, which nobody but its owner may read or write.
    fn read_secret(&self, alloc: Global, path: &str, longest: u32) -> Result<Vec<u8>, KeysFault>;
}

impl<R: Files<File = File>> KeyFiles for R {
    fn stamp(&self, path: &str) -> Option<FileStamp> {
        match fs::metadata(self, path) {
            Ok(about) if about.is_file() => Some(FileStamp {
                device: about.dev(),
                node: about.ino(),
                length: about.len(),
                seconds: about.ctime(),
                nanoseconds: about.ctime_nsec(),
            }),
            _ => None,
        }
    }

    fn read_keys(&self, alloc: Global, path: &str) -> Result<Keys, KeysFault> {
        match open_own(self, path) {
            Ok(file) => keys_from(alloc, file),
            Err(fault) => Err(fault),
        }
    }

    fn read_secret(&self, alloc: Global, path: &str, longest: u32) -> Result<Vec<u8>, KeysFault> {
        match open_own(self, path) {
            Ok(file) => secret_from(alloc, file, longest),
            Err(fault) => Err(fault),
        }
    }
}

/// Opens a file that nobody but its owner may read or write.
fn open_own<R: Files<File = File>>(rt: &R, path: &str) -> Result<File, KeysFault> {
    let Ok(file) = File::open(rt, path) else {
        return Err(KeysFault::File);
    };
    if is_shared(&file) {
        drop(file);
        return Err(KeysFault::Shared);
    }
    Ok(file)
}

/// Returns why a small file isn't read.
fn unread(fault: SmallFault) -> KeysFault {
    match fault {
        SmallFault::TooLong => KeysFault::TooLong,
        SmallFault::Memory => KeysFault::Memory,
        SmallFault::File => KeysFault::File,
    }
}

/// Reads the text of a file of so many bytes at most to its end.
fn secret_from<F: Read + Drop>(alloc: Global, file: F, longest: u32) -> Result<Vec<u8>, KeysFault> {
    match read_whole(alloc, file, longest) {
        Ok(text) => Ok(text),
        Err(fault) => Err(unread(fault)),
    }
}

/// Reads the keys of a file to its end.
pub(crate) fn keys_from<F: Read + Drop>(alloc: Global, file: F) -> Result<Keys, KeysFault>
    ensures ok { IfSome (F.remaining file) (λ text. IfOk result (spec.Holds text)) }
    ensures err { IfSome (F.remaining file) (λ text. IfErr result (spec.HoldsNone text)) }
{
    match read_whole(alloc, file, LONGEST) {
        Ok(text) => Keys::read(alloc, text.as_slice()),
        Err(SmallFault::TooLong) => Err(KeysFault::TooLong),
        Err(SmallFault::Memory) => Err(KeysFault::Memory),
        Err(SmallFault::File) => Err(KeysFault::File),
    }
}
