//! Small files.

ghost use Rattle.std.specs.Prelude.{◌≡◌, ◌≤◌, length, IfOk, IfErr, IfSome};
ghost use Rattle.lra_files.specs.Small.{IsWhole, IsUnread};

use std::alloc::Global;
use std::fs::File;
use std::io::{ErrorKind, Read};
use std::os::unix::fs::PermissionsExt;

/// The bits of a file's mode that allow others than its owner to read, write or execute it.
const OTHERS: u32 = 0o077;

/// The reason why a small file isn't read.
#[derive(Clone, Copy, PartialEq, Eq)]
pub enum SmallFault {
    /// It can't be read.
    File,
    /// It has more bytes than it may have.
    TooLong,
    /// Memory is refused.
    Memory,
}

/// Returns whether the mode of a file allows anything to others than its owner, or can't be read.
pub fn is_shared(file: &File) -> bool {
    match file.metadata() {
        Ok(metadata) => metadata.permissions().mode() & OTHERS != 0,
        Err(_) => true,
    }
}

/// Reads all the bytes of a reader to its end, if there are no more than `longest`. Reads at most one byte more than
/// that.
pub fn read_whole<F: Read + Drop>(
    alloc: Global,
    file: F,
    longest: u32,
) -> Result<Vec<u8>, SmallFault>
    ensures ok { IfSome (F.remaining file) (λ text. IfOk result (λ bytes. IsWhole longest text bytes.items)) }
    ensures err { IfSome (F.remaining file) (λ text. IfErr result (IsUnread longest text)) }
{
    let mut text = Vec::new(alloc);
    let mut front = file.take(u64::from(longest) + 1);
    let read = front.read_to_end(&mut text);
    drop(front);
    match read {
        Ok(_) if text.len() as u64 > u64::from(longest) => Err(SmallFault::TooLong),
        Ok(_) => Ok(text),
        Err(error) if error.kind() == ErrorKind::OutOfMemory => Err(SmallFault::Memory),
        Err(_) => Err(SmallFault::File),
    }
}
