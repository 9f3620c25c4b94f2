//! A file that says which service a journal belongs to.

ghost use Rattle.std.specs.Prelude.{◌≡◌};
ghost use Rattle.lra_storage.specs.inner.Fences as spec;

use lra_files::{FileFault, SmallFault, file_fault, read_whole};
use std::fs::File;
use std::rt::LibcRuntime;
use std::sync::Arc;

/// Largest number of bytes that the file may have.
const LONGEST: u32 = 4_096;

/// File that says which service a journal belongs to, for as long as it has the bytes that it had at first. Each check
/// opens it by its name, so that another file in its place is seen. A check needs no runtime.
#[derive(Drop)]
pub struct Fence {
    rt: LibcRuntime,
    path: String,
    /// Bytes that the file had at first.
    text: Vec<u8>,
}

/// Runtime that opens fences.
pub trait Fenced {
    /// Reads the file of that name, and returns a fence that has its present bytes. A file of more than 4,096 bytes is
    /// no fence.
    fn fence(&self, path: &str) -> Result<Fence, SmallFault>;
}

/// Returns why the file of a name can't be read, by the fault of opening it.
fn unread(fault: FileFault) -> SmallFault
    ensures { result ≡ spec.unread fault }
{
    match fault {
        FileFault::TooManyOpen => SmallFault::File,
        FileFault::Memory => SmallFault::Memory,
        FileFault::Other => SmallFault::File,
    }
}

/// Reads the file of a name.
fn text_at(rt: LibcRuntime, path: &str) -> Result<Vec<u8>, SmallFault> {
    match File::open(&rt, path) {
        Ok(file) => read_whole(rt.alloc(), file, LONGEST),
        Err(error) => Err(unread(file_fault(&error))),
    }
}

impl Fenced for LibcRuntime {
    fn fence(&self, path: &str) -> Result<Fence, SmallFault> {
        let text = text_at(*self, path)?;
        match String::from_str(self.alloc(), path) {
            Ok(path) => Ok(Fence {
                rt: *self,
                path,
                text,
            }),
            Err(_) => Err(SmallFault::Memory),
        }
    }
}

impl Fence {
    /// Returns whether its file has the bytes that it had at first. Returns false if the file can't be read, or memory
    /// is refused.
    pub fn stands(&self) -> bool {
        match text_at(self.rt, self.path.as_str()) {
            Ok(text) => text.as_slice() == self.text.as_slice(),
            Err(_) => false,
        }
    }
}

/// Returns whether a fence stands, or there is none.
pub fn stands(fence: &Option<Arc<Fence>>) -> bool {
    match fence {
        Some(fence) => fence.stands(),
        None => true,
    }
}
