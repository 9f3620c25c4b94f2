//! The line that is printed of one journal of a folder.

ghost use Rattle.std.specs.Prelude.{◌≡◌, ◌++◌, List, ℕ, Some, IfOk};
ghost use Rattle.lra_folders.specs.Folders.{behind, Tells};
ghost use Rattle.lra_folders.specs.inner.Told.{IsToldOf};

use lra_auditor::Memory;
use lra_audits::{RunFault, audit_run};
use lra_reports::show_run;
use std::alloc::Global;
use std::io::Read;

/// The deed that is done with each journal.
#[derive(Clone, Copy)]
pub enum Deed {
    /// Its report stands behind its name.
    Audit,
    /// Its listing, or the line of its first fault, stands below its name.
    Show,
}

/// The text that is printed of a journal, and its status: 0 where it is sound, else 1.
#[derive(Drop)]
pub struct Line {
    pub status: u8,
    pub text: Vec<u8>,
}

/// The line that is printed of a journal; or nothing where it can't be read.
pub(crate) type Told = Result<Option<Line>, RunFault>;

/// Returns what stands between a journal's name and its report or listing.
fn behind(deed: Deed) -> &'static [u8]
    ensures { result.now ≡ behind deed }
{
    match deed {
        Deed::Audit => b" ",
        Deed::Show => b"\n",
    }
}

/// Returns a journal's name, and what stands behind it.
fn front_of(alloc: Global, deed: Deed, name: &str) -> Result<Vec<u8>, Memory>
    ensures { IfOk result (λ front. front.items ≡ name.now ++ behind deed) }
{
    let mut front = Vec::new(alloc);
    front.extend_from_slice(name.as_bytes())?;
    front.extend_from_slice(behind(deed))?;
    Ok(front)
}

/// Adds the report or the listing of the journal that the reader gives to a text. Returns the journal's status.
fn add<F: Read + Drop>(
    alloc: Global,
    deed: Deed,
    file: F,
    text: &mut Vec<u8>,
) -> Result<u8, RunFault>
    ensures { (bytes : List ℕ) → F.remaining file ≡ Some bytes
        → IfOk result (λ status. Tells deed bytes status (Some text.old.items) (Some text.new.items)) }
{
    match deed {
        Deed::Audit => audit_run(alloc, file, text),
        Deed::Show => show_run(alloc, file, text),
    }
}

/// Returns what is printed of a journal of this name; nothing where there is no file, or it can't be read.
pub(crate) fn told_of<F: Read + Drop>(
    alloc: Global,
    deed: Deed,
    name: String,
    file: Option<F>,
) -> Told
    ensures { IsToldOf deed F.remaining (name, file) result }
{
    let Some(file) = file else {
        return Ok(None);
    };
    let mut text = front_of(alloc, deed, name.as_str())?;
    match add(alloc, deed, file, &mut text) {
        Ok(status) => Ok(Some(Line { status, text })),
        // The text is written into memory, so a failed write is a lack of memory.
        Err(RunFault::Memory | RunFault::Write) => Err(RunFault::Memory),
        Err(_) => Ok(None),
    }
}
