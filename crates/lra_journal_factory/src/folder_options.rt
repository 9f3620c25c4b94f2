//! Manner in which a folder is served, beside its settings.

ghost use Rattle.std.specs.Prelude.{◌≡◌};
ghost use Rattle.lra_journal_factory.specs.FirstOpen as spec;

use lra_journal_folder::{Contents, Folder, RollingFault};
use lra_model::Instance;
use lra_storage::Fence;
use std::fs::File;
use std::rt::Files;
use std::sync::Arc;

/// Manner in which a folder is served from one start on, beside its settings.
#[derive(Clone, Copy)]
pub struct FolderOptions<'a> {
    /// Mark that starts that name no action of the folder are refused. The service ends once nothing is left to be
    /// done.
    pub drains: bool,
    /// Mark that the folder was restored from a copy, which may lack entries that were answered since. The journals
    /// that it has accept no new work.
    pub is_restored: bool,
    /// Fence that names the folder's owner. Once it has fallen, nothing is written or synced.
    pub fence: Option<&'a Arc<Fence>>,
}

impl FolderOptions<'_> {
    /// Returns the instance up to which journals accept no new work, if the folder was restored. If the options say now
    /// that it was, writes that instance to the folder first.
    pub fn restored<R: Files<File = File> + AllocGlobal + Clone + Drop>(
        &self,
        folder: &Folder<'_, R>,
        contents: &Contents,
    ) -> Result<Option<Instance>, RollingFault> {
        if !self.is_restored {
            return folder.restored();
        }
        let Some(newest) = Instance::new(folder.newest(contents)?) else {
            return Ok(None);
        };
        match folder.note_restored(newest) {
            Ok(()) => Ok(Some(newest)),
            Err(error) => Err(folder.write_fault(&error)),
        }
    }
}

/// Returns the least number of an instance whose journal accepts new work. Journals up to the last one, if there is
/// one, accept none.
pub fn first_open(last: Option<Instance>) -> u64
    ensures { result ≡ spec.first_open last }
{
    match last {
        Some(last) => last.number().saturating_add(1),
        None => 0,
    }
}
