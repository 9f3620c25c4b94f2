//! Report of what would be served of a folder, without serving it.

ghost use Rattle.std.specs.Prelude.{◌≡◌, None, IsFalse, IfOk, IsErrAnd};
ghost use Rattle.lra_ids.specs.Addresses.{is_base};
ghost use Rattle.lra_ids.specs.Bases.{base_text};
ghost use Rattle.lra_folder_service.specs.Outcomes.{IsRefused, IsOfAddress};

use crate::running::FolderOutcome;
use lra_ids::Base;
use lra_journal_folder::{Folder, RollingFault, Sound, Unsound, audit_all};
use lra_opening::{Notifier, ServeFault};
use lra_server::{ServiceSite, put_number, put_olders, put_settings, put_text, site_at};
use lra_settings::Settings;
use std::alloc::Global;
use std::fs::File;
use std::io::Write;
use std::rt::Files;
use std::time::Clock;

/// Writes the report on sound journals.
fn write_report<W: Write>(
    alloc: Global,
    address: &str,
    site: &ServiceSite,
    olders: &[Base],
    path: &str,
    sounds: &[Sound],
    workers: u32,
    settings: &Settings,
    writer: &mut W,
) -> Result<(), ServeFault> {
    let mut entries = 0u64;
    for sound in sounds {
        entries = entries.saturating_add(sound.opening.count_entries());
    }
    put_text(alloc, "address", address, writer)?;
    put_text(alloc, "base", site.base.as_str(), writer)?;
    put_olders(alloc, olders, writer)?;
    put_text(alloc, "folder", path, writer)?;
    put_number(alloc, "workers", u64::from(workers), writer)?;
    put_number(alloc, "journals", sounds.len() as u64, writer)?;
    put_number(alloc, "entries", entries, writer)?;
    put_settings(alloc, settings, writer)
}

/// Audits the journals of a folder, and writes the report on them if all are sound.
fn check_at<R: Files<File = File> + AllocGlobal + Clone + Drop + Clock, V: Notifier, W: Write>(
    rt: &R,
    address: &str,
    site: &ServiceSite,
    olders: &[Base],
    path: &str,
    workers: u32,
    settings: &Settings,
    watcher: &V,
    writer: &mut W,
) -> Result<FolderOutcome, RollingFault>
    ensures { IfOk result (IsRefused (W.contents writer.old) (W.contents writer.new)) }
{
    let folder = Folder::open(rt, path)?;
    let contents = folder.contents()?;
    match audit_all(rt, &folder, &contents, watcher, writer)? {
        Err(Unsound { status, path }) => Ok(FolderOutcome::Unsound { status, path }),
        Ok(sounds) => {
            write_report(
                rt.alloc(),
                address,
                site,
                olders,
                path,
                &sounds,
                workers,
                settings,
                writer,
            )?;
            Ok(FolderOutcome::Ended)
        }
    }
}

/// Writes what would be served of a folder at an address, a line each: the address, the base and the older ones, the
/// folder's name, the number of connection workers, the numbers of journals and of their entries, and all settings. The
/// folder and its journals are found, locked and audited, as before they are served. Nothing is created, bound or
/// written.
pub fn check_folder<
    R: Files<File = File> + AllocGlobal + Clone + Drop + Clock,
    V: Notifier,
    W: Write,
>(
    rt: &R,
    address: &str,
    base: Option<Base>,
    olders: &[Base],
    path: &str,
    workers: u32,
    settings: &Settings,
    watcher: &V,
    writer: &mut W,
) -> Result<FolderOutcome, RollingFault>
    ensures unsound { IfOk result (IsRefused (W.contents writer.old) (W.contents writer.new)) }
    ensures base { base ≡ None → IsFalse (is_base (base_text address.now)) → IsErrAnd result IsOfAddress
        × (W.contents writer.new ≡ W.contents writer.old) }
{
    let site = match site_at(rt.alloc(), address, base) {
        Ok(site) => site,
        Err(fault) => return Err(RollingFault::Here(fault)),
    };
    let checked = check_at(
        rt, address, &site, olders, path, workers, settings, watcher, writer,
    );
    drop(site);
    checked
}
