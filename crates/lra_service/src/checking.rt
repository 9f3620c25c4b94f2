//! Report of what would be served, without serving it.

ghost use Rattle.std.specs.Prelude.{◌≡◌, ◌≢◌, IsFalse, IfOk, IsErrAnd};
ghost use Rattle.lra_ids.specs.Addresses.{is_base};
ghost use Rattle.lra_ids.specs.Bases.{base_text};
ghost use Rattle.lra_opening.specs.Ends.{IsRefused, IsOfAddress};

use lra_audits::put;
use lra_core::Opening;
use lra_ids::Base;
use lra_opening::{Found, Place, ServeFault, find_journal, is_new, refuse};
use lra_server::{ServiceSite, put_number, put_olders, put_settings, put_text, site_at};
use lra_settings::Settings;
use std::alloc::Global;
use std::io::Write;

/// Writes the number of entries of a sound journal, or that the journal is new.
fn put_journal<W: Write>(
    alloc: Global,
    opening: &Opening,
    writer: &mut W,
) -> Result<(), ServeFault> {
    if is_new(opening) {
        Ok(put(writer, "journal = \"new\"\n".as_bytes())?)
    } else {
        put_number(alloc, "entries", opening.count_entries(), writer)
    }
}

/// Returns a fault unless the file that was found could be appended to.
fn can_be_kept<P: Place>(place: &P, found: &Found<P::File>) -> Result<(), ServeFault> {
    match found {
        Found::Missing => place.sync_name(),
        Found::Guarded(_) => Err(ServeFault::File),
        Found::Open(_) => Ok(()),
    }
}

/// Writes what would be served at an address, a line each: the address, the bases, the name of the journal's file, the
/// number of workers of each kind, the number of the journal's entries, and all settings. Finds, locks and audits the
/// file as before it is served, but creates, binds and changes nothing. If the journal isn't sound, writes the audit as
/// `lra audit` does. Returns the program's status.
pub fn check_place<P: Place, W: Write>(
    alloc: Global,
    address: &str,
    base: Option<Base>,
    olders: &[Base],
    file: &str,
    place: &P,
    workers: u32,
    settings: &Settings,
    writer: &mut W,
) -> Result<u8, ServeFault>
    ensures unsound { IfOk result (λ status. status ≢ 0 → IsRefused (P.had place.now) (W.contents writer.old)
        (W.contents writer.new) status) }
    ensures base { base ≡ None → IsFalse (is_base (base_text address.now)) → IsErrAnd result IsOfAddress
        × (W.contents writer.new ≡ W.contents writer.old) }
{
    let site = site_at(alloc, address, base)?;
    let (found, opening) = find_journal(alloc, place)?;
    if let Some(told) = refuse(alloc, &opening, writer) {
        drop(found);
        drop(opening);
        drop(site);
        return told;
    }
    let kept = can_be_kept(place, &found);
    drop(found);
    let told = match kept {
        Ok(()) => write_report(
            alloc, address, &site, olders, file, &opening, workers, settings, writer,
        ),
        Err(fault) => Err(fault),
    };
    drop(opening);
    drop(site);
    match told {
        Ok(()) => Ok(0),
        Err(fault) => Err(fault),
    }
}

/// Writes what would be served, for a journal that could be served.
fn write_report<W: Write>(
    alloc: Global,
    address: &str,
    site: &ServiceSite,
    olders: &[Base],
    file: &str,
    opening: &Opening,
    workers: u32,
    settings: &Settings,
    writer: &mut W,
) -> Result<(), ServeFault> {
    put_text(alloc, "address", address, writer)?;
    put_text(alloc, "base", site.base.as_str(), writer)?;
    put_olders(alloc, olders, writer)?;
    put_text(alloc, "file", file, writer)?;
    put_number(alloc, "workers", u64::from(workers), writer)?;
    put_journal(alloc, opening, writer)?;
    put_settings(alloc, settings, writer)
}
