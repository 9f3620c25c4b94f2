//! Audits and listings of the journals of a folder, by their names.

ghost use Rattle.std.specs.Prelude.{
  ◌≡◌,
  ◌+◌,
  ◌-◌,
  ◌<◌,
  ◌≤◌,
  ◌^◌,
  ◌++◌,
  ℕ,
  List,
  Option,
  Some,
  IfOk,
  OnOk,
  codes,
  length,
  string_bytes,
};
ghost use Rattle.lra_words.specs.Asked.{texts};
ghost use Rattle.lra_folders.specs.declared.deed.Deed.{Deed};
ghost use Rattle.lra_folders.specs.declared.deed.Deed.TheVariants as deeds;
ghost use Rattle.lra_folders.specs.Folders.{
  path_of,
  behind,
  counted_as,
  TellsNext,
  TellsEach,
  TellsAll,
  AuditsAll,
  verdicts_counted,
  totals_line,
  status_of,
};
ghost use Rattle.lra_folders.specs.inner.Told.{IsTold, AllTold};

use crate::deed::{Deed, Told};
use crate::threads::{tell_names, width};
use lra_auditor::Memory;
use lra_audits::{RunFault, error_line, put};
use lra_reports::Sources;
use std::alloc::Global;
use std::io::{Read, Write};
use std::marker::{Send, Sync};
use std::thread::Threads;

/// The numbers of journals that are sound, that aren't, and that can't be read.
#[derive(Clone, Copy, PartialEq, Eq)]
pub struct Tally {
    pub sound: u64,
    pub unsound: u64,
    pub unread: u64,
}

/// The result of an audit of a folder.
#[derive(Drop)]
pub struct FolderAudit {
    /// The program's status: 2 where a journal can't be read, else 1 where one isn't sound, else 0.
    pub status: u8,
    /// The text for standard error.
    pub told: String,
}

/// Returns the path of a name in a folder.
pub(crate) fn path_in(alloc: Global, folder: &str, name: &str) -> Result<String, Memory>
    ensures { IfOk result (λ text. string_bytes text ≡ path_of folder.now name.now) }
{
    format!(in alloc; "{folder}/{name}")
}

/// Counts a journal that was read, by its status.
fn count(tally: &mut Tally, status: u8)
    requires { tally.old.sound + tally.old.unsound + tally.old.unread < 2 ^ 64 - 1 }
    ensures counted { tally.new ≡ counted_as status tally.old }
    ensures more { tally.new.sound + tally.new.unsound + tally.new.unread ≡ tally.old.sound + tally.old.unsound
        + tally.old.unread + 1 }
{
    if status == 0 {
        tally.sound += 1;
    } else {
        tally.unsound += 1;
    }
}

/// Writes the text of one more journal, or adds a line for standard error where it can't be read, and counts it.
fn write_next<W: Write>(
    alloc: Global,
    path: &str,
    journal: &Told,
    writer: &mut W,
    told: &mut String,
    tally: &mut Tally,
) -> Result<(), RunFault>
    requires { tally.old.sound + tally.old.unsound + tally.old.unread < 2 ^ 64 - 1 }
    ensures next { (deed : Deed) (bytes name : List ℕ) → IsTold deed bytes (name ++ behind deed) journal.now
        → OnOk result ((line : Option (ℕ × List ℕ)) × TellsNext deed bytes path.now name line
        (record { written = W.contents writer.old; told = string_bytes told.old; tally = tally.old })
        (record { written = W.contents writer.new; told = string_bytes told.new; tally = tally.new })) }
    ensures more { OnOk result (tally.new.sound + tally.new.unsound + tally.new.unread ≡ tally.old.sound
        + tally.old.unsound + tally.old.unread + 1) }
{
    match journal {
        Ok(Some(line)) => {
            put(writer, &line.text)?;
            count(tally, line.status);
        }
        Ok(None) => {
            told.push_str(&error_line(alloc, RunFault::Read, path)?)?;
            tally.unread += 1;
        }
        Err(fault) => return Err(*fault),
    }
    Ok(())
}

/// Writes the texts of the journals of these names, one after another, and counts the journals.
fn write_each<W: Write>(
    alloc: Global,
    folder: &str,
    names: &[String],
    journals: &[Told],
    writer: &mut W,
    told: &mut String,
    tally: &mut Tally,
) -> Result<(), RunFault>
    requires all { length journals.now ≡ length names.now }
    requires room { tally.old.sound + tally.old.unsound + tally.old.unread + length names.now < 2 ^ 64 }
    ensures each { (deed : Deed) (bytes : List ℕ → List ℕ) → AllTold deed bytes folder.now names.now (length names.now)
        journals.now → OnOk result (TellsEach deed bytes folder.now (texts names.now)
        (record { written = W.contents writer.old; told = string_bytes told.old; tally = tally.old })
        (record { written = W.contents writer.new; told = string_bytes told.new; tally = tally.new })) }
    ensures more { OnOk result (tally.new.sound + tally.new.unsound + tally.new.unread ≡ tally.old.sound
        + tally.old.unsound + tally.old.unread + length names.now) }
{
    for (place, name) in names.iter().enumerate() {
        let path = path_in(alloc, folder, name.as_str())?;
        write_next(alloc, path.as_str(), &journals[place], writer, told, tally)?;
    }
    Ok(())
}

/// Returns the first half of the last line: how many journals are sound, and how many unsound.
fn verdicts_text(alloc: Global, tally: Tally) -> Result<String, Memory>
    ensures { IfOk result (λ text. string_bytes text ≡ verdicts_counted tally) }
{
    let sound = tally.sound;
    let unsound = tally.unsound;
    format!(in alloc; "journals sound {sound} unsound {unsound}")
}

/// Returns the last line, which has the counts of journals.
fn line_of_totals(alloc: Global, tally: Tally) -> Result<String, Memory>
    ensures { IfOk result (λ text. string_bytes text ≡ totals_line tally) }
{
    let unread = tally.unread;
    let mut text = verdicts_text(alloc, tally)?;
    let rest = format!(in alloc; " unread {unread}\n")?;
    text.push_str(&rest)?;
    Ok(text)
}

/// Returns the program's status by the counts: 2 where a journal can't be read, else 1 where one isn't sound, else 0.
fn status_by(tally: Tally) -> u8
    ensures { result ≡ status_of tally }
{
    if tally.unread > 0 {
        return 2;
    }
    if tally.unsound > 0 {
        return 1;
    }
    0
}

/// Audits or lists the journals of these names in a folder, and counts them: as many side by side as threads run and
/// files can be open, and then as many again.
fn tell_each<R: Threads + Sync, F: Read + Send + Drop, S: Sources<File = F>, W: Write>(
    rt: &R,
    alloc: Global,
    deed: Deed,
    sources: &S,
    folder: &str,
    names: &[String],
    writer: &mut W,
    told: &mut String,
) -> Result<Tally, RunFault>
    ensures { (bytes : List ℕ → List ℕ) → ((path : List ℕ) → S.named sources.now path ≡ Some (bytes path))
        → IfOk result (λ tally. TellsEach deed bytes folder.now (texts names.now)
        (record {
          written = W.contents writer.old;
          told = string_bytes told.old;
          tally =
              record { sound = 0; unsound = 0; unread = 0 };
        })
        (record { written = W.contents writer.new; told = string_bytes told.new; tally = tally })) }
{
    let width = width(rt);
    let mut tally = Tally {
        sound: 0,
        unsound: 0,
        unread: 0,
    };
    let mut rest = names;
    while !rest.is_empty() {
        let (next, _) = rest.split_at(width.min(rest.len()));
        let journals = tell_names(rt, alloc, deed, sources, folder, next)?;
        let (done, others) = rest.split_at(journals.len());
        write_each(alloc, folder, done, &journals, writer, told, &mut tally)?;
        rest = others;
    }
    Ok(tally)
}

/// Audits or lists the journals of these names in a folder: writes the text of each, and at the end how many there are.
/// The text that is returned has a line for each that can't be read, or has more than 2^30 bytes.
fn tell_journals<R: Threads + Sync, F: Read + Send + Drop, S: Sources<File = F>, W: Write>(
    rt: &R,
    alloc: Global,
    deed: Deed,
    sources: &S,
    folder: &str,
    names: &[String],
    writer: &mut W,
) -> Result<FolderAudit, RunFault>
    ensures { (bytes : List ℕ → List ℕ) → ((path : List ℕ) → S.named sources.now path ≡ Some (bytes path))
        → IfOk result (λ audit. TellsAll deed bytes folder.now (texts names.now) (W.contents writer.old)
        (W.contents writer.new) (string_bytes audit.told) audit.status) }
{
    let mut told = String::new(alloc);
    let tally = tell_each(rt, alloc, deed, sources, folder, names, writer, &mut told)?;
    let line = line_of_totals(alloc, tally)?;
    put(writer, line.as_bytes())?;
    Ok(FolderAudit {
        status: status_by(tally),
        told,
    })
}

/// Audits the journals of these names in a folder, as many side by side as threads run: writes each one's name and its
/// report, in the order of the names, and at the end how many there are. The text that is returned has a line for each
/// that can't be read, or has more than 2^30 bytes.
pub fn audit_journals<R: Threads + Sync, F: Read + Send + Drop, S: Sources<File = F>, W: Write>(
    rt: &R,
    alloc: Global,
    sources: &S,
    folder: &str,
    names: &[String],
    writer: &mut W,
) -> Result<FolderAudit, RunFault>
    // Of a source that is known to have these bytes at each path.
    ensures ok { (bytes : List ℕ → List ℕ) → ((path : List ℕ) → S.named sources.now path ≡ Some (bytes path))
        → IfOk result (λ audit. AuditsAll bytes folder.now (texts names.now) (W.contents writer.old)
        (W.contents writer.new) (string_bytes audit.told) audit.status) }
{
    tell_journals(rt, alloc, Deed::Audit, sources, folder, names, writer)
}

/// Lists the journals of these names in a folder, side by side too: writes each one's listing below its name, or the
/// line of its first fault, and at the end how many there are. The text that is returned has a line for each that can't
/// be read, or has more than 2^30 bytes.
pub fn list_journals<R: Threads + Sync, F: Read + Send + Drop, S: Sources<File = F>, W: Write>(
    rt: &R,
    alloc: Global,
    sources: &S,
    folder: &str,
    names: &[String],
    writer: &mut W,
) -> Result<FolderAudit, RunFault>
    // Of a source that is known to have these bytes at each path.
    ensures ok { (bytes : List ℕ → List ℕ) → ((path : List ℕ) → S.named sources.now path ≡ Some (bytes path))
        → IfOk result (λ audit. TellsAll deeds.Show bytes folder.now (texts names.now) (W.contents writer.old)
        (W.contents writer.new) (string_bytes audit.told) audit.status) }
{
    tell_journals(rt, alloc, Deed::Show, sources, folder, names, writer)
}
