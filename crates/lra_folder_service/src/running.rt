//! The run of a service over a folder.

ghost use Rattle.std.specs.Prelude.{◌≡◌, None, IsFalse, IfOk, IfErr, IsErrAnd};
ghost use Rattle.lra_ids.specs.Addresses.{is_base};
ghost use Rattle.lra_ids.specs.Bases.{base_text};
ghost use Rattle.lra_folder_service.specs.Outcomes.{HasSaid, IsSaid, IsOfAddress};

use crate::folder_service::{FENCE_LOST, FolderService};
use crate::operators_view::OperatorsContext;
use lra_admission::KeyFiles;
use lra_audits::RunFault;
use lra_ids::Base;
use lra_journal_factory::{FolderOptions, GivenUpNotes, OpeningContext};
use lra_journal_folder::{Contents, Folder, GivenUp, RollingFault, Unsound, audit_all, told};
use lra_logs::EventSink;
use lra_opening::{Notifier, ServeFault};
use lra_operators_server::{OperatorsServer, Tallies};
use lra_server::{AccessPolicy, ServiceInput, ServiceSite, fit_descriptors, limits_of, site_at};
use lra_settings::{Settings, taken_by_folder};
use lra_storage::Storage;
use std::alloc::Global;
use std::fs::File;
use std::io::{Error, ErrorKind, Read, Write};
use std::marker::{Send, Sync};
use std::net::{Net, TcpListener, TcpStream};
use std::rt::Files;
use std::sync::Wait;
use std::thread::Threads;
use std::time::Clock;

/// End of a service over a folder, without a fault.
#[derive(Drop)]
pub enum FolderOutcome {
    /// The journal of that path isn't sound. The report is written, and this is the program's status.
    Unsound { status: u8, path: String },
    /// The service ended gently: work in flight is recorded or given up, and all is synced.
    Ended,
}

/// Means and words with which a folder is served.
#[derive(Drop)]
struct FolderContext<'a, R, V, H> {
    rt: &'a R,
    alloc: Global,
    address: &'a str,
    access_policy: AccessPolicy<'a>,
    path: &'a str,
    workers: u32,
    settings: Settings,
    folder_options: FolderOptions<'a>,
    operators: Option<&'a OperatorsServer>,
    watcher: &'a V,
    notifier: &'a H,
}

/// Folder that is found and locked, and the site at which it is served.
#[derive(Drop)]
struct FoundFolder<'a, R> {
    site: &'a ServiceSite,
    folder: &'a Folder<'a, R>,
    contents: &'a Contents,
    /// Settings that fit the limit of open files.
    settings: Settings,
    /// Members that operators have given up.
    given_up: &'a [GivenUp],
}

/// Returns the notes of given-up members: a file that has these already, if there is an operators' server, and else
/// none.
fn notes_of<R: Files<File = File> + AllocGlobal + Clone + Drop>(
    folder: &Folder<'_, R>,
    is_watched: bool,
    given_up: &[GivenUp],
) -> Result<GivenUpNotes, RollingFault> {
    if !is_watched {
        return Ok(GivenUpNotes::new(None));
    }
    match folder.note_given_up(given_up) {
        Ok(file) => Ok(GivenUpNotes::new(Some(file))),
        Err(error) => Err(folder.write_fault(&error)),
    }
}

/// Returns the fault of a storage that can't be made: the fence has fallen by now, or memory is refused.
fn storage_fault(alloc: Global, error: &Error) -> RollingFault {
    if error.kind() == ErrorKind::PermissionDenied {
        told(String::from_str(alloc, FENCE_LOST))
    } else {
        RollingFault::Here(ServeFault::Run(RunFault::Memory))
    }
}

/// Returns the operators' server, if there is one, and what it reports of a folder.
fn operators_context_of<'a, R: Files<File = File> + AllocGlobal + Clone + Drop>(
    alloc: Global,
    operators: Option<&'a OperatorsServer>,
    found: &FoundFolder<'a, R>,
) -> Result<OperatorsContext<'a>, RollingFault> {
    let tallies = Tallies::new(alloc, operators, found.settings.sync_seconds)?;
    match notes_of(found.folder, operators.is_some(), found.given_up) {
        Ok(notes) => Ok(OperatorsContext {
            operators_server: operators,
            base: &found.site.base,
            limits: limits_of(&found.settings),
            tallies,
            notes,
        }),
        Err(fault) => {
            drop(tallies);
            Err(fault)
        }
    }
}

/// Audits the journals of a folder in a storage, and serves them if all are sound.
fn serve_audited<
    R: Files<File = File>
        + KeyFiles
        + AllocGlobal
        + Clone
        + Drop
        + Threads
        + Wait
        + Clock
        + Net<Stream = TcpStream, Listener = TcpListener>
        + Sync
        + Send,
    I: Read + Send + Drop + 'static,
    V: Notifier + Sync,
    H: Notifier + EventSink + Sync,
    W: Write,
>(
    context: &FolderContext<'_, R, V, H>,
    found: &FoundFolder<'_, R>,
    operators_context: &OperatorsContext<'_>,
    storage: &Storage,
    entry: &mut ServiceInput<I>,
    writer: &mut W,
) -> Result<FolderOutcome, RollingFault>
    ensures ended { IfOk result (HasSaid context.now.address.now (W.contents writer.old) (W.contents writer.new)) }
    ensures fault { IfErr result (IsSaid context.now.address.now (W.contents writer.old) (W.contents writer.new)) }
{
    let service = FolderService {
        rt: context.rt,
        alloc: context.alloc,
        address: context.address,
        site: found.site,
        access_policy: context.access_policy,
        folder: found.folder,
        contents: found.contents,
        workers: context.workers,
        settings: found.settings,
        watcher: context.watcher,
        notifier: context.notifier,
        operators_context,
        folder_options: context.folder_options,
        given_up: found.given_up,
        storage,
    };
    service.report_others();
    let served = match audit_all(
        context.rt,
        found.folder,
        found.contents,
        context.watcher,
        writer,
    ) {
        Ok(Ok(sounds)) => {
            let opener = OpeningContext::new(
                context.rt,
                context.alloc,
                storage,
                &found.site.base,
                limits_of(&found.settings),
            );
            service.serve_on(opener, sounds, entry, writer)
        }
        Ok(Err(Unsound { status, path })) => Ok(FolderOutcome::Unsound { status, path }),
        Err(fault) => Err(fault),
    };
    drop(service);
    served
}

impl<
    R: Files<File = File>
        + KeyFiles
        + AllocGlobal
        + Clone
        + Drop
        + Threads
        + Wait
        + Clock
        + Net<Stream = TcpStream, Listener = TcpListener>
        + Sync
        + Send,
    V: Notifier + Sync,
    H: Notifier + EventSink + Sync,
> FolderContext<'_, R, V, H> {
    /// Makes the storage of a folder's journals, and serves them.
    fn serve_stored<I: Read + Send + Drop + 'static, W: Write>(
        &self,
        found: &FoundFolder<'_, R>,
        entry: &mut ServiceInput<I>,
        writer: &mut W,
    ) -> Result<FolderOutcome, RollingFault>
        ensures ended { IfOk result (HasSaid self.now.address.now (W.contents writer.old) (W.contents writer.new)) }
        ensures fault { IfErr result (IsSaid self.now.address.now (W.contents writer.old) (W.contents writer.new)) }
    {
        let operators_context = operators_context_of(self.alloc, self.operators, found)?;
        let syncs = operators_context.tallies.syncs();
        let served = match Storage::new(self.alloc, syncs, self.folder_options.fence) {
            Ok(storage) => {
                let served = serve_audited(
                    self,
                    found,
                    &operators_context,
                    &storage,
                    entry,
                    writer,
                );
                drop(storage);
                served
            }
            Err(error) => Err(storage_fault(self.alloc, &error)),
        };
        drop(operators_context);
        served
    }

    /// Fits the settings to the limit of open files, and serves a folder of these contents.
    fn serve_contents<I: Read + Send + Drop + 'static, W: Write>(
        &self,
        site: &ServiceSite,
        folder: &Folder<'_, R>,
        contents: &Contents,
        entry: &mut ServiceInput<I>,
        writer: &mut W,
    ) -> Result<FolderOutcome, RollingFault>
        ensures ended { IfOk result (HasSaid self.now.address.now (W.contents writer.old) (W.contents writer.new)) }
        ensures fault { IfErr result (IsSaid self.now.address.now (W.contents writer.old) (W.contents writer.new)) }
    {
        let journals = u32::try_from(contents.journals.len()).unwrap_or(u32::MAX);
        let settings = fit_descriptors(
            self.rt,
            self.alloc,
            self.notifier,
            taken_by_folder(self.workers, journals),
            self.settings,
        )?;
        let given_up = folder.given_up(contents)?;
        let found = FoundFolder {
            site,
            folder,
            contents,
            settings,
            given_up: given_up.as_slice(),
        };
        let served = self.serve_stored(&found, entry, writer);
        drop(given_up);
        served
    }

    /// Opens a folder, and serves it at a site.
    fn serve_at<I: Read + Send + Drop + 'static, W: Write>(
        &self,
        site: &ServiceSite,
        entry: &mut ServiceInput<I>,
        writer: &mut W,
    ) -> Result<FolderOutcome, RollingFault>
        ensures ended { IfOk result (HasSaid self.now.address.now (W.contents writer.old) (W.contents writer.new)) }
        ensures fault { IfErr result (IsSaid self.now.address.now (W.contents writer.old) (W.contents writer.new)) }
    {
        let folder = Folder::open(self.rt, self.path)?;
        let served = match folder.contents() {
            Ok(contents) => {
                let served = self.serve_contents(site, &folder, &contents, entry, writer);
                drop(contents);
                served
            }
            Err(fault) => Err(fault),
        };
        drop(folder);
        served
    }
}

/// Serves the coordinators of a folder's journals at an address, as `serve_with` of `lra_service` serves a file's. New
/// work that names no journal goes to the newest journal. Once that is full, or has as many actions as it is to have,
/// the next one replaces it. A journal that isn't the newest is archived once nothing of it is left to be done. If
/// there is an operators' server, one more thread runs it, for all journals. A service that drains ends gently once
/// nothing is left to be done in any journal, for as long as the journal would stay.
pub fn serve_folder<
    R: Files<File = File>
        + KeyFiles
        + AllocGlobal
        + Clone
        + Drop
        + Threads
        + Wait
        + Clock
        + Net<Stream = TcpStream, Listener = TcpListener>
        + Sync
        + Send,
    I: Read + Send + Drop + 'static,
    V: Notifier + Sync,
    H: Notifier + EventSink + Sync,
    W: Write,
>(
    rt: &R,
    address: &str,
    base: Option<Base>,
    access_policy: AccessPolicy<'_>,
    path: &str,
    workers: u32,
    settings: Settings,
    folder_options: FolderOptions<'_>,
    operators: Option<&OperatorsServer>,
    entry: ServiceInput<I>,
    watcher: &V,
    notifier: &H,
    writer: &mut W,
) -> Result<FolderOutcome, RollingFault>
    ensures ended { IfOk result (HasSaid address.now (W.contents writer.old) (W.contents writer.new)) }
    ensures fault { IfErr result (IsSaid address.now (W.contents writer.old) (W.contents writer.new)) }
    ensures base { base ≡ None → IsFalse (is_base (base_text address.now)) → IsErrAnd result IsOfAddress
        × (W.contents writer.new ≡ W.contents writer.old) }
{
    let mut entry = entry;
    let context = FolderContext {
        rt,
        alloc: rt.alloc(),
        address,
        access_policy,
        path,
        workers,
        settings,
        folder_options,
        operators,
        watcher,
        notifier,
    };
    let site = match site_at(context.alloc, address, base) {
        Ok(site) => site,
        Err(fault) => {
            drop(entry);
            return Err(RollingFault::Here(fault));
        }
    };
    let served = context.serve_at(&site, &mut entry, writer);
    drop(site);
    drop(entry);
    served
}
