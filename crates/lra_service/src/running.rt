//! Run of a service.

ghost use Rattle.std.specs.Prelude.{◌≡◌, ℕ, List, true, None, option_map, ◌⊎◌, IsFalse, IfOk, IfErr, OnOk, IsErrAnd};
ghost use Rattle.std.specs.Io.KnownBytes.{Appends};
ghost use Rattle.lra_ids.specs.Addresses.{is_base};
ghost use Rattle.lra_ids.specs.Bases.{base_text};
ghost use Rattle.lra_office.specs.Wholes.{whole_lines};
ghost use Rattle.lra_opening.specs.Ends.{serving_line, IsSaid, IsRefused, IsOfAddress};
ghost use Rattle.lra_opening.specs.Faults.{IsOfNoScript};
ghost use Rattle.lra_opening.specs.Places.{IsFound, IsRead};
ghost use Rattle.lra_service.specs.Outcomes.{HasSaid};
ghost use Rattle.lra_server.specs.Limited.{limits_of};
ghost use Rattle.lra_service.specs.inner.Opened.{IsOpenAt};

use crate::measure::{JournalAtStart, ServiceStatistics, begun_from};
use crate::polls::{Polls, polls_of};
use crate::roles::spawn_all;
use crate::service_state::ServiceState;
use crate::starting::work;
use lra_admission::KeyFiles;
use lra_audits::{LONGEST, RunFault};
use lra_clocks::milliseconds;
use lra_core::Opening;
use lra_durable::{JournalWriter, Progress, SyncGroup};
use lra_ids::Base;
use lra_logs::{Event, EventSink};
use lra_office::{Clerk, Desk, Office};
use lra_opening::{
    Found, NamedFile, Notifier, Place, ServeFault, find_journal, open_office, ready_file, refuse,
};
use lra_operators_server::{OperatorsServer, Tallies};
use lra_rules::Rules;
use lra_server::{
    AccessPolicy, NullNotifier, ServiceInput, ServiceSite, SocketAcceptor, end_of, limits_of,
    listener_at, make_socket_acceptor, site_at,
};
use lra_settings::Settings;
use lra_storage::{FileDisk, OpenFile, Storage};
use std::alloc::Global;
use std::fs::File;
use std::io::{self, ErrorKind, Read, Write};
use std::marker::{Send, Sync};
use std::net::{Net, TcpListener, TcpStream};
use std::rt::Files;
use std::sync::{Arc, Wait};
use std::thread::Threads;
use std::time::Clock;

/// End of a service, without a fault.
#[derive(Clone, Copy, PartialEq, Eq)]
pub enum ServiceOutcome {
    /// The journal isn't sound: its audit was written, and this is the program's status.
    Unsound(u8),
    /// The service ended gently: what was in flight is recorded or given up, and all is synced.
    Ended,
}

/// Service: its means, its settings, and what it serves.
#[derive(Drop)]
struct Service<'a, R, P, H> {
    rt: &'a R,
    alloc: Global,
    notifier: &'a H,
    address: &'a str,
    site: &'a ServiceSite,
    /// Access policy for requests and members.
    access_policy: AccessPolicy<'a>,
    /// Location of the journal.
    place: &'a P,
    workers: u32,
    settings: Settings,
    /// Operators' server, if there is one.
    operators: Option<&'a OperatorsServer>,
}

/// Parts of a service that is ready to serve: the open file of its journal, the acceptor, the polls of its threads, and
/// the moment from which their clocks go on.
#[derive(Drop)]
struct OpenedJournal<'a, R> {
    storage: Storage,
    progress: Arc<Progress<FileDisk>>,
    journal_writer: JournalWriter<&'a R, FileDisk>,
    end: FileEnd,
    acceptor: SocketAcceptor,
    polls: Polls,
    moment: u64,
    measure: ServiceStatistics,
}

/// Journal's file that is open in a storage of its own, and open once more to be read.
#[derive(Drop)]
struct OpenDisk<'a, R> {
    storage: Storage,
    opened: OpenFile<&'a R>,
    end: FileEnd,
}

/// Journal's file that is open once more, to be read from an offset on.
#[derive(Drop)]
pub(crate) struct FileEnd {
    pub(crate) file: File,
    pub(crate) at: u64,
}

/// Opens a journal's file, and notes its syncs in the tallies.
fn open_disk<'a, R: Wait>(
    rt: &'a R,
    alloc: Global,
    file: File,
    tallies: &Tallies,
) -> io::Result<OpenDisk<'a, R>> {
    let at = file.metadata()?.len();
    let end = FileEnd {
        file: file.try_clone()?,
        at,
    };
    let storage = Storage::new(alloc, tallies.syncs(), None)?;
    let opened = storage.open(rt, file, LONGEST as u64)?;
    Ok(OpenDisk {
        storage,
        opened,
        end,
    })
}

/// Returns the fault of a journal's file that can't be opened: memory is refused, or it can't be written.
fn disk_fault(error: &io::Error) -> ServeFault
    ensures { IsOfNoScript result }
{
    if error.kind() == ErrorKind::OutOfMemory {
        ServeFault::Run(RunFault::Memory)
    } else {
        ServeFault::File
    }
}

/// Returns the tallies of a service that begins.
fn tallies_of(
    alloc: Global,
    operators_server: Option<&OperatorsServer>,
    sync_seconds: u64,
) -> Result<Tallies, ServeFault>
    ensures { IfErr result IsOfNoScript }
{
    match Tallies::new(alloc, operators_server, sync_seconds) {
        Ok(tallies) => Ok(tallies),
        Err(_) => Err(ServeFault::Run(RunFault::Memory)),
    }
}

/// Opens a journal's file, of which all bytes are durable from then on. Returns the parts of a service that is ready to
/// serve.
fn open_journal_at<'a, R: Wait>(
    rt: &'a R,
    alloc: Global,
    file: File,
    acceptor: SocketAcceptor,
    polls: Polls,
    tallies: Tallies,
    begun: JournalAtStart,
    moment: u64,
) -> Result<OpenedJournal<'a, R>, ServeFault>
    ensures { IfErr result IsOfNoScript }
{
    let disk = match open_disk(rt, alloc, file, &tallies) {
        Ok(disk) => disk,
        Err(error) => {
            drop(acceptor);
            drop(polls);
            drop(tallies);
            return Err(disk_fault(&error));
        }
    };
    let OpenDisk {
        storage,
        opened,
        end,
    } = disk;
    let OpenFile {
        file,
        progress,
        writer,
    } = opened;
    Ok(OpenedJournal {
        storage,
        progress,
        journal_writer: writer,
        end,
        acceptor,
        polls,
        moment,
        measure: ServiceStatistics {
            file,
            begun,
            tallies,
        },
    })
}

impl<
    R: KeyFiles + Threads + Wait + Clock + Net<Stream = TcpStream, Listener = TcpListener> + Sync,
    P: Place<File = File>,
    H: Notifier + EventSink + Sync,
> Service<'_, R, P, H> {
    /// Starts all threads, writes that the service serves, and serves connections until none can come any more.
    fn serve_office<K: Write + Drop + Send, W: Write>(
        &self,
        service_state: &ServiceState<'_, R, H>,
        office: &Office<K>,
        clerk: Clerk<Desk<K>>,
        writer: &mut W,
    ) -> Result<(), ServeFault>
        requires { IsOpenAt (P.had self.now.place.now) self.now.site.now.base (limits_of self.now.settings)
            service_state.now.moment office.now clerk }
        ensures said { OnOk result (Appends (W.contents writer.old) (W.contents writer.new)
            (serving_line self.now.address.now)) }
        ensures fault { IfErr result (IsSaid self.now.address.now (W.contents writer.old) (W.contents writer.new)) }
    {
        let jobs = spawn_all(
            self.rt,
            self.alloc,
            office,
            clerk,
            service_state.moment,
            self.workers,
            service_state.is_watched(),
        )?;
        work(service_state, office, jobs, self.address, writer)
    }

    /// Returns the office of a journal, and its first clerk.
    fn open<K: Write + Drop>(
        &self,
        opening: Opening,
        journal_writer: K,
        moment: u64,
    ) -> Result<(Office<K>, Clerk<Desk<K>>), ServeFault>
        requires journal { IsRead (P.had self.now.place.now) opening }
        ensures opened { IfOk result (λ opened. IsOpenAt (P.had self.now.place.now) self.now.site.now.base
            (limits_of self.now.settings) moment opened.0 opened.1) }
        ensures fault { IfErr result IsOfNoScript }
    {
        let Ok(base) = self.site.base.copy() else {
            drop(opening);
            drop(journal_writer);
            return Err(ServeFault::Run(RunFault::Memory));
        };
        let limits = limits_of(&self.settings);
        open_office(
            self.rt,
            self.alloc,
            base,
            limits,
            opening,
            journal_writer,
            moment,
        )
    }

    /// Opens the office of a journal, and serves.
    fn serve_journal<K: Write + Drop + Send, W: Write>(
        &self,
        service_state: &ServiceState<'_, R, H>,
        opening: Opening,
        journal_writer: K,
        progress: Arc<Progress<FileDisk>>,
        writer: &mut W,
    ) -> Result<(), ServeFault>
        requires journal { IsRead (P.had self.now.place.now) opening }
        ensures said { OnOk result (Appends (W.contents writer.old) (W.contents writer.new)
            (serving_line self.now.address.now)) }
        ensures fault { IfErr result (IsSaid self.now.address.now (W.contents writer.old) (W.contents writer.new)) }
    {
        let (office, clerk) = self.open(opening, journal_writer, service_state.moment)?;
        if service_state.add(office.instance(), progress).is_err() {
            drop(clerk);
            drop(office);
            return Err(ServeFault::Run(RunFault::Memory));
        }
        let served = self.serve_office(service_state, &office, clerk, writer);
        drop(office);
        served
    }

    /// Opens the office of a journal with the parts that are ready, and serves. Returns how the service has ended.
    fn serve_at<W: Write>(
        &self,
        opened: OpenedJournal<'_, R>,
        opening: Opening,
        writer: &mut W,
    ) -> Result<ServiceOutcome, ServeFault>
        requires journal { IsRead (P.had self.now.place.now) opening }
        ensures ended { IfOk result (HasSaid (P.had self.now.place.now) self.now.address.now (W.contents writer.old)
            (W.contents writer.new)) }
        ensures fault { IfErr result (IsSaid self.now.address.now (W.contents writer.old) (W.contents writer.new)) }
    {
        let OpenedJournal {
            storage,
            progress,
            journal_writer,
            end: file_end,
            acceptor,
            polls,
            moment,
            measure,
        } = opened;
        let SocketAcceptor { line, ending } = acceptor;
        let journals = storage.journals();
        let service_state = ServiceState::new(
            self.rt,
            self.alloc,
            self.notifier,
            &self.settings,
            self.access_policy,
            journals,
            &ending,
            line,
            polls,
            moment,
            self.operators,
            measure,
            file_end,
        );
        let served = self.serve_journal(&service_state, opening, journal_writer, progress, writer);
        drop(service_state);
        if journals.has_failed(self.rt) {
            self.notifier.note(&Event::SyncFailed);
        }
        let end = end_of(self.rt, journals, &ending);
        drop(storage);
        drop(ending);
        match served {
            Ok(()) => match end {
                Ok(()) => Ok(ServiceOutcome::Ended),
                Err(fault) => Err(fault),
            },
            Err(fault) => Err(fault),
        }
    }

    /// Returns the parts of a service that is ready to serve, on a file that has just its journal's whole lines.
    fn open_journal(
        &self,
        file: File,
        acceptor: SocketAcceptor,
        begun: JournalAtStart,
        latest: u64,
    ) -> Result<OpenedJournal<'_, R>, ServeFault>
        requires { P.contents file ≡ option_map whole_lines (P.had self.now.place.now) }
        ensures { IfErr result IsOfNoScript }
    {
        let Some(now) = milliseconds(self.rt) else {
            return Err(ServeFault::Address);
        };
        let polls = polls_of(self.rt, self.alloc, self.workers)?;
        let tallies = tallies_of(self.alloc, self.operators, self.settings.sync_seconds)?;
        // If the journal has a later moment, for example by a clock that was wrong, the service goes on from that
        // moment.
        let moment = now.max(latest);
        open_journal_at(
            self.rt, self.alloc, file, acceptor, polls, tallies, begun, moment,
        )
    }

    /// Makes the acceptor of the site's socket ready, and the file that was found for the journal.
    fn make_ready<I: Read + Send + Drop + 'static>(
        &self,
        found: Found<File>,
        opening: &Opening,
        entry: ServiceInput<I>,
    ) -> Result<OpenedJournal<'_, R>, ServeFault>
        requires found { IsFound P.contents (P.had self.now.place.now) found }
        requires journal { IsRead (P.had self.now.place.now) opening.now }
        ensures { IfErr result IsOfNoScript }
    {
        let ServiceInput { listener, input } = entry;
        let listener = listener_at(self.rt, self.site.socket.as_str(), listener)?;
        let file = ready_file(self.place, found, opening)?;
        let acceptor = make_socket_acceptor(self.rt, self.alloc, listener, input)?;
        let begun = begun_from(opening, limits_of(&self.settings));
        self.open_journal(file, acceptor, begun, opening.last_moment())
    }

    /// Serves a sound journal, whose file was found.
    fn serve_found<I: Read + Send + Drop + 'static, W: Write>(
        &self,
        found: Found<File>,
        opening: Opening,
        entry: ServiceInput<I>,
        writer: &mut W,
    ) -> Result<ServiceOutcome, ServeFault>
        requires found { IsFound P.contents (P.had self.now.place.now) found }
        requires journal { IsRead (P.had self.now.place.now) opening }
        ensures ended { IfOk result (HasSaid (P.had self.now.place.now) self.now.address.now (W.contents writer.old)
            (W.contents writer.new)) }
        ensures fault { IfErr result (IsSaid self.now.address.now (W.contents writer.old) (W.contents writer.new)) }
    {
        match self.make_ready(found, &opening, entry) {
            Ok(opened) => self.serve_at(opened, opening, writer),
            Err(fault) => {
                drop(opening);
                Err(fault)
            }
        }
    }

    /// Finds, locks and audits the journal at its location. Serves it if it is sound, and otherwise writes its audit.
    fn serve_place<I: Read + Send + Drop + 'static, W: Write>(
        &self,
        entry: ServiceInput<I>,
        writer: &mut W,
    ) -> Result<ServiceOutcome, ServeFault>
        ensures ended { IfOk result (HasSaid (P.had self.now.place.now) self.now.address.now (W.contents writer.old)
            (W.contents writer.new)) }
        ensures fault { IfErr result (IsSaid self.now.address.now (W.contents writer.old) (W.contents writer.new)) }
    {
        let (found, opening) = find_journal(self.alloc, self.place)?;
        if let Some(told) = refuse(self.alloc, &opening, writer) {
            drop(found);
            drop(opening);
            drop(entry);
            return match told {
                Ok(status) => Ok(ServiceOutcome::Unsound(status)),
                Err(fault) => Err(fault),
            };
        }
        self.serve_found(found, opening, entry, writer)
    }
}

/// Serves the coordinator of a location's journal at an address, with so many connection workers and as many callback
/// workers, until the last connection worker has ended: then returns [`ServeFault::Address`]. Identifiers begin with
/// the base, if there is one. Clients may also send identifiers that begin with the older bases. If the journal isn't
/// sound, writes its audit as `lra audit` does, and returns the program's status.
///
/// Ends gently once the input has ended, if there is one: accepts no more connections, reads no more requests, sends
/// the replies that wait, records the outcomes of the callbacks under way for 10 s at most, and syncs all. If a thread
/// ends before that, its end is reported at once, with the reason. If there is an operators' server, one more thread
/// answers operators there.
///
/// Writes to a file that has just the whole lines of what the location had. The office that serves goes on from these
/// lines ([`ready_file`], [`open_office`]).
pub fn serve_with<
    R: KeyFiles
        + Threads
        + Wait
        + Clock
        + Net<Stream = TcpStream, Listener = TcpListener>
        + AllocGlobal
        + Sync,
    P: Place<File = File>,
    I: Read + Send + Drop + 'static,
    H: Notifier + EventSink + Sync,
    W: Write,
>(
    rt: &R,
    address: &str,
    base: Option<Base>,
    access_policy: AccessPolicy<'_>,
    place: &P,
    workers: u32,
    settings: Settings,
    operators: Option<&OperatorsServer>,
    entry: ServiceInput<I>,
    notifier: &H,
    writer: &mut W,
) -> Result<ServiceOutcome, ServeFault>
    ensures ended { IfOk result (HasSaid (P.had place.now) address.now (W.contents writer.old)
        (W.contents writer.new)) }
    ensures fault { IfErr result (IsSaid address.now (W.contents writer.old) (W.contents writer.new)) }
    ensures base { base ≡ None → IsFalse (is_base (base_text address.now)) → IsErrAnd result IsOfAddress
        × (W.contents writer.new ≡ W.contents writer.old) }
{
    let alloc = rt.alloc();
    let site = site_at(alloc, address, base)?;
    let service = Service {
        rt,
        alloc,
        notifier,
        address,
        site: &site,
        access_policy,
        place,
        workers,
        settings,
        operators,
    };
    service.serve_place(entry, writer)
}

/// Serves as [`serve_with`] does, with the usual settings, and until a fault.
pub fn serve_from<
    R: KeyFiles
        + Threads
        + Wait
        + Clock
        + Net<Stream = TcpStream, Listener = TcpListener>
        + AllocGlobal
        + Sync,
    P: Place<File = File>,
    W: Write,
>(rt: &R, address: &str, place: &P, workers: u32, writer: &mut W) -> Result<u8, ServeFault>
    ensures unsound { IfOk result (IsRefused (P.had place.now) (W.contents writer.old) (W.contents writer.new)) }
    ensures fault { IfErr result (IsSaid address.now (W.contents writer.old) (W.contents writer.new)) }
    ensures base { IsFalse (is_base (base_text address.now)) → IsErrAnd result IsOfAddress
        × (W.contents writer.new ≡ W.contents writer.old) }
{
    let usual = Settings::usual();
    let rules = Rules::none(rt.alloc());
    match serve_with(
        rt,
        address,
        None,
        AccessPolicy::usual(&rules),
        place,
        workers,
        usual,
        None,
        ServiceInput {
            listener: None,
            input: None::<File>,
        },
        &NullNotifier,
        writer,
    ) {
        Ok(ServiceOutcome::Unsound(status)) => Ok(status),
        // Nothing asks the service to end gently.
        Ok(ServiceOutcome::Ended) => Err(ServeFault::Address),
        Err(fault) => Err(fault),
    }
}

/// Serves as [`serve_from`] does, with the system's file of a name.
pub fn serve<
    R: Threads
        + Wait
        + Clock
        + Net<Stream = TcpStream, Listener = TcpListener>
        + Files<File = File>
        + KeyFiles
        + AllocGlobal
        + Sync,
    W: Write,
>(rt: &R, address: &str, file: &str, workers: u32, writer: &mut W) -> Result<u8, ServeFault>
    ensures unsound { IfOk result (IsRefused None (W.contents writer.old) (W.contents writer.new)) }
    ensures fault { IfErr result (IsSaid address.now (W.contents writer.old) (W.contents writer.new)) }
    ensures base { IsFalse (is_base (base_text address.now)) → IsErrAnd result IsOfAddress
        × (W.contents writer.new ≡ W.contents writer.old) }
{
    serve_from(rt, address, &NamedFile::new(rt, file), workers, writer)
}
