//! Service over a folder whose names, settings and storage are known: it opens the journals, and serves them.

ghost use Rattle.std.specs.Prelude.{◌≡◌, true, All, None, IfOk, IfErr};
ghost use Rattle.lra_opening.specs.Places.{IsRead};
ghost use Rattle.lra_folder_service.specs.Outcomes.{HasSaid, IsSaid};

use crate::base_lines::{base_line, secret_line};
use crate::folder_driver::{FolderDriver, out_of_memory};
use crate::folder_state::{FolderRole, FolderState, roles_of};
use crate::operators_view::OperatorsContext;
use crate::rotation_manager::{RotationManager, steady};
use crate::running::FolderOutcome;
use crate::wake_relay::WakeRelay;
use crate::working::work;
use lra_admission::KeyFiles;
use lra_clocks::milliseconds;
use lra_durable::SyncGroup;
use lra_event_loop::AcceptQueue;
use lra_folders::stray_line;
use lra_ids::Base;
use lra_journal_factory::{FolderOptions, JournalFactory, Opener, first_open, open_for};
use lra_journal_folder::{Contents, Folder, GivenUp, RollingFault, Sound, told};
use lra_logs::{Event, EventSink};
use lra_model::{Instance, Memory};
use lra_opening::{Notifier, ServeFault};
use lra_registry::{JournalBounds, JournalMonitor, JournalRegistry, ServedJournal, observe_all};
use lra_rotation::{Counts, FoundJournals, Rotation, RotationSettings, next_instance};
use lra_server::{
    AccessPolicy, PolledListener, ServiceEnding, ServiceInput, ServiceSite, SocketAcceptor, end_of,
    limits_of, listener_at, make_socket_acceptor,
};
use lra_sessions::JournalSession;
use lra_settings::Settings;
use lra_storage::Storage;
use std::alloc::{AllocError, Global};
use std::fs::File;
use std::io::{Read, Write};
use std::marker::{Send, Sync};
use std::net::{Net, TcpListener, TcpStream};
use std::rt::Files;
use std::sync::{Arc, Wait};
use std::thread::Threads;
use std::time::Clock;

/// Largest number of bytes of a journal.
const MOST_BYTES: u64 = 1 << 30;

/// Line that says that the fence has fallen.
pub(crate) const FENCE_LOST: &str =
    "lra: the fence is another's now: nothing is written any more\n";

/// Returns the limits of a journal's counts.
fn limit_of(settings: &Settings) -> Counts {
    let limits = limits_of(settings);
    Counts {
        actions: limits.actions,
        members: limits.members,
        entries: limits.entries,
        bytes: MOST_BYTES,
    }
}

/// Returns the counts of a journal at which the next one replaces it.
fn most_of(settings: &Settings, limit: &Counts) -> Counts {
    Counts {
        actions: settings.roll_after.min(limit.actions / 2),
        members: limit.members / 2,
        entries: limit.entries / 2,
        bytes: limit.bytes / 2,
    }
}

/// Service over a folder: its means, its settings, and the words that say what it serves.
#[derive(Drop)]
pub(crate) struct FolderService<'a, R, V, H> {
    pub(crate) rt: &'a R,
    pub(crate) alloc: Global,
    pub(crate) address: &'a str,
    pub(crate) site: &'a ServiceSite,
    /// Access policy of requests.
    pub(crate) access_policy: AccessPolicy<'a>,
    pub(crate) folder: &'a Folder<'a, R>,
    pub(crate) contents: &'a Contents,
    pub(crate) workers: u32,
    pub(crate) settings: Settings,
    /// Notifier of how far journals have been read.
    pub(crate) watcher: &'a V,
    pub(crate) notifier: &'a H,
    /// Operators' server, and what it reports.
    pub(crate) operators_context: &'a OperatorsContext<'a>,
    pub(crate) folder_options: FolderOptions<'a>,
    /// Members that operators have given up.
    pub(crate) given_up: &'a [GivenUp],
    pub(crate) storage: &'a Storage,
}

/// Point from which a service over a folder begins.
#[derive(Drop)]
struct ServiceStart {
    listener: TcpListener,
    /// Greatest instance that the folder has or had.
    newest: Instance,
    /// Least number of an instance whose journal accepts new work.
    first: u64,
    /// Moment at which the service begins, in milliseconds.
    moment: u64,
}

/// Parts that a service's threads need beside the journals.
#[derive(Drop)]
struct ThreadParts {
    accept_queue: Vec<AcceptQueue>,
    wake_relay: WakeRelay,
    roles: Vec<FolderRole>,
}

/// Returns the accept queues of so many connection workers.
fn accept_queue_of<R: Net>(
    rt: &R,
    alloc: Global,
    workers: u32,
) -> Result<Vec<AcceptQueue>, RollingFault> {
    let mut all = Vec::new(alloc);
    for _worker in 0..workers {
        let Ok(accept_queue) = AcceptQueue::new(rt, alloc) else {
            return Err(RollingFault::Here(ServeFault::Address));
        };
        all.push(accept_queue)?;
    }
    Ok(all)
}

/// Marks the members that operators have given up in the outcomes of their journals.
fn give_up_all<R: Wait, B: Drop>(
    rt: &R,
    watches: &[JournalMonitor<B>],
    given_up: &[GivenUp],
) -> Result<(), RollingFault> {
    for given in given_up {
        for watch in watches {
            if watch.journal.instance == given.journal {
                watch.journal.outcomes.give_up(rt, given.member)?;
            }
        }
    }
    Ok(())
}

/// Returns the latest of the last moments of journals.
fn latest(sounds: &[Sound]) -> u64 {
    let mut latest = 0;
    for sound in sounds {
        latest = latest.max(sound.opening.last_moment());
    }
    latest
}

/// Returns the numbers of instances.
fn numbers_of(alloc: Global, instances: &[Instance]) -> Result<Vec<u64>, Memory> {
    let mut numbers = Vec::new(alloc);
    for instance in instances {
        numbers.push(instance.number())?;
    }
    Ok(numbers)
}

impl<'a, R, V, H> FolderService<'a, R, V, H> {
    /// Returns how many threads get a session of each journal: the connection workers, the journal's callback worker,
    /// and the operators' server, if there is one.
    fn threads(&self) -> u32 {
        self.workers
            .saturating_add(1)
            .saturating_add(self.operators_context.threads())
    }

    /// Returns the settings of the folder's rotation.
    fn rotation_settings(&self) -> RotationSettings {
        RotationSettings {
            site: u16::try_from(self.settings.site).unwrap_or(u16::MAX),
            remember: self.settings.remember_seconds.saturating_mul(1_000),
            rolls: true,
            drains: self.folder_options.drains,
        }
    }

    /// Returns the bounds by which the journals are observed.
    fn bounds(&self) -> JournalBounds {
        let limit = limit_of(&self.settings);
        JournalBounds {
            most: most_of(&self.settings, &limit),
            limit,
            remember: self.rotation_settings().remember,
            drains: self.folder_options.drains,
        }
    }

    /// Returns what was found of the folder's journals, but for those that were being prepared, since these are removed
    /// before. Those before the first of these numbers accept no new work.
    fn found(&self, newest: Instance, first: u64) -> Result<FoundJournals, Memory> {
        let journals = numbers_of(self.alloc, &self.contents.journals)?;
        match numbers_of(self.alloc, &self.contents.ended) {
            Ok(ended) => Ok(FoundJournals {
                newest: newest.number(),
                first,
                journals,
                prepared: Vec::new(self.alloc),
                ended,
            }),
            Err(fault) => {
                drop(journals);
                Err(fault)
            }
        }
    }

    /// Returns a driver of the rotation of the journals.
    fn driver<O, B>(
        &self,
        journal_factory: JournalFactory<'a, R, O>,
        monitors: Vec<JournalMonitor<B>>,
    ) -> FolderDriver<'a, 'a, R, H, O, B> {
        FolderDriver {
            journal_factory,
            notifier: self.notifier,
            bounds: self.bounds(),
            monitors,
            prepared: None,
            idle: Vec::new(self.alloc),
            file_tails: Vec::new(self.alloc),
            has_begun: false,
            fault: None,
            now: 0,
        }
    }
}

impl<R, V, H: Notifier> FolderService<'_, R, V, H> {
    /// Reports that the base of identifiers has changed, if the former one is a base.
    fn report_base(&self, before: &str) -> Result<(), AllocError> {
        let Some(before) = Base::read(self.alloc, before)? else {
            return Ok(());
        };
        let before = before.as_str();
        let is_read = self
            .access_policy
            .olders
            .iter()
            .any(|older| older.as_str() == before);
        let line = if self.access_policy.is_strict {
            secret_line(self.alloc, is_read)?
        } else {
            base_line(self.alloc, before, self.site.base.as_str(), is_read)?
        };
        self.notifier.notify(line.as_str());
        Ok(())
    }

    /// Reports the names in the folder that the service leaves alone.
    pub(crate) fn report_others(&self) {
        let path = self.folder.path;
        for name in &self.contents.others {
            if let Ok(line) = stray_line(self.alloc, path, name.as_str()) {
                self.notifier.notify(line.as_str());
            }
        }
    }
}

impl<'a, R: Files<File = File> + AllocGlobal + Clone + Drop, V, H> FolderService<'a, R, V, H> {
    /// Returns the factory that prepares the next journals.
    fn journal_factory<O>(&self, opener: O) -> JournalFactory<'a, R, O> {
        JournalFactory {
            rt: self.rt,
            alloc: self.alloc,
            storage: self.storage,
            opener,
            folder: self.folder,
            threads: self.threads(),
        }
    }

    /// Returns a fault unless the folder's site has an instance that is greater than the newest, and no earlier than a
    /// moment.
    fn require_instance(&self, newest: Instance, moment: u64) -> Result<(), RollingFault> {
        let site = self.rotation_settings().site;
        if next_instance(site, moment, newest.number()).is_some() {
            return Ok(());
        }
        let path = self.folder.path;
        Err(told(format!(in self.alloc;
            "lra: site {site} comes before the newest journal of {path}\n"
        )))
    }

    /// Returns the greatest instance that the folder has or had.
    fn newest(&self) -> Result<Instance, RollingFault> {
        match Instance::new(self.folder.newest(self.contents)?) {
            Some(newest) => Ok(newest),
            None => Err(RollingFault::Here(ServeFault::Address)),
        }
    }
}

impl<R: Files<File = File> + AllocGlobal + Clone + Drop, V, H: Notifier> FolderService<
    '_,
    R,
    V,
    H,
> {
    /// Writes the base of identifiers to the folder. Reports it if the folder was last served with another base.
    fn note_base(&self) -> Result<(), RollingFault> {
        let base = self.site.base.as_str();
        if let Some(before) = self.folder.base()? {
            if before.as_str() == base {
                return Ok(());
            }
            self.report_base(before.as_str())?;
        }
        match self.folder.note_base(base) {
            Ok(()) => Ok(()),
            Err(error) => Err(self.folder.write_fault(&error)),
        }
    }

    /// Removes what was being prepared when the last service ended, and notes the base of identifiers. Returns the
    /// least number of an instance whose journal accepts new work.
    fn clear(&self) -> Result<u64, RollingFault> {
        self.folder.clear(self.contents)?;
        self.note_base()?;
        let restored = self.folder_options.restored(self.folder, self.contents)?;
        Ok(first_open(restored))
    }
}

impl<R: Files<File = File> + AllocGlobal + Wait + Clock, V: Notifier, H> FolderService<
    '_,
    R,
    V,
    H,
> {
    /// Opens a journal that was found sound, with a clerk for each thread that gets a session of it.
    fn open_one<O: Opener>(
        &self,
        opener: &O,
        sound: Sound,
        moment: u64,
    ) -> Result<Arc<ServedJournal<O::OwnedSession>>, RollingFault>
        requires { IsRead None sound.opening }
    {
        let path = String::from_str(self.alloc, sound.path.as_str())?;
        let (file, opening) = sound.ready(self.rt, self.watcher)?;
        let opened = open_for(
            self.rt,
            self.alloc,
            opener,
            path.as_str(),
            file,
            opening,
            self.threads(),
            moment,
        );
        drop(path);
        opened
    }

    /// Opens the journals that were found sound.
    fn open_all<O: Opener>(
        &self,
        opener: &O,
        sounds: Vec<Sound>,
        moment: u64,
    ) -> Result<Vec<JournalMonitor<O::OwnedSession>>, RollingFault>
        requires { All (λ sound. IsRead None sound.opening) sounds.items }
    {
        let mut watches = Vec::new(self.alloc);
        for sound in sounds {
            let journal = self.open_one(opener, sound, moment)?;
            watches.push(JournalMonitor::new(journal, steady(self.rt)))?;
        }
        Ok(watches)
    }
}

impl<
    R: Files<File = File>
        + AllocGlobal
        + Clone
        + Drop
        + Clock
        + Net<Stream = TcpStream, Listener = TcpListener>,
    V,
    H: Notifier,
> FolderService<'_, R, V, H> {
    /// Listens at the socket, unless a listener is given, and clears the folder, whose newest instance leaves room for
    /// another one.
    fn listen(
        &self,
        newest: Instance,
        moment: u64,
        given: Option<TcpListener>,
    ) -> Result<ServiceStart, RollingFault> {
        let listener = listener_at(self.rt, self.site.socket.as_str(), given)?;
        match self.clear() {
            Ok(first) => Ok(ServiceStart {
                listener,
                newest,
                first,
                moment,
            }),
            Err(fault) => {
                drop(listener);
                Err(fault)
            }
        }
    }

    /// Begins a service that goes on from a moment, or from now, if that is later.
    fn start(
        &self,
        latest: u64,
        given: &mut Option<TcpListener>,
    ) -> Result<ServiceStart, RollingFault> {
        let Some(now) = milliseconds(self.rt) else {
            return Err(RollingFault::Here(ServeFault::Address));
        };
        let newest = self.newest()?;
        self.require_instance(newest, now)?;
        self.listen(newest, now.max(latest), given.take())
    }
}

impl<'a, R: Wait + Clock, V, H> FolderService<'a, R, V, H> {
    /// Returns the rotation of opened journals.
    fn rotation<B: JournalSession + Drop>(
        &self,
        found: FoundJournals,
        monitors: &mut Vec<JournalMonitor<B>>,
    ) -> Result<Rotation, RollingFault> {
        let now = steady(self.rt);
        let observed = observe_all(
            self.rt,
            self.alloc,
            monitors,
            now,
            &self.bounds(),
            false,
            false,
        );
        match observed {
            Ok(observations) => {
                let rotation = Rotation::open(
                    self.alloc,
                    self.rotation_settings(),
                    found,
                    &observations,
                );
                drop(observations);
                Ok(rotation?)
            }
            Err(fault) => {
                drop(found);
                Err(RollingFault::from(fault))
            }
        }
    }

    /// Marks the members that operators have given up, and returns the rotation of opened journals.
    fn rotation_of<B: JournalSession + Drop>(
        &self,
        newest: Instance,
        first: u64,
        monitors: &mut Vec<JournalMonitor<B>>,
    ) -> Result<Rotation, RollingFault> {
        give_up_all(self.rt, monitors, self.given_up)?;
        let found = self.found(newest, first)?;
        self.rotation(found, monitors)
    }
}

impl<
    'a,
    R: Files<File = File> + AllocGlobal + Clone + Drop + Wait + Clock,
    V: Notifier,
    H: Notifier + EventSink,
> FolderService<'a, R, V, H> {
    /// Opens the journals of a folder and their rotation. Journals before the first of these numbers accept no new
    /// work.
    fn open<O: Opener<OwnedSession = B> + Drop, B: JournalSession + Drop>(
        &self,
        opener: O,
        sounds: Vec<Sound>,
        newest: Instance,
        first: u64,
        moment: u64,
    ) -> Result<RotationManager<'a, 'a, R, H, O, B>, RollingFault>
        requires { All (λ sound. IsRead None sound.opening) sounds.items }
    {
        let mut monitors = match self.open_all(&opener, sounds, moment) {
            Ok(monitors) => monitors,
            Err(fault) => {
                drop(opener);
                return Err(fault);
            }
        };
        match self.rotation_of(newest, first, &mut monitors) {
            Ok(rotation) => {
                let driver = self.driver(self.journal_factory(opener), monitors);
                Ok(RotationManager::new(rotation, driver, self.address))
            }
            Err(fault) => {
                drop(monitors);
                drop(opener);
                Err(fault)
            }
        }
    }

    /// Begins a new journal if the newest accepts no new work, and publishes the journals. Returns their registry.
    fn journal_registry<O: Opener<OwnedSession = B> + Drop, B: JournalSession + Drop>(
        &self,
        rotation_manager: &mut RotationManager<'a, 'a, R, H, O, B>,
    ) -> Result<JournalRegistry<B>, RollingFault> {
        rotation_manager.open()?;
        let drains = self.folder_options.drains;
        let journal_registry = JournalRegistry::new(self.alloc, self.workers, drains)?;
        if rotation_manager.publish(&journal_registry) {
            Ok(journal_registry)
        } else {
            drop(journal_registry);
            Err(out_of_memory())
        }
    }
}

impl<R: Wait, V, H: Notifier + EventSink> FolderService<'_, R, V, H> {
    /// Reports a lost fence or a failed sync. Another thread may have seen it first, and ended the service.
    fn report_failure(&self) {
        if self.storage.fail_if_lost(self.rt) {
            self.notifier.notify(FENCE_LOST);
        } else if self.storage.journals().has_failed(self.rt) {
            self.notifier.note(&Event::SyncFailed);
        }
    }

    /// Returns how a service has ended that has served.
    fn conclude(&self, ending: &Arc<ServiceEnding>) -> Result<(), ServeFault> {
        self.report_failure();
        match end_of(self.rt, self.storage.journals(), ending) {
            Ok(_) => Ok(()),
            Err(fault) => Err(fault),
        }
    }
}

impl<R: Net, V, H> FolderService<'_, R, V, H> {
    /// Makes what the threads need beside the journals.
    fn thread_parts(&self) -> Result<ThreadParts, RollingFault> {
        let is_watched = self.operators_context.operators_server.is_some();
        let roles = roles_of(self.alloc, self.workers, is_watched)?;
        let accept_queue = match accept_queue_of(self.rt, self.alloc, self.workers) {
            Ok(accept_queue) => accept_queue,
            Err(fault) => {
                drop(roles);
                return Err(fault);
            }
        };
        match WakeRelay::new(self.rt, self.alloc) {
            Some(wake_relay) => Ok(ThreadParts {
                accept_queue,
                wake_relay,
                roles,
            }),
            None => {
                drop(accept_queue);
                drop(roles);
                Err(RollingFault::Here(ServeFault::Address))
            }
        }
    }
}

impl<
    'a,
    R: Files<File = File>
        + KeyFiles
        + AllocGlobal
        + Clone
        + Drop
        + Threads
        + Wait
        + Clock
        + Net<Stream = TcpStream, Listener = TcpListener>
        + Sync,
    V: Notifier + Sync,
    H: Notifier + EventSink + Sync,
> FolderService<'a, R, V, H> {
    /// Says that the service serves, and serves until it ends, with what its threads need.
    fn serve_with<
        O: Opener<OwnedSession = B> + Send + Drop,
        B: JournalSession + Send + Drop,
        W: Write,
    >(
        &self,
        rotation_manager: &mut RotationManager<'a, 'a, R, H, O, B>,
        journal_registry: &JournalRegistry<B>,
        thread_parts: ThreadParts,
        line: PolledListener,
        ending: &Arc<ServiceEnding>,
        moment: u64,
        writer: &mut W,
    ) -> Result<FolderOutcome, RollingFault>
        ensures ended { IfOk result (HasSaid self.now.address.now (W.contents writer.old) (W.contents writer.new)) }
        ensures fault { IfErr result (IsSaid self.now.address.now (W.contents writer.old) (W.contents writer.new)) }
    {
        let ThreadParts {
            accept_queue,
            wake_relay,
            roles,
        } = thread_parts;
        let folder_state = FolderState::new(
            self.rt,
            self.alloc,
            self.notifier,
            &self.settings,
            self.access_policy,
            self.storage,
            ending,
            journal_registry,
            line,
            accept_queue,
            wake_relay,
            moment,
            self.operators_context,
        );
        let served = work(
            &folder_state,
            rotation_manager,
            &roles,
            self.address,
            writer,
        );
        drop(folder_state);
        drop(roles);
        match served {
            Ok(()) => match self.conclude(ending) {
                Ok(()) => Ok(FolderOutcome::Ended),
                Err(fault) => Err(RollingFault::Here(fault)),
            },
            Err(fault) => Err(RollingFault::Here(fault)),
        }
    }

    /// Serves the journals of a registry until the service ends.
    fn serve_accepted<
        O: Opener<OwnedSession = B> + Send + Drop,
        B: JournalSession + Send + Drop,
        W: Write,
    >(
        &self,
        rotation_manager: &mut RotationManager<'a, 'a, R, H, O, B>,
        journal_registry: &JournalRegistry<B>,
        acceptor: SocketAcceptor,
        moment: u64,
        writer: &mut W,
    ) -> Result<FolderOutcome, RollingFault>
        ensures ended { IfOk result (HasSaid self.now.address.now (W.contents writer.old) (W.contents writer.new)) }
        ensures fault { IfErr result (IsSaid self.now.address.now (W.contents writer.old) (W.contents writer.new)) }
    {
        let SocketAcceptor { line, ending } = acceptor;
        match self.thread_parts() {
            Ok(thread_parts) => {
                let served = self.serve_with(
                    rotation_manager,
                    journal_registry,
                    thread_parts,
                    line,
                    &ending,
                    moment,
                    writer,
                );
                drop(ending);
                served
            }
            Err(fault) => {
                drop(line);
                drop(ending);
                Err(fault)
            }
        }
    }

    /// Accepts the connections of a listener, and serves the journals of a registry.
    fn serve_listener<
        O: Opener<OwnedSession = B> + Send + Drop,
        B: JournalSession + Send + Drop,
        I: Read + Send + Drop + 'static,
        W: Write,
    >(
        &self,
        rotation_manager: &mut RotationManager<'a, 'a, R, H, O, B>,
        journal_registry: &JournalRegistry<B>,
        listener: TcpListener,
        input: &mut Option<I>,
        moment: u64,
        writer: &mut W,
    ) -> Result<FolderOutcome, RollingFault>
        ensures ended { IfOk result (HasSaid self.now.address.now (W.contents writer.old) (W.contents writer.new)) }
        ensures fault { IfErr result (IsSaid self.now.address.now (W.contents writer.old) (W.contents writer.new)) }
    {
        let acceptor = make_socket_acceptor(self.rt, self.alloc, listener, input.take())?;
        self.serve_accepted(rotation_manager, journal_registry, acceptor, moment, writer)
    }

    /// Publishes the journals of a rotation, and serves them.
    fn serve_rotation<
        O: Opener<OwnedSession = B> + Send + Drop,
        B: JournalSession + Send + Drop,
        I: Read + Send + Drop + 'static,
        W: Write,
    >(
        &self,
        rotation_manager: &mut RotationManager<'a, 'a, R, H, O, B>,
        listener: TcpListener,
        input: &mut Option<I>,
        moment: u64,
        writer: &mut W,
    ) -> Result<FolderOutcome, RollingFault>
        ensures ended { IfOk result (HasSaid self.now.address.now (W.contents writer.old) (W.contents writer.new)) }
        ensures fault { IfErr result (IsSaid self.now.address.now (W.contents writer.old) (W.contents writer.new)) }
    {
        match self.journal_registry(rotation_manager) {
            Ok(journal_registry) => {
                let served = self.serve_listener(
                    rotation_manager,
                    &journal_registry,
                    listener,
                    input,
                    moment,
                    writer,
                );
                drop(journal_registry);
                served
            }
            Err(fault) => {
                drop(listener);
                Err(fault)
            }
        }
    }

    /// Opens the journals that were found sound, and serves them.
    fn serve_opened<
        O: Opener<OwnedSession = B> + Send + Drop,
        B: JournalSession + Send + Drop,
        I: Read + Send + Drop + 'static,
        W: Write,
    >(
        &self,
        start: ServiceStart,
        opener: O,
        sounds: Vec<Sound>,
        input: &mut Option<I>,
        writer: &mut W,
    ) -> Result<FolderOutcome, RollingFault>
        requires { All (λ sound. IsRead None sound.opening) sounds.items }
        ensures ended { IfOk result (HasSaid self.now.address.now (W.contents writer.old) (W.contents writer.new)) }
        ensures fault { IfErr result (IsSaid self.now.address.now (W.contents writer.old) (W.contents writer.new)) }
    {
        let ServiceStart {
            listener,
            newest,
            first,
            moment,
        } = start;
        match self.open(opener, sounds, newest, first, moment) {
            Ok(mut rotation_manager) => {
                let served = self.serve_rotation(
                    &mut rotation_manager,
                    listener,
                    input,
                    moment,
                    writer,
                );
                drop(rotation_manager);
                served
            }
            Err(fault) => {
                drop(listener);
                Err(fault)
            }
        }
    }

    /// Serves journals that were found sound.
    pub(crate) fn serve_on<
        O: Opener<OwnedSession = B> + Send + Drop,
        B: JournalSession + Send + Drop,
        I: Read + Send + Drop + 'static,
        W: Write,
    >(
        &self,
        opener: O,
        sounds: Vec<Sound>,
        entry: &mut ServiceInput<I>,
        writer: &mut W,
    ) -> Result<FolderOutcome, RollingFault>
        requires { All (λ sound. IsRead None sound.opening) sounds.items }
        ensures ended { IfOk result (HasSaid self.now.address.now (W.contents writer.old) (W.contents writer.new)) }
        ensures fault { IfErr result (IsSaid self.now.address.now (W.contents writer.old) (W.contents writer.new)) }
    {
        match self.start(latest(&sounds), &mut entry.listener) {
            Ok(start) => self.serve_opened(start, opener, sounds, &mut entry.input, writer),
            Err(fault) => {
                drop(opener);
                drop(sounds);
                Err(fault)
            }
        }
    }
}
