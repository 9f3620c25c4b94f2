//! State that the threads of a service over a folder share, and the work of each.

ghost use Rattle.std.specs.Prelude.{◌≡◌, [], IfOk, IfSome};

use crate::operators_view::{FolderView, OperatorsContext};
use crate::wake_relay::WakeRelay;
use lra_admission::KeyFiles;
use lra_callbacks::Callbacks;
use lra_capacity::CapacityFilter;
use lra_clocks::{Clock, SystemClock};
use lra_durable::{Journals, SyncGroup};
use lra_event_loop::{AcceptQueue, EventLoop, EventLoopEnd, Times};
use lra_journal_router::JournalRouter;
use lra_logs::{Event, EventSink};
use lra_model::Instance;
use lra_opening::{Notifier, ServeFault};
use lra_operators_server::{CountingCallbackPool, serve_operators};
use lra_registry::{JournalRegistry, Reservations, ServedJournal, SetMembers};
use lra_server::{
    AccessPolicy, CallbackSettings, CallbackWorkerGate, Dispatcher, Latch, OperatorsRefusalLogger,
    PolledListener, RefusalLogger, ServiceEnding, dismiss, lose_callback_worker, lose_worker,
    receive, times_of,
};
use lra_sessions::JournalSession;
use lra_settings::Settings;
use lra_storage::{FileDisk, Storage};
use lra_workers::{Gate, Go, WorkerEnd};
use mio::Poll;
use std::alloc::{AllocError, Global};
use std::net::{Net, TcpListener, TcpStream};
use std::sync::atomic::{AtomicBool, AtomicU64, Ordering};
use std::sync::{Arc, Wait};
use std::time;

/// Role of a thread.
#[derive(Clone, Copy, PartialEq, Eq)]
pub(crate) enum FolderRole {
    /// Acceptor of connections.
    Accept,
    /// Connection worker, at that position.
    Answer(u32),
    /// Thread of the operators' server.
    Watch,
    /// Wake relay of the callback workers.
    Relay,
    /// Resolver of the names of members' hosts.
    Resolver,
}

/// Returns the roles of so many connection workers, and of the threads beside them.
pub(crate) fn roles_of(
    alloc: Global,
    workers: u32,
    is_watched: bool,
) -> Result<Vec<FolderRole>, AllocError> {
    let mut roles = Vec::new(alloc);
    for place in 0..workers {
        roles.push(FolderRole::Answer(place))?;
    }
    if is_watched {
        roles.push(FolderRole::Watch)?;
    }
    for role in [
        FolderRole::Relay,
        FolderRole::Resolver,
        FolderRole::Resolver,
        FolderRole::Accept,
    ] {
        roles.push(role)?;
    }
    Ok(roles)
}

/// Service state: what the threads share.
#[derive(Drop)]
pub(crate) struct FolderState<'s, 'a, R: Wait, H, B> {
    pub(crate) rt: &'a R,
    pub(crate) alloc: Global,
    pub(crate) notifier: &'s H,
    dispatcher: Dispatcher<'s, R>,
    /// Latch at which the threads wait until all of them run.
    latch: Latch,
    /// Mark that the last thread that was wanted couldn't be started.
    is_refused: AtomicBool,
    pub(crate) storage: &'a Storage,
    pub(crate) ending: &'s Arc<ServiceEnding>,
    pub(crate) journal_registry: &'s JournalRegistry<B>,
    /// Access policy of requests.
    access_policy: AccessPolicy<'s>,
    /// Moment at which the service began, in milliseconds.
    moment: u64,
    /// Largest number of connections of one connection worker.
    most: usize,
    /// Time-outs of clients.
    times: Times,
    /// Mark that chunked bodies of requests are accepted.
    chunked: bool,
    /// Number of connection workers that haven't ended.
    answering: AtomicU64,
    /// Number of connection workers at first.
    workers: u64,
    wake_relay: WakeRelay,
    /// State that the callback workers of all journals share.
    callback_settings: CallbackSettings,
    /// Operators' server, and what it reports.
    pub(crate) operators_context: &'s OperatorsContext<'a>,
}

/// Gate of a journal's callback worker. It is that of a file's callback worker, and closes once the journal is
/// archived.
#[derive(Drop)]
struct JournalGate<'a, R: Wait, B, J> {
    gate: CallbackWorkerGate<'a, R, Journals<FileDisk>, J>,
    journal: &'a ServedJournal<B>,
}

impl<R: Wait + time::Clock, B: Drop, J: EventSink> Gate for JournalGate<'_, R, B, J> {
    fn more(&mut self) -> bool {
        !self.journal.is_over() && self.gate.more()
    }

    fn begins(&self) -> bool {
        self.gate.begins()
    }

    fn hold(&mut self, _ask: u64) -> Go {
        Go::Carry
    }

    fn answered(&mut self, _ask: u64) {}

    fn pause(&mut self) {
        self.gate.pause();
    }
}

impl<'s, 'a: 's, R: Wait, H, B> FolderState<'s, 'a, R, H, B> {
    /// Returns the state of a service that begins.
    pub(crate) fn new(
        rt: &'a R,
        alloc: Global,
        notifier: &'s H,
        settings: &Settings,
        access_policy: AccessPolicy<'s>,
        storage: &'a Storage,
        ending: &'s Arc<ServiceEnding>,
        journal_registry: &'s JournalRegistry<B>,
        line: PolledListener,
        accept_queue: Vec<AcceptQueue>,
        wake_relay: WakeRelay,
        moment: u64,
        operators_context: &'s OperatorsContext<'a>,
    ) -> FolderState<'s, 'a, R, H, B> {
        let workers = accept_queue.len();
        let most = settings.connections.div_ceil((workers as u64).max(1));
        FolderState {
            rt,
            alloc,
            notifier,
            dispatcher: Dispatcher::new(rt, line, ending, accept_queue),
            latch: Latch::new(),
            is_refused: AtomicBool::new(false),
            storage,
            ending,
            journal_registry,
            access_policy,
            moment,
            most: most as usize,
            times: times_of(settings),
            chunked: settings.chunked,
            answering: AtomicU64::new(workers as u64),
            workers: workers as u64,
            wake_relay,
            callback_settings: CallbackSettings::new(alloc, settings, 1, access_policy.members_via),
            operators_context,
        }
    }

    /// Returns the moment at which the service began, in milliseconds.
    pub(crate) fn began(&self) -> u64 {
        self.moment
    }

    /// Returns how many connections there are.
    pub(crate) fn load(&self) -> u64 {
        self.dispatcher.load()
    }

    /// Returns whether the disk has failed.
    pub(crate) fn has_failed(&self) -> bool {
        self.journals().has_failed(self.rt)
    }

    /// Syncs all that was written. Returns whether it is durable.
    pub(crate) fn sync_all(&self) -> bool {
        matches!(self.journals().keep_all(self.rt), Ok(true))
    }

    /// Returns the journals that are synced as one group.
    pub(crate) fn journals(&self) -> &Journals<FileDisk> {
        self.storage.journals()
    }

    /// Returns the gate of a callback worker for a journal.
    fn gate<'b>(&'b self, journal: &'b ServedJournal<B>) -> JournalGate<'b, R, B, H> {
        JournalGate {
            gate: CallbackWorkerGate::new(
                self.rt,
                self.ending,
                self.journals(),
                &journal.worker_slot.under_way,
                &self.operators_context.tallies,
                self.notifier,
                journal.instance,
            ),
            journal,
        }
    }

    /// Closes the accept queues, so that the connection workers end.
    pub(crate) fn close(&self) {
        self.dispatcher.close();
    }

    /// Returns how many connection workers the service began with.
    pub(crate) fn workers(&self) -> u64 {
        self.workers
    }

    /// Releases the threads that wait at the latch.
    pub(crate) fn begin(&self) {
        self.latch.decide(self.rt, true);
    }

    /// Ends the threads that wait at the latch, since another couldn't be started. Returns the fault of the service.
    pub(crate) fn give_up(&self) -> ServeFault {
        self.latch.decide(self.rt, false);
        ServeFault::Address
    }
}

impl<'s, 'a: 's, R: Wait + time::Clock, H, B> FolderState<'s, 'a, R, H, B> {
    /// Returns a clock for one of the threads.
    pub(crate) fn clock(&self) -> SystemClock<'a, R> {
        SystemClock::new(self.rt, self.moment)
    }
}

impl<'s, 'a: 's, R: Wait, H: EventSink, B> FolderState<'s, 'a, R, H, B> {
    /// Records whether the last thread was started. While none can be, a callback worker counts as lost.
    pub(crate) fn note_thread(&self, is_started: bool) {
        let was_refused = self.is_refused.swap(!is_started, Ordering::SeqCst);
        if is_started && was_refused {
            self.operators_context.tallies.regain_callback_worker();
        } else if !is_started && !was_refused {
            self.operators_context.tallies.lose_callback_worker();
            self.notifier.note(&Event::ThreadRefused);
        }
    }
}

impl<'s, 'a: 's, R: Wait, H: Notifier + EventSink, B> FolderState<'s, 'a, R, H, B> {
    /// Reports why the callback worker of a journal has ended, unless the disk has failed. Then the program ends and
    /// reports that.
    fn report_end(&self, end: WorkerEnd, journal: Instance) {
        if !self.has_failed() {
            let tallies = &self.operators_context.tallies;
            lose_callback_worker(self.alloc, self.notifier, tallies, end, Some(journal));
        }
    }
}

impl<'s, 'a: 's, R: Wait, H, B: Drop> FolderState<'s, 'a, R, H, B> {
    /// Records that a connection worker has ended. With the last one, ends all threads.
    fn leave(&self) {
        if self.answering.fetch_sub(1, Ordering::SeqCst) <= 1 {
            self.callback_settings.names.close(self.rt);
            self.ending.finish();
            lra_callbacks::wake_workers(&self.wake_relay.wakers);
            self.journal_registry.wake_workers(self.rt);
        }
    }

    /// Accepts connections and hands them to the workers, until the service accepts no more. Then wakes the callback
    /// workers, which check whether they are to end.
    fn admit(&self) {
        self.dispatcher.open();
        self.journal_registry.wake_workers(self.rt);
    }
}

impl<'s, 'a: 's, R: KeyFiles + Wait + time::Clock, H: Notifier, B: Drop> FolderState<
    's,
    'a,
    R,
    H,
    B,
> {
    /// Runs the wake relay of the callback workers.
    fn wake(&self) {
        self.wake_relay.run(
            self.rt,
            self.alloc,
            self.notifier,
            self.access_policy,
            self.journal_registry,
            self.ending,
        );
    }
}

impl<'s, 'a: 's, R: Wait + time::Clock + Net, H, B: Drop> FolderState<'s, 'a, R, H, B> {
    /// Resolves the names of members' hosts.
    fn look_up(&self) {
        self.callback_settings
            .names
            .run(self.rt, &self.wake_relay.wakers);
    }

    /// Makes the callback pool of a journal, with no callback under way. Where memory is refused it returns the poll.
    fn try_callbacks<'b>(
        &'b self,
        journal: &'b ServedJournal<B>,
        poll: Poll,
    ) -> Result<Callbacks<'b, R, Journals<FileDisk>>, Poll>
        ensures { IfOk result (λ made. made ≡ []) }
    {
        Callbacks::new(
            self.rt,
            self.alloc,
            self.journals(),
            journal.instance,
            &self.callback_settings.names,
            self.access_policy.rules,
            poll,
            &self.callback_settings.quota,
            self.callback_settings.worker_quota,
            &journal.worker_slot.under_way,
            &journal.worker_slot.least_pause,
            self.clock(),
            &journal.wakers,
            0,
            &journal.outcomes,
            self.access_policy.shared_token(),
            self.access_policy.traces,
        )
    }
}

impl<'s, 'a: 's, R: Wait + time::Clock, H: EventSink, B: JournalSession + Drop> FolderState<
    's,
    'a,
    R,
    H,
    B,
> {
    /// Serves operators, if there is a server for them, until no connection worker is left.
    fn watch(&self) {
        if let Some(operators_server) = self.operators_context.operators_server {
            let mut operators_view = FolderView::new(self.alloc, self, self.clock());
            let operators_refusal_logger = OperatorsRefusalLogger {
                event_sink: self.notifier,
            };
            serve_operators(
                self.rt,
                self.alloc,
                operators_server,
                &mut operators_view,
                &**self.ending,
                &operators_refusal_logger,
            );
            drop(operators_view);
        }
    }

    /// Enrols a clerk of a journal's coordinator. Retries until that succeeds, or returns nothing once the gate closes.
    fn enrol(&self, journal: &ServedJournal<B>, gate: &mut JournalGate<'_, R, B, H>) -> Option<B> {
        for _ in self.rt.forever() {
            if let Some(session) = journal.fork(self.rt, self.clock().now()) {
                return Some(session);
            }
            gate.pause();
            if !gate.more() {
                return None;
            }
        }
        unreachable!()
    }
}

impl<'s, 'a: 's, R: Wait + time::Clock + Net, H: EventSink, B: JournalSession + Drop> FolderState<
    's,
    'a,
    R,
    H,
    B,
> {
    /// Makes the callback pool of a journal. Retries until there is memory, or returns nothing once the gate closes.
    fn callbacks<'b>(
        &'b self,
        journal: &'b ServedJournal<B>,
        poll: Poll,
        gate: &mut JournalGate<'_, R, B, H>,
    ) -> Option<Callbacks<'b, R, Journals<FileDisk>>>
        ensures { IfSome result (λ made. made ≡ []) }
    {
        let mut poll = poll;
        for _ in self.rt.forever() {
            match self.try_callbacks(journal, poll) {
                Ok(made) => return Some(made),
                Err(back) => poll = back,
            }
            gate.pause();
            if !gate.more() {
                drop(poll);
                return None;
            }
        }
        unreachable!()
    }
}

impl<
    's,
    'a: 's,
    R: Wait + time::Clock + Net,
    H: Notifier + EventSink,
    B: JournalSession + Drop,
> FolderState<'s, 'a, R, H, B> {
    /// Fires the limits of a journal and carries out its errands, many at once, with a poll of its own.
    fn run_callbacks_at(&self, journal: &ServedJournal<B>, poll: Poll) {
        let mut gate = self.gate(journal);
        let Some(session) = self.enrol(journal, &mut gate) else {
            drop(poll);
            return;
        };
        let Some(callbacks) = self.callbacks(journal, poll, &mut gate) else {
            drop(session);
            return;
        };
        let tallies = &self.operators_context.tallies;
        let mut counted = CountingCallbackPool::new(self.alloc, callbacks, self.rt, tallies);
        let end = session.carry(&mut counted, &mut gate, &mut self.clock());
        counted.into_inner().end();
        self.report_end(end, journal.instance);
    }

    /// Fires the limits of a journal and carries out its errands, many at once. If the journal's worker slot has no
    /// poll, closes the accept queues.
    pub(crate) fn run_callbacks(&self, journal: &ServedJournal<B>) {
        let poll = journal.worker_slot.poll.lock(self.rt).take();
        match poll {
            Some(poll) => self.run_callbacks_at(journal, poll),
            None => self.dispatcher.close(),
        }
    }

    /// Waits until all threads run, and then works as the callback worker of a journal.
    pub(crate) fn start_callbacks(&self, journal: &ServedJournal<B>) {
        if self.latch.pass(self.rt) {
            self.run_callbacks(journal);
        }
    }
}

impl<
    's,
    'a: 's,
    R: KeyFiles + Wait + time::Clock + Net<Stream = TcpStream, Listener = TcpListener>,
    H: Notifier + EventSink,
    B: JournalSession + Drop,
> FolderState<'s, 'a, R, H, B> {
    /// Serves the connections of an accept queue, as the connection worker of that number.
    fn answer_at(&self, worker: u32, accept_queue: &AcceptQueue) {
        let mut set_members = SetMembers::new(
            self.rt,
            self.alloc,
            self.journal_registry,
            worker,
            self.clock(),
        );
        let Some(journal_set) = set_members.begin(self.alloc) else {
            self.notifier.notify(
                "lra: a thread that answered has ended: no clerk could be enrolled\n",
            );
            self.notifier.note(&Event::ThreadEnded);
            self.operators_context.tallies.lose_worker();
            return;
        };
        let journal_router = JournalRouter::new(journal_set, set_members);
        let capacity_filter = CapacityFilter::new(
            journal_router,
            Reservations::new(self.rt, self.journal_registry),
        );
        let tallies = &self.operators_context.tallies;
        let refusal_logger = RefusalLogger::new(
            self.alloc,
            self.access_policy,
            self.notifier,
            tallies,
        );
        let mut handler_stack = match receive(
            self.rt,
            self.alloc,
            self.access_policy,
            &refusal_logger,
            capacity_filter,
        ) {
            Ok(handler_stack) => handler_stack,
            Err(capacity_filter) => {
                drop(capacity_filter);
                lose_worker(self.notifier, tallies, EventLoopEnd::Refused);
                return;
            }
        };
        let event_loop = EventLoop::new(
            self.rt,
            self.alloc,
            self.journals(),
            accept_queue,
            &self.wake_relay.wakers,
            self.most,
            self.times,
            self.chunked,
        );
        let end = event_loop.run(&mut handler_stack, &mut self.clock());
        lose_worker(self.notifier, tallies, end);
        drop(dismiss(handler_stack));
    }

    /// Works as the connection worker at that position.
    fn answer(&self, place: u32) {
        if let Some(accept_queue) = self.dispatcher.accept_queue(place) {
            self.answer_at(place, accept_queue);
            self.journal_registry.end(place);
            accept_queue.close(self.rt);
        }
        self.leave();
    }

    /// Waits until all threads run, and then works in a role.
    pub(crate) fn run_role(&self, role: FolderRole) {
        if !self.latch.pass(self.rt) {
            return;
        }
        match role {
            FolderRole::Accept => self.admit(),
            FolderRole::Answer(place) => self.answer(place),
            FolderRole::Watch => self.watch(),
            FolderRole::Relay => self.wake(),
            FolderRole::Resolver => self.look_up(),
        }
    }
}
