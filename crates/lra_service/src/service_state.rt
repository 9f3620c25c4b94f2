//! Threads of a service.

ghost use Rattle.std.specs.Prelude.{◌≡◌, [], IfOk, IfSome};
ghost use Rattle.lra_ticket.specs.Locks.{lock_id};
ghost use Rattle.lra_service.specs.inner.Opened.{IsAt};

use crate::measure::{Now, ServiceStatistics};
use crate::operators_view::OperatorsView;
use crate::polls::Polls;
use crate::roles::Role;
use crate::running::FileEnd;
use lra_admission::KeyFiles;
use lra_callbacks::{Callbacks, WorkerSlot, wake_workers};
use lra_clocks::SystemClock;
use lra_durable::{Journals, Progress, SyncGroup};
use lra_event_loop::{AcceptQueue, EventLoop, EventLoopEnd, Times};
use lra_ids::Instance;
use lra_logs::{Event, EventSink, FileTail};
use lra_office::{Clerk, LockedService, OfficeOf, WhichLock, Window};
use lra_opening::{Notifier, ServeFault};
use lra_operators_server::{
    CountingCallbackPool, OperatorsServer, ProcessStatistics, serve_operators,
};
use lra_outcomes::Outcomes;
use lra_overview::Facts;
use lra_server::{
    AccessPolicy, CallbackSettings, CallbackWorkerGate, Dispatcher, Latch, OperatorsRefusalLogger,
    PolledListener, RefusalLogger, ServiceEnding, dismiss, lose_callback_worker, lose_worker,
    receive, times_of,
};
use lra_settings::Settings;
use lra_storage::FileDisk;
use lra_workers::{Gate, WorkerEnd, run_callback_worker};
use mio::{Poll, Waker};
use std::alloc::{AllocError, Global};
use std::marker::Brand;
use std::net::{Net, TcpListener, TcpStream};
use std::sync::atomic::{AtomicU64, Ordering};
use std::sync::{Arc, Mutex, Wait};
use std::thread;
use std::time::{Clock, Duration};

/// Number of milliseconds from one poll of the journal's file for added lines to the next.
const LOOK: u64 = 100;

/// Service state that the threads share.
#[derive(Drop)]
pub(crate) struct ServiceState<'a, R, H> {
    pub(crate) rt: &'a R,
    pub(crate) alloc: Global,
    notifier: &'a H,
    dispatcher: Dispatcher<'a, R>,
    /// Latch at which the threads wait until all of them have started.
    latch: Latch,
    /// Group of journals that is synced: the one journal.
    journals: &'a Journals<FileDisk>,
    ending: &'a Arc<ServiceEnding>,
    /// Access policy for requests and members.
    access_policy: AccessPolicy<'a>,
    /// Moment at which the service began, in milliseconds.
    pub(crate) moment: u64,
    /// Largest number of connections of one connection worker.
    most: usize,
    /// Time-outs of a client.
    times: Times,
    /// Mark that chunked bodies of requests are accepted.
    chunked: bool,
    /// Number of connection workers that haven't ended.
    answering: AtomicU64,
    /// Number of clerks that work.
    working: AtomicU64,
    /// Number of callback workers that haven't ended.
    callback_workers: AtomicU64,
    /// Slots of the callback workers.
    worker_slots: Vec<WorkerSlot>,
    /// Wakers of the callback workers, for when something may be due.
    wakers: Arc<Vec<Waker>>,
    /// State that the callback workers share.
    callback_settings: CallbackSettings,
    /// Operators' server, if there is one.
    operators_server: Option<&'a OperatorsServer>,
    /// Tallies, and the size of the journal.
    pub(crate) measure: ServiceStatistics,
    /// Journal's file, to be read as it grows.
    end: Mutex<Option<FileEnd>>,
    /// End of that file as it grows, from which added lines are reported.
    file_tail: Mutex<Option<FileTail>>,
    /// Outcomes of the members' last callbacks.
    pub(crate) outcomes: Outcomes,
}

impl<'a, R: Wait, H> ServiceState<'a, R, H> {
    /// Returns the state of a service that begins, with the polls of its connection workers and callback workers.
    pub(crate) fn new(
        rt: &'a R,
        alloc: Global,
        notifier: &'a H,
        settings: &Settings,
        access_policy: AccessPolicy<'a>,
        journals: &'a Journals<FileDisk>,
        ending: &'a Arc<ServiceEnding>,
        line: PolledListener,
        polls: Polls,
        moment: u64,
        operators_server: Option<&'a OperatorsServer>,
        measure: ServiceStatistics,
        end: FileEnd,
    ) -> ServiceState<'a, R, H>
        ensures { result.moment ≡ moment }
    {
        let Polls {
            accept_queue,
            worker_slots,
            wakers,
        } = polls;
        let workers = accept_queue.len();
        let most = settings.connections.div_ceil((workers as u64).max(1));
        ServiceState {
            rt,
            alloc,
            notifier,
            dispatcher: Dispatcher::new(rt, line, ending, accept_queue),
            latch: Latch::new(),
            journals,
            ending,
            access_policy,
            moment,
            most: most as usize,
            times: times_of(settings),
            chunked: settings.chunked,
            answering: AtomicU64::new(workers as u64),
            working: AtomicU64::new(0),
            callback_workers: AtomicU64::new(workers as u64),
            callback_settings: CallbackSettings::new(
                alloc,
                settings,
                workers,
                access_policy.members_via,
            ),
            worker_slots,
            wakers,
            operators_server,
            measure,
            end: Mutex::new(Some(end)),
            file_tail: Mutex::new(None),
            outcomes: Outcomes::new(alloc),
        }
    }
}

impl<R, H> ServiceState<'_, R, H> {
    /// Returns whether there is an operators' server.
    pub(crate) fn is_watched(&self) -> bool {
        self.operators_server.is_some()
    }

    /// Returns the number of callbacks under way.
    fn under_way(&self) -> u64 {
        let mut all: u64 = 0;
        for worker_slot in self.worker_slots.as_slice() {
            all = all.saturating_add(worker_slot.under_way.load(Ordering::SeqCst));
        }
        all
    }

    /// Returns the process statistics if there is an operators' server.
    fn process_statistics(&self) -> ProcessStatistics {
        match self.operators_server {
            Some(operators_server) => operators_server.process_statistics(),
            None => ProcessStatistics::none(),
        }
    }

    /// Returns the gate of a callback worker for a journal.
    fn gate<'b>(
        &'b self,
        worker_slot: &'b WorkerSlot,
        journal: Instance,
    ) -> CallbackWorkerGate<'b, R, Journals<FileDisk>, H> {
        CallbackWorkerGate::new(
            self.rt,
            self.ending,
            self.journals,
            &worker_slot.under_way,
            &self.measure.tallies,
            self.notifier,
            journal,
        )
    }

    /// Notes that a connection worker has ended. With the last one, all threads end.
    fn leave(&self) {
        if self.answering.fetch_sub(1, Ordering::SeqCst) <= 1 {
            self.ending.finish();
            wake_workers(self.wakers.as_slice());
        }
    }

    /// Notes that so many clerks are going to work.
    pub(crate) fn expect(&self, clerks: usize) {
        self.working.store(clerks as u64, Ordering::SeqCst);
    }
}

impl<R: Wait, H> ServiceState<'_, R, H> {
    /// Adds the journal to the group under its instance.
    pub(crate) fn add(
        &self,
        instance: Instance,
        progress: Arc<Progress<FileDisk>>,
    ) -> Result<(), AllocError> {
        self.journals.add(self.rt, instance, progress)
    }

    /// Wakes the callback workers, and syncs all that was written. Returns whether the sync succeeded.
    pub(crate) fn sync_all(&self) -> bool {
        wake_workers(self.wakers.as_slice());
        matches!(self.journals.keep_all(self.rt), Ok(true))
    }

    /// Hands on the connections that come, until there are to be no others. Then wakes the callback workers, which
    /// check whether they are to end.
    pub(crate) fn admit(&self) {
        self.dispatcher.open();
        wake_workers(self.wakers.as_slice());
    }

    /// Takes the poll of the callback worker in a slot.
    fn take_poll(&self, place: u32) -> Option<(&WorkerSlot, Poll)> {
        let worker_slot = self.worker_slots.get(place as usize)?;
        let poll = worker_slot.poll.lock(self.rt).take()?;
        Some((worker_slot, poll))
    }

    /// Ends the resolvers and the acceptor, since all connection and callback workers have ended.
    fn end(&self) {
        self.callback_settings.names.close(self.rt);
        self.ending.finish();
    }

    /// Ends the threads that wait, since another couldn't be started. Returns why the service doesn't serve.
    pub(crate) fn give_up(&self) -> ServeFault
        ensures { result ≡ ServeFault.Address }
    {
        self.latch.decide(self.rt, false);
        ServeFault::Address
    }
}

impl<R: Wait + Clock, H> ServiceState<'_, R, H> {
    /// Returns the office's clock.
    fn clock(&self) -> SystemClock<'_, R> {
        SystemClock::new(self.rt, self.moment)
    }

    /// Returns the figures of the service at a moment.
    pub(crate) fn facts(&self, instance: Instance, moment: u64) -> Facts {
        let has_failed = self.journals.has_failed(self.rt);
        let now = Now {
            moment,
            began: self.moment,
            has_failed: has_failed || self.measure.tallies.has_stopped(instance),
            is_ending: self.ending.is_asked(),
            connections: self.dispatcher.load(),
            callbacks: self.under_way(),
        };
        self.measure.facts(now, self.process_statistics())
    }
}

impl<R: KeyFiles + Wait + Clock, H: Notifier + EventSink> ServiceState<'_, R, H> {
    /// Reports what is added to the file, until no connection worker answers any more. With a member's silence, reports
    /// the outcome of its last callback. Reads the file of the members' token again whenever it has changed.
    fn report(&self) {
        let Some(mut file_tail) = self.file_tail.lock(self.rt).take() else {
            return;
        };
        for _ in self.rt.forever() {
            let is_over = self.ending.is_over();
            self.access_policy.look(self.rt, self.notifier);
            file_tail.report(self.rt, self.notifier, Some(&self.outcomes));
            if self.measure.tallies.has_stopped(file_tail.journal()) {
                file_tail.stop(self.notifier);
            }
            if is_over {
                *self.file_tail.lock(self.rt) = Some(file_tail);
                return;
            }
            thread::sleep(self.rt, Duration::from_millis(LOOK));
        }
    }

    /// Reads the file of the members' token again whenever it has changed, until no connection worker answers any more.
    fn follow_token(&self) {
        if self.access_policy.member_token.is_none() {
            return;
        }
        for _ in self.rt.forever() {
            if self.ending.is_over() {
                return;
            }
            self.access_policy.look(self.rt, self.notifier);
            thread::sleep(self.rt, Duration::from_millis(LOOK));
        }
    }

    /// Waits until all threads have started, and reports what is added to the journal's file. If nothing can be
    /// reported, follows the file of the members' token alone.
    pub(crate) fn start_reports(&self) {
        if self.latch.pass(self.rt) {
            self.report();
            self.follow_token();
        }
    }
}

impl<R: Wait + Clock, H: EventSink> ServiceState<'_, R, H> {
    /// Answers operators, at an office whose lock the type names.
    fn watch_at<V: LockedService, Q: WhichLock>(
        &self,
        operators_server: &OperatorsServer,
        office: &OfficeOf<V>,
        clerk: Clerk<V>,
    )
        requires clerk { IsAt V.setting V.covers office.now clerk }
        requires here { lock_id office.now.lock ≡ Q.lock }
    {
        let window: Window<'_, V, R, Q> = Window::new(self.rt, office, clerk);
        let clock = SystemClock::new(self.rt, self.moment);
        let mut operators_view = OperatorsView::new(window, self, clock);
        let operators_refusal_logger = OperatorsRefusalLogger {
            event_sink: self.notifier,
        };
        serve_operators(
            self.rt,
            self.alloc,
            operators_server,
            &mut operators_view,
            &**self.ending,
            &operators_refusal_logger,
        );
        drop(operators_view.into_window().into_clerk());
    }

    /// Answers operators if there is a server for them.
    fn watch<V: LockedService>(&self, office: &OfficeOf<V>, clerk: Clerk<V>)
        requires { IsAt V.setting V.covers office.now clerk }
    {
        match self.operators_server {
            Some(operators_server) => self.watch_at::<V, Brand>(operators_server, office, clerk),
            None => drop(clerk),
        }
    }

    /// Begins to log what is added to the file, as that of a journal.
    fn follow(&self, journal: Instance) {
        let taken = self.end.lock(self.rt).take();
        if let Some(FileEnd { file, at }) = taken {
            let file_tail = FileTail::of(self.alloc, file, at, journal, self.notifier);
            *self.file_tail.lock(self.rt) = file_tail;
        }
    }

    /// Reports what was added to the file since, once all threads have ended: callbacks may be the last to do so.
    pub(crate) fn report_rest(&self) {
        let taken = self.file_tail.lock(self.rt).take();
        if let Some(mut file_tail) = taken {
            file_tail.report(self.rt, self.notifier, Some(&self.outcomes));
        }
    }

    /// Lets the threads that wait at the latch work, once it was written that the service serves.
    pub(crate) fn begin(&self, journal: Instance) {
        self.notifier.note(&Event::Serving {
            journals: 1,
            workers: self.worker_slots.len() as u64,
        });
        self.follow(journal);
        self.latch.decide(self.rt, true);
    }
}

impl<R: Wait, H: Notifier + EventSink> ServiceState<'_, R, H> {
    /// Reports why a callback worker has ended, unless a sync has failed: then the program ends and reports that. With
    /// the last callback worker, the journal's callbacks stand still.
    fn report_end(&self, end: WorkerEnd, journal: Instance) {
        let is_last = self.callback_workers.fetch_sub(1, Ordering::SeqCst) <= 1;
        if !self.journals.has_failed(self.rt) {
            let last_of = is_last.then_some(journal);
            lose_callback_worker(
                self.alloc,
                self.notifier,
                &self.measure.tallies,
                end,
                last_of,
            );
        }
    }
}

impl<R: Wait + Clock + Net, H> ServiceState<'_, R, H> {
    /// Tries to make the callbacks of a callback worker: none is under way. Returns the poll if memory is refused.
    fn try_callbacks<'b>(
        &'b self,
        worker_slot: &'b WorkerSlot,
        place: u32,
        journal: Instance,
        poll: Poll,
    ) -> Result<Callbacks<'b, R, Journals<FileDisk>>, Poll>
        ensures { IfOk result (λ made. made ≡ []) }
    {
        Callbacks::new(
            self.rt,
            self.alloc,
            self.journals,
            journal,
            &self.callback_settings.names,
            self.access_policy.rules,
            poll,
            &self.callback_settings.quota,
            self.callback_settings.worker_quota,
            &worker_slot.under_way,
            &worker_slot.least_pause,
            self.clock(),
            &self.wakers,
            place as usize,
            &self.outcomes,
            self.access_policy.shared_token(),
            self.access_policy.traces,
        )
    }

    /// Looks up the names of members' hosts.
    fn look_up(&self) {
        self.callback_settings
            .names
            .run(self.rt, self.wakers.as_slice());
    }

    /// Waits until all threads have started, and looks up the names of members' hosts.
    pub(crate) fn start_resolver(&self) {
        if self.latch.pass(self.rt) {
            self.look_up();
        }
    }
}

impl<R: Wait + Clock + Net, H: Notifier + EventSink> ServiceState<'_, R, H> {
    /// Makes the callbacks of a callback worker once there is memory. Returns `None` once the gate lets no more turns
    /// be made.
    fn callbacks<'b>(
        &'b self,
        worker_slot: &'b WorkerSlot,
        place: u32,
        journal: Instance,
        poll: Poll,
        gate: &mut CallbackWorkerGate<'_, R, Journals<FileDisk>, H>,
    ) -> Option<Callbacks<'b, R, Journals<FileDisk>>>
        ensures { IfSome result (λ made. made ≡ []) }
    {
        let mut poll = poll;
        for _ in self.rt.forever() {
            match self.try_callbacks(worker_slot, place, journal, poll) {
                Ok(made) => return Some(made),
                Err(back) => poll = back,
            }
            gate.pause();
            if !gate.more() {
                drop(poll);
                return None;
            }
        }
        unreachable!()
    }

    /// Lets limits fire and makes the callbacks of errands, many at once, in a slot whose poll was taken.
    fn carry_at<V: LockedService>(
        &self,
        worker_slot: &WorkerSlot,
        place: u32,
        poll: Poll,
        office: &OfficeOf<V>,
        clerk: Clerk<V>,
    )
        requires { IsAt V.setting V.covers office.now clerk }
    {
        let journal = office.instance();
        let mut gate = self.gate(worker_slot, journal);
        let Some(callbacks) = self.callbacks(worker_slot, place, journal, poll, &mut gate) else {
            drop(clerk);
            return;
        };
        let tallies = &self.measure.tallies;
        let mut counted = CountingCallbackPool::new(self.alloc, callbacks, self.rt, tallies);
        let (clerk, end) = run_callback_worker(
            self.rt,
            office,
            clerk,
            &mut counted,
            &mut gate,
            &mut self.clock(),
        );
        counted.into_inner().end();
        drop(clerk);
        self.report_end(end, journal);
    }

    /// Lets limits fire and makes the callbacks of errands, many at once, in a slot. If the slot has no poll, ends the
    /// connection workers.
    fn run_callbacks<V: LockedService>(&self, place: u32, office: &OfficeOf<V>, clerk: Clerk<V>)
        requires { IsAt V.setting V.covers office.now clerk }
    {
        match self.take_poll(place) {
            Some((worker_slot, poll)) => self.carry_at(worker_slot, place, poll, office, clerk),
            None => {
                drop(clerk);
                self.dispatcher.close();
            }
        }
    }
}

impl<
    R: KeyFiles + Wait + Clock + Net<Stream = TcpStream, Listener = TcpListener>,
    H: Notifier + EventSink,
> ServiceState<'_, R, H> {
    /// Answers the connections of an accept queue, at an office whose lock the type names.
    fn answer_at<V: LockedService, Q: WhichLock>(
        &self,
        accept_queue: &AcceptQueue,
        office: &OfficeOf<V>,
        clerk: Clerk<V>,
    )
        requires clerk { IsAt V.setting V.covers office.now clerk }
        requires here { lock_id office.now.lock ≡ Q.lock }
    {
        let window: Window<'_, V, R, Q> = Window::new(self.rt, office, clerk);
        let tallies = &self.measure.tallies;
        let refusal_logger = RefusalLogger::new(
            self.alloc,
            self.access_policy,
            self.notifier,
            tallies,
        );
        let mut handler_stack = match receive(
            self.rt,
            self.alloc,
            self.access_policy,
            &refusal_logger,
            window,
        ) {
            Ok(handler_stack) => handler_stack,
            Err(window) => {
                drop(window.into_clerk());
                lose_worker(self.notifier, tallies, EventLoopEnd::Refused);
                return;
            }
        };
        let event_loop = EventLoop::new(
            self.rt,
            self.alloc,
            self.journals,
            accept_queue,
            self.wakers.as_slice(),
            self.most,
            self.times,
            self.chunked,
        );
        let end = event_loop.run(&mut handler_stack, &mut self.clock());
        lose_worker(self.notifier, tallies, end);
        drop(dismiss(handler_stack).into_clerk());
    }

    /// Answers the connections of the accept queue at an index.
    fn answer<V: LockedService>(&self, place: u32, office: &OfficeOf<V>, clerk: Clerk<V>)
        requires { IsAt V.setting V.covers office.now clerk }
    {
        match self.dispatcher.accept_queue(place) {
            Some(accept_queue) => {
                self.answer_at::<V, Brand>(accept_queue, office, clerk);
                accept_queue.close(self.rt);
            }
            None => drop(clerk),
        }
        self.leave();
    }

    /// Waits until all threads have started, and does the work of a clerk's role. With the last clerk's end, ends the
    /// resolvers and the acceptor.
    pub(crate) fn run_role<V: LockedService>(
        &self,
        office: &OfficeOf<V>,
        role: Role,
        clerk: Clerk<V>,
    )
        requires { IsAt V.setting V.covers office.now clerk }
    {
        if !self.latch.pass(self.rt) {
            drop(clerk);
            return;
        }
        self.work(office, role, clerk);
        if self.working.fetch_sub(1, Ordering::SeqCst) <= 1 {
            self.end();
        }
    }

    fn work<V: LockedService>(&self, office: &OfficeOf<V>, role: Role, clerk: Clerk<V>)
        requires { IsAt V.setting V.covers office.now clerk }
    {
        match role {
            Role::Answer(place) => self.answer(place, office, clerk),
            Role::Callbacks(place) => self.run_callbacks(place, office, clerk),
            Role::Watch => self.watch(office, clerk),
        }
    }
}
