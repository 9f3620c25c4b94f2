//! Rotation manager: the thread that lets the rotation take its steps, and publishes the journals after each.

ghost use Rattle.std.specs.Prelude.{◌≡◌, map, IfOk};
ghost use Rattle.lra_rotation.specs.States as spec;

use crate::folder_driver::FolderDriver;
use crate::folder_state::FolderState;
use lra_clocks::milliseconds;
use lra_journal_factory::Opener;
use lra_journal_folder::{RollingFault, rolling_line};
use lra_logs::{Event, EventSink};
use lra_model::Memory;
use lra_opening::{Notifier, ServeFault};
use lra_registry::{Following, JournalRegistry, PublishedSet, ServedJournal, published_set};
use lra_rotation::{NewWork, Observation, Rotation, RotationAction, StepResult, step};
use lra_sessions::JournalSession;
use std::fs::File;
use std::rt::Files;
use std::sync::{Arc, Wait};
use std::thread;
use std::time::{Clock, Duration};

/// Milliseconds between two iterations of the rotation manager that found nothing to do.
const LOOK: u64 = 50;

/// Milliseconds until what failed is tried again.
const RETRY: u64 = 1_000;

/// Least number of milliseconds between two rotations because the newest journal can't be written.
const GIVE_WAY: u64 = 60_000;

/// Rotation manager of the journals.
#[derive(Drop)]
pub(crate) struct RotationManager<'s, 'a, R, H, O, B> {
    rotation: Rotation,
    pub(crate) driver: FolderDriver<'s, 'a, R, H, O, B>,
    /// The served address, for the lines of faults.
    pub(crate) address: &'a str,
    /// Mark that the registry has the journals as they were after the last step.
    is_published: bool,
    /// Number of times that a connection worker couldn't follow the registry, by the last check, and whether one can't.
    falls: u64,
    is_behind: bool,
    /// Mark that a connection worker can't follow the registry now, so that no journal leaves.
    lags: bool,
    /// Moment from which on the newest journal may be replaced because it can't be written.
    gives_way: u64,
    /// Moment from which on the next journal, if making it failed, is made again.
    retry: u64,
    /// Moment from which on a callback worker, if none could be started, is started again.
    thread_retry: u64,
    /// Action whose failure was reported last, unless a journal has been prepared since.
    reported: Option<RotationAction>,
}

/// Returns the milliseconds of the steady clock, or 0 where it fails.
pub(crate) fn steady<R: Clock>(rt: &R) -> u64 {
    match rt.monotonic() {
        Ok(since) => u64::try_from(since.as_millis()).unwrap_or(u64::MAX),
        Err(_) => 0,
    }
}

/// Returns whether two actions are alike steps towards a next journal, whichever its instance is.
fn are_alike(one: RotationAction, other: RotationAction) -> bool {
    matches!(
        (one, other),
        (RotationAction::Note(_), RotationAction::Note(_))
            | (RotationAction::Prepare(_), RotationAction::Prepare(_))
            | (RotationAction::Name(_), RotationAction::Name(_))
            | (RotationAction::Switch(_), RotationAction::Switch(_))
            | (RotationAction::Remove(_), RotationAction::Remove(_))
    )
}

/// Transfers to the rotation which versions the connection workers follow. One that memory is refused for counts as
/// one that answers nothing until the next call; a journal is archived only once no thread has a session of it anyway.
fn follow_workers<B: Drop>(rotation: &mut Rotation, journal_registry: &JournalRegistry<B>) {
    for worker in 0..journal_registry.workers() {
        match journal_registry.following(worker) {
            Following::Nothing => {}
            Following::Version(version) => {
                let _ = rotation.follow(worker as u64, version);
            }
            Following::Ended => rotation.refuse(worker as u64),
        }
    }
}

impl<'s, 'a, R, H, O, B> RotationManager<'s, 'a, R, H, O, B> {
    /// Returns the manager of a rotation that begins, at a served address.
    pub(crate) fn new(
        rotation: Rotation,
        driver: FolderDriver<'s, 'a, R, H, O, B>,
        address: &'a str,
    ) -> RotationManager<'s, 'a, R, H, O, B> {
        RotationManager {
            rotation,
            driver,
            address,
            is_published: false,
            falls: 0,
            is_behind: false,
            lags: false,
            gives_way: 0,
            retry: 0,
            thread_retry: 0,
            reported: None,
        }
    }
}

impl<'s, 'a, R, H, O, B: Drop> RotationManager<'s, 'a, R, H, O, B> {
    /// Records that these journals have no callback worker yet.
    pub(crate) fn start_all(&mut self, journals: Vec<Arc<ServedJournal<B>>>) {
        self.driver.start_all(journals);
    }

    /// Returns how many journals have no callback worker yet.
    pub(crate) fn count_idle(&self) -> usize {
        self.driver.idle.len()
    }

    /// Takes a journal that has no callback worker yet, if there is one.
    pub(crate) fn pop_idle(&mut self) -> Option<Arc<ServedJournal<B>>> {
        self.driver.idle.pop()
    }

    /// Returns how many journals aren't archived.
    pub(crate) fn count_journals(&self) -> u64 {
        self.driver.monitors.len() as u64
    }
}

impl<'s, 'a, R, H: Notifier, O, B> RotationManager<'s, 'a, R, H, O, B> {
    /// Reports the fault of an action, unless one of an alike action was reported last, and schedules the next try.
    fn notify(&mut self, fault: RollingFault, action: RotationAction, now: u64) {
        self.retry = now.saturating_add(RETRY);
        if let Some(reported) = self.reported
            && are_alike(reported, action)
        {
            drop(fault);
            return;
        }
        let journal_factory = &self.driver.journal_factory;
        let line = rolling_line(
            journal_factory.alloc,
            fault,
            self.address,
            journal_factory.folder.path,
        );
        if let Ok(line) = line {
            self.driver.notifier.notify(line.as_str());
            self.reported = Some(action);
        }
    }
}

impl<'s, 'a, R: Wait, H, O, B: Drop> RotationManager<'s, 'a, R, H, O, B> {
    /// Returns the journals as they are after the last step: those of the rotation's set are served.
    fn published_set(&self) -> Result<PublishedSet<B>, Memory>
        ensures version { IfOk result (λ set. set.version ≡ self.now.rotation.version) }
        ensures served { IfOk result (λ set. map (λ journal. journal.value.instance) set.served.items
            ≡ spec.set self.now.rotation) }
    {
        let alloc = self.driver.journal_factory.alloc;
        let instances = self.rotation.set(alloc)?;
        let version = self.rotation.version();
        published_set(alloc, version, &instances, &self.driver.monitors)
    }

    /// Publishes the journals as they are after the last step. Returns whether the registry has them now.
    pub(crate) fn publish(&mut self, journal_registry: &JournalRegistry<B>) -> bool {
        if self.is_published {
            return true;
        }
        let Ok(set) = self.published_set() else {
            return false;
        };
        let refuses_new = !matches!(self.rotation.new_work(), NewWork::Accepted(_));
        journal_registry.publish(self.driver.journal_factory.rt, set, refuses_new);
        self.is_published = true;
        true
    }
}

impl<'s, 'a, R: Wait, H: EventSink, O, B: Drop> RotationManager<'s, 'a, R, H, O, B> {
    /// Logs what was written to the journals' files, and which of them take no more writes.
    fn report(&mut self, folder_state: &FolderState<'_, 'a, R, H, B>) {
        self.driver.report();
        let notifier = self.driver.notifier;
        for file_tail in &mut self.driver.file_tails {
            let tallies = &folder_state.operators_context.tallies;
            if tallies.has_stopped(file_tail.journal()) {
                file_tail.stop(notifier);
            }
        }
    }

    /// Marks the newest journal as full if it can't be written any more, so that the next one replaces it. Does so at
    /// most once a minute.
    fn give_way(&mut self, folder_state: &FolderState<'_, 'a, R, H, B>, now: u64) {
        if now < self.gives_way {
            return;
        }
        let tallies = &folder_state.operators_context.tallies;
        if let Some(newest) = self.driver.monitors.last_mut()
            && tallies.has_stopped(newest.journal.instance)
        {
            newest.give_way();
            self.gives_way = now.saturating_add(GIVE_WAY);
        }
    }

    /// Logs when a connection worker can't follow the registry, and when all follow it again.
    fn note_behind(&mut self, folder_state: &FolderState<'_, 'a, R, H, B>) {
        let falls = folder_state.journal_registry.falls();
        if falls != self.falls && !self.is_behind {
            self.is_behind = true;
            folder_state.notifier.note(&Event::SetBehind);
        }
        self.falls = falls;
        if self.is_behind && !folder_state.journal_registry.lags() {
            self.is_behind = false;
            folder_state.notifier.note(&Event::SetFollowed);
        }
    }
}

impl<'s, 'a, R: Wait, H: Notifier, O, B: Drop> RotationManager<'s, 'a, R, H, O, B> {
    /// Acts on an action that was done: the service ends if the rotation says so.
    fn conclude(&mut self, folder_state: &FolderState<'_, 'a, R, H, B>, action: RotationAction) {
        self.is_published = false;
        match action {
            RotationAction::Prepare(_) => self.reported = None,
            RotationAction::Fail => folder_state.close(),
            RotationAction::End => {
                let journal_factory = &self.driver.journal_factory;
                let path = journal_factory.folder.path;
                if let Ok(line) = format!(in journal_factory.alloc; "lra: {path} is drained\n") {
                    self.driver.notifier.notify(line.as_str());
                }
                folder_state.ending.ask();
            }
            _ => {}
        }
    }
}

impl<
    's,
    'a,
    R: Files<File = File> + AllocGlobal + Clone + Drop + Wait + Clock,
    H: Notifier + EventSink,
    O: Opener<OwnedSession = B>,
    B: JournalSession + Drop,
> RotationManager<'s, 'a, R, H, O, B> {
    /// Returns what is observed of the journals at a moment. Without memory for it, returns nothing, if the folder is
    /// this service's own: then no step is taken.
    fn observe(&mut self, now: u64, is_own: bool) -> Option<Vec<Observation>> {
        let waits = now < self.retry || self.driver.wants_thread();
        match self.driver.observe(now, waits, self.lags) {
            Ok(observations) => Some(observations),
            Err(_) if is_own => None,
            Err(_) => Some(Vec::new(self.driver.journal_factory.alloc)),
        }
    }

    /// Lets the rotation take a step. Returns its result, if there was memory for it.
    fn take_step(&mut self, now: u64) -> StepResult {
        let rt = self.driver.journal_factory.rt;
        let is_own = !self.driver.journal_factory.storage.fail_if_lost(rt);
        let Some(observations) = self.observe(now, is_own) else {
            return StepResult::Nothing;
        };
        let moment = milliseconds(rt).unwrap_or(0);
        step(
            &mut self.rotation,
            &mut self.driver,
            moment,
            is_own,
            &observations,
        )
    }

    /// Returns whether a journal is wanted before the service begins: there is none, or the newest is closed.
    fn wants_newest(&self) -> bool {
        self.driver.monitors.is_empty() || matches!(self.rotation.new_work(), NewWork::Full)
    }

    /// Closes those journals to new work that the rotation has closed, and begins one that accepts it, if none does.
    pub(crate) fn open(&mut self) -> Result<(), RollingFault> {
        let rt = self.driver.journal_factory.rt;
        self.driver.close_all(&self.rotation);
        for _ in rt.forever() {
            if !self.wants_newest() {
                break;
            }
            match self.take_step(steady(rt)) {
                StepResult::Done(_) => {}
                StepResult::Nothing => return Err(RollingFault::Here(ServeFault::Address)),
                StepResult::Failed(_) => {
                    if let Some(fault) = self.driver.fault.take() {
                        return Err(fault);
                    }
                }
            }
        }
        Ok(())
    }

    /// Lets the rotation take a step, once the journals are published as they are after the last one. Returns whether
    /// something was done.
    fn go_on(&mut self, folder_state: &FolderState<'_, 'a, R, H, B>, now: u64) -> bool {
        if !self.publish(folder_state.journal_registry) {
            return false;
        }
        match self.take_step(now) {
            StepResult::Nothing => false,
            StepResult::Done(action) => {
                self.conclude(folder_state, action);
                self.publish(folder_state.journal_registry)
            }
            StepResult::Failed(action) => {
                if let Some(fault) = self.driver.fault.take() {
                    self.notify(fault, action, now);
                }
                false
            }
        }
    }

    /// Maintains the journals, and sleeps for a while if nothing was to be done.
    fn look(&mut self, folder_state: &FolderState<'_, 'a, R, H, B>) {
        let now = steady(folder_state.rt);
        self.report(folder_state);
        self.driver.spare();
        self.give_way(folder_state, now);
        follow_workers(&mut self.rotation, folder_state.journal_registry);
        self.lags = folder_state.journal_registry.lags();
        let is_busy = self.go_on(folder_state, now);
        self.note_behind(folder_state);
        if !is_busy {
            thread::sleep(folder_state.rt, Duration::from_millis(LOOK));
        }
    }

    /// Returns a journal that has no callback worker, unless starting one has failed just now.
    fn idle(&self, now: u64) -> Option<Arc<ServedJournal<B>>> {
        if now < self.thread_retry {
            return None;
        }
        Arc::try_clone(self.driver.idle.last()?).ok()
    }

    /// Begins to log what is written to all journals' files.
    pub(crate) fn begin(&mut self) {
        self.driver.begin();
    }

    /// Maintains the journals until one has no callback worker, and returns that one. Returns nothing once the service
    /// is to end, or no connection worker is left.
    pub(crate) fn next(
        &mut self,
        folder_state: &FolderState<'_, 'a, R, H, B>,
    ) -> Option<Arc<ServedJournal<B>>> {
        for _ in folder_state.rt.forever() {
            if folder_state.ending.is_asked() || folder_state.ending.is_over() {
                self.report(folder_state);
                self.driver.discard();
                return None;
            }
            if let Some(journal) = self.idle(steady(folder_state.rt)) {
                return Some(journal);
            }
            self.look(folder_state);
        }
        None
    }

    /// Records whether a callback worker was started for the journal that `next` returned. If none could be, the
    /// journal waits for one, and no work is begun in it.
    pub(crate) fn note_thread(
        &mut self,
        folder_state: &FolderState<'_, 'a, R, H, B>,
        is_started: bool,
    ) {
        folder_state.note_thread(is_started);
        if is_started {
            drop(self.driver.idle.pop());
        } else {
            self.thread_retry = steady(folder_state.rt).saturating_add(RETRY);
        }
    }
}
