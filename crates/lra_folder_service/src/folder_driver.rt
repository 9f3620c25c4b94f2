//! Driver of the rotation: it does to files and to the log what the rotation has decided, and observes the journals.

use lra_audits::RunFault;
use lra_clocks::milliseconds;
use lra_journal_factory::{JournalFactory, Opener, PreparedJournal};
use lra_journal_folder::RollingFault;
use lra_logs::{Event, EventSink, FileTail, Level};
use lra_model::{Instance, Memory};
use lra_opening::{Notifier, ServeFault};
use lra_outcomes::Outcomes;
use lra_registry::{JournalBounds, JournalMonitor, ServedJournal, observe_all};
use lra_rotation::{
    Mark, Observation, Rotation, RotationAction, RotationDriver, mark_line, next_name_of,
};
use lra_sessions::JournalSession;
use std::fs::File;
use std::io::ErrorKind;
use std::rt::Files;
use std::sync::{Arc, Wait};
use std::time::Clock;

/// Driver of a folder's rotation.
#[derive(Drop)]
pub(crate) struct FolderDriver<'s, 'a, R, H, O, B> {
    pub(crate) journal_factory: JournalFactory<'a, R, O>,
    pub(crate) notifier: &'s H,
    pub(crate) bounds: JournalBounds,
    /// The journals that aren't archived, the newest last.
    pub(crate) monitors: Vec<JournalMonitor<B>>,
    pub(crate) prepared: Option<PreparedJournal<B>>,
    /// Journals that have no callback worker yet.
    pub(crate) idle: Vec<Arc<ServedJournal<B>>>,
    /// Tails of the journals' files, from which writes are logged.
    pub(crate) file_tails: Vec<FileTail>,
    /// Mark that the service has begun, so that rotations are logged.
    pub(crate) has_begun: bool,
    /// Fault of the last action, if it failed while the next journal was made.
    pub(crate) fault: Option<RollingFault>,
    /// Moment of the last observation, in milliseconds of the steady clock.
    pub(crate) now: u64,
}

/// Returns the fault of refused memory.
pub(crate) fn out_of_memory() -> RollingFault {
    RollingFault::Here(ServeFault::Run(RunFault::Memory))
}

/// Returns the outcomes of the last callbacks of a journal's members, if the journal is among these.
fn outcomes_of<B: Drop>(monitors: &[JournalMonitor<B>], journal: Instance) -> Option<&Outcomes> {
    for monitor in monitors {
        if monitor.journal.instance.number() == journal.number() {
            return Some(&monitor.journal.outcomes);
        }
    }
    None
}

impl<'s, 'a, R, H, O, B: Drop> FolderDriver<'s, 'a, R, H, O, B> {
    /// Returns whether a journal has no callback worker yet. Before the service begins none has one.
    pub(crate) fn wants_thread(&self) -> bool {
        self.has_begun && !self.idle.is_empty()
    }

    /// Records that these journals have no callback worker yet.
    pub(crate) fn start_all(&mut self, journals: Vec<Arc<ServedJournal<B>>>) {
        self.idle = journals;
    }

    /// Returns the position of the monitor of an instance's journal, if there is one.
    fn position(&self, instance: u64) -> Option<usize> {
        self.monitors
            .iter()
            .position(|monitor| monitor.journal.instance.number() == instance)
    }
}

impl<'s, 'a, R: Wait, H: EventSink, O, B: Drop> FolderDriver<'s, 'a, R, H, O, B> {
    /// Logs what was written to the journals' files.
    pub(crate) fn report(&mut self) {
        for file_tail in &mut self.file_tails {
            let outcomes = outcomes_of(&self.monitors, file_tail.journal());
            file_tail.report(self.journal_factory.rt, self.notifier, outcomes);
        }
    }

    /// Logs the rest of what was written to a journal's file, and that the journal is archived.
    fn close_log(&mut self, journal: &ServedJournal<B>) {
        let instance = journal.instance;
        let place = self.file_tails.iter().position(|file_tail| file_tail.journal().number()
            == instance.number());
        if let Some(place) = place {
            let mut file_tail = self.file_tails.remove(place);
            file_tail.report(
                self.journal_factory.rt,
                self.notifier,
                Some(&journal.outcomes),
            );
        }
        self.notifier
            .note(&Event::JournalPutAway { journal: instance });
    }
}

impl<'s, 'a, R: Wait, H, O, B: JournalSession + Drop> FolderDriver<'s, 'a, R, H, O, B> {
    /// Returns what is observed of the journals at a moment. If `waits` is set, the newest waits, since the next one
    /// can't be made or has no callback worker. If `lags` is set, the others wait, since a worker can't follow the set.
    pub(crate) fn observe(
        &mut self,
        now: u64,
        waits: bool,
        lags: bool,
    ) -> Result<Vec<Observation>, Memory> {
        self.now = now;
        let JournalFactory { rt, alloc, .. } = &self.journal_factory;
        observe_all(
            *rt,
            *alloc,
            &mut self.monitors,
            now,
            &self.bounds,
            waits,
            lags,
        )
    }
}

impl<
    's,
    'a,
    R: Files<File = File> + AllocGlobal + Clone + Drop,
    H: Notifier,
    O,
    B: Drop,
> FolderDriver<'s, 'a, R, H, O, B> {
    /// Reports the mark that a nearly full journal has reached.
    fn report_mark(&self, journal: Instance, mark: Mark) {
        let Ok(path) = self.journal_factory.folder.journal_path(journal) else {
            return;
        };
        if let Ok(line) = mark_line(self.journal_factory.alloc, path.as_str(), mark) {
            self.notifier.notify(line.as_str());
        }
    }

    /// Lengthens the back-off of nearly full journals' silent members.
    pub(crate) fn spare(&self) {
        for monitor in &self.monitors {
            if let Some(mark) = monitor.journal.spare(&self.bounds.limit) {
                self.report_mark(monitor.journal.instance, mark);
            }
        }
    }

    /// Closes a journal to new work.
    fn close(&self, instance: u64) {
        let Some(place) = self.position(instance) else {
            return;
        };
        if let Some(monitor) = self.monitors.get(place)
            && let Some(mark) = monitor.journal.close_to_new_work(&self.bounds.limit)
        {
            self.report_mark(monitor.journal.instance, mark);
        }
    }

    /// Closes those journals to new work that the rotation has closed.
    pub(crate) fn close_all(&self, rotation: &Rotation) {
        for monitor in &self.monitors {
            let instance = monitor.journal.instance.number();
            if rotation.is_closed(instance) {
                self.close(instance);
            }
        }
    }
}

impl<
    's,
    'a,
    R: Files<File = File> + AllocGlobal + Clone + Drop,
    H: Notifier + EventSink,
    O,
    B: Drop,
> FolderDriver<'s, 'a, R, H, O, B> {
    /// Begins to log what is written to a journal's file after a position.
    fn follow(&mut self, journal: Instance, at: u64) {
        if !self.has_begun || !self.notifier.hears(Level::Error) {
            return;
        }
        let journal_factory = &self.journal_factory;
        let Ok(path) = journal_factory.folder.journal_path(journal) else {
            return;
        };
        let Ok(file) = File::open(journal_factory.rt, path.as_str()) else {
            return;
        };
        if let Some(file_tail) = FileTail::of(
            journal_factory.alloc,
            file,
            at,
            journal,
            self.notifier,
        ) {
            // Without memory for it the journal isn't logged.
            let _ = self.file_tails.push(file_tail);
        }
    }

    /// Begins to log what is written to all journals' files from now on, and which journals join.
    pub(crate) fn begin(&mut self) {
        self.has_begun = true;
        self.spare();
        for place in 0..self.monitors.len() {
            let Some(monitor) = self.monitors.get(place) else {
                return;
            };
            let (journal, at) = (monitor.journal.instance, monitor.journal.bytes());
            self.follow(journal, at);
        }
    }

    /// Puts a journal off that can't be withdrawn or archived for now. Reports that, if the reason is a new one.
    fn put_off(&mut self, place: usize, why: ErrorKind) {
        let Some(monitor) = self.monitors.get_mut(place) else {
            return;
        };
        let journal = monitor.journal.instance;
        if !monitor.put_off(why, self.now) {
            return;
        }
        self.notifier.note(&Event::ArchiveFailed { journal });
        let Ok(path) = self.journal_factory.folder.journal_path(journal) else {
            return;
        };
        let path = path.as_str();
        if let Ok(line) = format!(in self.journal_factory.alloc; "lra: cannot put away {path}\n") {
            self.notifier.notify(line.as_str());
        }
    }

    /// Adds the named journal to the journals. Returns whether it is among them.
    fn switch(&mut self, instance: u64) -> bool {
        if self.position(instance).is_some() {
            return true;
        }
        if self.monitors.reserve(1).is_err() {
            return false;
        }
        let Some(ready) = self.prepared.take() else {
            return false;
        };
        let journal = ready.into_journal();
        if self.has_begun {
            self.notifier.note(&Event::JournalRolled {
                journal: journal.instance,
            });
        }
        self.follow(journal.instance, 0);
        self.monitors
            .push(JournalMonitor::new(journal, self.now))
            .is_ok()
    }

    /// Reserves room in the archive for a journal that is done, closes its file for good, and ends its callback worker.
    /// Returns whether it did. So little can fail later.
    fn withdraw(&mut self, instance: u64) -> bool {
        let Some(place) = self.position(instance) else {
            return false;
        };
        let Some(monitor) = self.monitors.get_mut(place) else {
            return false;
        };
        let journal = monitor.journal.instance;
        if let Err(error) = self.journal_factory.folder.keep_room(journal) {
            self.put_off(place, error.kind());
            return false;
        }
        if !monitor.leave() {
            self.journal_factory.folder.give_room(journal);
            return false;
        }
        monitor.journal.finish();
        true
    }
}

impl<
    's,
    'a,
    R: Files<File = File> + AllocGlobal + Clone + Drop + Wait,
    H: Notifier + EventSink,
    O: Opener<OwnedSession = B>,
    B: JournalSession + Drop,
> FolderDriver<'s, 'a, R, H, O, B> {
    /// Writes an instance to the folder, before it is used.
    fn note(&self, instance: u64) -> Result<(), RollingFault> {
        match Instance::new(instance) {
            Some(instance) => self.journal_factory.note(instance),
            None => Err(RollingFault::Here(ServeFault::Address)),
        }
    }

    /// Gives the prepared journal its name.
    fn name(&mut self) -> Result<(), RollingFault> {
        match &mut self.prepared {
            Some(ready) => self.journal_factory.name(ready),
            None => Err(out_of_memory()),
        }
    }

    /// Removes what was being prepared of an instance when the last service ended.
    fn remove(&self, instance: u64) -> Result<(), RollingFault> {
        if let Some(instance) = Instance::new(instance) {
            let name = next_name_of(self.journal_factory.alloc, instance)?;
            let path = self.journal_factory.folder.path_of(name.as_str())?;
            self.journal_factory.folder.remove(path.as_str());
        }
        Ok(())
    }

    /// Discards the prepared journal, if there is one.
    pub(crate) fn discard(&mut self) {
        if let Some(ready) = self.prepared.take() {
            self.journal_factory.discard(ready);
        }
    }

    /// Moves the file of a journal to the archive, once all of it is durable.
    fn move_away(&self, instance: Instance) -> Result<(), ErrorKind> {
        let kept = self
            .journal_factory
            .storage
            .journals()
            .keep_all(self.journal_factory.rt);
        if !matches!(kept, Ok(true)) {
            return Err(ErrorKind::Other);
        }
        match self.journal_factory.folder.archive(instance) {
            Ok(()) => Ok(()),
            Err(error) => Err(error.kind()),
        }
    }

    /// Archives a journal. Returns whether it did.
    fn archive(&mut self, instance: u64) -> bool {
        let Some(place) = self.position(instance) else {
            return true;
        };
        let Some(monitor) = self.monitors.get(place) else {
            return true;
        };
        if let Err(why) = self.move_away(monitor.journal.instance) {
            self.put_off(place, why);
            return false;
        }
        let monitor = self.monitors.remove(place);
        self.close_log(&monitor.journal);
        self.journal_factory.drop_journal(monitor.into_journal());
        // If a crash brings back its old name, the next start serves it again, and archives it once more.
        let _ = self.journal_factory.folder.sync_ended();
        true
    }

    /// Returns whether an action succeeded, and keeps its fault.
    fn keep(&mut self, done: Result<(), RollingFault>) -> bool {
        match done {
            Ok(()) => true,
            Err(fault) => {
                self.fault = Some(fault);
                false
            }
        }
    }
}

impl<
    's,
    'a,
    R: Files<File = File> + AllocGlobal + Clone + Drop + Wait + Clock,
    H: Notifier + EventSink,
    O: Opener<OwnedSession = B>,
    B: JournalSession + Drop,
> FolderDriver<'s, 'a, R, H, O, B> {
    /// Prepares the journal of an instance. It has no callback worker yet.
    fn prepare(&mut self, instance: u64) -> Result<(), RollingFault> {
        let Some(instance) = Instance::new(instance) else {
            return Err(RollingFault::Here(ServeFault::Address));
        };
        self.idle.reserve(1)?;
        self.journal_factory.folder.require_spare_files()?;
        let moment = milliseconds(self.journal_factory.rt).unwrap_or(0);
        let ready = self.journal_factory.prepare(instance, moment)?;
        let Ok(theirs) = Arc::try_clone(&ready.journal) else {
            self.journal_factory.discard(ready);
            return Err(out_of_memory());
        };
        self.prepared = Some(ready);
        self.idle.push(theirs)?;
        Ok(())
    }
}

impl<
    's,
    'a,
    R: Files<File = File> + AllocGlobal + Clone + Drop + Wait + Clock,
    H: Notifier + EventSink,
    O: Opener<OwnedSession = B>,
    B: JournalSession + Drop,
> RotationDriver for FolderDriver<'s, 'a, R, H, O, B> {
    fn perform(&mut self, action: RotationAction) -> bool {
        let done = match action {
            RotationAction::Note(instance) => self.note(instance),
            RotationAction::Prepare(instance) => self.prepare(instance),
            RotationAction::Name(_) => self.name(),
            RotationAction::Remove(instance) => self.remove(instance),
            RotationAction::Switch(instance) if self.switch(instance) => Ok(()),
            RotationAction::Switch(_) => Err(out_of_memory()),
            RotationAction::Close(instance) => {
                self.close(instance);
                Ok(())
            }
            RotationAction::Withdraw(instance) => return self.withdraw(instance),
            RotationAction::Archive(instance) => return self.archive(instance),
            RotationAction::End | RotationAction::Fail => Ok(()),
        };
        self.keep(done)
    }
}
