//! Rotation of a service's journals: the state, the decisions and the record of their results.

ghost use Rattle.std.specs.Prelude.{◌≡◌, ◌==◌, ℕ, List, Bool, IfOk, IfSome, OnOk, OnErr};
ghost use Rattle.lra_rotation.specs.States as spec;
ghost use Rattle.lra_rotation.specs.Deciding as deciding;
ghost use Rattle.lra_rotation.specs.Disks as disks;
ghost use Rattle.lra_rotation.specs.Runs as runs;
ghost use Rattle.lra_rotation.specs.Laws.{Suits, rotates};
ghost use Rattle.lra_rotation.specs.declared.action.RotationAction.TheVariants as RotationAction;
ghost use Rattle.lra_rotation.specs.declared.action.Change.TheVariants as Change;

use crate::action::{Change, NewWork, RotationAction, Stage};
use crate::choosing::{
    are_drained, first_archiving, first_closing, first_retrying, first_withdrawing, forward,
    is_done, is_full, is_waiting, wants_close,
};
use crate::instances::next_instance;
use crate::journal::{Observation, RotationJournal, RotationWorker};
use crate::rows::{
    change_all, changed_at, has_closed, is_closed_at, is_current, listed, remove_journal,
    remove_number, remove_worker,
};
use crate::settings::RotationSettings;
use std::alloc::{AllocError, Global};
use std::marker::Model;

/// Rotation of a service's journals, which decides on the next action, and records its result.
#[derive(Drop)]
pub struct Rotation {
    pub(crate) settings: RotationSettings,
    /// Greatest instance that was noted.
    pub(crate) noted: u64,
    /// Journals that aren't the newest.
    pub(crate) older: Vec<RotationJournal>,
    pub(crate) newest: Option<RotationJournal>,
    pub(crate) stage: Stage,
    /// Instances of journals that were being prepared when the service before ended.
    pub(crate) leftovers: Vec<u64>,
    /// Version of the set that is served: a later set has a greater one.
    pub(crate) version: u64,
    /// Workers that answer.
    pub(crate) workers: Vec<RotationWorker>,
    pub(crate) is_over: bool,
}

impl Model for Rotation {
    ghost use Rattle.lra_rotation.specs.States.{State};

    ghost Value = { State };

    ghost view = { λ r. record {
      settings = r.settings;
      noted = r.noted;
      older = r.older.items;
      newest = r.newest;
      stage = r.stage;
      leftovers = r.leftovers.items;
      version = r.version;
      workers = r.workers.items;
      is_over =
          r.is_over;
    } };
}

impl Rotation {
    /// Returns the action that removes the first of the leftovers.
    fn clearing(&self) -> Option<RotationAction>
        ensures { result ≡ deciding.clearing self.now }
    {
        match self.leftovers.as_slice().first() {
            Some(instance) => Some(RotationAction::Remove(*instance)),
            None => None,
        }
    }

    /// Returns the action that closes the first journal that is to be closed, the newest before all others.
    fn closing(&self, observations: &[Observation]) -> Option<RotationAction>
        ensures { result ≡ deciding.closing self.now observations.now }
    {
        match self.newest {
            Some(newest) if wants_close(observations, newest) => Some(RotationAction::Close(
                newest.instance,
            )),
            _ => first_closing(&self.older, observations),
        }
    }

    /// Returns whether another journal is to take the place of the newest.
    fn wants_next(&self, observations: &[Observation]) -> bool
        ensures { result ≡ deciding.wants_next self.now observations.now }
    {
        match self.newest {
            Some(newest) => newest.is_closed || is_full(observations, newest.instance),
            None => true,
        }
    }

    /// Returns whether the service rolls, and its set can have another version.
    fn rotates(&self) -> bool
        ensures { result ≡ rotates self.now }
    {
        self.settings.rolls && self.version < u64::MAX
    }

    /// Returns whether the newest journal is observed to wait: a step that makes the next one failed lately, or the
    /// next one has no callback worker yet.
    fn newest_waits(&self, observations: &[Observation]) -> bool
        ensures { result ≡ deciding.newest_waits self.now observations.now }
    {
        match self.newest {
            Some(newest) => is_waiting(observations, newest.instance),
            None => false,
        }
    }

    /// Returns the action that comes next for the journal that is being prepared, unless the newest waits.
    fn rolling(&self, moment: u64, observations: &[Observation]) -> Option<RotationAction>
        ensures { result ≡ deciding.rolling self.now moment observations.now }
    {
        if self.rotates() && !self.newest_waits(observations) {
            forward(
                self.stage,
                self.wants_next(observations),
                next_instance(self.settings.site, moment, self.noted),
            )
        } else {
            None
        }
    }

    /// Returns the action on the first journal that is to be archived, or leave the set.
    fn leaving(&self, observations: &[Observation]) -> Option<RotationAction>
        ensures { result ≡ deciding.leaving self.now observations.now }
    {
        if self.rotates() {
            first_archiving(
                &self.older,
                &self.workers,
                observations,
                self.settings.remember,
            )
            .or(first_withdrawing(&self.older, observations, self.settings.remember))
        } else {
            None
        }
    }

    /// Returns the action that archives the first journal whose archiving is to be tried again.
    fn retrying(&self, observations: &[Observation]) -> Option<RotationAction>
        ensures { result ≡ deciding.retrying self.now observations.now }
    {
        if self.settings.rolls {
            first_retrying(
                &self.older,
                &self.workers,
                observations,
                self.settings.remember,
            )
        } else {
            None
        }
    }

    /// Returns whether nothing is left to be done: the newest journal is done, and each older one is done and couldn't
    /// be archived.
    fn is_drained(&self, observations: &[Observation]) -> bool
        ensures { result ≡ deciding.is_drained self.now observations.now }
    {
        match self.newest {
            Some(newest) => {
                is_done(observations, self.settings.remember, newest.instance)
                    && are_drained(&self.older, observations, self.settings.remember)
            }
            None => are_drained(&self.older, observations, self.settings.remember),
        }
    }

    /// Returns the action that ends the service, if it drains and nothing is left to be done.
    fn ending(&self, observations: &[Observation]) -> Option<RotationAction>
        ensures { result ≡ deciding.ending self.now observations.now }
    {
        if self.settings.drains && self.is_drained(observations) {
            Some(RotationAction::End)
        } else {
            None
        }
    }

    /// Returns the action that is done next, by the clock's moment, by whether the journals are still this service's,
    /// and by observations of them.
    pub fn decide(
        &self,
        moment: u64,
        is_own: bool,
        observations: &[Observation],
    ) -> Option<RotationAction>
        ensures value { result ≡ deciding.decide self.now moment is_own observations.now }
        ensures suits { IfSome result (Suits self.now observations.now) }
    {
        if self.is_over {
            return None;
        }
        if !is_own {
            return Some(RotationAction::Fail);
        }
        self.clearing()
            .or(self.closing(observations))
            .or(self.leaving(observations))
            .or(self.rolling(moment, observations))
            .or(self.ending(observations))
            .or(self.retrying(observations))
    }

    /// Returns the version that the set has next. It is a new one, but for the last of all, with which nothing changes
    /// any more.
    fn next_version(&self) -> u64
        ensures { result ≡ spec.next_version self.now.version }
    {
        if self.version < u64::MAX {
            self.version + 1
        } else {
            self.version
        }
    }

    /// Records that the journal of an instance accepts new work from now on.
    fn switch(&mut self, instance: u64) -> Result<(), AllocError>
        ensures ok { OnOk result (self.new ≡ runs.done self.old (RotationAction.Switch instance)) }
        ensures err { OnErr result (self.new ≡ self.old) }
    {
        if let Some(newest) = self.newest {
            self.older.push(newest)?;
        }
        self.newest = Some(RotationJournal {
            instance,
            is_closed: false,
            left: None,
            stays: false,
        });
        self.stage = Stage::Idle;
        self.version = self.next_version();
        Ok(())
    }

    /// Records that nothing is begun in the journal of an instance any more.
    fn close(&mut self, instance: u64)
        ensures { self.new ≡ runs.done self.old (RotationAction.Close instance) }
    {
        change_all(&mut self.older, instance, Change::Close);
        if let Some(newest) = self.newest {
            self.newest = Some(changed_at(Change::Close, instance, newest));
        }
    }

    /// Records that a journal isn't in the set any more.
    fn withdraw(&mut self, instance: u64)
        ensures { self.new ≡ runs.done self.old (RotationAction.Withdraw instance) }
    {
        let version = self.next_version();
        change_all(&mut self.older, instance, Change::Leave(version));
        self.version = version;
    }

    /// Records that a journal couldn't be withdrawn or archived.
    fn stay(&mut self, instance: u64)
        ensures { self.new ≡ runs.failed self.old (RotationAction.Archive instance) }
    {
        change_all(&mut self.older, instance, Change::Stay);
    }

    /// Records that an action is done. If memory is refused, nothing has changed.
    pub fn done(&mut self, action: RotationAction) -> Result<(), AllocError>
        ensures ok { OnOk result (self.new ≡ runs.done self.old action) }
        ensures err { OnErr result (self.new ≡ self.old) }
    {
        match action {
            RotationAction::Remove(instance) => remove_number(&mut self.leftovers, instance),
            RotationAction::Note(instance) => {
                self.noted = instance;
                self.stage = Stage::Noted(instance);
            }
            RotationAction::Prepare(instance) => self.stage = Stage::Prepared(instance),
            RotationAction::Name(instance) => self.stage = Stage::Named(instance),
            RotationAction::Switch(instance) => return self.switch(instance),
            RotationAction::Close(instance) => self.close(instance),
            RotationAction::Withdraw(instance) => self.withdraw(instance),
            RotationAction::Archive(instance) => remove_journal(&mut self.older, instance),
            RotationAction::End => self.is_over = true,
            RotationAction::Fail => self.is_over = true,
        }
        Ok(())
    }

    /// Records that an action has failed, whether the disk has taken it or not.
    pub fn failed(&mut self, action: RotationAction)
        ensures { self.new ≡ runs.failed self.old action }
    {
        match action {
            RotationAction::Remove(instance) => remove_number(&mut self.leftovers, instance),
            RotationAction::Prepare(_) => self.stage = Stage::Idle,
            RotationAction::Withdraw(instance) => self.stay(instance),
            RotationAction::Archive(instance) => self.stay(instance),
            RotationAction::End => self.is_over = true,
            RotationAction::Fail => self.is_over = true,
            RotationAction::Note(_) => {}
            RotationAction::Name(_) => {}
            RotationAction::Switch(_) => {}
            RotationAction::Close(_) => {}
        }
    }

    /// Returns the journal that accepts new work that names none, or the reason why no journal does.
    pub fn new_work(&self) -> NewWork
        ensures { result ≡ spec.new_work self.now }
    {
        if self.is_over {
            return NewWork::Over;
        }
        if self.settings.drains {
            return NewWork::Draining;
        }
        match self.newest {
            Some(newest) if newest.is_closed => NewWork::Full,
            Some(newest) => NewWork::Accepted(newest.instance),
            None => NewWork::NoJournal,
        }
    }

    /// Returns whether a journal that is served has that instance, and is closed.
    pub fn is_closed(&self, instance: u64) -> bool
        ensures { result ≡ spec.is_closed_in self.now instance }
    {
        match self.newest {
            Some(newest) => is_closed_at(instance, newest) || has_closed(&self.older, instance),
            None => has_closed(&self.older, instance),
        }
    }

    /// Returns the version of the set that is served.
    pub fn version(&self) -> u64
        ensures { result ≡ self.now.version }
    {
        self.version
    }

    /// Returns the journals in the set that is served: a worker is to have a session in each of these before it
    /// follows.
    pub fn set(&self, alloc: Global) -> Result<Vec<u64>, AllocError>
        ensures { IfOk result (λ is. is.items ≡ spec.set self.now) }
    {
        let mut instances = listed(alloc, &self.older)?;
        if let Some(newest) = self.newest {
            instances.push(newest.instance)?;
        }
        Ok(instances)
    }

    /// Records that a worker doesn't answer any more: it has given up all its sessions.
    pub fn refuse(&mut self, worker: u64)
        ensures { self.new ≡ runs.refused self.old worker }
    {
        remove_worker(&mut self.workers, worker);
    }

    /// Records that a worker has a session in each journal of the set of a version, and in no other. Returns whether
    /// that is the set that is served: if not, the worker is as it was, and looks again. If memory is refused, it is
    /// one that doesn't answer.
    pub fn follow(&mut self, worker: u64, version: u64) -> Result<bool, AllocError>
        ensures follows { IfOk result (λ does. does ≡ (version == self.old.version)) }
        ensures ok { OnOk result (self.new ≡ runs.followed self.old worker version) }
        ensures err { OnErr result (self.new ≡ runs.refused self.old worker) }
    {
        if version != self.version {
            return Ok(false);
        }
        self.refuse(worker);
        self.workers.push(RotationWorker {
            number: worker,
            seen: version,
        })?;
        Ok(true)
    }

    /// Returns the journal in which a worker begins new work that names none, or the reason why it doesn't: it has to
    /// follow the set that is served now.
    pub fn answers(&self, worker: u64) -> NewWork
        ensures { result ≡ spec.answers self.now worker }
    {
        if is_current(&self.workers, worker, self.version) {
            self.new_work()
        } else {
            NewWork::Behind
        }
    }
}
