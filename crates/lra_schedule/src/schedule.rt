//! The moments at which a coordinator acts by itself.

ghost use Rattle.std.specs.Prelude.{◌≡◌, ◌+◌, ◌≤◌, ◌<◌, ◌||◌, ℕ, Bool, [], OnOk, IfOk, IsOk, is_some, length};
ghost use Rattle.std.specs.List.{range_with_len};
ghost use Rattle.lra_model.specs.History.{History};
ghost use Rattle.lra_laws.specs.Snapshots.{StandsFor};
ghost use Rattle.lra_tables.specs.Plans.{CoversWants, CoversLimits};
ghost use Rattle.lra_commands.specs.declared.limits.Limits.{Limits as LimitsValue};
ghost use Rattle.lra_commands.specs.Due.{due, late};
ghost use Rattle.lra_schedule.specs.Schedules.{IsScheduleOf, IsFirst, IsFirstMoment};
ghost use Rattle.lra_schedule.specs.inner.Renewals.{renew, AreRenewed, retry_in, limit_in};

use crate::moments::{limit_of, retry_of};
use lra_commands::Limits;
use lra_tables::Tables;
use lra_timers::{Agenda, Memory};
use std::alloc::Global;
use std::marker::Model;

/// The moments, in milliseconds, at which the want of each member is due and the limit of each action passes.
#[derive(Drop)]
pub struct Schedule {
    agenda: Agenda,
}

impl Model for Schedule {
    ghost use Rattle.lra_timers.specs.Planned.{Planned, planned_code};

    ghost Value = { Planned };

    ghost coded = { planned_code };

    ghost view = { λ s. s.agenda };
}

/// Returns the earlier of two moments, or the one that there is.
fn earlier(one: Option<u64>, other: Option<u64>) -> Option<u64>
    ensures { (f g : ℕ → Bool) → IsFirst f one → IsFirst g other → IsFirst (λ n. f n || g n) result }
{
    let Some(first) = one else {
        return other;
    };
    match other {
        Some(second) => Some(first.min(second)),
        None => Some(first),
    }
}

impl Schedule {
    /// Returns the schedule of no entries.
    pub fn new(alloc: Global) -> Schedule
        ensures { (l : LimitsValue) → IsScheduleOf l result [] }
    {
        let agenda = Agenda::new(alloc);
        Schedule { agenda }
    }

    /// Makes room for so many members and actions in the next call of `refresh`. After `Memory` there may be more room
    /// than before.
    pub fn room(&mut self, n: usize) -> Result<(), Memory>
        ensures room { OnOk result (n ≤ self.new.room) }
        ensures succeeds { n ≤ self.old.room → IsOk result }
        ensures kept { self.old.room ≤ self.new.room }
        ensures limits { self.new.limits ≡ self.old.limits }
        ensures retries { self.new.retries ≡ self.old.retries }
    {
        self.agenda.room(n)
    }

    /// Returns the member whose want is due now: the one that has been due longest, and of these the least.
    pub fn due(&self, now: u64) -> Option<u64>
        ensures { (l : LimitsValue) (J : History) → IsScheduleOf l self.now J → result ≡ due l J now }
    {
        self.agenda.next_retry(now)
    }

    /// Returns the action whose limit has passed: the one whose limit passed first, and of these the least.
    pub fn late(&self, now: u64) -> Option<u64>
        ensures { (l : LimitsValue) (J : History) → IsScheduleOf l self.now J → result ≡ late J now }
    {
        self.agenda.first_due(now)
    }

    /// Returns the first moment at which a want is due, if there is any.
    fn first_want(&self, limits: &Limits, tables: &Tables) -> Option<u64>
        ensures { (J : History) → IsScheduleOf limits.now self.now J → StandsFor tables.now.snapshot J
            → IsFirst (λ n. is_some (due limits.now J n)) result }
    {
        match self.agenda.next_retry(u64::MAX) {
            Some(member) => retry_of(limits, tables, member),
            None => None,
        }
    }

    /// Returns the first moment at which a limit has passed, if there is any.
    fn first_limit(&self, tables: &Tables) -> Option<u64>
        ensures { (l : LimitsValue) (J : History) → IsScheduleOf l self.now J → StandsFor tables.now.snapshot J
            → IsFirst (λ n. is_some (late J n)) result }
    {
        match self.agenda.first_due(u64::MAX) {
            Some(action) => limit_of(tables, action),
            None => None,
        }
    }

    /// Returns the first moment at which a want is due or a limit has passed, by the same limits as before. It may lie
    /// in the past. Where there is none, no want is ever due and no limit ever passes.
    pub fn next(&self, limits: &Limits, tables: &Tables) -> Option<u64>
        ensures { (J : History) → IsScheduleOf limits.now self.now J → StandsFor tables.now.snapshot J
            → IsFirstMoment limits.now J result }
    {
        earlier(self.first_want(limits, tables), self.first_limit(tables))
    }

    fn put_retry(&mut self, member: u64, moment: Option<u64>)
        requires { 0 < self.old.room }
        ensures retries { self.new.retries ≡ renew self.old.retries member moment }
        ensures limits { self.new.limits ≡ self.old.limits }
        ensures room { self.old.room ≤ self.new.room + 1 }
    {
        match moment {
            Some(moment) => self.agenda.set_retry(member, moment).unwrap(),
            None => self.agenda.drop_retry(member),
        }
    }

    fn put_limit(&mut self, action: u64, moment: Option<u64>)
        requires { 0 < self.old.room }
        ensures limits { self.new.limits ≡ renew self.old.limits action moment }
        ensures retries { self.new.retries ≡ self.old.retries }
        ensures room { self.old.room ≤ self.new.room + 1 }
    {
        match moment {
            Some(moment) => self.agenda.set_limit(action, moment).unwrap(),
            None => self.agenda.drop_limit(action),
        }
    }

    fn refresh_members(&mut self, limits: &Limits, tables: &Tables, members: &[u64])
        requires { length members.now ≤ self.old.room }
        ensures retries { (K : History) → StandsFor tables.now.snapshot K
            → AreRenewed (retry_in limits.now K) self.old.retries self.new.retries members.now }
        ensures limits { self.new.limits ≡ self.old.limits }
        ensures room { self.old.room ≤ self.new.room + length members.now }
    {
        for member in members {
            self.put_retry(*member, retry_of(limits, tables, *member));
        }
    }

    fn refresh_actions(&mut self, tables: &Tables, actions: &[u64])
        requires { length actions.now ≤ self.old.room }
        ensures limits { (K : History) → StandsFor tables.now.snapshot K → AreRenewed (limit_in K) self.old.limits
            self.new.limits actions.now }
        ensures retries { self.new.retries ≡ self.old.retries }
        ensures room { self.old.room ≤ self.new.room + length actions.now }
    {
        for action in actions {
            self.put_limit(*action, limit_of(tables, *action));
        }
    }

    /// Brings these members and actions up to date with the tables, by the same limits as before. This takes no memory.
    pub fn refresh(&mut self, limits: &Limits, tables: &Tables, members: &[u64], actions: &[u64])
        requires { length members.now + length actions.now ≤ self.old.room }
        ensures schedule { (J K : History) → IsScheduleOf limits.now self.old J → StandsFor tables.now.snapshot K
            → CoversWants members.now J K → CoversLimits actions.now J K → IsScheduleOf limits.now self.new K }
        ensures room { self.old.room ≤ self.new.room + (length members.now + length actions.now) }
    {
        self.refresh_members(limits, tables, members);
        self.refresh_actions(tables, actions);
    }

    fn fill_members(&mut self, limits: &Limits, tables: &Tables, count: u64) -> Result<(), Memory>
        ensures retries { OnOk result ((K : History) → StandsFor tables.now.snapshot K
            → AreRenewed (retry_in limits.now K) self.old.retries self.new.retries (range_with_len 1 count)) }
        ensures limits { self.new.limits ≡ self.old.limits }
    {
        for place in 0..count {
            self.room(1)?;
            self.put_retry(place + 1, retry_of(limits, tables, place + 1));
        }
        Ok(())
    }

    fn fill_actions(&mut self, tables: &Tables, count: u64) -> Result<(), Memory>
        ensures limits { OnOk result ((K : History) → StandsFor tables.now.snapshot K
            → AreRenewed (limit_in K) self.old.limits self.new.limits (range_with_len 1 count)) }
        ensures retries { self.new.retries ≡ self.old.retries }
    {
        for place in 0..count {
            self.room(1)?;
            self.put_limit(place + 1, limit_of(tables, place + 1));
        }
        Ok(())
    }

    /// Returns the schedule of the history that tables stand for, as for a coordinator that is opened again. Room for
    /// more moments has to be made with `room`.
    pub fn of(alloc: Global, limits: &Limits, tables: &Tables) -> Result<Schedule, Memory>
        ensures { IfOk result (λ schedule. (K : History) → StandsFor tables.now.snapshot K
            → IsScheduleOf limits.now schedule K) }
    {
        let mut schedule = Schedule::new(alloc);
        schedule.fill_members(limits, tables, tables.count_members())?;
        schedule.fill_actions(tables, tables.count_actions())?;
        Ok(schedule)
    }
}
