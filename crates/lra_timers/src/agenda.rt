ghost use Rattle.std.specs.Prelude.{◌≡◌, ◌↔◌, ◌+◌, ◌≤◌, ◌<◌, IsNone, IsOk, IsSome, IfSome, OnOk, OnErr};
ghost use Rattle.std.specs.FinMap as map;
ghost use Rattle.lra_timers.specs.Moments.{IsFirstDue, NoneDue};

use crate::Memory;
use crate::schedule::Schedule;
use std::alloc::Global;
use std::marker::Model;

/// The moments that a coordinator waits for, in milliseconds: when an action's limit is reached, and when a
/// member is asked again.
///
/// Both are ordered by moment, and at one moment by number. So the first to come is known at once, and a change
/// costs a logarithm of how many there are.
#[derive(Drop)]
pub struct Agenda {
    limits: Schedule,
    retries: Schedule,
}

impl Model for Agenda {
    ghost use Rattle.std.specs.Prelude.{min};
    ghost use Rattle.lra_timers.specs.Planned.{Planned, planned_code};

    ghost Value = { Planned };

    ghost coded = { planned_code };

    ghost view = { λ a. record {
      limits = a.limits.moments;
      retries = a.retries.moments;
      room =
          min a.limits.room a.retries.room;
    } };
}

impl Agenda {
    pub fn new(alloc: Global) -> Self
        ensures limits { result.limits ≡ map.empty }
        ensures retries { result.retries ≡ map.empty }
    {
        Agenda {
            limits: Schedule::new(alloc),
            retries: Schedule::new(alloc),
        }
    }

    /// Makes room for the next n calls of `set_limit` and `set_retry`, which then can't fail.
    pub fn room(&mut self, n: usize) -> Result<(), Memory>
        ensures room { OnOk result (n ≤ self.new.room) }
        ensures succeeds { n ≤ self.old.room → IsOk result }
        ensures kept { self.old.room ≤ self.new.room }
        ensures limits { self.new.limits ≡ self.old.limits }
        ensures retries { self.new.retries ≡ self.old.retries }
    {
        self.limits.reserve(n)?;
        self.retries.reserve(n)
    }

    /// Sets when the limit of an action is reached. A limit that it has already is replaced, without memory.
    pub fn set_limit(&mut self, action: u64, moment: u64) -> Result<(), Memory>
        ensures ok { OnOk result (self.new.limits ≡ map.insert self.old.limits action moment) }
        ensures err { OnErr result (self.new.limits ≡ self.old.limits) }
        ensures retries { self.new.retries ≡ self.old.retries }

        ensures succeeds { 0 < self.old.room → IsOk result }
        ensures replaces { IsSome (map.get self.old.limits action) → IsOk result }
        ensures room { self.old.room ≤ self.new.room + 1 }
    {
        self.limits.set(action, moment)
    }

    /// Removes the limit of an action, if it has one.
    pub fn drop_limit(&mut self, action: u64)
        ensures limits { self.new.limits ≡ map.remove self.old.limits action }
        ensures retries { self.new.retries ≡ self.old.retries }
        ensures room { self.old.room ≤ self.new.room }
    {
        self.limits.remove(action);
    }

    /// Returns the action whose limit is reached first, if that is now or before.
    pub fn first_due(&self, now: u64) -> Option<u64>
        ensures none { IsNone result ↔ NoneDue self.now.limits now }
        ensures first { IfSome result (IsFirstDue self.now.limits now) }
    {
        self.limits.first_due(now)
    }

    /// Sets when a member is asked again. A moment that it has already is replaced, without memory.
    pub fn set_retry(&mut self, member: u64, moment: u64) -> Result<(), Memory>
        ensures ok { OnOk result (self.new.retries ≡ map.insert self.old.retries member moment) }
        ensures err { OnErr result (self.new.retries ≡ self.old.retries) }
        ensures limits { self.new.limits ≡ self.old.limits }

        ensures succeeds { 0 < self.old.room → IsOk result }
        ensures replaces { IsSome (map.get self.old.retries member) → IsOk result }
        ensures room { self.old.room ≤ self.new.room + 1 }
    {
        self.retries.set(member, moment)
    }

    /// Removes the retry of a member, if it has one.
    pub fn drop_retry(&mut self, member: u64)
        ensures retries { self.new.retries ≡ map.remove self.old.retries member }
        ensures limits { self.new.limits ≡ self.old.limits }
        ensures room { self.old.room ≤ self.new.room }
    {
        self.retries.remove(member);
    }

    /// Returns the member that is asked again first, if that is now or before.
    pub fn next_retry(&self, now: u64) -> Option<u64>
        ensures none { IsNone result ↔ NoneDue self.now.retries now }
        ensures first { IfSome result (IsFirstDue self.now.retries now) }
    {
        self.retries.first_due(now)
    }
}
