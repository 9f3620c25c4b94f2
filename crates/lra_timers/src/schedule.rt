ghost use Rattle.std.specs.Prelude.{◌≡◌, ◌+◌, ◌≤◌, ◌<◌, IsNone, IsOk, IsSome, IfSome, OnOk, OnErr, ◌↔◌, nat_eq};
ghost use Rattle.std.specs.HashMap.{get, spare, Updates};
ghost use Rattle.std.specs.FinMap as map;
ghost use Rattle.lra_timers.specs.Moments.{IsFirstDue, NoneDue};

use crate::deadline::Deadline;
use crate::tournament::Tournament;
use std::alloc::{AllocError, Global};
use std::collections::HashMap;
use std::marker::Model;

/// A moment for each of some numbers. The first to come is known at once, and a change costs a logarithm.
#[derive(Drop)]
pub(crate) struct Schedule {
    places: HashMap<u64, usize>,
    deadlines: Tournament,
}

impl Model for Schedule {
    ghost use Rattle.std.specs.Prelude.{min};
    ghost use Rattle.std.specs.HashMap.{spare};
    ghost use Rattle.lra_timers.specs.inner.Schedule.{Timetable, timetable_code, moments_at, IsIndex};

    ghost Value = { Timetable };

    ghost coded = { timetable_code };

    ghost view = { λ s. record {
      moments = moments_at s.places s.deadlines.items;
      room =
          min (spare s.places) s.deadlines.room;
    } };

    ghost invariant = { λ s. IsIndex s.places s.deadlines.items };
}

/// Replaces the place of a number that has one.
fn move_to(places: &mut HashMap<u64, usize>, number: u64, place: usize)
    requires { IsSome (get nat_eq places.old number) }
    ensures moved { Updates nat_eq places.old places.new number (Some place) }
    ensures room { spare places.new ≡ spare places.old }
{
    if let Some(old) = places.get_mut(&number) {
        *old = place;
    }
}

impl Schedule {
    pub fn new(alloc: Global) -> Self
        ensures moments { result.moments ≡ map.empty }
    {
        Schedule {
            places: HashMap::new(alloc),
            deadlines: Tournament::new(alloc),
        }
    }

    /// Makes room for so many more numbers.
    pub fn reserve(&mut self, additional: usize) -> Result<(), AllocError>
        ensures moments { self.new.moments ≡ self.old.moments }
        ensures room { OnOk result (additional ≤ self.new.room) }
        ensures kept { self.old.room ≤ self.new.room }
        ensures succeeds { additional ≤ self.old.room → IsOk result }
    {
        self.places.reserve(additional)?;
        self.deadlines.reserve(additional)
    }

    /// Sets the moment of a number. A number that has one already takes no room.
    pub fn set(&mut self, number: u64, moment: u64) -> Result<(), AllocError>
        ensures ok { OnOk result (self.new.moments ≡ map.insert self.old.moments number moment) }
        ensures err { OnErr result (self.new.moments ≡ self.old.moments) }
        ensures room { self.old.room ≤ self.new.room + 1 }
        ensures succeeds { 0 < self.old.room → IsOk result }
        ensures replaces { IsSome (map.get self.old.moments number) → IsOk result }
    {
        let deadline = Deadline { moment, number };
        match self.places.get(&number) {
            Some(place) => self.deadlines.set(*place, deadline),
            None => self.add(deadline)?,
        }
        Ok(())
    }

    fn add(&mut self, deadline: Deadline) -> Result<(), AllocError>
        requires { map.get self.old.moments deadline.number ≡ None }
        ensures ok { OnOk result (self.new.moments ≡ map.insert self.old.moments deadline.number deadline.moment) }
        ensures err { OnErr result (self.new.moments ≡ self.old.moments) }
        ensures room { self.old.room ≤ self.new.room + 1 }
        ensures succeeds { 0 < self.old.room → IsOk result }
    {
        self.reserve(1)?;
        self.places.insert(deadline.number, self.deadlines.len())?;
        self.deadlines.push(deadline);
        Ok(())
    }

    pub fn remove(&mut self, number: u64)
        ensures moments { self.new.moments ≡ map.remove self.old.moments number }
        ensures room { self.old.room ≤ self.new.room }
    {
        let Some(place) = self.places.remove(&number) else {
            return;
        };
        let last = self.deadlines.pop();
        if last.number != number {
            move_to(&mut self.places, last.number, place);
            self.deadlines.set(place, last);
        }
    }

    pub fn first_due(&self, now: u64) -> Option<u64>
        ensures none { IsNone result ↔ NoneDue self.now.moments now }
        ensures first { IfSome result (IsFirstDue self.now.moments now) }
    {
        match self.deadlines.first() {
            Some(first) if first.moment <= now => Some(first.number),
            _ => None,
        }
    }
}
