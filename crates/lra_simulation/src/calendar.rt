//! Calendar of the events to come, ordered by their moments. Events of one moment are in the order of their insertion.

use super::event::Event;
use anyhow::Result;
use slab::Slab;
use std::alloc::Global;
use std::cmp::Reverse;
use std::collections::BinaryHeap;

/// Moment of an event, and its place in the slab.
#[derive(Clone, Copy, PartialEq, Eq, PartialOrd, Ord)]
struct Due {
    moment: u64,
    /// Number of events that were put before.
    turn: u64,
    place: usize,
}

#[derive(Drop)]
pub struct Calendar {
    dues: BinaryHeap<Reverse<Due>>,
    events: Slab<Event>,
    turns: u64,
}

impl Calendar {
    pub fn new(alloc: Global) -> Calendar {
        Calendar {
            dues: BinaryHeap::new(alloc),
            events: Slab::new(alloc),
            turns: 0,
        }
    }

    pub fn put(&mut self, moment: u64, event: Event) -> Result<()> {
        let place = self.events.insert(event)?;
        let turn = self.turns;
        self.turns = turn.wrapping_add(1);
        self.dues.push(Reverse(Due {
            moment,
            turn,
            place,
        }))?;
        Ok(())
    }

    /// Removes the next event, and returns it with its moment.
    pub fn next(&mut self) -> Option<(u64, Event)> {
        let Reverse(due) = self.dues.pop()?;
        let event = self.events.try_remove(due.place)?;
        Some((due.moment, event))
    }
}
