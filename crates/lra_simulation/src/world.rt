//! World: many sites, their clients and their members, and the network between them.

use super::calendar::Calendar;
use super::chance::Chance;
use super::client::Client;
use super::counts::{Counts, add_one};
use super::event::{Ask, Event};
use super::member::Member;
use super::site::Site;
use anyhow::{Context, Result, ensure};
use std::alloc::Global;

/// Fault of a world that a run has to detect.
#[derive(Clone, Copy, Debug, PartialEq, Eq)]
pub enum Fault {
    /// A crash loses synced bytes, too.
    LoseSynced,
    /// As `LoseSynced`, but an opening doesn't check how much had left the site: the checks of clients and members have
    /// to detect the loss.
    LoseQuietly,
}

/// Setting of a simulation.
#[derive(Clone, Copy)]
pub struct Setting {
    pub seed: u64,
    pub sites: usize,
    pub actions: u64,
    pub fault: Option<Fault>,
}

/// Time of a quick message and of a slow one, in milliseconds, and how many of a thousand messages are slow and are
/// lost.
const QUICK: (u64, u64) = (1, 50);

const SLOW: (u64, u64) = (50, 2_000);

const SLOW_ONES: u64 = 20;

const LOST_ONES: u64 = 20;

/// Time of a sync, in milliseconds.
const SYNC: (u64, u64) = (1, 20);

/// Time that a site waits for the outcome of an ask, in milliseconds.
const PATIENCE: u64 = 3_000;

/// Longest time between two clients of a site, in milliseconds.
pub const GAP: u64 = 600;

/// Moment by which nothing goes on any more: 100 days after the first.
const QUIET: u64 = 8_640_000_000;

#[derive(Drop)]
pub struct World {
    pub alloc: Global,
    pub now: u64,
    pub chance: Chance,
    calendar: Calendar,
    pub sites: Vec<Site>,
    pub clients: Vec<Client>,
    pub members: Vec<Member>,
    pub counts: Counts,
    pub setting: Setting,
    /// Number of actions that are yet to be started.
    pub left: u64,
}

impl World {
    /// Returns a world without sites.
    pub fn new(alloc: Global, setting: Setting) -> World {
        World {
            alloc,
            now: 0,
            chance: Chance::of_seed(setting.seed),
            calendar: Calendar::new(alloc),
            sites: Vec::new(alloc),
            clients: Vec::new(alloc),
            members: Vec::new(alloc),
            counts: Counts::default(),
            setting,
            left: setting.actions,
        }
    }

    /// Returns about how long clients come, in milliseconds.
    fn span(&self) -> u64 {
        let each = self.setting.actions / (self.setting.sites as u64).max(1);
        each.saturating_mul(GAP / 2)
    }

    /// Adds the sites, and plans the first events of each.
    pub fn add_sites(&mut self) -> Result<()> {
        for site in 0..self.setting.sites {
            self.sites.push(Site::new(self.alloc, site)?)?;
            self.after((1, GAP), Event::Arrival { site })?;
            self.plan_crash(site)?;
        }
        Ok(())
    }

    /// Plans the next crash of a site.
    pub fn plan_crash(&mut self, site: usize) -> Result<()> {
        let span = self.span();
        self.after((span / 24, span / 8), Event::Crash { site })
    }

    /// Plans an event after a time between `least` and `most` milliseconds.
    pub fn after(&mut self, (least, most): (u64, u64), event: Event) -> Result<()> {
        let time = self.chance.between(least, most);
        self.calendar.put(self.now.saturating_add(time), event)
    }

    /// Sends a message, which may be lost or late.
    pub fn send(&mut self, event: Event) -> Result<()> {
        add_one(&mut self.counts.messages);
        if self.chance.happens(LOST_ONES) {
            add_one(&mut self.counts.lost);
            return Ok(());
        }
        let time = if self.chance.happens(SLOW_ONES) {
            SLOW
        } else {
            QUICK
        };
        self.after(time, event)
    }

    /// Sends an ask, and plans when its site gives up on it.
    fn send_ask(&mut self, ask: Ask) -> Result<()> {
        self.send(Event::Ask(ask))?;
        self.after((PATIENCE, PATIENCE), Event::GivenUp(ask))
    }

    /// Plans a site's next sync and its next work.
    pub fn settle(&mut self, place: usize) -> Result<()> {
        let site = self.sites.get_mut(place).context("there is no such site")?;
        let life = site.life;
        let end = site.next_sync();
        let work = site.plan(self.now);
        if let Some(end) = end {
            let event = Event::Sync {
                site: place,
                life,
                end,
            };
            self.after(SYNC, event)?;
        }
        if let Some(moment) = work {
            self.calendar
                .put(moment, Event::Work { site: place, life })?;
        }
        Ok(())
    }

    /// Ends a sync of a site's journal up to `end`, and sends the events that waited for it.
    pub fn sync(&mut self, place: usize, life: u64, end: usize) -> Result<()> {
        {
            let site = self.sites.get_mut(place).context("there is no such site")?;
            if site.life != life {
                return Ok(());
            }
            site.synced(end);
        }
        for _ in 0..u32::MAX {
            let Some(event) = self.leaving(place) else {
                break;
            };
            match event {
                Event::Ask(ask) => self.send_ask(ask)?,
                event => self.send(event)?,
            }
        }
        self.settle(place)
    }

    fn leaving(&mut self, place: usize) -> Option<Event> {
        self.sites.get_mut(place)?.leaving()
    }

    /// Removes the next event, moves the clock to its moment and returns it. Returns none once nothing goes on any
    /// more.
    pub fn next_event(&mut self) -> Result<Option<Event>> {
        let Some((moment, event)) = self.calendar.next() else {
            return Ok(None);
        };
        ensure!(moment < QUIET, "the sites aren't quiet after 100 days");
        self.now = moment;
        add_one(&mut self.counts.events);
        Ok(Some(event))
    }
}
