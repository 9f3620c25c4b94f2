//! Events of sites.

ghost use Rattle.std.specs.Prelude.{◌≡◌, true};
ghost use Rattle.lra_core.specs.Prepares.{is_suited};

use super::client::Client;
use super::counts::{add, add_one};
use super::event::{Ask, Call, Event};
use super::member::uris_of;
use super::world::World;
use anyhow::{Context, Result, bail};
use lra_core::{Command, Refusal, Told};
use lra_model::{Ending, Outcome, Uris};

/// Time that a site is down, in milliseconds.
const DOWN: (u64, u64) = (50, 1_000);

/// Crashes that come though nothing is being written, of a thousand. The others are tried again after `LATER`
/// milliseconds.
const IDLE: u64 = 20;

const LATER: (u64, u64) = (1, 20);

/// Most commands that a site performs by itself at once.
const MOST: u32 = 1_000_000;

impl World {
    /// Delivers a client's request to its site. It is lost if the site is down.
    pub fn serve(&mut self, place: usize, call: Call) -> Result<()> {
        let client = *self.clients.get(place).context("no client")?;
        if !self.is_up(client.site) {
            add_one(&mut self.counts.lost);
            return Ok(());
        }
        let answer = self.perform(place, call)?;
        let site = self.sites.get_mut(client.site).context("no site")?;
        site.post(Event::Answer {
            client: place,
            call,
            answer,
        })?;
        self.settle(client.site)
    }

    fn is_up(&self, place: usize) -> bool {
        match self.sites.get(place) {
            Some(site) => site.is_up,
            None => false,
        }
    }

    /// Returns the number of a client's action, once the client was told it.
    fn action_of(&self, place: usize) -> Option<u64> {
        self.clients.get(place)?.action
    }

    /// Returns the number of a member, once its client was told it.
    fn number_of(&self, place: usize) -> Option<u64> {
        self.members.get(place)?.number
    }

    /// Performs a client's request, and returns the answer.
    fn perform(&mut self, place: usize, call: Call) -> Result<Result<Told, Refusal>> {
        let client = *self.clients.get(place).context("no client")?;
        let site = client.site;
        let action = client.action.unwrap_or(0);
        match call {
            Call::Start => self.start(client),
            Call::Join { member } => self.join(site, action, member),
            Call::Leave { member } => {
                let member = self.number_of(member).unwrap_or(0);
                self.tell(site, &Command::Leave { action, member })
            }
            Call::Renew => {
                let limit = client.limit;
                self.tell(site, &Command::Renew { action, limit })
            }
            Call::Close => self.tell(site, &Command::Close { action }),
            Call::Cancel => self.tell(site, &Command::Cancel { action }),
        }
    }

    /// Starts a client's action.
    fn start(&mut self, client: Client) -> Result<Result<Told, Refusal>> {
        let parent = match client.parent {
            Some(parent) => self.action_of(parent),
            None => None,
        };
        let limit = client.limit;
        self.tell(client.site, &Command::Start { parent, limit })
    }

    /// Lets a member join an action.
    fn join(&mut self, site: usize, action: u64, member: usize) -> Result<Result<Told, Refusal>> {
        let doors = self.members.get(member).context("no member")?.doors;
        let uris = uris_of(self.alloc, member, doors)?;
        let told = self.let_join(site, action, &uris);
        drop(uris);
        told
    }

    fn let_join(&mut self, site: usize, action: u64, uris: &Uris) -> Result<Result<Told, Refusal>> {
        self.tell(site, &Command::Join { action, uris })
    }

    /// Gives a command to a site's coordinator.
    fn tell(&mut self, place: usize, command: &Command<'_>) -> Result<Result<Told, Refusal>>
        requires { is_suited command.now ≡ true }
    {
        let site = self.sites.get_mut(place).context("no site")?;
        Ok(site.tell(self.now, command))
    }

    /// Performs a site's work that is due: fires limits and sends asks.
    pub fn work(&mut self, place: usize, life: u64) -> Result<()> {
        let site = self.sites.get_mut(place).context("no site")?;
        if site.life != life || !site.begins_work(self.now) {
            return Ok(());
        }
        for _ in 0..MOST {
            match self.tell(place, &Command::Tick)? {
                Ok(Told::Fired(_)) => {}
                Ok(_) => break,
                Err(refusal) => bail!("a limit that has passed is refused: {refusal}"),
            }
        }
        self.ask_all(place)?;
        self.settle(place)
    }

    /// Hands out all asks of a site that are due.
    fn ask_all(&mut self, place: usize) -> Result<()> {
        let site = self.sites.get_mut(place).context("no site")?;
        for _ in 0..MOST {
            let Some(ask) = site.next_ask(self.now)? else {
                break;
            };
            site.post(Event::Ask(ask))?;
            add_one(&mut self.counts.asks);
        }
        Ok(())
    }

    /// Records the outcome of an ask at its site, unless the site has crashed since.
    pub fn record(&mut self, ask: Ask, outcome: Outcome) -> Result<()> {
        let site = self.sites.get_mut(ask.site).context("no site")?;
        if site.life != ask.life {
            return Ok(());
        }
        let is_recorded = site.record(self.now, ask.number, outcome)?;
        if is_recorded && outcome == Outcome::Silent {
            add_one(&mut self.counts.silences);
        }
        self.settle(ask.site)
    }

    /// Delivers a member's report on itself to its site.
    pub fn report(&mut self, place: usize, ending: Ending) -> Result<()> {
        let member = *self.members.get(place).context("no member")?;
        let site = self.clients.get(member.client).context("no client")?.site;
        let Some(number) = member.asked_as else {
            return Ok(());
        };
        if !self.is_up(site) {
            add_one(&mut self.counts.lost);
            return Ok(());
        }
        let command = Command::Report {
            member: number,
            ending,
        };
        match self.tell(site, &command)? {
            Ok(_) => add_one(&mut self.counts.reports),
            Err(Refusal::NotAsked) => add_one(&mut self.counts.refused),
            Err(refusal) => bail!("a report is refused: {refusal}"),
        }
        self.settle(site)
    }

    /// Crashes a site, or plans the crash a little later if nothing is being written: most crashes interrupt a write.
    pub fn crash(&mut self, place: usize) -> Result<()> {
        if self.left == 0 || !self.is_up(place) {
            return Ok(());
        }
        let comes_anyway = self.chance.happens(IDLE);
        let site = self.sites.get_mut(place).context("no site")?;
        if !site.is_writing() && !comes_anyway {
            return self.after(LATER, Event::Crash { site: place });
        }
        let fault = self.setting.fault;
        let lost = site.crash(self.alloc, &mut self.chance, fault);
        add(&mut self.counts.unsynced, lost);
        add_one(&mut self.counts.crashes);
        self.after(DOWN, Event::Opening { site: place })?;
        self.plan_crash(place)
    }

    /// Opens the journal of a site that crashed, and lets the site go on.
    pub fn open(&mut self, place: usize) -> Result<()> {
        let site = self.sites.get_mut(place).context("no site")?;
        let torn = site.open(self.alloc, self.now)?;
        add(&mut self.counts.torn, torn);
        self.settle(place)
    }
}
