//! Simulates many sites, each a coordinator in memory. The messages of their clients and members may be lost or late,
//! and sites crash. All chance comes from one seed, so that a failing run can be repeated. At the end the auditor
//! audits each journal, and what clients and members saw is compared with it.
#![tactic(auto)]

mod audits;
mod calendar;
mod chance;
mod checks;
mod client;
mod clients;
mod counts;
mod desk;
mod event;
mod hearing;
mod member;
mod serving;
mod site;
mod words;
mod world;

use anyhow::{Context, Result};
use audits::{Seen, check_site};
use event::Event;
use lra_model::Outcome;
use std::process::ExitCode;
use words::{USAGE, setting_in};
use world::{Setting, World};

/// Exit status of a run that fails.
const FAILED: u8 = 1;

impl World {
    /// Handles an event.
    fn happen(&mut self, event: Event) -> Result<()> {
        match event {
            Event::Arrival { site } => self.arrive(site),
            Event::Thought { client } => self.think(client),
            Event::Request { client, call } => self.serve(client, call),
            Event::Answer {
                client,
                call,
                answer,
            } => self.answer(client, call, answer),
            Event::Impatience {
                client,
                call,
                tries,
            } => self.lose_patience(client, call, tries),
            Event::Ask(ask) => self.hear(ask),
            Event::Reply { ask, outcome } => self.record(ask, outcome),
            Event::GivenUp(ask) => self.record(ask, Outcome::Silent),
            Event::Done { member, way } => self.finish(member, way),
            Event::Report { member, ending } => self.report(member, ending),
            Event::Sync { site, life, end } => self.sync(site, life, end),
            Event::Work { site, life } => self.work(site, life),
            Event::Crash { site } => self.crash(site),
            Event::Opening { site } => self.open(site),
        }
    }

    /// Handles events until no site has any left.
    fn play(&mut self) -> Result<()> {
        self.add_sites()?;
        for _ in 0..u64::MAX {
            let Some(event) = self.next_event()? else {
                break;
            };
            let now = self.now;
            self.happen(event)
                .context(format_args!("at {now} ms, {event:?}"))?;
        }
        Ok(())
    }

    /// Checks each site.
    fn check(&mut self) -> Result<()> {
        let seen = Seen {
            clients: self.clients.as_slice(),
            members: self.members.as_slice(),
        };
        for (place, site) in self.sites.iter().enumerate() {
            check_site(self.alloc, seen, &mut self.counts, site).context(format_args!(
                "site {}",
                place.saturating_add(1)
            ))?;
        }
        Ok(())
    }

    /// Runs the world to its end, then checks each site.
    fn run(&mut self) -> Result<()> {
        self.play()?;
        self.check()
    }
}

/// Prints the result of a run, and returns the program's exit status.
fn print(rt: &HostRuntime, world: &World, told: Result<()>) -> Result<ExitCode> {
    let Setting {
        seed,
        sites,
        actions,
        fault: _,
    } = world.setting;
    println!(rt; "seed      {seed}, sites {sites}, actions asked for {actions}")?;
    world.counts.print_events(rt)?;
    if let Err(fault) = told {
        println!(rt; "seed {seed} FAILS: {fault:#}")?;
        return Ok(ExitCode::from(FAILED));
    }
    world.counts.print_journals(rt)?;
    println!(rt; "seed {seed}: all {sites} journals are sound")?;
    Ok(ExitCode::SUCCESS)
}

/// Runs a simulation, and prints its result.
fn run(rt: &HostRuntime, setting: Setting) -> Result<ExitCode> {
    let mut world = World::new(rt.alloc(), setting);
    let told = world.run();
    let printed = print(rt, &world, told);
    drop(world);
    printed
}

fn main(rt: HostRuntime) -> Result<ExitCode> {
    match setting_in(&rt)? {
        Some(setting) => run(&rt, setting),
        None => {
            println!(rt; "{USAGE}")?;
            Ok(ExitCode::SUCCESS)
        }
    }
}
