//! Events of members.

use super::event::{Ask, Event};
use super::world::World;
use anyhow::{Context, Result, ensure};
use lra_model::{Direction, Outcome};

/// Time that a member goes on by itself, in milliseconds.
const WORKING: (u64, u64) = (20, 3_000);

/// Members that fail at the end of that time, members that report their end, and reports that are sent twice: each of a
/// thousand.
const FAILING: u64 = 30;

const TELLING: u64 = 700;

const TWICE: u64 = 100;

impl World {
    /// Delivers an ask to its member.
    pub fn hear(&mut self, ask: Ask) -> Result<()> {
        let member = self
            .members
            .get_mut(ask.member)
            .context("an ask is of nobody")?;
        let client = self.clients.get(member.client).context("no client")?;
        ensure!(
            client.site == ask.site,
            "a member is asked by another site than its client's"
        );
        ensure!(
            client.action.unwrap_or(ask.action_number) == ask.action_number,
            "a member is asked in another action than its client's"
        );
        // (a repeated join request that arrives after the member has left lets it join anew)
        let is_known = member.number.unwrap_or(ask.member_number) == ask.member_number;
        ensure!(
            is_known || member.is_leaving,
            "a member is asked by another number than was told"
        );
        member.asked_as = Some(ask.member_number);
        let was_working = member.working();
        let outcome = member.hear(ask.kind, &mut self.chance);
        let working = member.working();
        if let Some(way) = working
            && was_working != working
        {
            let member = ask.member;
            self.after(WORKING, Event::Done { member, way })?;
        }
        self.reply(ask, outcome)
    }

    /// Sends a member's reply to an ask, if it has one.
    fn reply(&mut self, ask: Ask, outcome: Option<Outcome>) -> Result<()> {
        match outcome {
            Some(outcome) => self.send(Event::Reply { ask, outcome }),
            None => Ok(()),
        }
    }

    /// Ends what a member went on with by itself, and sends its report in most cases.
    pub fn finish(&mut self, place: usize, way: Direction) -> Result<()> {
        let has_failed = self.chance.happens(FAILING);
        let member = self.members.get_mut(place).context("no member")?;
        let Some(ending) = member.finish(way, has_failed) else {
            return Ok(());
        };
        if !self.chance.happens(TELLING) {
            return Ok(());
        }
        let report = Event::Report {
            member: place,
            ending,
        };
        self.send(report)?;
        if self.chance.happens(TWICE) {
            self.send(report)?;
        }
        Ok(())
    }
}
