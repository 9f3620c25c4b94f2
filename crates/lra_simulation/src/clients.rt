//! Events of clients.

use super::client::Client;
use super::counts::add_one;
use super::event::{Call, Event};
use super::member::Member;
use super::world::{GAP, World};
use anyhow::{Context, Result};
use lra_core::{Refusal, Told};

/// Time that a client waits for an answer, number of times that it asks, and time between an answer and its next
/// request. The times are in milliseconds.
const PATIENCE: u64 = 2_500;

const TRIES: u64 = 6;

const THOUGHT: (u64, u64) = (1, 400);

/// Requests that are sent twice, of a thousand.
const REPEATED: u64 = 20;

impl World {
    /// Adds a client at a site, and plans the next arrival there.
    pub fn arrive(&mut self, site: usize) -> Result<()> {
        if self.left == 0 {
            return Ok(());
        }
        self.add_client(site, None, 1)?;
        self.after((1, GAP), Event::Arrival { site })
    }

    /// Adds a client with its members.
    fn add_client(&mut self, site: usize, parent: Option<usize>, depth: u64) -> Result<()> {
        self.left = self.left.saturating_sub(1);
        let place = self.clients.len();
        let mut client = Client::new(site, parent, depth, &mut self.chance);
        client.first = self.members.len();
        for _ in 0..client.members {
            self.members.push(Member::new(place, &mut self.chance))?;
        }
        self.clients.push(client)?;
        let site = self.sites.get_mut(site).context("no site")?;
        site.clients.push(place)?;
        self.after(THOUGHT, Event::Thought { client: place })
    }

    /// Adds a client that nests its action in that of the client at this place.
    fn nest(&mut self, place: usize, client: Client) -> Result<()> {
        if self.left == 0 {
            return Ok(());
        }
        self.add_client(client.site, Some(place), client.depth_below())
    }

    /// Sends a client's next request.
    pub fn think(&mut self, place: usize) -> Result<()> {
        let client = self.clients.get_mut(place).context("no client")?;
        let Some(call) = client.next_call() else {
            return Ok(());
        };
        let is_end = matches!(call, Call::Close | Call::Cancel);
        if is_end && client.nested > 0 {
            client.nested = client.nested.saturating_sub(1);
            let client = *client;
            self.nest(place, client)?;
            return self.after(THOUGHT, Event::Thought { client: place });
        }
        client.call = Some(call);
        client.tries = 0;
        self.ask_for(place, call)
    }

    /// Sends a client's request, for the first time or again.
    fn ask_for(&mut self, place: usize, call: Call) -> Result<()> {
        let client = self.clients.get_mut(place).context("no client")?;
        client.tries = client.tries.saturating_add(1);
        let tries = client.tries;
        if let Call::Leave { member } = call
            && let Some(member) = self.members.get_mut(member)
        {
            member.is_leaving = true;
        }
        let request = Event::Request {
            client: place,
            call,
        };
        self.send(request)?;
        if call != Call::Start && self.chance.happens(REPEATED) {
            self.send(request)?;
        }
        let impatience = Event::Impatience {
            client: place,
            call,
            tries,
        };
        self.after((PATIENCE, PATIENCE), impatience)
    }

    /// Repeats a request that wasn't answered. A start isn't repeated, since that would start another action.
    pub fn lose_patience(&mut self, place: usize, call: Call, tries: u64) -> Result<()> {
        let client = self.clients.get_mut(place).context("no client")?;
        if client.call != Some(call) || client.tries != tries {
            return Ok(());
        }
        if call == Call::Start || tries >= TRIES {
            client.call = None;
            client.is_over = true;
            self.make_up_for(call);
            return Ok(());
        }
        self.ask_for(place, call)
    }

    /// Lets another client start an action in place of one whose start failed, as long as clients come.
    fn make_up_for(&mut self, call: Call) {
        if call == Call::Start && self.left > 0 {
            add_one(&mut self.left);
        }
    }

    /// Gives a client an answer.
    pub fn answer(
        &mut self,
        place: usize,
        call: Call,
        answer: Result<Told, Refusal>,
    ) -> Result<()> {
        let is_refused = answer.is_err();
        if is_refused {
            add_one(&mut self.counts.refused);
        }
        let client = self.clients.get_mut(place).context("no client")?;
        if client.call != Some(call) {
            return Ok(());
        }
        client.take(call, answer)?;
        let goes_on = !client.is_over;
        self.tell_member(call, answer);
        if is_refused {
            self.make_up_for(call);
        }
        if goes_on {
            self.after(THOUGHT, Event::Thought { client: place })?;
        }
        Ok(())
    }

    /// Passes a client's answer on to the member that it is about, if there is one.
    fn tell_member(&mut self, call: Call, answer: Result<Told, Refusal>) {
        match (call, answer) {
            (Call::Join { member }, Ok(Told::Member(number) | Told::AlreadyMember(number))) => {
                if let Some(member) = self.members.get_mut(member) {
                    member.number = Some(number);
                }
            }
            (Call::Leave { member }, Ok(Told::Left) | Err(Refusal::HasLeft)) => {
                if let Some(member) = self.members.get_mut(member) {
                    member.has_left = true;
                }
            }
            _ => {}
        }
    }
}
