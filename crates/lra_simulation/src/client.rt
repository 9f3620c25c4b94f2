//! A client: the action that it starts, the members that join it, and how the client ends it.

use super::chance::Chance;
use super::event::Call;
use anyhow::{Result, bail};
use lra_core::{Refusal, Told};

/// Depth to which actions are nested.
const DEPTH: u64 = 4;

/// Way in which a client ends its action.
#[derive(Clone, Copy, Debug, PartialEq, Eq)]
pub enum Finish {
    Close,
    Cancel,
    /// The client doesn't end it: the action's limit passes.
    Never,
}

#[derive(Clone, Copy)]
pub struct Client {
    pub site: usize,
    /// Client in whose action its own is nested, as a place in the world.
    pub parent: Option<usize>,
    depth: u64,
    /// Limit of its action, in milliseconds. 0 means none.
    pub limit: u64,
    /// First of its members, as a place in the world. The others follow; the first `joined` of them have joined.
    pub first: usize,
    pub members: usize,
    joined: usize,
    /// Number of further clients that nest their actions in its own.
    pub nested: u64,
    is_to_renew: bool,
    is_to_leave: bool,
    finish: Finish,
    /// Number of its action, once the client was told it.
    pub action: Option<u64>,
    /// Call that it has made and that isn't answered yet, and how often it made it.
    pub call: Option<Call>,
    pub tries: u64,
    /// End of its action, once it was answered.
    pub ended: Option<Finish>,
    pub is_over: bool,
}

/// Draws the limit of an action that its client ends in this way.
fn limit_for(finish: Finish, chance: &mut Chance) -> u64 {
    match finish {
        Finish::Never => chance.between(1_000, 20_000),
        _ if chance.happens(100) => 0,
        _ => chance.between(5_000, 120_000),
    }
}

fn finish_by(chance: &mut Chance) -> Finish {
    match chance.below(100) {
        0..60 => Finish::Close,
        60..85 => Finish::Cancel,
        _ => Finish::Never,
    }
}

impl Client {
    /// Returns a client at a site. With a parent, its action is nested in that client's.
    pub fn new(site: usize, parent: Option<usize>, depth: u64, chance: &mut Chance) -> Client {
        let finish = finish_by(chance);
        Client {
            site,
            parent,
            depth,
            limit: limit_for(finish, chance),
            first: 0,
            members: chance.below(4) as usize,
            joined: 0,
            nested: if depth < DEPTH && chance.happens(250) {
                chance.between(1, 2)
            } else {
                0
            },
            is_to_renew: chance.happens(50),
            is_to_leave: chance.happens(80),
            finish,
            action: None,
            call: None,
            tries: 0,
            ended: None,
            is_over: false,
        }
    }

    /// Returns the depth of the actions that are nested in its own.
    pub fn depth_below(&self) -> u64 {
        self.depth.saturating_add(1)
    }

    /// Returns its next call, if any.
    pub fn next_call(&self) -> Option<Call> {
        if self.is_over {
            None
        } else if self.action.is_none() {
            Some(Call::Start)
        } else if self.joined < self.members {
            let member = self.first.saturating_add(self.joined);
            Some(Call::Join { member })
        } else if self.is_to_renew {
            Some(Call::Renew)
        } else if self.is_to_leave && self.members > 0 {
            Some(Call::Leave { member: self.first })
        } else {
            match self.finish {
                Finish::Close => Some(Call::Close),
                Finish::Cancel => Some(Call::Cancel),
                Finish::Never => None,
            }
        }
    }

    /// Accepts the answer to a call. Fails if such a call can't have that answer.
    pub fn take(&mut self, call: Call, answer: Result<Told, Refusal>) -> Result<()> {
        self.call = None;
        match (call, answer) {
            (Call::Start, Ok(Told::Action(action))) => self.action = Some(action),
            (Call::Join { .. }, Ok(Told::Member(_) | Told::AlreadyMember(_))) => {
                self.joined = self.joined.saturating_add(1);
            }
            (Call::Leave { .. }, Ok(Told::Left) | Err(Refusal::HasLeft)) => {
                self.is_to_leave = false;
            }
            (Call::Renew, Ok(Told::Renewed)) => self.is_to_renew = false,
            (Call::Close, Ok(Told::Now(_) | Told::Already(_))) => self.end(Finish::Close),
            (Call::Cancel, Ok(Told::Now(_) | Told::Already(_))) => self.end(Finish::Cancel),
            (_, Err(Refusal::NotActive(_))) => self.is_over = true,
            (_, Ok(told)) => bail!("a client is told {told:?} of {call:?}"),
            (_, Err(refusal)) => bail!("{call:?} is refused: {refusal}"),
        }
        Ok(())
    }

    fn end(&mut self, finish: Finish) {
        self.ended = Some(finish);
        self.is_over = true;
    }
}
