//! Events of the world.

use lra_core::{Refusal, Told};
use lra_model::{AskKind, Direction, Ending, Outcome};

/// Request of a client to its site. Members are given as places in the world.
#[derive(Clone, Copy, Debug, PartialEq, Eq)]
pub enum Call {
    Start,
    Join { member: usize },
    Leave { member: usize },
    Renew,
    Close,
    Cancel,
}

/// Ask of a member, on its way.
#[derive(Clone, Copy, Debug)]
pub struct Ask {
    pub site: usize,
    /// Number of the site's crashes so far.
    pub life: u64,
    pub number: u64,
    /// Member whose address is called, and the kind of that address.
    pub member: usize,
    pub kind: AskKind,
    /// Numbers of the member and its action at the site.
    pub member_number: u64,
    pub action_number: u64,
}

/// Event in the world.
#[derive(Clone, Copy, Debug)]
pub enum Event {
    /// A client comes to a site.
    Arrival {
        site: usize,
    },
    /// A client decides on its next request.
    Thought {
        client: usize,
    },
    /// A client's request arrives at its site.
    Request {
        client: usize,
        call: Call,
    },
    /// The answer to a request arrives at the client.
    Answer {
        client: usize,
        call: Call,
        answer: Result<Told, Refusal>,
    },
    /// A client gives up waiting for the answer to this try of a call.
    Impatience {
        client: usize,
        call: Call,
        tries: u64,
    },
    /// An ask arrives at its member.
    Ask(Ask),
    /// The outcome of an ask arrives at the site.
    Reply {
        ask: Ask,
        outcome: Outcome,
    },
    /// A site gives up waiting for the outcome of an ask.
    GivenUp(Ask),
    /// A member that went on by itself has finished.
    Done {
        member: usize,
        way: Direction,
    },
    /// A member's report on itself arrives at its site.
    Report {
        member: usize,
        ending: Ending,
    },
    /// A site's journal is synced up to `end`, in bytes.
    Sync {
        site: usize,
        life: u64,
        end: usize,
    },
    /// The moment of a site's planned work has come.
    Work {
        site: usize,
        life: u64,
    },
    /// A site crashes.
    Crash {
        site: usize,
    },
    /// A site that crashed opens its journal.
    Opening {
        site: usize,
    },
}
