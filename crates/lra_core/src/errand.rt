//! Errands, which carry requests to members, and the commands, one of which records an errand's outcome.

ghost use Rattle.std.specs.Prelude.{◌≡◌, option_map};

use lra_model::{ActionStatus, AskKind, Direction};
use lra_validator::{Carried, HasAsk};
use std::marker::Model;

/// A command that a clerk gives to the coordinator.
pub type Command<'a> = lra_commands::Command<'a, Errand>;

/// The contents of an errand. A block has them before it is committed; the errand itself is given once it is.
#[derive(Drop)]
pub struct Request {
    /// The number of the ask.
    pub ask: u64,
    /// The number of the member that is asked.
    pub member: u64,
    /// The number of the member's action.
    pub action: u64,
    /// The kind of ask.
    pub kind: AskKind,
    /// The direction of the ask.
    pub direction: Direction,
    /// The address at which the member is asked.
    pub address: String,
    /// The URI of the action.
    pub action_uri: String,
    /// The URI of the action's parent, where it has one.
    pub parent_uri: Option<String>,
    /// The member's recovery URI.
    pub recovery_uri: String,
    /// The status in which the action ended, at an after notice.
    pub ended: Option<ActionStatus>,
}

impl Model for Request {
    ghost use Rattle.std.specs.Prelude.{string_bytes};
    ghost use Rattle.lra_model.specs.Addresses.{text_of};
    ghost use Rattle.lra_commands.specs.Errands.{Asking};

    ghost Value = { Asking };

    ghost view = { λ r. record {
      ask = r.ask;
      member = r.member;
      action = r.action;
      kind = r.kind;
      direction = r.direction;
      address = string_bytes r.address;
      action_uri = string_bytes r.action_uri;
      parent_uri = text_of r.parent_uri;
      recovery_uri = string_bytes r.recovery_uri;
      ended = r.ended;
    } };
}

/// One request to a member. The coordinator alone makes errands, and each has to be spent: recorded, or discarded.
pub struct Errand {
    request: Request,
}

impl Model for Errand {
    ghost use Rattle.lra_commands.specs.Errands.{Asking};

    ghost Value = { Asking };

    ghost view = { λ e. e.request };
}

impl Errand {
    /// Returns the number of the ask.
    pub fn ask(&self) -> u64
        ensures { result ≡ self.now.ask }
    {
        self.request.ask
    }

    /// Returns the number of the member that is asked.
    pub fn member(&self) -> u64
        ensures { result ≡ self.now.member }
    {
        self.request.member
    }

    /// Returns the number of the member's action.
    pub fn action(&self) -> u64
        ensures { result ≡ self.now.action }
    {
        self.request.action
    }

    /// Returns the kind of ask.
    pub fn kind(&self) -> AskKind
        ensures { result ≡ self.now.kind }
    {
        self.request.kind
    }

    /// Returns the direction of the ask.
    pub fn direction(&self) -> Direction
        ensures { result ≡ self.now.direction }
    {
        self.request.direction
    }

    /// Returns the address at which the member is asked.
    pub fn address(&self) -> &str
        ensures { result.now ≡ self.now.address }
    {
        self.request.address.as_str()
    }

    /// Returns the URI of the action.
    pub fn action_uri(&self) -> &str
        ensures { result.now ≡ self.now.action_uri }
    {
        self.request.action_uri.as_str()
    }

    /// Returns the URI of the action's parent, where it has one.
    pub fn parent_uri(&self) -> Option<&str>
        ensures { option_map (λ uri. uri.now) result ≡ self.now.parent_uri }
    {
        match &self.request.parent_uri {
            Some(uri) => Some(uri.as_str()),
            None => None,
        }
    }

    /// Returns the member's recovery URI.
    pub fn recovery_uri(&self) -> &str
        ensures { result.now ≡ self.now.recovery_uri }
    {
        self.request.recovery_uri.as_str()
    }

    /// Returns the status in which the action ended, at an after notice.
    pub fn ended(&self) -> Option<ActionStatus>
        ensures { result ≡ self.now.ended }
    {
        self.request.ended
    }

    /// Makes the errand of a request whose ask is committed.
    pub(crate) fn of(request: Request) -> Errand
        ensures { result ≡ request }
    {
        Errand { request }
    }

    /// Spends the errand without an answer. Its ask stays outstanding until a restart.
    pub fn discard(self) {
        let Errand { request: _ } = self;
    }
}

impl HasAsk for Errand {
    ghost asking = { λ e. e };

    fn carried(&self) -> Carried {
        Carried {
            ask: self.ask(),
            member: self.member(),
            kind: self.kind(),
            direction: self.direction(),
        }
    }
}
