//! Counters, at each of which one clerk gives its orders: to a coordinator of its own, or to one that others share.

ghost use Rattle.std.specs.Prelude.{◌≡◌, IsTrue};
ghost use Rattle.lra_commands.specs.declared.counter.Order.TheVariants as order;
ghost use Rattle.lra_commands.specs.Counters.{command_of};

use crate::command::{Command, Told};
use crate::refusal::Refusal;
use lra_ids::{Base, Instance};
use lra_model::{Ending, Uris};
use thiserror::Error;

/// A command that is given over a counter: any but those that enrol a clerk and those that carry a request to a member.
#[derive(Clone, Copy, Debug)]
pub enum Order<'a> {
    /// To start an action. A limit is in milliseconds, and 0 is none.
    Start { parent: Option<u64>, limit: u64 },
    /// To let a member join an action.
    Join { action: u64, uris: &'a Uris },
    /// To let a member leave its action.
    Leave { action: u64, member: u64 },
    /// To close an action.
    Close { action: u64 },
    /// To cancel an action.
    Cancel { action: u64 },
    /// To cancel an action whose limit has passed.
    Tick,
    /// To record what a member reports of itself.
    Report { member: u64, ending: Ending },
    /// To make every outstanding ask void.
    Restart,
    /// To set an action's limit anew, in milliseconds from now.
    Renew { action: u64, limit: u64 },
    /// To read an action's status.
    Status { action: u64 },
    /// To read a member's status.
    MemberStatus { member: u64 },
}

/// Why an order wasn't done.
#[derive(Clone, Copy, Debug, PartialEq, Eq, Error)]
pub enum CounterFault {
    /// The coordinator refused it, and is as it was.
    #[error(transparent)]
    Refused(Refusal),
    /// Nothing can be given here any more.
    #[error("the counter is worn")]
    Worn,
}

impl<'a> Order<'a> {
    /// Returns the command that it is.
    pub fn command<E>(&self) -> Command<'a, E>
        ensures { result ≡ command_of self.now }
    {
        match *self {
            Order::Start { parent, limit } => Command::Start { parent, limit },
            Order::Join { action, uris } => Command::Join { action, uris },
            Order::Leave { action, member } => Command::Leave { action, member },
            Order::Close { action } => Command::Close { action },
            Order::Cancel { action } => Command::Cancel { action },
            Order::Tick => Command::Tick,
            Order::Report { member, ending } => Command::Report { member, ending },
            Order::Restart => Command::Restart,
            Order::Renew { action, limit } => Command::Renew { action, limit },
            Order::Status { action } => Command::Status { action },
            Order::MemberStatus { member } => Command::MemberStatus { member },
        }
    }
}

/// A counter: one clerk gives its orders there.
///
/// Callers know what the coordinator behind it was made with, the clerk's number, and the history that it has seen. The
/// type fixes a relation that says what an order does. Whatever that is, it is a law that the order is given once, at a
/// history that begins with all that was seen, and that the reply is the definitions' answer there.
pub trait Counter {
    ghost use Rattle.std.specs.Prelude.{ℕ, Result};
    ghost use Rattle.lra_commands.specs.declared.command.Told.{Told};
    ghost use Rattle.lra_commands.specs.declared.counter.Order.{Order};
    ghost use Rattle.lra_commands.specs.declared.counter.CounterFault.{CounterFault};
    ghost use Rattle.lra_commands.specs.Counters.{Sight, KeepsHistory};

    // What callers know of it.
    ghost sight: { Self → Sight };

    // What an order at a moment does: what is known before it, the reply, and what is known after it.
    ghost gives: { Sight → ℕ → Order → Result Told CounterFault → Sight → Type 0 };

    /// Returns the instance of the coordinator. This takes no memory.
    fn instance(&self) -> Instance
        ensures { result ≡ (sight self.now).setting.instance };

    /// Returns the base with which the URIs of the coordinator begin. This takes no memory.
    fn base(&self) -> &Base
        ensures { result.now ≡ (sight self.now).setting.base };

    /// Gives an order at a moment, in milliseconds.
    fn give(&mut self, moment: u64, order: &Order<'_>) -> Result<Told, CounterFault>
        ensures { gives (sight self.old) moment order.now result (sight self.new) };

    // Whatever an order does, it keeps the history.
    ghost keeps: { (before after : Sight) (moment : ℕ) (o : Order) (reply : Result Told CounterFault)
        → gives before moment o reply after → KeepsHistory before moment o reply after };

    /// Starts an action.
    final fn start(
        &mut self,
        moment: u64,
        parent: Option<u64>,
        limit: u64,
    ) -> Result<Told, CounterFault>
        ensures { gives (sight self.old) moment (order.Start parent limit) result (sight self.new) }
    {
        self.give(moment, &Order::Start { parent, limit })
    }

    /// Lets a member join an action.
    final fn join(&mut self, moment: u64, action: u64, uris: &Uris) -> Result<Told, CounterFault>
        ensures { gives (sight self.old) moment (order.Join action uris.entry) result (sight self.new) }
    {
        self.give(moment, &Order::Join { action, uris })
    }

    /// Lets a member leave its action.
    final fn leave(&mut self, moment: u64, action: u64, member: u64) -> Result<Told, CounterFault>
        ensures { gives (sight self.old) moment (order.Leave action member) result (sight self.new) }
    {
        self.give(moment, &Order::Leave { action, member })
    }

    /// Closes an action.
    final fn close(&mut self, moment: u64, action: u64) -> Result<Told, CounterFault>
        ensures { gives (sight self.old) moment (order.Close action) result (sight self.new) }
    {
        self.give(moment, &Order::Close { action })
    }

    /// Cancels an action.
    final fn cancel(&mut self, moment: u64, action: u64) -> Result<Told, CounterFault>
        ensures { gives (sight self.old) moment (order.Cancel action) result (sight self.new) }
    {
        self.give(moment, &Order::Cancel { action })
    }

    /// Cancels the action whose limit passed first, if any has.
    final fn tick(&mut self, moment: u64) -> Result<Told, CounterFault>
        ensures { gives (sight self.old) moment order.Tick result (sight self.new) }
    {
        self.give(moment, &Order::Tick)
    }

    /// Records what a member reports of itself.
    final fn report(
        &mut self,
        moment: u64,
        member: u64,
        ending: Ending,
    ) -> Result<Told, CounterFault>
        ensures { gives (sight self.old) moment (order.Report member ending) result (sight self.new) }
    {
        self.give(moment, &Order::Report { member, ending })
    }

    /// Makes every outstanding ask void.
    final fn restart(&mut self, moment: u64) -> Result<Told, CounterFault>
        ensures { gives (sight self.old) moment order.Restart result (sight self.new) }
    {
        self.give(moment, &Order::Restart)
    }

    /// Sets an action's limit anew.
    final fn renew(&mut self, moment: u64, action: u64, limit: u64) -> Result<Told, CounterFault>
        ensures { gives (sight self.old) moment (order.Renew action limit) result (sight self.new) }
    {
        self.give(moment, &Order::Renew { action, limit })
    }

    /// Returns an action's status, which is the same at any moment.
    final fn status(&mut self, action: u64) -> Result<Told, CounterFault>
        ensures { gives (sight self.old) 0 (order.Status action) result (sight self.new) }
    {
        self.give(0, &Order::Status { action })
    }

    /// Returns a member's status, which is the same at any moment.
    final fn member_status(&mut self, member: u64) -> Result<Told, CounterFault>
        ensures { gives (sight self.old) 0 (order.MemberStatus member) result (sight self.new) }
    {
        self.give(0, &Order::MemberStatus { member })
    }
}
