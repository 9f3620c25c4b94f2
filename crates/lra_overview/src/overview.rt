//! The source that answers operators' queries and carries out their orders.

use lra_commands::{CounterFault, Order, Query, QueryResult, Told};
use lra_ids::{Base, Instance};
use lra_model::Memory;
use lra_outcomes::Attempt;
use std::alloc::Global;

/// Facts of a service beside its histories. Times are in milliseconds.
#[derive(Clone, Copy)]
pub struct Facts {
    /// Moment at which the facts were read.
    pub moment: u64,
    /// Moment at which the service started.
    pub began: u64,
    /// Flag, set if a sync of the journal has failed, or the journal has bytes that don't count.
    pub has_failed: bool,
    /// Flag, set if the service is to end, now or once its actions have. It starts no more actions.
    pub is_ending: bool,
    /// Number of journals that are served.
    pub journals: u64,
    /// Number of bytes of the newest journal, and the largest number that it may have.
    pub bytes: u64,
    pub most_bytes: u64,
    /// Number of entries of the newest journal, which are its lines after the first, and the largest number that it may
    /// have.
    pub entries: u64,
    pub most_entries: u64,
    /// Largest numbers of actions and members that there may be.
    pub most_actions: u64,
    pub most_members: u64,
    /// Number of connections of services.
    pub connections: u64,
    /// Number of callbacks that are under way.
    pub callbacks: u64,
    /// Numbers of bytes of the process's virtual and resident memory, if the system reports them.
    pub virtual_bytes: Option<u64>,
    pub resident_bytes: Option<u64>,
    /// Processor time that the process took, in hundredths of a second, if the system reports it.
    pub processor_ticks: Option<u64>,
    /// Flag, set if a worker can't follow a change of the set of journals.
    pub lags: bool,
    /// Time that the sync under way has taken, 0 if none is, and the time that a sync may take.
    pub sync_age: u64,
    pub sync_limit: u64,
    /// Numbers of workers and of callback workers that have ended though the service goes on.
    pub lost_workers: u64,
    pub lost_callback_workers: u64,
    /// Journal whose callbacks stand still, if one is known.
    pub standing: Option<Instance>,
}

/// Source that answers operators' queries and carries out their orders: one office, or those of several journals. Each
/// journal is known by its instance.
///
/// Contracts see which orders were given to it.
pub trait Overview {
    ghost use Rattle.std.specs.Prelude.{ℕ, ◌≡◌, List};
    ghost use Rattle.lra_commands.specs.declared.counter.Order.{Order};
    ghost use Rattle.lra_overview.specs.Orders.{Gives};

    // The orders that were given, each with the journal that it was given to.
    ghost orders: { Self → List (ℕ × Order) };

    /// Returns the instance of the journal at a place, if there is one. The oldest comes first.
    fn instance(&self, place: u64) -> Option<Instance>;

    /// Returns the base that the URIs of the journals begin with.
    fn base(&self) -> &Base;

    /// Adds the journals that are new, and removes those that were archived.
    fn catch_up(&mut self)
        ensures { orders self.new ≡ orders self.old };

    /// Returns the facts of the service beside its histories.
    fn facts(&mut self) -> Facts
        ensures { orders self.new ≡ orders self.old };

    /// Adds the service's tallies to a page, as measures in the text format 0.0.4 of Prometheus.
    fn put_tallies(&mut self, page: &mut Vec<u8>) -> Result<(), Memory>
        ensures { orders self.new ≡ orders self.old };

    /// Answers a query of a journal's history. It gives no order.
    fn query(&mut self, instance: Instance, query: Query) -> Result<QueryResult, CounterFault>
        ensures { orders self.new ≡ orders self.old };

    /// Returns the last callback of a journal's member that didn't bring it further, if one is remembered.
    fn attempt(
        &mut self,
        alloc: Global,
        instance: Instance,
        member: u64,
    ) -> Result<Option<Attempt>, Memory>
        ensures { orders self.new ≡ orders self.old };

    /// Returns whether operators have given up a journal's member that has ended, so that it isn't asked any more.
    fn has_given_up(&self, instance: Instance, member: u64) -> bool;

    /// Gives an order to a journal's coordinator, now.
    fn give(&mut self, instance: Instance, order: &Order<'_>) -> Result<Told, CounterFault>
        ensures { Gives instance order.now (orders self.old) (orders self.new) };

    /// Ends the asks to a member of a journal that tell it that its action has ended. It writes nothing to the journal.
    fn end_asking(&mut self, instance: Instance, member: u64) -> Result<(), CounterFault>
        ensures { orders self.new ≡ orders self.old };
}
