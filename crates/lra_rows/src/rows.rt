//! The rows of a history.

ghost use Rattle.std.specs.Prelude.{◌≡◌, ℕ, length, Some, None, []};
ghost use Rattle.lra_laws.specs.Rows as laws;

use crate::asks::Asks;
use crate::endpoints::Endpoints;
use crate::lists::at;
use crate::nesting::Nesting;
use lra_states::{ActionState, MemberState};
use std::alloc::Global;
use std::marker::Model;

/// The rows of a history: of each action, of each member and of each ask, by their numbers.
#[derive(Drop)]
pub struct Rows {
    pub(crate) alloc: Global,
    pub(crate) entries: u64,
    /// The moment of the last entry.
    pub(crate) moment: u64,
    /// The number of clerks that are enrolled.
    pub(crate) clerks: u64,
    /// The number of asks that were made.
    pub(crate) asked: u64,
    /// Asks up to this number are void.
    pub(crate) void: u64,
    pub(crate) actions: Vec<ActionState>,
    pub(crate) members: Vec<MemberState>,
    pub(crate) nestings: Vec<Nesting>,
    pub(crate) endpoints: Endpoints,
    pub(crate) asks: Asks,
}

impl Model for Rows {
    ghost use Rattle.std.specs.Prelude.{vec_capacity};
    ghost use Rattle.lra_rows.specs.Rowed.{Rowed};
    ghost use Rattle.lra_rows.specs.inner.Nested.{nestings_in, capacities_in};

    ghost Value = { Rowed };

    ghost view = { λ r. record {
      snapshot = record {
        entries = r.entries;
        state = record {
          moment = r.moment;
          clerks = r.clerks;
          asks = r.asked;
          void = r.void;
          actions = r.actions.items;
          members = r.members.items;
        };
        nestings = nestings_in r.nestings.items;
        endpoints = r.endpoints.items;
        asks = r.asks.items;
      };
      capacity = record {
        actions = vec_capacity r.actions;
        members = vec_capacity r.members;
        nestings = vec_capacity r.nestings;
        endpoints = r.endpoints.capacity;
        asks = r.asks.capacity;
        lists = capacities_in r.nestings.items;
        ready = r.endpoints.ready;
      };
    } };
}

impl Rows {
    ghost use Rattle.std.specs.Prelude.{◌≡◌, []};
    ghost use Rattle.lra_laws.specs.Snapshots as snapshots;

    /// Returns the rows of no entries.
    pub fn empty(alloc: Global) -> Rows
        ensures { snapshots.StandsFor result.snapshot [] }
    {
        Rows {
            alloc,
            entries: 0,
            moment: 0,
            clerks: 0,
            asked: 0,
            void: 0,
            actions: Vec::new(alloc),
            members: Vec::new(alloc),
            nestings: Vec::new(alloc),
            endpoints: Endpoints::new(alloc),
            asks: Asks::new(alloc),
        }
    }
}
