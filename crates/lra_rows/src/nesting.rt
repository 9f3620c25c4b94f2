//! The depth of an action, its children and its members.

ghost use Rattle.std.specs.Prelude.{◌≡◌, [], true, false, OnOk, OnErr};
ghost use Rattle.lra_laws.specs.Snapshots as snapshots;
ghost use Rattle.lra_rows.specs.Rowed.{no_capacity};
ghost use Rattle.lra_rows.specs.inner.Nested.{has_place, with_number, without_number};
ghost use Rattle.lra_rows.specs.declared.nesting.Listed.{Listed};

use crate::lists::{add, remove_last, reserve_one, takes_one};
use lra_model::Memory;
use std::alloc::Global;
use std::marker::Model;

/// The depth of an action, the numbers of its children and of its members and, where it is an outermost one, those of
/// the members of it and of all below it.
#[derive(Drop)]
pub(crate) struct Nesting {
    pub(crate) depth: u64,
    pub(crate) children: Vec<u64>,
    pub(crate) members: Vec<u64>,
    pub(crate) under: Vec<u64>,
}

/// One of the lists of an action.
#[derive(Clone, Copy)]
pub(crate) enum Listed {
    Children,
    Members,
    Under,
}

impl Model for Nesting {
    ghost use Rattle.std.specs.Prelude.{vec_capacity};
    ghost use Rattle.lra_rows.specs.inner.Nested.{Nested};

    ghost Value = { Nested };

    ghost view = { λ n. record {
      nesting = record {
        depth = n.depth;
        children = n.children.items;
        members = n.members.items;
        under
            = n.under.items;
      };
      capacity = record {
        children = vec_capacity n.children;
        members = vec_capacity n.members;
        under = vec_capacity
            n.under;
      };
    } };
}

impl Nesting {
    /// Returns the depth and the empty lists of an action that has just started.
    pub(crate) fn new(alloc: Global, depth: u64) -> Nesting
        ensures { result ≡ record { nesting = snapshots.new_nesting depth; capacity = no_capacity } }
    {
        Nesting {
            depth,
            children: Vec::new(alloc),
            members: Vec::new(alloc),
            under: Vec::new(alloc),
        }
    }

    /// Returns whether there is room for one more number in a list.
    pub(crate) fn has_place(&self, list: Listed) -> bool
        ensures { result ≡ has_place list self.now }
    {
        match list {
            Listed::Children => takes_one(&self.children),
            Listed::Members => takes_one(&self.members),
            Listed::Under => takes_one(&self.under),
        }
    }

    /// Makes room for one more number in a list.
    pub(crate) fn reserve(&mut self, list: Listed) -> Result<(), Memory>
        ensures same { self.new.nesting ≡ self.old.nesting }
        ensures ok { OnOk result (has_place list self.new ≡ true) }
        ensures kept { (l : Listed) → has_place l self.old ≡ true → has_place l self.new ≡ true }
    {
        match list {
            Listed::Children => reserve_one(&mut self.children),
            Listed::Members => reserve_one(&mut self.members),
            Listed::Under => reserve_one(&mut self.under),
        }
    }

    /// Adds a number to a list, in which there is room.
    pub(crate) fn add(&mut self, list: Listed, number: u64)
        requires { has_place list self.old ≡ true }
        ensures { self.new ≡ with_number list number self.old }
    {
        match list {
            Listed::Children => add(&mut self.children, number),
            Listed::Members => add(&mut self.members, number),
            Listed::Under => add(&mut self.under, number),
        }
    }

    /// Removes the last number of a list.
    pub(crate) fn remove(&mut self, list: Listed)
        ensures { self.new ≡ without_number list self.old }
    {
        match list {
            Listed::Children => remove_last(&mut self.children),
            Listed::Members => remove_last(&mut self.members),
            Listed::Under => remove_last(&mut self.under),
        }
    }
}
