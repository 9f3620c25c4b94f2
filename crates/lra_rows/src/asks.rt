//! The asks that were made, by their numbers.

use crate::endpoint::Asked;
use crate::lists::{add, at, remove_last, reserve_one, takes_one};
use lra_model::{AskKind, Direction, Memory};
use std::alloc::Global;
use std::marker::Model;

/// The numbers of members that are asked are less than this.
pub(crate) const NARROW: u64 = 1 << 32;

/// An ask, but for its number, which its place gives.
#[derive(Clone, Copy)]
pub(crate) struct Unnumbered {
    member: u32,
    kind: AskKind,
    direction: Direction,
}

/// Asks in the order of their numbers, which are counted from 1.
#[derive(Drop)]
pub(crate) struct Asks {
    rows: Vec<Unnumbered>,
}

impl Model for Asks {
    ghost use Rattle.std.specs.Prelude.{vec_capacity};
    ghost use Rattle.lra_rows.specs.inner.Asks.{AskList, numbered};

    ghost Value = { AskList };

    ghost view = { λ a. record { items = numbered 0 a.rows.items; capacity = vec_capacity a.rows } };
}

impl Asks {
    ghost use Rattle.std.specs.Prelude.{◌≡◌, ◌+◌, ◌<◌, ◌^◌, ◌++◌, ◌∷◌, [], true, length, OnOk};
    ghost use Rattle.lra_laws.specs.Rows.{row_at};
    ghost use Rattle.lra_rows.specs.Rowed.{takes_one};
    ghost use Rattle.lra_rows.specs.Steps.{without_last};

    pub(crate) fn new(alloc: Global) -> Asks
        ensures { result.items ≡ [] }
    {
        Asks {
            rows: Vec::new(alloc),
        }
    }

    /// Returns the ask of a number, if it is there.
    pub(crate) fn at(&self, number: u64) -> Option<Asked>
        ensures { result ≡ row_at self.now.items number }
    {
        match at(&self.rows, number) {
            Some(row) => Some(Asked {
                number,
                member: row.member as u64,
                kind: row.kind,
                direction: row.direction,
            }),
            None => None,
        }
    }

    /// Returns whether there is room for one more.
    pub(crate) fn take_one(&self) -> bool
        ensures { result ≡ takes_one self.now.items self.now.capacity }
    {
        takes_one(&self.rows)
    }

    /// Makes room for one more.
    pub(crate) fn reserve_one(&mut self) -> Result<(), Memory>
        ensures items { self.new.items ≡ self.old.items }
        ensures ok { OnOk result (takes_one self.new.items self.new.capacity ≡ true) }
        ensures kept { takes_one self.old.items self.old.capacity ≡ true → takes_one self.new.items self.new.capacity
            ≡ true }
    {
        reserve_one(&mut self.rows)
    }

    /// Adds the ask of the next number, for which there is room, of a member whose number a u32 holds.
    pub(crate) fn add(&mut self, asked: Asked)
        requires room { takes_one self.old.items self.old.capacity ≡ true }
        requires next { asked.number ≡ length self.old.items + 1 }
        requires member { asked.member < 2 ^ 32 }
        ensures items { self.new.items ≡ self.old.items ++ asked ∷ [] }
        ensures capacity { self.new.capacity ≡ self.old.capacity }
    {
        let Asked {
            member,
            kind,
            direction,
            ..
        } = asked;
        add(
            &mut self.rows,
            Unnumbered {
                member: member as u32,
                kind,
                direction,
            },
        );
    }

    /// Removes the last one, if there is one.
    pub(crate) fn remove_last(&mut self)
        ensures items { self.new.items ≡ without_last self.old.items }
        ensures capacity { self.new.capacity ≡ self.old.capacity }
    {
        remove_last(&mut self.rows);
    }
}
