ghost use Rattle.std.specs.Prelude.{
  ◌≡◌,
  ◌↔◌,
  ◌+◌,
  ◌*◌,
  ◌^◌,
  ◌≤◌,
  ◌<◌,
  [],
  ◌∷◌,
  ◌++◌,
  length,
  take,
  drop,
  slice_set,
  IsNone,
  IsOk,
  IfSome,
  OnOk,
  OnErr,
};
ghost use Rattle.lra_timers.specs.Order.{IsFirstOf, IsNotAfter, node, last};
ghost use Rattle.lra_timers.specs.inner.Tree.{IsWinner, IsWon, IsTree};

use crate::deadline::Deadline;
use std::alloc::{AllocError, Global};
use std::marker::Model;

/// A list of deadlines whose earliest is known at once, and whose changes cost a logarithm.
///
/// The deadlines are the leaves of a binary tree in a vector, from place `width` on. Each place i below it, but
/// place 0, has the earlier of those at 2i and 2i + 1, so place 1 has the earliest of all.
#[derive(Drop)]
pub struct Tournament {
    nodes: Vec<Deadline>,
    width: usize,
    len: usize,
}

impl Model for Tournament {
    ghost use Rattle.std.specs.Prelude.{◌-◌, take, drop};
    ghost use Rattle.lra_timers.specs.Order.{Entrants};
    ghost use Rattle.lra_timers.specs.inner.Tree.{IsTree};

    ghost Value = { Entrants };

    ghost view = { λ t. record { items = take t.len (drop t.width t.nodes.items); room = t.width - t.len } };

    ghost invariant = { λ t. IsTree t.nodes.items t.width t.len };
}

/// Returns the earlier of the two deadlines below a place.
fn winner(nodes: &[Deadline], at: usize) -> Deadline
    requires { 2 * at + 1 < length nodes.now }
    ensures { IsWinner result (node nodes.now (2 * at)) (node nodes.now (2 * at + 1)) }
{
    nodes[2 * at].earlier(nodes[2 * at + 1])
}

/// Puts a deadline into a leaf, and plays the matches above it that this may change.
fn enter(nodes: &mut [Deadline], width: usize, place: usize, deadline: Deadline)
    requires size { length nodes.old ≡ 2 * width }
    requires place { place < width }
    requires won { IsWon nodes.old width }
    ensures won { IsWon nodes.new width }
    ensures leaves { drop width nodes.new ≡ slice_set (drop width nodes.old) place deadline }
{
    nodes[width + place] = deadline;
    let mut at = width + place;
    while at > 1 {
        at /= 2;
        let winner = winner(nodes, at);
        if nodes[at] == winner {
            return;
        }
        nodes[at] = winner;
    }
}

/// Plays all matches.
fn play(nodes: &mut [Deadline], width: usize)
    requires { length nodes.old ≡ 2 * width }
    ensures won { IsWon nodes.new width }
    ensures leaves { drop width nodes.new ≡ drop width nodes.old }
{
    for at in (1..width).rev() {
        nodes[at] = winner(nodes, at);
    }
}

/// Adds leaves, and moves the deadlines to the new first ones.
fn widen(
    nodes: &mut Vec<Deadline>,
    width: usize,
    len: usize,
    wider: usize,
) -> Result<(), AllocError>
    requires tree { IsTree nodes.old.items width len }
    requires wider { 2 * width ≤ wider }
    requires fits { len ≤ wider }
    ensures tree { OnOk result (IsTree nodes.new.items wider len) }
    ensures items { OnOk result (take len (drop wider nodes.new.items) ≡ take len (drop width nodes.old.items)) }
    ensures err { OnErr result (nodes.new.items ≡ nodes.old.items) }
{
    let size = wider.checked_mul(2).ok_or(AllocError)?;
    nodes.resize(size, Deadline::LAST)?;
    nodes.copy_within(width..width + len, wider);
    play(nodes, wider);
    Ok(())
}

impl Tournament {
    /// Returns a tournament of no deadlines, with no room.
    pub fn new(alloc: Global) -> Self
        ensures items { result.items ≡ [] }
        ensures room { result.room ≡ 0 }
    {
        Tournament {
            nodes: Vec::new(alloc),
            width: 0,
            len: 0,
        }
    }

    /// Returns the number of deadlines.
    pub fn len(&self) -> usize
        ensures items { result ≡ length self.now.items }
        ensures range { result + self.now.room < 2 ^ 63 }
    {
        self.len
    }

    /// Returns the deadline at a place, counted from 0.
    pub fn get(&self, place: usize) -> Deadline
        requires { place < length self.now.items }
        ensures { result ≡ node self.now.items place }
    {
        self.nodes[self.width + place]
    }

    /// Returns the earliest of the deadlines, if there are any.
    pub fn first(&self) -> Option<Deadline>
        ensures none { IsNone result ↔ (self.now.items ≡ []) }
        ensures first { IfSome result (IsFirstOf self.now.items) }
    {
        if self.len == 0 {
            None
        } else {
            Some(self.nodes[1])
        }
    }

    /// Makes room for so many more pushes.
    pub fn reserve(&mut self, additional: usize) -> Result<(), AllocError>
        ensures items { self.new.items ≡ self.old.items }
        ensures room { OnOk result (additional ≤ self.new.room) }
        ensures kept { self.old.room ≤ self.new.room }
        ensures succeeds { additional ≤ self.old.room → IsOk result }
    {
        if additional <= self.width - self.len {
            return Ok(());
        }
        let needed = self.len.checked_add(additional).ok_or(AllocError)?;
        let width = needed.max(2 * self.width);
        widen(&mut self.nodes, self.width, self.len, width)?;
        self.width = width;
        Ok(())
    }

    /// Adds a deadline behind the others.
    pub fn push(&mut self, deadline: Deadline)
        requires { 0 < self.old.room }
        ensures items { self.new.items ≡ self.old.items ++ deadline ∷ [] }
        ensures room { self.new.room + 1 ≡ self.old.room }
    {
        enter(&mut self.nodes, self.width, self.len, deadline);
        self.len += 1;
    }

    /// Replaces the deadline at a place.
    pub fn set(&mut self, place: usize, deadline: Deadline)
        requires { place < length self.old.items }
        ensures items { self.new.items ≡ slice_set self.old.items place deadline }
        ensures room { self.new.room ≡ self.old.room }
    {
        enter(&mut self.nodes, self.width, place, deadline);
    }

    /// Removes the last deadline, and returns it.
    pub fn pop(&mut self) -> Deadline
        requires { 0 < length self.old.items }
        ensures items { self.old.items ≡ self.new.items ++ result ∷ [] }
        ensures room { self.new.room ≡ self.old.room + 1 }
    {
        self.len -= 1;
        let last = self.nodes[self.width + self.len];
        enter(&mut self.nodes, self.width, self.len, Deadline::LAST);
        last
    }
}
