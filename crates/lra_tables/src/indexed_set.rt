//! Sets of numbers, counted from 1, of which the least or the greatest is known at once.

ghost use Rattle.std.specs.Prelude.{
  ◌≡◌,
  ◌+◌,
  ◌*◌,
  ◌-◌,
  ◌^◌,
  ◌≤◌,
  ◌<◌,
  ◌∷◌,
  ◌++◌,
  [],
  ℕ,
  List,
  Bool,
  length,
  slice_set,
  vec_len,
  vec_capacity,
  IsOk,
  IfSome,
  IfNone,
  OnOk,
};
ghost use Rattle.lra_tables.specs.inner.IndexedSet.{mark_at, IsFirstMarked, NoneMarked};
ghost use Rattle.lra_tables.specs.inner.Leaves.{key, flag, is_mark, IsBest, IsWritten};

use lra_timers::{Deadline, Memory, Tournament};
use std::alloc::Global;
use std::marker::Model;

/// The order of the marked numbers: which of them comes first.
#[derive(Clone, Copy, Debug, PartialEq, Eq)]
pub enum Order {
    LeastFirst,
    GreatestFirst,
}

/// The count of numbers that share a leaf of the tree.
const BLOCK: usize = 8;

/// The numbers 1, 2, .. up to a last one, some of which are marked.
///
/// The first of the marked ones is known at once, and a change costs a logarithm of how many numbers there are.
#[derive(Drop)]
pub struct IndexedSet {
    order: Order,
    /// The flag of each number: whether it is marked, the number 1 at place 0.
    flags: Vec<bool>,
    /// The first marked number of each block; the last deadline where none of them is.
    leaves: Tournament,
}

impl Model for IndexedSet {
    ghost use Rattle.std.specs.Prelude.{◌+◌, length, vec_len, vec_capacity};
    ghost use Rattle.lra_tables.specs.inner.IndexedSet.{Marking};
    ghost use Rattle.lra_tables.specs.inner.Leaves.{AreLeaves, room_of};

    ghost Value = { Marking };

    ghost view = { λ m. record {
      order = m.order;
      marked = m.flags.items;
      room =
          room_of (vec_capacity m.flags) (vec_len m.flags) (length m.leaves.items + m.leaves.room);
    } };

    ghost invariant = { λ m. AreLeaves m.order m.flags.items m.leaves.items };
}

/// Returns the block of the number at a place.
fn block_of(place: usize) -> usize
    ensures above { 8 * result ≤ place }
    ensures below { place < 8 * result + 8 }
{
    place / BLOCK
}

/// Returns the number of blocks that so many numbers have.
fn count_blocks(numbers: usize) -> usize
    requires { numbers < 2 ^ 63 }
    ensures enough { numbers ≤ 8 * result }
    ensures least { 8 * result < numbers + 8 }
{
    numbers.div_ceil(BLOCK)
}

/// Returns the key of a number, which is less for one that comes earlier.
fn key(order: Order, number: u64) -> u64
    ensures { result ≡ key order number }
{
    match order {
        Order::LeastFirst => number,
        Order::GreatestFirst => u64::MAX - number,
    }
}

fn is_mark(deadline: Deadline) -> bool
    ensures { result ≡ is_mark deadline }
{
    deadline.number < u64::MAX
}

/// Returns whether the number at a place is marked.
fn flag(flags: &[bool], place: usize) -> bool
    ensures { result ≡ flag flags.now place }
{
    place < flags.len() && flags[place]
}

/// Returns the deadline of the number at a place, if it is marked and comes before the best so far, else the best.
fn better(order: Order, best: Deadline, place: usize, is_marked: bool) -> Deadline
    requires { place < 2 ^ 64 - 2 }
    ensures { (flags : List Bool) (start : ℕ) → start ≤ place → flag flags place ≡ is_marked
        → IsBest order flags start place best → IsBest order flags start (place + 1) result }
{
    let number = place as u64 + 1;
    let moment = key(order, number);
    if is_marked && moment < best.moment {
        Deadline { moment, number }
    } else {
        best
    }
}

/// Returns the leaf of a block: its first marked number, or the last deadline where none is marked.
fn best_of(order: Order, flags: &[bool], block: usize) -> Deadline
    requires { 8 * block < 2 ^ 63 }
    ensures { IsWritten order flags.now block result }
{
    let mut best = Deadline::LAST;
    for place in BLOCK * block..BLOCK * block + BLOCK {
        best = better(order, best, place, flag(flags, place));
    }
    best
}

impl IndexedSet {
    /// Returns a set of no numbers.
    pub fn new(order: Order, alloc: Global) -> IndexedSet
        ensures order { result.order ≡ order }
        ensures marked { result.marked ≡ [] }
        ensures room { result.room ≡ 0 }
    {
        IndexedSet {
            order,
            flags: Vec::new(alloc),
            leaves: Tournament::new(alloc),
        }
    }

    /// Returns how many numbers there are.
    pub fn len(&self) -> usize
        ensures { result ≡ length self.now.marked }
    {
        self.flags.len()
    }

    /// Makes room for so many more numbers.
    pub fn reserve(&mut self, additional: usize) -> Result<(), Memory>
        ensures order { self.new.order ≡ self.old.order }
        ensures marked { self.new.marked ≡ self.old.marked }
        ensures room { OnOk result (additional ≤ self.new.room) }
        ensures kept { self.old.room ≤ self.new.room }
        ensures succeeds { additional ≤ self.old.room → IsOk result }
    {
        self.flags.reserve(additional)?;
        let blocks = count_blocks(self.flags.len() + additional);
        self.leaves.reserve(blocks - self.leaves.len())?;
        Ok(())
    }

    /// Adds the next number, and marks it or not.
    pub fn push(&mut self, is_marked: bool)
        requires { 0 < self.old.room }
        ensures order { self.new.order ≡ self.old.order }
        ensures marked { self.new.marked ≡ self.old.marked ++ is_marked ∷ [] }
        ensures room { self.new.room + 1 ≡ self.old.room }
    {
        let block = block_of(self.flags.len());
        self.flags.push_reserved(is_marked);
        let best = best_of(self.order, &self.flags, block);
        if block < self.leaves.len() {
            self.leaves.set(block, best);
        } else {
            self.leaves.push(best);
        }
    }

    /// Removes the last number, and returns whether it was marked.
    pub fn pop(&mut self) -> bool
        requires { 0 < length self.old.marked }
        ensures order { self.new.order ≡ self.old.order }
        ensures marked { self.old.marked ≡ self.new.marked ++ result ∷ [] }
        ensures room { self.new.room ≡ self.old.room + 1 }
    {
        let is_marked = self.flags.pop().unwrap();
        let block = block_of(self.flags.len());
        if BLOCK * block == self.flags.len() {
            self.leaves.pop();
        } else {
            self.leaves
                .set(block, best_of(self.order, &self.flags, block));
        }
        is_marked
    }

    /// Marks one of the numbers, or unmarks it.
    pub fn set(&mut self, number: u64, is_marked: bool)
        requires positive { 0 < number }
        requires there { number ≤ length self.old.marked }
        ensures { self.new ≡ record self.old { marked = slice_set self.old.marked (number - 1) is_marked } }
    {
        let place = number as usize - 1;
        if self.flags[place] == is_marked {
            return;
        }
        self.flags[place] = is_marked;
        let block = block_of(place);
        self.leaves
            .set(block, best_of(self.order, &self.flags, block));
    }

    /// Returns whether a number is marked. One that isn't there is not.
    pub fn is_marked(&self, number: u64) -> bool
        ensures { result ≡ mark_at self.now.marked number }
    {
        match number.checked_sub(1) {
            Some(place) => flag(&self.flags, place as usize),
            None => false,
        }
    }

    /// Returns the first of the marked numbers, if there are any.
    pub fn first(&self) -> Option<u64>
        ensures some { IfSome result (IsFirstMarked self.now.order self.now.marked) }
        ensures none { IfNone result (NoneMarked self.now.marked) }
    {
        let Some(first) = self.leaves.first() else {
            return None;
        };
        if is_mark(first) {
            Some(first.number)
        } else {
            None
        }
    }
}
