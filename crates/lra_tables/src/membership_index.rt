//! Numbers by digests of an action and five addresses, so that a member that has joined with the same addresses is
//! found at a cost that doesn't grow with how many have joined.

ghost use Rattle.std.specs.Prelude.{
  ◌≡◌,
  ℕ,
  ◌+◌,
  ◌<◌,
  ◌≤◌,
  ◌^◌,
  ◌==◌,
  ◌++◌,
  ◌∷◌,
  [],
  List,
  length,
  cond,
  Some,
  None,
  IfSome,
  IfNone,
  IsSome,
  MatchOption,
  IsOk,
  OnOk,
  slice_get,
  nat_eq,
  ◌&&◌,
  false,
};
ghost use Rattle.std.specs.HashMap.{spare, Updates};
ghost use Rattle.lra_tables.specs.inner.Digests.{digest_of};
ghost use Rattle.lra_tables.specs.inner.Listed.{number_at, IsListed, IsCounted, without};
ghost use Rattle.lra_tables.specs.inner.Ranks.{same_rank, at, IsList, IsCountable, IsMissing, IsFirstRank, IsClosed};

use crate::digest::{digest_of, digest_of_kept};
use lra_model::{Memory, Uris};
use lra_rows::PackedAddresses;
use std::alloc::Global;
use std::collections::HashMap;
use std::marker::Model;

/// Numbers under digests, those of one digest in the order in which they were added. Each takes one place of what there
/// is room for.
#[derive(Drop)]
pub struct MembershipIndex {
    key: u128,
    numbers: HashMap<(u64, u64), u64>,
}

impl Model for MembershipIndex {
    ghost use Rattle.std.specs.HashMap.{spare};
    ghost use Rattle.lra_tables.specs.inner.Listed.{Indexed};

    ghost Value = { Indexed };

    ghost view = { λ i. record { key = i.key; numbers = i.numbers.entries; room = spare i.numbers } };
}

/// Writes a number over the one at a rank.
fn put(numbers: &mut HashMap<(u64, u64), u64>, digest: u64, rank: u64, number: u64)
    requires { IsSome (at numbers.old digest rank) }
    ensures updates { Updates same_rank numbers.old numbers.new (digest, rank) (Some number) }
    ensures room { spare numbers.new ≡ spare numbers.old }
{
    if let Some(old) = numbers.get_mut(&(digest, rank)) {
        *old = number;
    }
}

/// Returns the number at a rank, if there is one.
fn get(numbers: &HashMap<(u64, u64), u64>, digest: u64, rank: u64) -> Option<u64>
    ensures { result ≡ at numbers.now digest rank }
{
    numbers.get(&(digest, rank)).copied()
}

/// Returns the first rank that is free.
fn count(numbers: &HashMap<(u64, u64), u64>, digest: u64) -> u64
    requires { IsCountable numbers.now digest }
    ensures { (ns : List ℕ) → IsList numbers.now digest ns → result ≡ length ns }
{
    for rank in 0..u64::MAX {
        if get(numbers, digest, rank).is_none() {
            return rank;
        }
    }
    u64::MAX
}

/// Returns the first rank of a number, if it is there.
fn rank_of(numbers: &HashMap<(u64, u64), u64>, digest: u64, number: u64) -> Option<u64>
    requires { IsCountable numbers.now digest }
    ensures { MatchOption result (IsMissing numbers.now digest number) (IsFirstRank numbers.now digest number) }
{
    for rank in 0..u64::MAX {
        match get(numbers, digest, rank) {
            None => return None,
            Some(other) => {
                if other == number {
                    return Some(rank);
                }
            }
        }
    }
    None
}

/// Removes the number at a rank, and moves each one after it to the rank before.
fn close(numbers: &mut HashMap<(u64, u64), u64>, digest: u64, rank: u64)
    requires countable { IsCountable numbers.old digest }
    requires there { IsSome (at numbers.old digest rank) }
    ensures closed { (ns : List ℕ) → IsList numbers.old digest ns → IsClosed numbers.new digest rank ns }
    ensures others { (other i : ℕ) → (digest == other) ≡ false → at numbers.new other i ≡ at numbers.old other i }
    ensures room { spare numbers.old ≤ spare numbers.new }
{
    for place in rank..u64::MAX {
        match get(numbers, digest, place + 1) {
            Some(next) => put(numbers, digest, place, next),
            None => {
                numbers.remove(&(digest, place));
                return;
            }
        }
    }
}

impl MembershipIndex {
    /// Returns an index of no numbers. The key is a secret that makes digests unpredictable.
    pub fn new(alloc: Global, key: u128) -> MembershipIndex
        ensures key { result.key ≡ key }
        ensures listed { (digest : ℕ) → IsListed result digest [] }
    {
        MembershipIndex {
            key,
            numbers: HashMap::new(alloc),
        }
    }

    /// Returns the digest of an action and addresses.
    pub fn digest(&self, action: u64, uris: &Uris) -> u64
        ensures { result ≡ digest_of self.now.key action uris.now }
    {
        digest_of(self.key, action, uris)
    }

    /// Returns the digest of an action and packed addresses.
    pub fn digest_of_kept(&self, action: u64, uris: &PackedAddresses) -> u64
        ensures { result ≡ digest_of self.now.key action uris.now }
    {
        digest_of_kept(self.key, action, uris)
    }

    /// Makes room for so many more numbers.
    pub fn reserve(&mut self, additional: usize) -> Result<(), Memory>
        ensures key { self.new.key ≡ self.old.key }
        ensures listed { (digest rank : ℕ) → number_at self.new digest rank ≡ number_at self.old digest rank }
        ensures room { OnOk result (additional ≤ self.new.room) }
        ensures kept { self.old.room ≤ self.new.room }
        ensures succeeds { additional ≤ self.old.room → IsOk result }
    {
        self.numbers.reserve(additional)?;
        Ok(())
    }

    /// Returns the number at a rank under a digest, counted from 0, if there are so many.
    pub fn number(&self, digest: u64, rank: u64) -> Option<u64>
        ensures { result ≡ number_at self.now digest rank }
    {
        get(&self.numbers, digest, rank)
    }

    /// Adds a number under a digest.
    pub fn add(&mut self, digest: u64, number: u64)
        requires room { 0 < self.old.room }
        requires counted { IsCounted self.old digest }
        ensures key { self.new.key ≡ self.old.key }
        ensures listed { (other : ℕ) (ns : List ℕ) → IsListed self.old other ns
            → IsListed self.new other (cond (digest == other) (ns ++ number ∷ []) ns) }
        ensures room { self.old.room ≤ self.new.room + 1 }
    {
        let rank = count(&self.numbers, digest);
        let _ = self.numbers.insert((digest, rank), number);
    }

    /// Removes a number from those under a digest, the first where it is there more than once.
    pub fn remove(&mut self, digest: u64, number: u64)
        requires { IsCounted self.old digest }
        ensures key { self.new.key ≡ self.old.key }
        ensures listed { (other : ℕ) (ns : List ℕ) → IsListed self.old other ns
            → IsListed self.new other (cond (digest == other) (without number ns) ns) }
        ensures room { self.old.room ≤ self.new.room }
    {
        match rank_of(&self.numbers, digest, number) {
            Some(rank) => close(&mut self.numbers, digest, rank),
            None => {}
        }
    }
}
