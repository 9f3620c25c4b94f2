//! The last callbacks, by member.

ghost use Rattle.std.specs.Prelude.{◌≡◌, ◌≤◌, ℕ, false, None, Some, IfOk, IsTrue, IsFalse};
ghost use Rattle.std.specs.HashMap.{hash_map_len};
ghost use Rattle.lra_outcomes.specs.inner.Noted.{OthersStay, IsCopy, at, dropped_after};

use crate::attempt::Attempt;
use std::alloc::{AllocError, Global};
use std::collections::HashMap;

/// Largest number of members that are remembered.
pub const MOST: usize = 100_000;

/// Last callbacks of members that they didn't advance, by the members' numbers.
#[derive(Drop)]
pub(crate) struct AttemptTable {
    by_member: HashMap<u64, Attempt>,
    /// Number of callbacks that found no room.
    dropped: u64,
    ghost few: { hash_map_len by_member ≤ 100_000 },
}

impl AttemptTable {
    /// Makes an empty book.
    pub(crate) fn new(alloc: Global) -> AttemptTable
        ensures none { (member : ℕ) → at result.by_member member ≡ None }
        ensures dropped { result.dropped ≡ 0 }
    {
        AttemptTable {
            by_member: HashMap::new(alloc),
            dropped: 0,
        }
    }

    /// Counts a callback that finds no room. The count stops at its greatest value.
    pub(crate) fn drop_one(&mut self)
        ensures same { self.new.by_member ≡ self.old.by_member }
        ensures dropped { self.new.dropped ≡ dropped_after false self.old.dropped }
    {
        self.dropped = self.dropped.saturating_add(1);
    }

    /// Remembers a member's callback in place of the one before, and returns whether there was room for it. Where there
    /// was none, it counts the callback, and the one before stays.
    pub(crate) fn note(&mut self, member: u64, attempt: Attempt) -> bool
        ensures own { IsTrue result → at self.new.by_member member ≡ Some attempt }
        ensures full { IsFalse result → at self.new.by_member member ≡ at self.old.by_member member }
        ensures others { OthersStay self.old.by_member self.new.by_member member }
        ensures dropped { self.new.dropped ≡ dropped_after result self.old.dropped }
    {
        if self.by_member.len() >= MOST && !self.by_member.contains_key(&member) {
            self.drop_one();
            return false;
        }
        let is_noted = self.by_member.insert(member, attempt).is_ok();
        if !is_noted {
            self.drop_one();
        }
        is_noted
    }

    /// Forgets a member's callback.
    pub(crate) fn forget(&mut self, member: u64)
        ensures own { at self.new.by_member member ≡ None }
        ensures others { OthersStay self.old.by_member self.new.by_member member }
        ensures dropped { self.new.dropped ≡ self.old.dropped }
    {
        self.by_member.remove(&member);
    }

    /// Copies a member's callback, if one is remembered.
    pub(crate) fn find(&self, alloc: Global, member: u64) -> Result<Option<Attempt>, AllocError>
        ensures { IfOk result (λ found. IsCopy found (at self.now.by_member member)) }
    {
        match self.by_member.get(&member) {
            Some(attempt) => Ok(Some(attempt.copy(alloc)?)),
            None => Ok(None),
        }
    }

    /// Returns how many callbacks found no room.
    pub(crate) fn dropped(&self) -> u64
        ensures { result ≡ self.now.dropped }
    {
        self.dropped
    }
}
