//! The last callbacks, which several threads note and read.

use crate::attempt::Attempt;
use crate::attempt_table::AttemptTable;
use crate::reply::Reply;
use std::alloc::{AllocError, Global};
use std::collections::HashSet;
use std::sync::atomic::{AtomicBool, Ordering};
use std::sync::{Mutex, Wait};

/// Outcomes of the last callbacks of a journal's members, by member, where they didn't advance the member. Threads
/// share them. At most [`MOST`](crate::MOST) members are remembered. A callback that finds no room is only counted.
#[derive(Drop)]
pub struct Outcomes {
    alloc: Global,
    attempt_table: Mutex<AttemptTable>,
    /// Members that get no more callbacks about the end of their action, since operators gave them up.
    given_up: Mutex<HashSet<u64>>,
    /// Flag that `given_up` may have members. It spares a lock while it never had one.
    gives_up: AtomicBool,
}

impl Outcomes {
    /// Makes outcomes of which none is remembered.
    pub fn new(alloc: Global) -> Outcomes {
        Outcomes {
            alloc,
            attempt_table: Mutex::new(AttemptTable::new(alloc)),
            given_up: Mutex::new(HashSet::new(alloc)),
            gives_up: AtomicBool::new(false),
        }
    }

    /// Remembers a member's callback that didn't advance it, in place of the one before.
    pub fn note<R: Wait>(&self, rt: &R, member: u64, address: &str, reply: Reply, moment: u64) {
        match Attempt::new(self.alloc, address, reply, moment) {
            Ok(attempt) => {
                self.attempt_table.lock(rt).note(member, attempt);
            }
            Err(AllocError) => self.attempt_table.lock(rt).drop_one(),
        }
    }

    /// Forgets the callback of a member that advanced.
    pub fn forget<R: Wait>(&self, rt: &R, member: u64) {
        self.attempt_table.lock(rt).forget(member);
    }

    /// Copies the last callback of a member, if one is remembered.
    pub fn find<R: Wait>(
        &self,
        rt: &R,
        alloc: Global,
        member: u64,
    ) -> Result<Option<Attempt>, AllocError> {
        self.attempt_table.lock(rt).find(alloc, member)
    }

    /// Marks a member as given up: it gets no more callbacks about the end of its action.
    pub fn give_up<R: Wait>(&self, rt: &R, member: u64) -> Result<(), AllocError> {
        self.given_up.lock(rt).insert(member)?;
        self.gives_up.store(true, Ordering::SeqCst);
        Ok(())
    }

    /// Removes the mark that a member is given up.
    pub fn take_up<R: Wait>(&self, rt: &R, member: u64) {
        self.given_up.lock(rt).remove(&member);
    }

    /// Returns whether a member is given up.
    pub fn is_given_up<R: Wait>(&self, rt: &R, member: u64) -> bool {
        self.gives_up.load(Ordering::SeqCst) && self.given_up.lock(rt).contains(&member)
    }

    /// Returns how many callbacks found no room.
    pub fn dropped<R: Wait>(&self, rt: &R) -> u64 {
        self.attempt_table.lock(rt).dropped()
    }
}
