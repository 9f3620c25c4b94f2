//! Noting of traces, and their look-up.

ghost use Rattle.std.specs.Prelude.{◌≡◌, ◌≢◌, ◌<◌, ℕ, is_some, None, Some, option_map, option_and_then};
ghost use Rattle.std.specs.Prelude.{IfOk, IsTrue, IsFalse};
ghost use Rattle.std.specs.HashMap.{hash_map_len};
ghost use Rattle.lra_traces.specs.Tables.{noted_at, traceparent_at, latest};
ghost use Rattle.lra_traces.specs.inner.Generations.{IsLeft};

use crate::trace_table::{Noted, TraceTable};
use crate::traceparent::Traceparent;
use std::alloc::{AllocError, Global};
use std::collections::HashMap;
use std::mem;

/// Largest number of actions of a generation.
const HALF: usize = 32_768;

/// Returns the trace that was noted last, of those of an action and of its parent.
fn latest<'a>(own: Option<&'a Noted>, parent: Option<&'a Noted>) -> Option<&'a Noted>
    ensures { option_map (λ noted. noted.now) result
        ≡ latest (option_map (λ noted. noted.now) own.entry) (option_map (λ noted. noted.now) parent.entry) }
{
    match own {
        None => parent,
        Some(own) => match parent {
            None => Some(own),
            Some(parent) => {
                if own.number < parent.number {
                    Some(parent)
                } else {
                    Some(own)
                }
            }
        },
    }
}

impl TraceTable {
    /// Makes an empty table.
    pub fn new(alloc: Global) -> TraceTable
        ensures { (action : ℕ) → noted_at result action ≡ None }
    {
        TraceTable {
            alloc,
            young: HashMap::new(alloc),
            aged: HashMap::new(alloc),
            count: 0,
        }
    }

    /// Makes room for one more action in the young generation.
    #[tactic(auto, using(crate::proofs::Generations::young_was_first))]
    fn make_room(&mut self)
        ensures room { hash_map_len self.new.young < 32_768 }
        ensures left { (action : ℕ) → IsLeft (noted_at self.old action) (noted_at self.new action) }
        ensures stay { hash_map_len self.old.young < 32_768 → self.new ≡ self.old }
    {
        if self.young.len() >= HALF {
            let young = HashMap::new(self.alloc);
            self.aged = mem::replace(&mut self.young, young);
        }
    }

    /// Notes an action's trace in place of the one before. Returns whether memory was granted for it. Where the young
    /// generation is full, the old one leaves.
    pub fn note(&mut self, action: u128, traceparent: Traceparent) -> bool
        ensures own { IsTrue result → traceparent_at self.new action ≡ Some traceparent }
        ensures others { (other : ℕ) → other ≢ action → IsLeft (noted_at self.old other) (noted_at self.new other) }
        ensures stay { hash_map_len self.old.young < 32_768
            → (other : ℕ) → other ≢ action → noted_at self.new other ≡ noted_at self.old other }
        ensures refused { IsFalse result → IsLeft (noted_at self.old action) (noted_at self.new action) }
    {
        self.make_room();
        let number = self.count;
        self.count = number.saturating_add(1);
        let noted = Noted {
            traceparent,
            number,
        };
        self.young.insert(action, noted).is_ok()
    }

    /// Returns the trace of an action.
    fn get(&self, action: u128) -> Option<&Noted>
        ensures { option_map (λ noted. noted.now) result ≡ noted_at self.now action }
    {
        match self.young.get(&action) {
            Some(noted) => Some(noted),
            None => self.aged.get(&action),
        }
    }

    /// Returns whether an action has a trace.
    pub fn has(&self, action: u128) -> bool
        ensures { result ≡ is_some (noted_at self.now action) }
    {
        self.get(action).is_some()
    }

    /// Returns the trace of an action's parent.
    fn of_parent(&self, parent: Option<u128>) -> Option<&Noted>
        ensures { option_map (λ noted. noted.now) result ≡ option_and_then (noted_at self.now) parent }
    {
        match parent {
            Some(parent) => self.get(parent),
            None => None,
        }
    }

    /// Copies the trace that was noted last, of those of an action and of its parent.
    pub fn find(
        &self,
        alloc: Global,
        action: u128,
        parent: Option<u128>,
    ) -> Result<Option<Traceparent>, AllocError>
        ensures { IfOk result (λ found. option_map (λ own. own) found ≡ option_map (λ noted. noted.traceparent)
            (latest (noted_at self.now action) (option_and_then (noted_at self.now) parent))) }
    {
        match latest(self.get(action), self.of_parent(parent)) {
            Some(noted) => Ok(Some(noted.traceparent.copy(alloc)?)),
            None => Ok(None),
        }
    }
}
