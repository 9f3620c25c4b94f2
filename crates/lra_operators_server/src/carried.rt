//! A callback pool that tallies its errands.

ghost use Rattle.std.specs.Prelude.{◌≡◌};

use crate::tallies::Tallies;
use lra_core::Errand;
use lra_courier::CallbackPool;
use lra_model::{AskKind, Outcome};
use std::alloc::Global;
use std::time::{Clock, Instant};

/// Errand that is under way, and the moment since when it is.
#[derive(Clone, Copy)]
struct Begun {
    ask: u64,
    since: Instant,
}

/// Callback pool that wraps another one and tallies the outcomes.
#[derive(Drop)]
pub struct CountingCallbackPool<'a, C, R> {
    inner: C,
    rt: &'a R,
    tallies: &'a Tallies,
    begun: Vec<Begun>,
}

impl<'a, C, R> CountingCallbackPool<'a, C, R> {
    /// Makes a callback pool that wraps another one. No errand is under way yet.
    pub fn new(
        alloc: Global,
        inner: C,
        rt: &'a R,
        tallies: &'a Tallies,
    ) -> CountingCallbackPool<'a, C, R>
        ensures { result.inner ≡ inner }
    {
        CountingCallbackPool {
            inner,
            rt,
            tallies,
            begun: Vec::new(alloc),
        }
    }

    /// Returns the inner callback pool.
    pub fn into_inner(self) -> C
        ensures { result ≡ self.entry.inner }
    {
        let CountingCallbackPool {
            inner,
            rt: _,
            tallies: _,
            begun,
        } = self;
        drop(begun);
        inner
    }
}

impl<C, R: Clock> CountingCallbackPool<'_, C, R> {
    /// Notes that an errand is under way. If memory or the clock fails, the errand's time isn't tallied.
    fn begin(&mut self, ask: u64)
        ensures { self.new.inner ≡ self.old.inner }
    {
        if let Ok(since) = Instant::now(self.rt) {
            let _ = self.begun.push(Begun { ask, since });
        }
    }

    /// Tallies the outcome of an errand, and its time where its start was noted.
    fn end(&mut self, ask: u64, kind: AskKind, outcome: Outcome)
        ensures { self.new.inner ≡ self.old.inner }
    {
        let place = self.begun.iter().position(|begun| begun.ask == ask);
        let began = match place {
            Some(place) if place < self.begun.len() => Some(self.begun.swap_remove(place).since),
            _ => None,
        };
        self.tallies.add_callback(self.rt, kind, outcome, began);
    }
}

impl<C: CallbackPool, R: Clock> CallbackPool for CountingCallbackPool<'_, C, R> {
    ghost held = { λ c. C.held c.inner };

    ghost gives = { C.gives };

    fn has_room(&self) -> bool {
        self.inner.has_room()
    }

    fn take(&mut self, errand: Errand, position: u64) -> Result<(), Errand> {
        let ask = errand.ask();
        match self.inner.take(errand, position) {
            Ok(()) => {
                self.begin(ask);
                Ok(())
            }
            Err(errand) => Err(errand),
        }
    }

    fn carry(&mut self, next: Option<u64>) {
        self.inner.carry(next);
    }

    fn done(&mut self) -> Option<(Errand, Outcome)> {
        match self.inner.done() {
            Some((errand, outcome)) => {
                self.end(errand.ask(), errand.kind(), outcome);
                Some((errand, outcome))
            }
            None => None,
        }
    }

    ghost suits = { C.suits };

    ghost silent = { C.silent };
}
