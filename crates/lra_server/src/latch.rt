//! Latch at which threads wait until all of them have started.

use std::sync::{Condvar, Mutex, Wait};

/// Latch: threads wait at it until it is decided whether they work.
#[derive(Drop)]
pub struct Latch {
    works: Mutex<Option<bool>>,
    changed: Condvar,
}

impl Latch {
    /// Returns a latch at which nothing is decided yet.
    pub fn new() -> Latch {
        Latch {
            works: Mutex::new(None),
            changed: Condvar::new(),
        }
    }

    /// Waits until it is decided whether the threads that wait work. Returns the decision.
    pub fn pass<R: Wait>(&self, rt: &R) -> bool {
        let works = self.works.lock(rt);
        let works = self.changed.wait_while(rt, works, |works| works.is_none());
        *works == Some(true)
    }

    /// Decides whether the threads work that wait now, and those that come later.
    pub fn decide<R: Wait>(&self, rt: &R, works: bool) {
        *self.works.lock(rt) = Some(works);
        self.changed.notify_all();
    }
}
