//! Counters whose answers have a position.

use crate::counter::Counter;

/// A counter that says how much of its journal its answers rest on.
///
/// A position is a number of bytes that were appended to the journal since it was opened.
pub trait Session: Counter {
    ghost use Rattle.std.specs.Prelude.{ℕ, Bool, IsTrue};

    // Whether the first so many bytes that were appended tell of all that has been seen.
    ghost covers: { Self → ℕ → Bool };

    /// Returns the position of all that has been seen, refusals included. This takes no memory.
    fn position(&self) -> u64
        ensures { IsTrue (covers self.now result) };
}
