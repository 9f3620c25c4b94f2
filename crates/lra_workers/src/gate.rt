//! Gates that decide what a worker may do.

ghost use Rattle.std.specs.Prelude.{◌≡◌};

use std::sync::atomic::{AtomicBool, Ordering};

/// Decision whether an errand is carried now.
#[derive(Clone, Copy, Debug, PartialEq, Eq)]
pub enum Go {
    Carry,
    NotYet,
}

/// Gate that a worker asks before it goes on.
pub trait Gate {
    ghost use Rattle.std.specs.Prelude.{◌≡◌, ℕ, false};
    ghost use Rattle.lra_workers.specs.declared.gate.Go.TheVariants.{NotYet};

    // What holds of a gate that has let no further turn be made.
    ghost is_shut: { Self → Type 0 } = { λ _. Unit {0} };

    // What holds of a gate that has held the errand of an ask back.
    ghost holds: { Self → ℕ → Type 0 } = { λ _ _. Unit {0} };

    // What holds of a gate that lets no new work be begun.
    ghost is_closing: { Self → Type 0 } = { λ _. Unit {0} };

    /// Returns whether another turn is made. A gate of a running service pauses here.
    fn more(&mut self) -> bool
        ensures { result ≡ false → is_shut self.new };

    /// Returns whether new work is begun in a turn: limits fire, and errands are taken. Otherwise the turn only records
    /// what comes of the errands under way.
    fn begins(&self) -> bool
        ensures { result ≡ false → is_closing self.now }
    {
        true
    }

    /// Decides whether the errand of an ask is carried now.
    fn hold(&mut self, ask: u64) -> Go
        ensures { result ≡ NotYet → holds self.new ask };

    /// Notes that what came of an ask is recorded.
    fn answered(&mut self, ask: u64);

    /// Pauses, since memory was refused: the worker tries again after it. A gate of a running service sleeps for a
    /// while, which grows as long as nothing but pauses follows.
    fn pause(&mut self) {}
}

/// Gate that lets each turn be made until a flag is set, and holds no errand back.
#[derive(Drop)]
pub struct OpenUntil<'a> {
    is_over: &'a AtomicBool,
}

impl<'a> OpenUntil<'a> {
    pub fn new(is_over: &'a AtomicBool) -> OpenUntil<'a>
        ensures { result.is_over ≡ is_over.entry }
    {
        OpenUntil { is_over }
    }
}

impl Gate for OpenUntil<'_> {
    fn more(&mut self) -> bool {
        !self.is_over.load(Ordering::SeqCst)
    }

    fn hold(&mut self, _ask: u64) -> Go {
        Go::Carry
    }

    fn answered(&mut self, _ask: u64) {}
}
