//! Clocks.

/// Clock that gives the moments at which requests are answered.
pub trait Clock {
    ghost use Rattle.std.specs.Prelude.{ℕ};

    // What a call may return, and the clock after it.
    ghost tells: { Self → ℕ → Self → Type 0 };

    /// Returns the moment, in milliseconds.
    fn now(&mut self) -> u64
        ensures { tells self.old result self.new };
}
