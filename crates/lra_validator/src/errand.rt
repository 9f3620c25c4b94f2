//! The parts of an errand that a decision reads.

ghost use Rattle.std.specs.Prelude.{◌≡◌};
ghost use Rattle.lra_commands.specs.Errands.{Asking};
ghost use Rattle.lra_validator.specs.CommandValues.{carried_of};

use lra_model::{AskKind, Direction};

/// The parts of an errand that decide whether its reply may come.
#[derive(Clone, Copy, PartialEq, Eq)]
pub struct Carried {
    pub ask: u64,
    pub member: u64,
    pub kind: AskKind,
    pub direction: Direction,
}

/// An errand: the address and the contents of one ask.
pub trait HasAsk {
    ghost asking: { Self → Asking };

    /// Returns the parts that decide whether its reply may come.
    fn carried(&self) -> Carried
        ensures { result ≡ carried_of (asking self.now) };
}
