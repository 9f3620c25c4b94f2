//! Reasons why there are no keys.

use std::alloc::AllocError;

/// Reason why there are no keys, or no new ones.
#[derive(Clone, Copy, PartialEq, Eq)]
pub enum KeysFault {
    /// The file can't be read.
    File,
    /// Others than its owner may read the file.
    Shared,
    /// The file is longer than the largest that is read.
    TooLong,
    /// The line of this number is no name and digest; the first is 1.
    Line(u64),
    /// Memory was refused.
    Memory,
}

impl From<AllocError> for KeysFault {
    ghost use Rattle.std.specs.Prelude.{◌≡◌};
    ghost use Rattle.lra_admission.specs.declared.fault.KeysFault.TheVariants.{Memory};

    ghost from_gives = { λ error fault. fault ≡ Memory };

    fn from(_error: AllocError) -> KeysFault {
        KeysFault::Memory
    }
}
