//! The reasons why a text is no rule.

use std::alloc::AllocError;
use thiserror::Error;

/// The reason why a text is no rule.
#[derive(Clone, Copy, Debug, PartialEq, Eq, Error)]
pub enum RuleFault {
    /// The text before the port, or all of it if there is none, is neither `*` nor a name, an address or a network.
    #[error("no host, address or network")]
    NotHosts,
    /// The text behind the last colon is no number up to 65535.
    #[error("no port")]
    NotPort,
    /// An allocation was refused.
    #[error("out of memory")]
    Memory,
}

impl From<AllocError> for RuleFault {
    ghost use Rattle.std.specs.Prelude.{◌≡◌};
    ghost use Rattle.lra_rules.specs.declared.fault.RuleFault.TheVariants.{Memory};

    ghost from_gives = { λ error fault. fault ≡ Memory };

    fn from(_error: AllocError) -> RuleFault {
        RuleFault::Memory
    }
}
