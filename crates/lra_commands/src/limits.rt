//! The limits of a coordinator.

ghost use Rattle.std.specs.Prelude.{◌≡◌};
ghost use Rattle.lra_commands.specs.Terms.{usual};
ghost use Rattle.lra_commands.specs.Due.{due_after};

use lra_model::Version;
use lra_timers::pause;

/// The limits of a coordinator: how much it accepts, and how it repeats its asks.
#[derive(Clone, Copy, Debug, PartialEq, Eq)]
pub struct Limits {
    pub clerks: u32,
    pub actions: u64,
    pub members: u64,
    pub entries: u64,
    /// The greatest depth of an action: one without a parent has depth 1.
    pub depth: u64,
    /// The milliseconds that the first repetition of an ask waits.
    pub retry_base: u64,
    /// The longest that a repetition waits, in milliseconds.
    pub retry_cap: u64,
}

impl Limits {
    /// Returns the limits that serve most teams.
    pub const fn usual() -> Limits
        ensures { result ≡ usual }
    {
        Limits {
            clerks: 1_000_000,
            actions: 100_000,
            members: 400_000,
            entries: 4_000_000,
            depth: 64,
            retry_base: 100,
            retry_cap: 60_000,
        }
    }

    /// Returns the moment from which on a member is asked, in milliseconds, given its attempts and the moment of the
    /// last one: 0, which is at once, before the first attempt, and else after a pause.
    pub fn due_after(&self, repeats: u64, last: Option<u64>) -> u64
        ensures { result ≡ due_after self.now repeats last }
    {
        if repeats == 0 {
            return 0;
        }
        last.unwrap_or(0)
            .saturating_add(pause(self.retry_base, self.retry_cap, repeats))
    }
}

/// The terms that answers depend on besides the history: the version of the journal, and the limits.
#[derive(Clone, Copy, Debug, PartialEq, Eq)]
pub struct Terms {
    pub version: Version,
    pub limits: Limits,
}
