ghost use Rattle.std.specs.Prelude.{MatchBool};
ghost use Rattle.lra_timers.specs.Order.{IsNotAfter};
ghost use Rattle.lra_timers.specs.inner.Tree.{IsWinner};

/// A number with its moment.
#[derive(Clone, Copy, Debug, PartialEq, Eq)]
pub struct Deadline {
    pub moment: u64,
    pub number: u64,
}

impl Deadline {
    /// The deadline that comes after all others.
    pub const LAST: Deadline = Deadline {
        moment: u64::MAX,
        number: u64::MAX,
    };

    /// Returns whether a deadline is before another: by moment, then by number.
    fn is_before(self, other: Deadline) -> bool
        ensures { MatchBool result (IsNotAfter self other) (IsNotAfter other self) }
    {
        self.moment < other.moment || (self.moment == other.moment && self.number < other.number)
    }

    pub(crate) fn earlier(self, other: Deadline) -> Deadline
        ensures { IsWinner result self other }
    {
        if other.is_before(self) { other } else { self }
    }
}
