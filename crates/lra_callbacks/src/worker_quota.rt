//! Quota of errands that one of several callback workers has.

ghost use Rattle.std.specs.Prelude.{◌≡◌, ◌/◌, max};

/// Number of errands that all callback workers together hold, including those that wait.
const MOST_HELD: u32 = 16_384;

/// Time-outs of a callback, in milliseconds.
#[derive(Clone, Copy, PartialEq, Eq)]
pub struct TimeOuts {
    /// Time until the member has to have accepted the connection.
    pub connect: u64,
    /// Time until the whole reply has to have come, also from when the callback began to connect.
    pub reply: u64,
}

/// Quota of errands that one of several callback workers has, and their time-outs.
#[derive(Clone, Copy, PartialEq, Eq)]
pub struct WorkerQuota {
    /// Number of errands that the worker holds, including those that wait.
    pub held: u32,
    pub time_outs: TimeOuts,
}

impl WorkerQuota {
    /// Returns the quota of each of so many callback workers: at least one errand.
    pub fn of(workers: u32, time_outs: TimeOuts) -> WorkerQuota
        ensures held { result.held ≡ max (16_384 / max workers 1) 1 }
        ensures time_outs { result.time_outs ≡ time_outs }
    {
        WorkerQuota {
            held: (MOST_HELD / workers.max(1)).max(1),
            time_outs,
        }
    }
}
