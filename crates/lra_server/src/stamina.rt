//! Pauses of a callback worker that is refused memory.

ghost use Rattle.std.specs.Prelude.{◌≡◌, ◌≤◌};
ghost use Rattle.lra_server.specs.inner.Stamina as spec;

use lra_timers::pause;

/// Numbers of milliseconds of the first pause and of the longest one.
const FIRST_PAUSE_MS: u64 = 10;

const LONGEST_PAUSE_MS: u64 = 1_000;

/// Returns the milliseconds of the pause after memory was refused so many times in a row.
pub(crate) fn pause_after(refusals: u64) -> u64
    ensures { result ≡ spec.pause_after refusals }
{
    pause(FIRST_PAUSE_MS, LONGEST_PAUSE_MS, refusals.max(1))
}

/// Returns whether that pause is the longest: then the worker's callbacks count as standing still.
pub(crate) fn is_longest(refusals: u64) -> bool
    ensures { result ≡ spec.is_longest refusals }
{
    pause_after(refusals) == LONGEST_PAUSE_MS
}
