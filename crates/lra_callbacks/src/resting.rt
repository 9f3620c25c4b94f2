//! Time that a callback worker rests.

ghost use Rattle.std.specs.Prelude.{◌≡◌};
ghost use Rattle.lra_callbacks.specs.inner.Resting.{rest, most_rest, rest_before};

/// Largest number of milliseconds that a callback worker waits for its sockets before it polls its office again.
pub(crate) const REST_MS: u64 = 1_000;

/// Largest number if it has no room for what is due, or has to look at the time before.
pub(crate) const SHORT_REST_MS: u64 = 50;

fn most_rest(has_room: bool, is_watchful: bool) -> u64
    ensures { result ≡ most_rest has_room is_watchful }
{
    if has_room && !is_watchful {
        REST_MS
    } else {
        SHORT_REST_MS
    }
}

/// Returns how many milliseconds a callback worker may wait for its sockets at a moment of its office's clock, if
/// something is due next at that other moment.
pub(crate) fn rest_for(next: Option<u64>, now: u64, has_room: bool, is_watchful: bool) -> u64
    ensures { result ≡ rest next now has_room is_watchful }
{
    let most = most_rest(has_room, is_watchful);
    match next {
        Some(moment) if has_room => moment.saturating_sub(now).min(most),
        _ => most,
    }
}

/// Returns the shorter of a rest and the time until a moment at which something goes on.
pub(crate) fn rest_before(rest: u64, moment: u64, now: u64) -> u64
    ensures { result ≡ rest_before rest moment now }
{
    moment.saturating_sub(now).min(rest)
}
