ghost use Rattle.std.specs.Prelude.{◌≡◌, ◌≤◌};
ghost use Rattle.lra_timers.specs.Pauses.{pause};

/// Returns the back-off before a member is asked again, in milliseconds, after k asks in a row without a final reply:
/// the base for the first, doubled for each further one, and never more than the cap.
pub fn pause(base: u64, cap: u64, k: u64) -> u64
    requires { 1 ≤ k }
    ensures { result ≡ pause base cap k }
{
    let doublings = k - 1;
    if base == 0 {
        return 0;
    }
    if doublings >= 64 {
        return cap;
    }
    match base.checked_mul(1 << doublings) {
        Some(pause) => pause.min(cap),
        None => cap,
    }
}
