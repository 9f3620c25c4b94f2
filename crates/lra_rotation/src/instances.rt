//! Choice of the next instance.

ghost use Rattle.std.specs.Prelude.{◌≡◌};
ghost use Rattle.lra_rotation.specs.Deciding as spec;

/// Number of moments, in milliseconds, for which a site has an instance.
const MOMENTS: u64 = 1 << 44;

/// Returns the least instance of a site that is greater than those noted, and no earlier than a moment in milliseconds.
/// Returns `None` if there is none.
pub fn next_instance(site: u16, moment: u64, noted: u64) -> Option<u64>
    ensures { result ≡ spec.next_instance site moment noted }
{
    let first = u128::from(site) * u128::from(MOMENTS);
    let least = first + u128::from(moment);
    let next = least.max(u128::from(noted) + 1);
    if next < first + u128::from(MOMENTS) {
        Some(next as u64)
    } else {
        None
    }
}
