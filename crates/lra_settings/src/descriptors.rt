//! Shares of the descriptors that the system grants to a service.

ghost use Rattle.std.specs.Prelude.{◌≡◌};
ghost use Rattle.lra_settings.specs.Descriptors.{taken_by_file, taken_by_folder, shared};

use crate::settings::Settings;

/// Number of descriptors that are kept back: for what any program has open, for operators, and for what is opened for a
/// while.
const KEPT_BACK: u64 = 64;

/// Least number of descriptors that have to be left beside those: one for a connection and one for a callback.
const LEAST: u64 = 2;

/// Returns how many descriptors the service of one file uses with so many workers, beside those of connections and
/// callbacks. Each connection worker and each callback worker waits with two. One more for each worker covers the
/// rounding up of its quota of the connections. The journal's file is open twice: for the journal and for the log.
pub fn taken_by_file(workers: u32) -> u64
    ensures { result ≡ taken_by_file workers }
{
    5 * (workers as u64) + 2
}

/// Returns how many descriptors the service of a folder uses with so many workers and journals, beside those of
/// connections and callbacks. The next journal is counted too. Each journal of a folder has a callback worker.
pub fn taken_by_folder(workers: u32, journals: u32) -> u64
    ensures { result ≡ taken_by_folder workers journals }
{
    3 * (workers as u64) + 4 * ((journals as u64) + 1)
}

/// Returns the settings with no more connections and callbacks than there are descriptors for. `limit` is the number
/// that the process may have, and `taken` the number used otherwise. Callbacks get half of what is left at most.
/// Returns nothing where not even one of each fits.
pub fn share_descriptors(limit: u64, taken: u64, settings: &Settings) -> Option<Settings>
    ensures { result ≡ shared limit taken settings.now }
{
    let rest = limit.saturating_sub(KEPT_BACK).saturating_sub(taken);
    if rest < LEAST {
        return None;
    }
    let callbacks = settings.callbacks.min(rest / 2);
    Some(Settings {
        connections: settings.connections.min(rest - callbacks),
        callbacks,
        ..*settings
    })
}

/// Returns the least limit of descriptors with which a service can run, where so many are used otherwise.
pub fn descriptors_needed(taken: u64) -> u64 {
    taken.saturating_add(KEPT_BACK).saturating_add(LEAST)
}
