//! Limits, quotas and time-outs of a service, by its settings.

ghost use Rattle.std.specs.Prelude.{◌≡◌};
ghost use Rattle.lra_commands.specs.Terms.{AreKeepable};
ghost use Rattle.lra_server.specs.Limited.{limits_of};

use lra_callbacks::{Quota, SharedDnsCache, TimeOuts, WorkerQuota};
use lra_commands::Limits;
use lra_event_loop::Times;
use lra_settings::Settings;
use std::alloc::Global;
use std::net::SocketAddr;

/// Returns so many seconds in milliseconds.
fn in_ms(seconds: u64) -> u64 {
    seconds.saturating_mul(1_000)
}

/// Returns the time-outs of a client, by some settings.
pub fn times_of(settings: &Settings) -> Times {
    Times {
        idle: in_ms(settings.idle_seconds),
        request: in_ms(settings.request_seconds),
        reply: in_ms(settings.reply_seconds),
    }
}

/// State that all callback workers of a service share: the DNS cache of members' hosts, and the quota of callbacks that
/// go out at once.
#[derive(Drop)]
pub struct CallbackSettings {
    pub names: SharedDnsCache,
    pub quota: Quota,
    /// Quota of errands of each worker, and the time-outs of a callback.
    pub worker_quota: WorkerQuota,
}

/// Returns a number, or the largest one that fits.
fn fitted(number: u64) -> u32 {
    u32::try_from(number).unwrap_or(u32::MAX)
}

impl CallbackSettings {
    /// Returns the shared state of so many callback workers, by some settings: nothing goes out yet. Members are called
    /// by the proxy at that address, if there is one.
    pub fn new(
        alloc: Global,
        settings: &Settings,
        workers: usize,
        proxy: Option<SocketAddr>,
    ) -> CallbackSettings {
        let time_outs = TimeOuts {
            connect: in_ms(settings.connect_seconds),
            reply: in_ms(settings.callback_seconds),
        };
        CallbackSettings {
            names: SharedDnsCache::new(alloc, proxy),
            quota: Quota::new(
                alloc,
                fitted(settings.callbacks),
                fitted(settings.host_share),
            ),
            worker_quota: WorkerQuota::of(fitted(workers as u64), time_outs),
        }
    }
}

/// Returns the limits of a coordinator, and the pauses before it repeats its asks, by some settings.
pub fn limits_of(settings: &Settings) -> Limits
    ensures limits { result ≡ limits_of settings.now }
    ensures keepable { AreKeepable result }
{
    let mut limits = Limits::usual();
    limits.retry_base = settings.retry_first_ms;
    limits.retry_cap = settings.retry_last_ms;
    limits
}
