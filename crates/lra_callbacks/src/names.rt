//! DNS cache, as all callback workers share it.

ghost use Rattle.std.specs.Prelude.{◌≡◌, IsSome};

use crate::dns_cache::{DnsCache, Found};
use crate::socket_set::wake_workers;
use mio::Waker;
use std::alloc::Global;
use std::net::{Net, SocketAddr, ToSocketAddrs};
use std::sync::{Condvar, Mutex, Wait};
use std::time::Clock;

/// DNS cache of hosts that have names, for all callback workers. Resolver threads look the names up, since the system
/// blocks a thread that asks. Where members are called by a proxy, all hosts are at the proxy's address.
#[derive(Drop)]
pub struct SharedDnsCache {
    alloc: Global,
    proxy: Option<SocketAddr>,
    dns_cache: Mutex<DnsCache>,
    /// Condition that the resolvers wait for.
    asked: Condvar,
}

/// Returns the milliseconds of the steady clock, or `None` if it can't be read.
pub(crate) fn steady_now<R: Clock>(rt: &R) -> Option<u64> {
    u64::try_from(rt.monotonic().ok()?.as_millis()).ok()
}

/// Returns the addresses of a host and port, if the system finds any.
fn look_up<R: Net>(rt: &R, alloc: Global, socket: &str) -> Option<Vec<SocketAddr>> {
    let mut found = Vec::new(alloc);
    for address in socket.to_socket_addrs(rt).ok()? {
        found.push(address).ok()?;
    }
    if found.is_empty() {
        return None;
    }
    Some(found)
}

/// Returns the address of a host and port that needs no look-up: the proxy's, or the one that stands in numbers.
fn known_address(proxy: Option<SocketAddr>, socket: &str) -> Option<SocketAddr>
    ensures { IsSome proxy → result ≡ proxy }
{
    match proxy {
        Some(address) => Some(address),
        None => socket.parse::<SocketAddr>().ok(),
    }
}

/// Returns an address as one that is valid for ever, or that it is missed if memory is refused.
fn known_for_ever(alloc: Global, address: SocketAddr) -> Found {
    match Vec::from_slice(alloc, &[address]) {
        Ok(addresses) => Found::Known(addresses, u64::MAX),
        Err(_) => Found::Missed,
    }
}

impl SharedDnsCache {
    /// Makes an empty cache for members that are called by a proxy at that address, or else where they are.
    pub fn new(alloc: Global, proxy: Option<SocketAddr>) -> SharedDnsCache {
        SharedDnsCache {
            alloc,
            proxy,
            dns_cache: Mutex::new(DnsCache::new(alloc)),
            asked: Condvar::new(),
        }
    }

    /// Returns whether members are called by a proxy.
    pub(crate) fn is_proxied(&self) -> bool {
        self.proxy.is_some()
    }

    /// Returns what is known of a host and port at a moment. Requests their look-up if nothing is.
    pub(crate) fn find<R: Wait>(&self, rt: &R, socket: &str, now: u64) -> Found {
        if let Some(address) = known_address(self.proxy, socket) {
            return known_for_ever(self.alloc, address);
        }
        let found = self.dns_cache.lock(rt).find(self.alloc, socket, now);
        if matches!(found, Found::Asked) {
            self.asked.notify_one();
        }
        found
    }

    /// Looks up the names that are requested, and wakes the callback workers after each, until the cache is closed. One
    /// or several threads of their own have to call this.
    pub fn run<R: Wait + Net + Clock>(&self, rt: &R, wakers: &[Waker]) {
        for _ in rt.forever() {
            let dns_cache = self.dns_cache.lock(rt);
            let mut dns_cache = self
                .asked
                .wait_while(rt, dns_cache, |dns_cache| dns_cache.is_idle());
            let Some(socket) = dns_cache.next() else {
                return;
            };
            drop(dns_cache);
            let found = look_up(rt, self.alloc, socket.as_str());
            let now = steady_now(rt).unwrap_or(0);
            self.dns_cache.lock(rt).tell(socket.as_str(), found, now);
            wake_workers(wakers);
        }
    }

    /// Closes the cache: nothing more is requested, and the resolvers end.
    pub fn close<R: Wait>(&self, rt: &R) {
        self.dns_cache.lock(rt).close();
        self.asked.notify_all();
    }
}
