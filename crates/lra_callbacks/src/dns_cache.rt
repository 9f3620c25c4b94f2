//! DNS cache: names of hosts, and what is known of each.

use std::alloc::Global;
use std::collections::{BTreeMap, VecDeque};
use std::net::SocketAddr;

/// Number of milliseconds that addresses are valid after the look-up that found them.
const FOUND_MS: u64 = 30_000;

/// Number of milliseconds that the result of a look-up is valid that found no address.
const MISSED_MS: u64 = 5_000;

/// Largest number of names that the cache holds.
const MOST_NAMES: usize = 4_096;

/// State of a name in the cache at a moment.
#[derive(Drop)]
pub(crate) enum Found {
    /// Its addresses, and the moment until which they are valid.
    Known(Vec<SocketAddr>, u64),
    /// The look-up found no address, or there is no room or memory for the name.
    Missed,
    /// Its look-up was requested before, and hasn't ended.
    Pending,
    /// Its look-up was requested just now.
    Asked,
}

/// Entry of one name. It has no addresses while the name is looked up.
#[derive(Drop)]
struct Entry {
    addresses: Vec<SocketAddr>,
    until: u64,
    is_asked: bool,
}

/// DNS cache: names with their addresses, and a queue of the names to look up.
#[derive(Drop)]
pub(crate) struct DnsCache {
    entries: BTreeMap<String, Entry>,
    asked: VecDeque<String>,
    is_closed: bool,
}

impl DnsCache {
    pub(crate) fn new(alloc: Global) -> DnsCache {
        DnsCache {
            entries: BTreeMap::new(alloc),
            asked: VecDeque::new(alloc),
            is_closed: false,
        }
    }

    /// Returns what is known of a name at a moment. Requests the look-up of the name if nothing is.
    pub(crate) fn find(&mut self, alloc: Global, name: &str, now: u64) -> Found {
        match self.entries.get(name) {
            Some(entry) if entry.is_asked => Found::Pending,
            Some(entry) if now < entry.until => known(alloc, entry),
            _ => self.ask(alloc, name, now),
        }
    }

    /// Requests the look-up of a name if there is room for the name.
    fn ask(&mut self, alloc: Global, name: &str, now: u64) -> Found {
        if self.entries.len() >= MOST_NAMES {
            self.entries
                .retain(|_, entry| entry.is_asked || now < entry.until);
        }
        if self.entries.len() >= MOST_NAMES || self.enter(alloc, name).is_none() {
            return Found::Missed;
        }
        Found::Asked
    }

    fn enter(&mut self, alloc: Global, name: &str) -> Option<()> {
        let key = String::from_str(alloc, name).ok()?;
        self.asked.reserve(1).ok()?;
        let entry = Entry {
            addresses: Vec::new(alloc),
            until: 0,
            is_asked: true,
        };
        let name = String::from_str(alloc, name).ok()?;
        self.entries.insert(key, entry).ok()?;
        self.asked.push_back(name).ok()
    }

    /// Returns whether a resolver has to wait: no name is queued, and the cache isn't closed.
    pub(crate) fn is_idle(&self) -> bool {
        self.asked.is_empty() && !self.is_closed
    }

    /// Takes the next name to look up from the queue. Returns `None` if there is none, or if the cache is closed.
    pub(crate) fn next(&mut self) -> Option<String> {
        if self.is_closed {
            return None;
        }
        self.asked.pop_front()
    }

    /// Stores the result of a look-up that ended at this moment.
    pub(crate) fn tell(&mut self, name: &str, found: Option<Vec<SocketAddr>>, now: u64) {
        let Some(entry) = self.entries.get_mut(name) else {
            return;
        };
        entry.is_asked = false;
        match found {
            Some(addresses) => {
                entry.addresses = addresses;
                entry.until = now.saturating_add(FOUND_MS);
            }
            None => {
                entry.addresses.clear();
                entry.until = now.saturating_add(MISSED_MS);
            }
        }
    }

    /// Closes the cache: nothing more is looked up.
    pub(crate) fn close(&mut self) {
        self.is_closed = true;
    }
}

/// Returns the state of an entry whose look-up has ended.
fn known(alloc: Global, entry: &Entry) -> Found {
    if entry.addresses.is_empty() {
        return Found::Missed;
    }
    match Vec::from_slice(alloc, entry.addresses.as_slice()) {
        Ok(addresses) => Found::Known(addresses, entry.until),
        Err(_) => Found::Missed,
    }
}
