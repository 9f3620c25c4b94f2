//! Hosts that callbacks go to, and the callbacks that wait for each.

use crate::dns_cache::Found;
use crate::names::SharedDnsCache;
use crate::quota::{Asked, Quota};
use slab::Slab;
use std::alloc::Global;
use std::collections::{BTreeMap, VecDeque};
use std::net::SocketAddr;
use std::sync::Wait;

/// Number of milliseconds that the look-up of a host's name may take.
const NAME_MS: u64 = 10_000;

/// A host and port, and the callbacks to it.
#[derive(Drop)]
struct Host {
    socket: String,
    /// Its addresses; none while they aren't known.
    addresses: Vec<SocketAddr>,
    /// Place of the address that is tried first: those before it come last.
    first: usize,
    /// Moment until which they are valid, in milliseconds.
    until: u64,
    /// Moment until which it waits for the look-up of its name, in milliseconds; 0 while it waits for none.
    deadline: u64,
    /// Number of permits that it has, for its open sockets among them.
    permits: u32,
    /// Number of open sockets to it.
    open: u32,
    /// The callbacks that wait for it.
    waiting: VecDeque<usize>,
    /// Flag, set while it stands in line.
    is_lined: bool,
    /// Flag, set while it waits for the look-up of its name.
    is_unknown: bool,
    /// Flag, set while it waits for a permit.
    is_pending: bool,
}

/// Host and port, and one of the addresses that were found for them.
#[derive(Clone, Copy)]
pub(crate) struct Target<'h> {
    pub(crate) socket: &'h str,
    pub(crate) address: SocketAddr,
}

/// Next step of the callbacks.
#[derive(Clone, Copy, PartialEq, Eq)]
pub(crate) enum Next {
    /// This callback starts to that host, and is counted there.
    Goes(usize, usize),
    /// This callback fails, since its host isn't found.
    Fails(usize),
    /// No callback can start now.
    Nothing,
}

/// Hosts that callbacks go to. Hosts that may have one more callback stand in line, so that each has its turn. Each
/// socket needs a permit of the quota.
#[derive(Drop)]
pub(crate) struct Hosts {
    alloc: Global,
    /// The worker's number at the quota.
    worker: usize,
    hosts: Slab<Host>,
    by_socket: BTreeMap<String, usize>,
    /// Numbers of the hosts that may have one more callback.
    line: VecDeque<usize>,
    /// Numbers of the hosts that wait for the look-up of their names.
    unknown: VecDeque<usize>,
    /// Flag, set if memory was refused for a permit, so that a host has to ask again.
    is_refused: bool,
}

impl Hosts {
    /// Makes an empty set of hosts for the worker that has that number at the quota.
    pub(crate) fn new(alloc: Global, worker: usize) -> Hosts {
        Hosts {
            alloc,
            worker,
            hosts: Slab::new(alloc),
            by_socket: BTreeMap::new(alloc),
            line: VecDeque::new(alloc),
            unknown: VecDeque::new(alloc),
            is_refused: false,
        }
    }

    /// Queues a callback for its host. Returns whether it did: it doesn't if memory is refused.
    pub(crate) fn enlist(&mut self, key: usize, socket: String) -> bool {
        let Some(number) = self.number_of(socket) else {
            return false;
        };
        let is_waiting = match self.hosts.get_mut(number) {
            Some(host) => host.waiting.push_back(key).is_ok(),
            None => false,
        };
        // Once its turn comes, a host is forgotten if nothing waits for it.
        self.line_up(number);
        is_waiting
    }

    /// Returns the number of a host, which is added if it is new. Returns `None` if memory is refused.
    fn number_of(&mut self, socket: String) -> Option<usize> {
        if let Some(number) = self.by_socket.get(socket.as_str()) {
            return Some(*number);
        }
        let key = String::from_str(self.alloc, socket.as_str()).ok()?;
        // Each host stands at most once in each queue.
        self.line.reserve(self.hosts.len().saturating_add(1)).ok()?;
        self.unknown
            .reserve(self.hosts.len().saturating_add(1))
            .ok()?;
        let number = self.hosts.insert(Host::new(self.alloc, socket)).ok()?;
        if self.by_socket.insert(key, number).is_err() {
            self.hosts.try_remove(number);
            return None;
        }
        Some(number)
    }

    /// Puts a host in line, unless it is there already.
    fn line_up(&mut self, number: usize) {
        if let Some(host) = self.hosts.get_mut(number) {
            if !host.is_lined {
                host.is_lined = true;
                let _ = self.line.push_back(number);
            }
        }
    }

    /// Counts one callback to a host less, and gives its permit back.
    pub(crate) fn leave<R: Wait>(&mut self, rt: &R, quota: &Quota, number: usize) {
        if let Some(host) = self.hosts.get_mut(number) {
            host.leave(rt, quota, self.worker);
        }
        self.line_up(number);
    }

    /// Leaves the quota: gives all permits of the worker back.
    pub(crate) fn part<R: Wait>(&mut self, rt: &R, quota: &Quota) {
        for (_, host) in self.hosts.iter() {
            if host.is_pending {
                quota.withdraw(rt, self.worker, host.socket.as_str());
            }
        }
        self.take_calls(rt, quota);
        for number in self.by_socket.values() {
            if let Some(host) = self.hosts.get_mut(*number) {
                host.open = 0;
                host.spare(rt, quota, self.worker);
            }
        }
        quota.part(rt, self.worker);
    }

    /// Takes the quota's calls to the worker, and puts the called hosts in line.
    pub(crate) fn take_calls<R: Wait>(&mut self, rt: &R, quota: &Quota) {
        self.is_refused = false;
        for _ in 0..u64::MAX {
            let Some(called) = quota.take_call(rt, self.worker) else {
                return;
            };
            if let Some(host) = self.hosts.get_mut(called.host) {
                host.answer(called.has_permit);
            }
            self.line_up(called.host);
        }
    }

    /// Returns a host and port with one of its addresses, by their numbers.
    pub(crate) fn target(&self, number: usize, place: usize) -> Option<Target<'_>> {
        let host = self.hosts.get(number)?;
        let address = host.address(place)?;
        Some(Target {
            socket: host.socket.as_str(),
            address,
        })
    }

    /// Lets the next callback to a host begin behind as many addresses, since the last of these didn't answer in time.
    pub(crate) fn pass_over(&mut self, number: usize, count: usize) {
        if let Some(host) = self.hosts.get_mut(number) {
            host.first = host.place_of(count);
        }
    }

    /// Returns whether a host has to be polled soon: it waits for the look-up of its name, or memory was refused for a
    /// permit.
    pub(crate) fn are_open(&self) -> bool {
        self.is_refused || !self.unknown.is_empty()
    }

    /// Puts the hosts in line again whose names may be known by now.
    pub(crate) fn ask_again(&mut self) {
        for _ in 0..self.unknown.len() {
            let Some(number) = self.unknown.pop_front() else {
                return;
            };
            if let Some(host) = self.hosts.get_mut(number) {
                host.is_unknown = false;
            }
            self.line_up(number);
        }
    }

    /// Returns the next callback of the hosts that stand in line.
    pub(crate) fn next<R: Wait>(
        &mut self,
        rt: &R,
        names: &SharedDnsCache,
        quota: &Quota,
        now: u64,
    ) -> Next {
        for _ in 0..self.line.len() {
            let Some(number) = self.line.pop_front() else {
                return Next::Nothing;
            };
            let next = self.next_of(rt, names, quota, number, now);
            if next != Next::Nothing {
                return next;
            }
        }
        Next::Nothing
    }

    /// Returns the next callback to a host that stood in line. Puts the host in line again if it may have another.
    fn next_of<R: Wait>(
        &mut self,
        rt: &R,
        names: &SharedDnsCache,
        quota: &Quota,
        number: usize,
        now: u64,
    ) -> Next {
        let Some(host) = self.hosts.get_mut(number) else {
            return Next::Nothing;
        };
        host.is_lined = false;
        if host.waiting.is_empty() {
            host.spare(rt, quota, self.worker);
            if host.is_idle() {
                self.forget(number);
            }
            return Next::Nothing;
        }
        match host.look_up(rt, names, now) {
            Known::Yes => match host.enter(rt, quota, self.worker, number) {
                Asked::Given => self.first_of(number, true),
                Asked::Pending => Next::Nothing,
                Asked::Refused => {
                    self.is_refused = true;
                    self.line_up(number);
                    Next::Nothing
                }
            },
            Known::No => self.first_of(number, false),
            Known::NotYet => {
                host.spare(rt, quota, self.worker);
                if !host.is_unknown {
                    host.is_unknown = true;
                    let _ = self.unknown.push_back(number);
                }
                Next::Nothing
            }
        }
    }

    /// Takes the first callback that waits for a host, to start it or to let it fail.
    fn first_of(&mut self, number: usize, goes: bool) -> Next {
        let Some(host) = self.hosts.get_mut(number) else {
            return Next::Nothing;
        };
        let first = host.waiting.pop_front();
        self.line_up(number);
        match first {
            Some(key) if goes => Next::Goes(key, number),
            Some(key) => Next::Fails(key),
            None => Next::Nothing,
        }
    }

    /// Forgets a host: nothing goes to it, and nothing waits for it.
    fn forget(&mut self, number: usize) {
        if let Some(host) = self.hosts.try_remove(number) {
            self.by_socket.remove(host.socket.as_str());
        }
    }
}

/// State of a host's addresses: known, not to be found, or not known yet.
#[derive(Clone, Copy, PartialEq, Eq)]
enum Known {
    Yes,
    No,
    NotYet,
}

impl Host {
    /// Makes a host, whose addresses aren't known.
    fn new(alloc: Global, socket: String) -> Host {
        Host {
            socket,
            addresses: Vec::new(alloc),
            first: 0,
            until: 0,
            deadline: 0,
            permits: 0,
            open: 0,
            waiting: VecDeque::new(alloc),
            is_lined: false,
            is_unknown: false,
            is_pending: false,
        }
    }

    /// Returns the place of an address by its number in the order in which the addresses are tried.
    fn place_of(&self, number: usize) -> usize {
        match self
            .first
            .saturating_add(number)
            .checked_rem(self.addresses.len())
        {
            Some(place) => place,
            None => 0,
        }
    }

    /// Returns an address by its number in the order in which the addresses are tried, if there are so many.
    fn address(&self, number: usize) -> Option<SocketAddr> {
        if number >= self.addresses.len() {
            return None;
        }
        self.addresses.get(self.place_of(number)).copied()
    }

    /// Returns whether nothing goes to the host or waits for it, and it waits for neither its name nor a permit.
    fn is_idle(&self) -> bool {
        self.open == 0 && self.waiting.is_empty() && !self.is_unknown && !self.is_pending
    }

    /// Counts one more socket if there is a permit for it. Asks for a permit if there is none, unless the host waits
    /// for one.
    fn enter<R: Wait>(&mut self, rt: &R, quota: &Quota, worker: usize, number: usize) -> Asked {
        if self.is_pending && self.permits <= self.open {
            return Asked::Pending;
        }
        if self.permits <= self.open {
            match quota.ask(rt, worker, number, self.socket.as_str()) {
                Asked::Given => self.permits = self.permits.saturating_add(1),
                Asked::Pending => {
                    self.is_pending = true;
                    return Asked::Pending;
                }
                Asked::Refused => return Asked::Refused,
            }
        }
        self.open = self.open.saturating_add(1);
        Asked::Given
    }

    /// Takes a call of the quota: the host has a permit, or has to ask again.
    fn answer(&mut self, has_permit: bool) {
        self.is_pending = false;
        if has_permit {
            self.permits = self.permits.saturating_add(1);
        }
    }

    /// Counts one socket less, and gives its permit back.
    fn leave<R: Wait>(&mut self, rt: &R, quota: &Quota, worker: usize) {
        self.open = self.open.saturating_sub(1);
        self.permits = self.permits.saturating_sub(1);
        quota.give_back(rt, worker, self.socket.as_str());
    }

    /// Gives the permits back that no socket needs.
    fn spare<R: Wait>(&mut self, rt: &R, quota: &Quota, worker: usize) {
        for _ in self.open..self.permits {
            quota.give_back(rt, worker, self.socket.as_str());
        }
        self.permits = self.permits.min(self.open);
    }

    /// Finds the host's addresses if the known ones aren't valid any more.
    fn look_up<R: Wait>(&mut self, rt: &R, names: &SharedDnsCache, now: u64) -> Known {
        if now < self.until {
            return Known::Yes;
        }
        match names.find(rt, self.socket.as_str(), now) {
            Found::Known(addresses, until) => {
                self.addresses = addresses;
                self.until = until;
                self.deadline = 0;
                Known::Yes
            }
            Found::Missed => {
                self.deadline = 0;
                Known::No
            }
            Found::Asked => {
                self.deadline = now.saturating_add(NAME_MS);
                Known::NotYet
            }
            Found::Pending => self.wait_on(now),
        }
    }

    /// Waits for the look-up of the host's name, up to a moment.
    fn wait_on(&mut self, now: u64) -> Known {
        if self.deadline == 0 {
            self.deadline = now.saturating_add(NAME_MS);
        }
        if now < self.deadline {
            Known::NotYet
        } else {
            Known::No
        }
    }
}
