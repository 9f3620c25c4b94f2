//! Quota of callbacks that go out at once, for all callback workers of a service.

use crate::counts::Counts;
use crate::places::{Places, Waiter};
use mio::Waker;
use slab::Slab;
use std::alloc::Global;
use std::collections::VecDeque;
use std::sync::{Arc, Mutex, Wait};

/// Callback worker that takes part in the quota.
#[derive(Drop)]
struct Worker {
    /// Wakers of several workers.
    wakers: Arc<Vec<Waker>>,
    /// Index of its own waker among them.
    place: usize,
    /// Number of hosts at which it waits, or to which it was called.
    waits: usize,
    /// Hosts to which it was called.
    called: VecDeque<Called>,
}

/// Host that a worker waited for, by the number that the worker gives it.
#[derive(Clone, Copy)]
pub(crate) struct Called {
    pub(crate) host: usize,
    /// Flag, set if the worker has a permit. Otherwise memory was refused, and the worker has to ask again.
    pub(crate) has_permit: bool,
}

/// Result of a request for a permit.
#[derive(Clone, Copy, PartialEq, Eq)]
pub(crate) enum Asked {
    /// The worker has a permit.
    Given,
    /// The worker waits: the quota calls it once it has one.
    Pending,
    /// Memory was refused: the worker has to ask again.
    Refused,
}

/// Permits that are given, and the workers that wait for one.
#[derive(Drop)]
struct Permits {
    counts: Counts,
    places: Places,
    workers: Slab<Worker>,
}

/// Quota of callbacks that go out at once, in all and to each host and port. All callback workers of a service share
/// it: a worker asks for a permit for each connection, and gives it back. A permit that comes back goes to the worker
/// that has waited longest for that host. While as many callbacks go out as may, hosts take turns.
#[derive(Drop)]
pub struct Quota {
    permits: Mutex<Permits>,
}

impl Worker {
    /// Makes room to call the worker to one host more. Returns whether there is room.
    fn expect_call(&mut self) -> bool {
        let room = self.waits.saturating_add(1);
        let is_roomy = self
            .called
            .reserve(room.saturating_sub(self.called.len()))
            .is_ok();
        if is_roomy {
            self.waits = room;
        }
        is_roomy
    }

    /// Calls the worker to a host.
    fn call(&mut self, called: Called) {
        // There is room for all that it waits for.
        let _ = self.called.push_back(called);
    }

    /// Wakes the worker.
    fn wake(&self) {
        if let Some(waker) = self.wakers.get(self.place) {
            // A worker that can't be woken polls by itself.
            let _ = waker.wake();
        }
    }

    /// Takes the worker's oldest call.
    fn take_call(&mut self) -> Option<Called> {
        let called = self.called.pop_front()?;
        self.waits = self.waits.saturating_sub(1);
        Some(called)
    }
}

impl Permits {
    /// Calls a worker to a host, and wakes it unless it is `but`.
    fn call(&mut self, waiter: Waiter, has_permit: bool, but: usize) {
        if let Some(worker) = self.workers.get_mut(waiter.worker) {
            worker.call(Called {
                host: waiter.host,
                has_permit,
            });
            if waiter.worker != but {
                worker.wake();
            }
        }
    }

    /// Gives a worker a permit, or queues it for one.
    fn ask(&mut self, waiter: Waiter, socket: &str) -> Asked {
        if self.counts.enter(socket) {
            return Asked::Given;
        }
        if self.counts.have_room(socket) {
            return Asked::Refused;
        }
        match self.workers.get_mut(waiter.worker) {
            Some(worker) => {
                if !worker.expect_call() {
                    return Asked::Refused;
                }
            }
            None => return Asked::Refused,
        }
        if self.places.wait(waiter, socket) {
            return Asked::Pending;
        }
        if let Some(worker) = self.workers.get_mut(waiter.worker) {
            worker.waits = worker.waits.saturating_sub(1);
        }
        Asked::Refused
    }

    /// Takes a permit back from a worker, and gives it to a worker that waits for one.
    fn give_back(&mut self, from: usize, socket: &str) {
        let were_met = self.counts.are_met();
        self.counts.leave(socket);
        for _ in 0..u64::MAX {
            let next = if were_met {
                self.places.next(&mut self.counts)
            } else {
                self.places.next_at(&mut self.counts, socket)
            };
            let Some((waiter, has_permit)) = next else {
                return;
            };
            self.call(waiter, has_permit, from);
            if has_permit {
                return;
            }
        }
    }
}

impl Quota {
    /// Makes a quota of so many permits, and so many to each host and port; at least one of each.
    pub fn new(alloc: Global, most: u32, each: u32) -> Quota {
        Quota {
            permits: Mutex::new(Permits {
                counts: Counts::new(alloc, most.max(1), each.max(1)),
                places: Places::new(alloc),
                workers: Slab::new(alloc),
            }),
        }
    }

    /// Adds a worker, which is woken by the waker at that index. Returns its number, or `None` if memory is refused.
    pub(crate) fn join<R: Wait>(
        &self,
        rt: &R,
        alloc: Global,
        wakers: &Arc<Vec<Waker>>,
        place: usize,
    ) -> Option<usize> {
        let worker = Worker {
            wakers: wakers.clone().ok()?,
            place,
            waits: 0,
            called: VecDeque::new(alloc),
        };
        self.permits.lock(rt).workers.insert(worker).ok()
    }

    /// Asks for a permit to a host and port for a worker, which knows them by that number.
    pub(crate) fn ask<R: Wait>(&self, rt: &R, worker: usize, host: usize, socket: &str) -> Asked {
        self.permits.lock(rt).ask(Waiter { worker, host }, socket)
    }

    /// Takes a permit back from a worker.
    pub(crate) fn give_back<R: Wait>(&self, rt: &R, worker: usize, socket: &str) {
        self.permits.lock(rt).give_back(worker, socket);
    }

    /// Takes a worker's oldest call, if there is one.
    pub(crate) fn take_call<R: Wait>(&self, rt: &R, worker: usize) -> Option<Called> {
        self.permits.lock(rt).workers.get_mut(worker)?.take_call()
    }

    /// Removes a worker from the queue of a host and port. The worker may have been called before.
    pub(crate) fn withdraw<R: Wait>(&self, rt: &R, worker: usize, socket: &str) {
        self.permits.lock(rt).places.withdraw(worker, socket);
    }

    /// Removes a worker, which waits nowhere and has given all its permits back.
    pub(crate) fn part<R: Wait>(&self, rt: &R, worker: usize) {
        self.permits.lock(rt).workers.try_remove(worker);
    }
}
