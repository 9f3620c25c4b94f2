//! Workers that wait for permits, host by host.

use crate::counts::Counts;
use slab::Slab;
use std::alloc::Global;
use std::collections::{BTreeMap, VecDeque};

/// Worker that waits for a permit, and the number by which it knows the host.
#[derive(Clone, Copy)]
pub(crate) struct Waiter {
    pub(crate) worker: usize,
    pub(crate) host: usize,
}

/// Workers that wait for permits to one host and port, in the order in which they came.
#[derive(Drop)]
struct Queue {
    socket: String,
    waiters: VecDeque<Waiter>,
}

/// Queues of workers that wait for permits. Their hosts take turns.
#[derive(Drop)]
pub(crate) struct Places {
    alloc: Global,
    queues: Slab<Queue>,
    by_socket: BTreeMap<String, usize>,
    /// Numbers of the queues in the order of their turns. Each stands here once, until its turn comes and it is empty.
    line: VecDeque<usize>,
}

impl Places {
    /// Makes an empty set of queues.
    pub(crate) fn new(alloc: Global) -> Places {
        Places {
            alloc,
            queues: Slab::new(alloc),
            by_socket: BTreeMap::new(alloc),
            line: VecDeque::new(alloc),
        }
    }

    /// Queues a worker for a host and port. Returns whether it did: it doesn't if memory is refused.
    pub(crate) fn wait(&mut self, waiter: Waiter, socket: &str) -> bool {
        // Two queues are checked for each worker that comes, so at most half of all queues are empty.
        self.tidy();
        self.tidy();
        let Some(number) = self.number_of(socket) else {
            return false;
        };
        match self.queues.get_mut(number) {
            Some(queue) => queue.waiters.push_back(waiter).is_ok(),
            None => false,
        }
    }

    /// Takes the first worker that waits for a host and port, and counts it there. Returns it, and whether it was
    /// counted: it isn't if memory is refused.
    pub(crate) fn next_at(&mut self, counts: &mut Counts, socket: &str) -> Option<(Waiter, bool)> {
        let number = self.by_socket.get(socket).copied()?;
        let waiter = self.queues.get_mut(number)?.waiters.pop_front()?;
        Some((waiter, counts.enter(socket)))
    }

    /// Takes the first worker that waits for the next host and port with room, and counts it there. Returns it, and
    /// whether it was counted: it isn't if memory is refused.
    pub(crate) fn next(&mut self, counts: &mut Counts) -> Option<(Waiter, bool)> {
        for _ in 0..self.line.len() {
            let number = self.turn()?;
            let Some(queue) = self.queues.get_mut(number) else {
                continue;
            };
            if !counts.have_room(queue.socket.as_str()) {
                continue;
            }
            if let Some(waiter) = queue.waiters.pop_front() {
                let is_counted = counts.enter(queue.socket.as_str());
                return Some((waiter, is_counted));
            }
        }
        None
    }

    /// Removes a worker from the queue of a host and port.
    pub(crate) fn withdraw(&mut self, worker: usize, socket: &str) {
        let Some(number) = self.by_socket.get(socket).copied() else {
            return;
        };
        let Some(queue) = self.queues.get_mut(number) else {
            return;
        };
        for _ in 0..queue.waiters.len() {
            let Some(waiter) = queue.waiters.pop_front() else {
                return;
            };
            if waiter.worker != worker {
                // There is room, as one has just left.
                let _ = queue.waiters.push_back(waiter);
            }
        }
    }

    /// Returns the number of the queue whose turn it is, and moves that queue to the end of the line.
    fn turn(&mut self) -> Option<usize> {
        let number = self.line.pop_front()?;
        // There is room, as it has just left.
        let _ = self.line.push_back(number);
        Some(number)
    }

    /// Forgets the queue whose turn it is if it is empty. Otherwise moves it to the end of the line.
    fn tidy(&mut self) {
        let Some(number) = self.line.pop_front() else {
            return;
        };
        let is_empty = match self.queues.get(number) {
            Some(queue) => queue.waiters.is_empty(),
            None => return,
        };
        if is_empty {
            self.forget(number);
        } else {
            let _ = self.line.push_back(number);
        }
    }

    /// Forgets a queue.
    fn forget(&mut self, number: usize) {
        if let Some(queue) = self.queues.try_remove(number) {
            self.by_socket.remove(queue.socket.as_str());
        }
    }

    /// Returns the number of a host's queue, which is added if there is none yet. Returns `None` if memory is refused.
    fn number_of(&mut self, socket: &str) -> Option<usize> {
        if let Some(number) = self.by_socket.get(socket) {
            return Some(*number);
        }
        let key = String::from_str(self.alloc, socket).ok()?;
        let own = String::from_str(self.alloc, socket).ok()?;
        self.line.reserve(1).ok()?;
        let queue = Queue {
            socket: own,
            waiters: VecDeque::new(self.alloc),
        };
        let number = self.queues.insert(queue).ok()?;
        if self.by_socket.insert(key, number).is_err() {
            self.queues.try_remove(number);
            return None;
        }
        let _ = self.line.push_back(number);
        Some(number)
    }
}
