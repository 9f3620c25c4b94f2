//! A slot through which the other threads find a callback worker.

use crate::socket_set::waker;
use mio::{Poll, Waker};
use std::net::Net;
use std::sync::Mutex;
use std::sync::atomic::AtomicU64;

/// Slot of a callback worker.
#[derive(Drop)]
pub struct WorkerSlot {
    /// Poll with which the worker waits, until the worker takes it.
    pub poll: Mutex<Option<Poll>>,
    /// Number of errands that the worker has under way.
    pub under_way: AtomicU64,
    /// Least number of milliseconds that the worker leaves between two asks of a silent member.
    pub least_pause: AtomicU64,
}

impl WorkerSlot {
    /// Returns a slot in which nothing is under way and no member is in back-off, and its waker. Returns `None` if they
    /// can't be had.
    pub fn new<R: Net>(rt: &R) -> Option<(WorkerSlot, Waker)> {
        let (poll, waker) = waker(rt).ok()?;
        let worker_slot = WorkerSlot {
            poll: Mutex::new(Some(poll)),
            under_way: AtomicU64::new(0),
            least_pause: AtomicU64::new(0),
        };
        Some((worker_slot, waker))
    }
}
