//! A value behind a Mutex, at which several threads take turns. The locks of this project are compared with it.

use crate::stopwatch::Stopwatch;
use anyhow::{Result, ensure};
use std::alloc::Global;
use std::marker::Send;
use std::sync::{Mutex, Wait};
use std::thread::{self, Threads};
use std::time::Clock;

/// Value that threads take turns at.
pub trait Turns {
    /// Takes a turn, and returns whether that succeeded.
    fn take_turn(&mut self) -> bool;
}

/// Takes turns, each under the lock. Returns false once one of them fails.
fn take_turns<T: Turns, R: Wait>(rt: &R, lock: &Mutex<T>, turns: u64) -> bool {
    for _ in 0..turns {
        if !lock.lock(rt).take_turn() {
            return false;
        }
    }
    true
}

/// Returns the seconds that turns take, by all threads together.
fn time<T: Turns + Send, R: Threads + Wait + Clock + Sync>(
    rt: &R,
    alloc: Global,
    lock: &Mutex<T>,
    threads: u64,
    turns: u64,
) -> Result<f64> {
    let turns = turns / threads.max(1);
    let watch = Stopwatch::start(rt);
    let are_done = thread::map_indices(
        rt,
        alloc,
        threads as usize,
        &|_| take_turns(rt, lock, turns),
    )?;
    let seconds = watch.seconds(rt);
    ensure!(!are_done.contains(&false), "a turn isn't taken");
    Ok(seconds)
}

/// Returns the seconds that turns at a value take, under a lock of its own.
pub fn through_a_mutex<T: Turns + Drop + Send, R: Threads + Wait + Clock + Sync>(
    rt: &R,
    alloc: Global,
    value: T,
    threads: u64,
    turns: u64,
) -> Result<f64> {
    let lock = Mutex::new(value);
    let seconds = time(rt, alloc, &lock, threads, turns);
    drop(lock);
    seconds
}
