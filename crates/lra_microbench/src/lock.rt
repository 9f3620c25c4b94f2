//! Handovers a second through the ticket lock, compared with a Mutex around the same value.
ghost use Rattle.std.specs.Prelude.{◌≡◌, All, IfOk};
ghost use Rattle.lra_ticket.specs.Locks.{lock_id, pass_id};

use crate::line::Line;
use crate::mutex::{Turns, through_a_mutex};
use crate::stopwatch::{Stopwatch, a_second};
use anyhow::Result;
use lra_model::{Entry, Memory};
use lra_ticket::{Kept, Pass, TicketLock};
use std::alloc::Global;
use std::io::Print;
use std::marker::Send;
use std::sync::Wait;
use std::thread::{self, Threads};
use std::time::Clock;

/// Handovers of one measurement, by all threads together.
const HANDOVERS: u64 = 1_000_000;

/// Takes the lock and gives it back, this many times. It ends early if no ticket is left.
fn hand_over<V: Kept, R: Wait>(
    rt: &R,
    lock: &TicketLock<V>,
    mut pass: Pass<V>,
    times: u64,
) -> Pass<V>
    requires { pass_id pass ≡ lock_id lock.now }
{
    for _ in 0..times {
        match lock.take(rt, pass) {
            Ok((held, value)) => pass = lock.give(held, value),
            Err((back, _)) => return back,
        }
    }
    pass
}

impl Turns for Vec<Entry> {
    /// Does nothing: the lock is taken and given back.
    fn take_turn(&mut self) -> bool {
        true
    }
}

/// Returns as many passes as there are threads.
fn passes<V: Kept>(
    alloc: Global,
    lock: &TicketLock<V>,
    mut pass: Pass<V>,
    threads: u64,
) -> Result<Vec<Pass<V>>, Memory>
    requires { pass_id pass ≡ lock_id lock.now }
    ensures { IfOk result (λ all. All (λ p. pass_id p ≡ lock_id lock.now) all.items) }
{
    let mut all = Vec::new(alloc);
    for _ in 0..threads {
        let (kept, other) = lock.split(pass);
        pass = kept;
        all.push(other)?;
    }
    drop(pass);
    Ok(all)
}

/// Takes the lock this many times by each pass, in a thread of its own.
fn hand_over_all<V: Kept + Send, R: Threads + Wait + Sync>(
    rt: &R,
    lock: &TicketLock<V>,
    jobs: Vec<Pass<V>>,
    times: u64,
) -> Result<Vec<()>, Memory>
    requires { All (λ p. pass_id p ≡ lock_id lock.now) jobs.items }
{
    thread::map_vec(
        rt,
        jobs,
        &|pass: Pass<V>| -> ()
            requires { pass_id pass ≡ lock_id lock.now }
        {
            let pass = hand_over(rt, lock, pass, times);
            drop(pass);
        },
    )
}

fn time_tickets<V: Kept + Send, R: Threads + Wait + Clock + Sync>(
    rt: &R,
    alloc: Global,
    lock: &TicketLock<V>,
    pass: Pass<V>,
    threads: u64,
) -> Result<f64>
    requires { pass_id pass ≡ lock_id lock.now }
{
    let jobs = passes(alloc, lock, pass, threads)?;
    let watch = Stopwatch::start(rt);
    hand_over_all(rt, lock, jobs, HANDOVERS / threads.max(1))?;
    Ok(watch.seconds(rt))
}

fn through_tickets<R: Threads + Wait + Clock + Sync>(
    rt: &R,
    alloc: Global,
    threads: u64,
) -> Result<f64> {
    let entries: Vec<Entry> = Vec::new(alloc);
    match TicketLock::new(alloc, entries) {
        Ok((lock, pass)) => {
            let time = time_tickets(rt, alloc, &lock, pass, threads);
            drop(lock);
            time
        }
        Err(memory) => Err(memory.into()),
    }
}

/// Prints a line for 1, 2, 4 and 8 threads: handovers a second through the ticket lock, and their ratio to those
/// through the Mutex.
pub fn run<R: Threads + Wait + Clock + Print + Sync>(rt: &R, alloc: Global) -> Result<()> {
    for threads in [1u64, 2, 4, 8] {
        let ours = through_tickets(rt, alloc, threads)?;
        let entries: Vec<Entry> = Vec::new(alloc);
        let theirs = through_a_mutex(rt, alloc, entries, threads, HANDOVERS)?;
        let line = Line {
            what: "tickets",
            size: threads,
            of: "threads",
            figure: a_second(ours, HANDOVERS),
            unit: "handovers a second, to a Mutex",
            ratio: theirs / ours,
        };
        line.print(rt)?;
    }
    Ok(())
}
