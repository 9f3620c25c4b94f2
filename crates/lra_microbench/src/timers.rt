//! The time per call of an agenda, for moments in random and in rising order, at several numbers of pairs.

use crate::line::Line;
use crate::stopwatch::{Stopwatch, nanoseconds_each};
use anyhow::Result;
use lra_timers::{Agenda, Memory};

const SIZES: [u64; 3] = [1_000, 20_000, 400_000];

/// Number of turns that are timed together.
const TURNS: u64 = 100_000;

/// Calls of a turn: the first twice, a replacement, a drop and a set.
const CALLS: u64 = 5;

/// Number of runs. The shortest counts, since other work of the machine only makes a run longer.
const RUNS: u64 = 50;

#[derive(Clone, Copy)]
enum Order {
    Random,
    Rising,
}

impl Order {
    fn name(self) -> &'static str {
        match self {
            Order::Random => "random moments",
            Order::Rising => "rising moments",
        }
    }

    fn moment(self, turn: u64) -> u64 {
        match self {
            Order::Random => scrambled(turn),
            Order::Rising => turn,
        }
    }
}

/// Returns another number for each n, in no order that the agenda could use.
fn scrambled(n: u64) -> u64 {
    let n = n.wrapping_mul(0x9E37_79B9_7F4A_7C15);
    (n ^ (n >> 29)).wrapping_mul(0xBF58_476D_1CE4_E5B9)
}

/// Returns the first member if moments rise, or else any of `size` members.
fn next_member(agenda: &Agenda, order: Order, size: u64, turn: u64) -> u64 {
    match (order, agenda.next_retry(u64::MAX)) {
        (Order::Rising, Some(first)) => first,
        _ => scrambled(scrambled(turn) % size.max(1)),
    }
}

/// Sets a member's retry again, and replaces another member by a new one.
fn take_turn(agenda: &mut Agenda, order: Order, size: u64, turn: u64) -> Result<(), Memory> {
    let moment = order.moment(turn);
    let waiting = next_member(agenda, order, size, turn);
    agenda.set_retry(waiting, moment)?;
    let done = next_member(agenda, order, size, !turn);
    agenda.drop_retry(done);
    agenda.set_retry(done, moment)
}

/// Returns the seconds that turns take, from the turn `first` on.
fn time_turns(
    rt: &HostRuntime,
    agenda: &mut Agenda,
    order: Order,
    size: u64,
    first: u64,
) -> Result<f64> {
    let watch = Stopwatch::start(rt);
    for turn in first..first.saturating_add(TURNS) {
        take_turn(agenda, order, size, turn)?;
    }
    Ok(watch.seconds(rt))
}

/// Sets this many pairs in an empty agenda, and returns the seconds of its shortest run.
fn shortest(rt: &HostRuntime, agenda: &mut Agenda, order: Order, size: u64) -> Result<f64> {
    for n in 0..size {
        agenda.set_retry(scrambled(n), order.moment(n))?;
    }
    let mut least = f64::MAX;
    for run in 0..RUNS {
        let first = size.wrapping_add(run * TURNS);
        least = least.min(time_turns(rt, agenda, order, size, first)?);
    }
    Ok(least)
}

/// Returns the nanoseconds per call of a new agenda.
fn time_anew(rt: &HostRuntime, order: Order, size: u64) -> Result<f64> {
    let mut agenda = Agenda::new(rt.alloc());
    let seconds = shortest(rt, &mut agenda, order, size);
    drop(agenda);
    Ok(nanoseconds_each(seconds?, TURNS * CALLS))
}

/// Prints a line for each size.
fn print_order(rt: &HostRuntime, order: Order) -> Result<()> {
    let mut least = None;
    for size in SIZES {
        let time = time_anew(rt, order, size)?;
        let line = Line {
            what: order.name(),
            size,
            of: "pairs",
            figure: time,
            unit: "ns a call",
            ratio: time / *least.get_or_insert(time),
        };
        line.print(rt)?;
    }
    Ok(())
}

/// Prints a line for each order and size.
pub fn run(rt: &HostRuntime) -> Result<()> {
    print_order(rt, Order::Random)?;
    print_order(rt, Order::Rising)
}
