//! Requests parsed a second, whole and in small pieces.
//!
//! Times don't hold from machine to machine, so what counts are ratios taken in one run: the time of a stream in pieces
//! of each size to that in large pieces, and that of long heads that come byte by byte to that of as many bytes in
//! short ones.
use crate::line::Line;
use crate::pieces::Pieces;
use crate::stopwatch::{Stopwatch, a_second};
use anyhow::Result;
use lra_wire::{Inbox, read_request};
use std::alloc::Global;

/// Number of requests of a stream.
const REQUESTS: u64 = 10_000;

/// Number of runs. The shortest counts, since other work of the machine only makes a run longer.
const RUNS: u32 = 5;

/// Length of a field's value that makes a request 16 times as long as a value of 350 bytes does.
const LONG: usize = 7460;

/// Returns a stream of `count` requests, each with a field whose value has this length.
fn stream(alloc: Global, count: u64, len: usize) -> Result<Vec<u8>> {
    let mut bytes = Vec::new(alloc);
    for _ in 0..count {
        bytes.extend_from_slice(
            b"PUT /lra-coordinator/00000000-0000-8007-8000-000000000001/close HTTP/1.1\r\nHost: 127.0.0.1:8080\r\nX: ",
        )?;
        bytes.resize(bytes.len().saturating_add(len), b'x')?;
        bytes.extend_from_slice(b"\r\nContent-Length: 2\r\n\r\n{}")?;
    }
    Ok(bytes)
}

fn read_to_end(alloc: Global, inbox: &mut Inbox<Pieces<'_>>) -> Result<()> {
    for _ in 0..u64::MAX {
        let request = read_request(alloc, inbox)?;
        let is_end = request.is_none();
        drop(request);
        if is_end {
            break;
        }
    }
    Ok(())
}

/// Reads all requests of a stream that comes in pieces of this size.
pub fn read_stream(alloc: Global, bytes: &[u8], size: usize) -> Result<()> {
    let mut inbox = Inbox::new(alloc, Pieces { rest: bytes, size })?;
    let read = read_to_end(alloc, &mut inbox);
    drop(inbox);
    read
}

/// Returns the seconds to read all requests of the bytes, the least of some runs.
fn time(rt: &HostRuntime, bytes: &[u8], size: usize) -> Result<f64> {
    let mut least = f64::MAX;
    for _ in 0..RUNS {
        let watch = Stopwatch::start(rt);
        read_stream(rt.alloc(), bytes, size)?;
        least = least.min(watch.seconds(rt));
    }
    Ok(least)
}

/// Prints a line for each size of the pieces.
fn print_pieces(rt: &HostRuntime, bytes: &[u8]) -> Result<()> {
    let whole = time(rt, bytes, 4096)?;
    for size in [4096, 1024, 256, 64, 16, 4, 1] {
        let seconds = time(rt, bytes, size)?;
        let line = Line {
            what: "in pieces",
            size: size as u64,
            of: "bytes",
            figure: a_second(seconds, REQUESTS),
            unit: "requests a second, time",
            ratio: seconds / whole,
        };
        line.print(rt)?;
    }
    Ok(())
}

/// Returns the seconds to read a stream byte by byte: `count` requests, each with a field whose value has this length.
fn time_bytes(rt: &HostRuntime, count: u64, len: usize) -> Result<f64> {
    let bytes = stream(rt.alloc(), count, len)?;
    let seconds = time(rt, bytes.as_slice(), 1);
    drop(bytes);
    seconds
}

/// Prints a line for long heads beside short ones, with as many bytes in all: some 7,500 bytes each, and some 470.
fn print_heads(rt: &HostRuntime) -> Result<()> {
    let long = time_bytes(rt, 100, LONG)?;
    let short = time_bytes(rt, 1600, 350)?;
    let line = Line {
        what: "byte by byte, long heads",
        size: 100,
        of: "heads",
        figure: a_second(long, 100),
        unit: "requests a second, time",
        ratio: long / short,
    };
    line.print(rt)
}

/// Prints the ratios.
pub fn run(rt: &HostRuntime) -> Result<()> {
    let bytes = stream(rt.alloc(), REQUESTS, 300)?;
    let printed = print_pieces(rt, bytes.as_slice());
    drop(bytes);
    printed?;
    print_heads(rt)
}
