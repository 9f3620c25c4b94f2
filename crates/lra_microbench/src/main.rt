//! Measures calls whose times no program reports. Each benchmark prints ratios of times that it took in one run, since
//! times themselves don't hold from machine to machine.
#![tactic(auto)]

mod ids;
mod line;
mod lock;
mod mutex;
mod pieces;
mod stopwatch;
mod timers;
mod wire;

use std::env;
use std::process::ExitCode;

const USAGE: &str = "usage: lra_microbench NAME

ids       address texts tested a second, short and long
lock      handovers of the ticket lock, beside a Mutex
timers    the calls of an agenda, as its pairs grow from 1,000 to 400,000
wire      requests read a second, whole and in small pieces";

/// Exit status for an unknown benchmark.
const UNKNOWN: u8 = 2;

/// Runs the benchmark of that name, if it needs no threads.
fn run(rt: &HostRuntime, name: &str) -> anyhow::Result<ExitCode> {
    match name {
        "ids" => ids::run(rt)?,
        "timers" => timers::run(rt)?,
        "wire" => wire::run(rt)?,
        _ => {
            eprintln!(rt; "{USAGE}")?;
            return Ok(ExitCode::from(UNKNOWN));
        }
    }
    Ok(ExitCode::SUCCESS)
}

/// Reads the name that the program is given, if there is one.
fn given_name(rt: &HostRuntime) -> anyhow::Result<Option<String>> {
    let mut args = env::args(rt)?;
    let _program = args.next();
    let name = args.next();
    drop(args);
    Ok(name)
}

fn main(rt: HostRuntime) -> anyhow::Result<ExitCode> {
    let Some(name) = given_name(&rt)? else {
        println!(rt; "{USAGE}")?;
        return Ok(ExitCode::SUCCESS);
    };
    // Only here may the runtime start threads.
    let ended = match name.as_str() {
        "lock" => lock::run(&rt, rt.alloc()).map(|_| ExitCode::SUCCESS),
        name => run(&rt, name),
    };
    drop(name);
    ended
}
