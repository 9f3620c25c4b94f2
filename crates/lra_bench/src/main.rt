//! Answers one connection, which is read from standard input, for tools that compare the replies with wanted bytes.
#![tactic(auto)]

mod front;

use std::env;
use std::process::ExitCode;

const USAGE: &str = "usage: lra_bench NAME

front     the replies to one connection: standard input has a journal, an empty line, and the connection's bytes
pieces    the same as front, by a connection as steps: before the journal stands a line with the sizes in \
which the bytes come";

/// Exit status for an unknown name.
const UNKNOWN: u8 = 2;

/// Answers the connection in the way of this name.
fn run(rt: &HostRuntime, name: &str) -> anyhow::Result<ExitCode> {
    match name {
        "front" => front::run(rt, false)?,
        "pieces" => front::run(rt, true)?,
        _ => {
            eprintln!(rt; "{USAGE}")?;
            return Ok(ExitCode::from(UNKNOWN));
        }
    }
    Ok(ExitCode::SUCCESS)
}

/// Reads the name that the program is given, if there is one.
fn given_name(rt: &HostRuntime) -> anyhow::Result<Option<String>> {
    let mut args = env::args(rt)?;
    let _program = args.next();
    let name = args.next();
    drop(args);
    Ok(name)
}

fn main(rt: HostRuntime) -> anyhow::Result<ExitCode> {
    let Some(name) = given_name(&rt)? else {
        println!(rt; "{USAGE}")?;
        return Ok(ExitCode::SUCCESS);
    };
    let ended = run(&rt, name.as_str());
    drop(name);
    ended
}
