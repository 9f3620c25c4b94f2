//! The number of address texts that `is_address_text` tests a second, for short texts and for texts of 512 bytes.

use crate::line::Line;
use crate::stopwatch::{Stopwatch, a_second};
use anyhow::Result;
use lra_ids::is_address_text;

const TURNS: u64 = 200_000;

/// Most bytes of an address.
const LONGEST: usize = 512;

const SHORT: &[u8] = b"http://p.test/u";

const USUAL: &[u8] = b"http://participant-1.example.test:8080/lra/complete?id=17";

/// Text whose address is `http://p.test/a%20b`.
const OTHER: &[u8] = b"HTTP://P.test:80/a b";

/// Tests a text many times, and returns the seconds that this took.
fn time(rt: &HostRuntime, text: &[u8]) -> Result<f64> {
    let watch = Stopwatch::start(rt);
    for _ in 0..TURNS {
        is_address_text(rt.alloc(), text)?;
    }
    Ok(watch.seconds(rt))
}

/// Prints a line for a text, with the ratio of its time to that of the short one.
fn print_text(rt: &HostRuntime, what: &str, text: &[u8], short: f64) -> Result<()> {
    let seconds = time(rt, text)?;
    let line = Line {
        what,
        size: text.len() as u64,
        of: "bytes",
        figure: a_second(seconds, TURNS),
        unit: "addresses a second",
        ratio: seconds / short,
    };
    line.print(rt)
}

/// Prints a line for a text of the greatest length.
fn print_longest(rt: &HostRuntime, short: f64) -> Result<()> {
    let mut text = Vec::new(rt.alloc());
    text.extend_from_slice(b"http://p.test/")?;
    text.resize(LONGEST, b'a')?;
    let printed = print_text(rt, "longest", text.as_slice(), short);
    drop(text);
    printed
}

/// Prints a line for each kind of text.
pub fn run(rt: &HostRuntime) -> Result<()> {
    let short = time(rt, SHORT)?;
    print_text(rt, "short", SHORT, short)?;
    print_text(rt, "usual", USUAL, short)?;
    print_text(rt, "of another form", OTHER, short)?;
    print_longest(rt, short)
}
