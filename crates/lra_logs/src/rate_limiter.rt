//! Rate limiter of the lines.

ghost use Rattle.std.specs.Prelude.{◌≡◌};
ghost use Rattle.lra_logs.specs.Meters as spec;

use std::marker::Model;

/// Largest number of lines a second, beside warnings and errors.
const MOST: u64 = 100;

/// Decision on a line.
#[derive(Clone, Copy, PartialEq, Eq)]
pub enum Verdict {
    /// The line is written.
    Write,
    /// The line is written after one that reports how many weren't.
    WriteAfter { suppressed: u64 },
    /// The line isn't written. It is counted.
    Suppress,
}

/// Rate limiter. It counts the lines of a second beside warnings and errors, and the lines that weren't written.
#[derive(Drop)]
pub struct RateLimiter {
    second: u64,
    written: u64,
    suppressed: u64,
}

impl Model for RateLimiter {
    ghost use Rattle.lra_logs.specs.Meters.{Pace};

    ghost Value = { Pace };

    ghost view = { λ m. record { second = m.second; written = m.written; suppressed = m.suppressed } };
}

/// Returns how much of a second's limit a line uses. A warning or an error uses none.
fn share(is_urgent: bool) -> u64
    ensures { result ≡ spec.share is_urgent }
{
    if is_urgent { 0 } else { 1 }
}

/// Decides on a line once the limit is reached.
fn unless_urgent(is_urgent: bool) -> Verdict
    ensures { result ≡ spec.unless_urgent is_urgent }
{
    if is_urgent {
        Verdict::Write
    } else {
        Verdict::Suppress
    }
}

impl RateLimiter {
    /// Returns a rate limiter before the first line.
    pub fn new() -> RateLimiter
        ensures { result ≡ spec.at_rest }
    {
        RateLimiter {
            second: 0,
            written: 0,
            suppressed: 0,
        }
    }

    /// Begins a new second, if the moment is in a later one.
    fn turn(&mut self, moment: u64)
        ensures { self.new ≡ spec.turned self.old moment }
    {
        let second = moment / 1000;
        if self.second < second {
            self.second = second;
            self.written = 0;
        }
    }

    /// Decides on a line now.
    fn verdict(&self, is_urgent: bool) -> Verdict
        ensures { result ≡ spec.verdict_at self.now is_urgent }
    {
        if self.suppressed == 0 {
            if self.written < MOST {
                Verdict::Write
            } else {
                unless_urgent(is_urgent)
            }
        } else if self.written < MOST - share(is_urgent) {
            Verdict::WriteAfter {
                suppressed: self.suppressed,
            }
        } else {
            unless_urgent(is_urgent)
        }
    }

    /// Decides on a line at a moment, in milliseconds of a clock that doesn't go back. An urgent line, which is a
    /// warning or an error, is always written.
    pub fn admit(&mut self, moment: u64, is_urgent: bool) -> Verdict
        ensures verdict { result ≡ spec.verdict_at (spec.turned self.old moment) is_urgent }
        ensures pace { self.new ≡ spec.after (spec.turned self.old moment) is_urgent result }
    {
        self.turn(moment);
        let verdict = self.verdict(is_urgent);
        match verdict {
            Verdict::Write => self.written = self.written.saturating_add(share(is_urgent)),
            Verdict::WriteAfter { .. } => {
                self.written += share(is_urgent) + 1;
                self.suppressed = 0;
            }
            Verdict::Suppress => self.suppressed = self.suppressed.saturating_add(1),
        }
        verdict
    }

    /// Returns how many lines weren't written and weren't reported, and forgets them. The caller reports them now.
    pub fn settle(&mut self) -> u64
        ensures all { result ≡ self.old.suppressed }
        ensures none { self.new ≡ record self.old { suppressed = 0 } }
    {
        let suppressed = self.suppressed;
        self.suppressed = 0;
        suppressed
    }

    /// Counts so many more lines as not written.
    pub fn owe(&mut self, lines: u64)
        ensures { self.new ≡ spec.owing self.old lines }
    {
        self.suppressed = self.suppressed.saturating_add(lines);
    }
}
