//! Moments in UTC, in the format of RFC 3339.

ghost use Rattle.std.specs.Prelude.{◌≡◌, ◌++◌, codes, IfOk, string_bytes};
ghost use Rattle.lra_logs.specs.Times as spec;

use jiff_core::civil::Date;
use lra_model::Memory;
use std::alloc::Global;

/// Number of milliseconds of a day.
const DAY: u64 = 86_400_000;

/// Returns a date's text.
#[tactic(auto, using(crate::proofs::Digits::wide_written))]
fn date_text(alloc: Global, date: Date) -> Result<String, Memory>
    ensures { IfOk result (λ text. string_bytes text ≡ spec.date_text date) }
{
    let Date { year, month, day } = date;
    let year = year.unsigned_abs();
    format!(in alloc; "{year:04}-{month:02}-{day:02}")
}

/// Returns the text of a moment's time of the day.
#[tactic(auto, using(crate::proofs::Digits::wide_written))]
fn clock_text(alloc: Global, moment: u64) -> Result<String, Memory>
    ensures { IfOk result (λ text. string_bytes text ≡ spec.clock_text moment) }
{
    let (hour, minute) = (moment / 3_600_000 % 24, moment / 60_000 % 60);
    let (second, rest) = (moment / 1000 % 60, moment % 1000);
    format!(in alloc; "{hour:02}:{minute:02}:{second:02}.{rest:03}")
}

/// Returns the text of a moment and its date.
fn spelled(alloc: Global, date: Date, moment: u64) -> Result<String, Memory>
    ensures { IfOk result (λ text. string_bytes text ≡ spec.date_text date
        ++ (codes "T" ++ (spec.clock_text moment ++ codes "Z"))) }
{
    let date = date_text(alloc, date)?;
    let clock = clock_text(alloc, moment)?;
    format!(in alloc; "{date}T{clock}Z")
}

/// Returns the text of a moment, in milliseconds since 1970.
pub fn time_text(alloc: Global, moment: u64) -> Result<String, Memory>
    ensures { IfOk result (λ text. spec.IsTime moment (string_bytes text)) }
{
    match Date::from_unix_epoch_day((moment / DAY) as i64) {
        Ok(date) => spelled(alloc, date, moment),
        Err(_) => format!(in alloc; "{moment}"),
    }
}
