//! Texts of moments and durations.

ghost use Rattle.std.specs.Prelude.{◌≡◌, ◌<◌, ◌≤◌, ◌^◌, IfOk, string_bytes};
ghost use Rattle.lra_timelines.specs.Times as times;

use lra_model::Memory;
use std::alloc::Global;

/// Number of milliseconds of a day.
const DAY: u64 = 86_400_000;

/// Number of milliseconds from 1970 to the year 10000.
const YEARS: u64 = 253_402_300_800_000;

/// Date of the Gregorian calendar.
#[derive(Clone, Copy)]
pub(crate) struct Date {
    year: u64,
    month: u64,
    day: u64,
}

/// Returns the year of a day in a cycle of 400 years that each begin with March. Both count from 0.
fn year_of(day: u64) -> u64
    requires { day < 146097 }
    ensures value { result ≡ times.year_of day }
    ensures small { result ≤ 400 }
{
    let leap = (day + day / 36_524).saturating_sub(day / 1_460 + day / 146_096);
    leap / 365
}

/// Returns the position of a day of such a cycle within its year, counted from 0.
fn day_of_year(day: u64) -> u64
    requires { day < 146097 }
    ensures value { result ≡ times.day_of_year day }
    ensures small { result < 146097 }
{
    let year = year_of(day);
    (day + year / 100).saturating_sub(365 * year + year / 4)
}

/// Returns the date of a day, counted from 0 at the beginning of 1970.
fn date_of(days: u64) -> Date
    requires { days < 2932897 }
    ensures { result ≡ times.date_of days }
{
    let from_march = days + 719_468;
    let in_cycle = from_march % 146_097;
    let of_year = day_of_year(in_cycle);
    let march = (5 * of_year + 2) / 153;
    let day = (of_year + 1).saturating_sub((153 * march + 2) / 5);
    let year = year_of(in_cycle) + from_march / 146_097 * 400;
    if march < 10 {
        Date {
            year,
            month: march + 3,
            day,
        }
    } else {
        Date {
            year: year + 1,
            month: march - 9,
            day,
        }
    }
}

/// Formats a date as `2026-11-26`.
fn date_text(alloc: Global, date: Date) -> Result<String, Memory>
    ensures { IfOk result (λ text. string_bytes text ≡ times.date_text date) }
{
    let year = date.year;
    let (months, month) = (date.month / 10, date.month % 10);
    let (days, day) = (date.day / 10, date.day % 10);
    format!(in alloc; "{year}-{months}{month}-{days}{day}")
}

/// Formats a minute of a day as `22:15`.
fn minute_text(alloc: Global, minute: u64) -> Result<String, Memory>
    ensures { IfOk result (λ text. string_bytes text ≡ times.minute_text minute) }
{
    let (tens, hour) = (minute / 600, minute / 60 % 10);
    let (minutes, minute) = (minute / 10 % 6, minute % 10);
    format!(in alloc; "{tens}{hour}:{minutes}{minute}")
}

/// Formats a millisecond of a minute as seconds with three places: `01.250`.
fn second_text(alloc: Global, milliseconds: u64) -> Result<String, Memory>
    ensures { IfOk result (λ text. string_bytes text ≡ times.second_text milliseconds) }
{
    let (seconds, second) = (milliseconds / 10_000, milliseconds / 1_000 % 10);
    let (tenths, hundredths, thousandths) = (
        milliseconds / 100 % 10,
        milliseconds / 10 % 10,
        milliseconds % 10,
    );
    format!(in alloc; "{seconds}{second}.{tenths}{hundredths}{thousandths}")
}

/// Formats a moment before the year 10000 by RFC 3339.
fn full_text(alloc: Global, moment: u64) -> Result<String, Memory>
    requires { moment < 253402300800000 }
    ensures { IfOk result (λ text. string_bytes text ≡ times.full_text moment) }
{
    let date = date_text(alloc, date_of(moment / DAY))?;
    let minute = minute_text(alloc, moment % DAY / 60_000)?;
    let second = second_text(alloc, moment % 60_000)?;
    format!(in alloc; "{date}T{minute}:{second}Z")
}

/// Formats a moment by RFC 3339, or from the year 10000 on as its number of milliseconds.
pub(crate) fn moment_text(alloc: Global, moment: u64) -> Result<String, Memory>
    ensures { IfOk result (λ text. string_bytes text ≡ times.moment_text moment) }
{
    if moment < YEARS {
        full_text(alloc, moment)
    } else {
        format!(in alloc; "moment {moment}")
    }
}

/// Formats a number of milliseconds as seconds with three places.
pub(crate) fn seconds_text(alloc: Global, milliseconds: u64) -> Result<String, Memory>
    ensures { IfOk result (λ text. string_bytes text ≡ times.seconds_text milliseconds) }
{
    let seconds = milliseconds / 1_000;
    let (tenths, hundredths, thousandths) = (
        milliseconds / 100 % 10,
        milliseconds / 10 % 10,
        milliseconds % 10,
    );
    format!(in alloc; "{seconds}.{tenths}{hundredths}{thousandths}")
}

/// Formats a number of milliseconds as seconds with three places and the unit.
pub(crate) fn length_text(alloc: Global, milliseconds: u64) -> Result<String, Memory>
    ensures { IfOk result (λ text. string_bytes text ≡ times.length_text milliseconds) }
{
    let seconds = seconds_text(alloc, milliseconds)?;
    format!(in alloc; "{seconds} s")
}
