//! Writers that add texts to a page.

ghost use Rattle.std.specs.Prelude.{◌≡◌, [], ◌∷◌, ◌++◌, ◌-◌, ◌≤◌, OnOk, drop, length};
ghost use Rattle.std.specs.Fmt.{decimal};
ghost use Rattle.json.specs.Print.{quoted};
ghost use Rattle.lra_overview.specs.Laying as spec;

use itoa::Buffer;
use lra_model::Memory;
use serde_json::Value;
use std::alloc::Global;

/// Adds a text as it stands.
pub fn put(page: &mut Vec<u8>, text: &str) -> Result<(), Memory>
    ensures { OnOk result (page.new.items ≡ page.old.items ++ text.now) }
{
    page.extend_from_slice(text.as_bytes())
}

/// Adds a number in digits.
pub fn put_number(page: &mut Vec<u8>, number: u64) -> Result<(), Memory>
    ensures { OnOk result (page.new.items ≡ page.old.items ++ decimal number) }
{
    let mut buffer = Buffer::new();
    page.extend_from_slice(buffer.format(number).as_bytes())
}

/// Returns how many seconds, minutes, hours or days so many milliseconds are. Counts in the largest unit of which there
/// are two at least, or else in seconds.
fn span_count(ms: u64) -> u64
    ensures { result ≡ spec.span_count ms }
{
    if ms < 120_000 {
        ms / 1_000
    } else if ms < 7_200_000 {
        ms / 60_000
    } else if ms < 172_800_000 {
        ms / 3_600_000
    } else {
        ms / 86_400_000
    }
}

/// Returns the unit in which so many milliseconds are written.
fn span_unit(ms: u64) -> &'static str
    ensures { result.now ≡ spec.span_unit ms }
{
    if ms < 120_000 {
        " s"
    } else if ms < 7_200_000 {
        " min"
    } else if ms < 172_800_000 {
        " h"
    } else {
        " d"
    }
}

/// Adds a number and its unit.
fn put_counted(page: &mut Vec<u8>, count: u64, unit: &str) -> Result<(), Memory>
    ensures { OnOk result (page.new.items ≡ page.old.items ++ spec.joined (decimal count ∷ unit.now ∷ [])) }
{
    put_number(page, count)?;
    put(page, unit)
}

/// Adds so many milliseconds in words.
#[tactic(auto, unfolding(crate::specs::Laying::span))]
pub(crate) fn put_span(page: &mut Vec<u8>, ms: u64) -> Result<(), Memory>
    ensures { OnOk result (page.new.items ≡ page.old.items ++ spec.span ms) }
{
    put_counted(page, span_count(ms), span_unit(ms))
}

/// Returns how many milliseconds are left until a moment.
pub(crate) fn left_until(due: u64, moment: u64) -> u64
    ensures { result ≡ due - moment }
{
    due.saturating_sub(moment)
}

/// Adds a text as a JSON string.
pub(crate) fn put_json(alloc: Global, page: &mut Vec<u8>, text: &str) -> Result<(), Memory>
    ensures { OnOk result (page.new.items ≡ page.old.items ++ quoted text.now) }
{
    let value = Value::String(String::from_str(alloc, text)?);
    let spelled = value.to_string(alloc)?;
    page.extend_from_slice(spelled.as_bytes())
}

/// Returns whether a number can have an identifier.
pub(crate) fn has_id(number: u64) -> bool
    ensures { result ≡ spec.has_id number }
{
    0 < number && number < 1 << 62
}

/// Returns the rest of a text from a place on.
pub(crate) fn behind(text: &[u8], start: usize) -> &[u8]
    requires { start ≤ length text.now }
    ensures { result.now ≡ drop start text.now }
{
    &text[start..]
}
