//! Lines that say what the listed actions wait for.

ghost use Rattle.std.specs.Prelude.{◌≡◌, ◌++◌, IfOk, OnOk, map, string_bytes};
ghost use Rattle.std.specs.List.{flat_map};
ghost use Rattle.lra_model.specs.History.{History};
ghost use Rattle.lra_timelines.specs.Lines as lines;
ghost use Rattle.lra_timelines.specs.inner.Called.{Called};

use crate::calls::Calls;
use crate::waits::{Known, notes_of};
use lra_model::Memory;
use std::alloc::Global;

/// Returns a note after a prefix and two spaces. Returns an empty text if the note is empty.
fn indented(alloc: Global, prefix: &str, note: &str) -> Result<String, Memory>
    ensures { IfOk result (λ text. string_bytes text ≡ lines.indented prefix.now note.now) }
{
    if note.is_empty() {
        return Ok(String::new(alloc));
    }
    format!(in alloc; "{prefix}  {note}")
}

/// Returns notes, each after a prefix and two spaces.
fn indented_all(alloc: Global, prefix: &str, notes: &[String]) -> Result<String, Memory>
    ensures { IfOk result (λ text.
        string_bytes text ≡ flat_map (lines.indented prefix.now) (map string_bytes notes.now)) }
{
    let mut text = String::new(alloc);
    for place in 0..notes.len() {
        let line = indented(alloc, prefix, notes[place].as_str())?;
        text.push_str(&line)?;
    }
    Ok(text)
}

/// Returns the lines that say what an action of a journal waits for, each indented after a prefix. Returns an empty
/// text if the action doesn't exist.
pub(crate) fn waits_text(
    alloc: Global,
    calls: &Calls,
    action: u64,
    prefix: &str,
) -> Result<String, Memory>
    ensures { (J : History) → Called calls.now J
        → IfOk result (λ text. string_bytes text ≡ lines.waits_text prefix.now J action) }
{
    let Some(row) = calls.rows.action(action) else {
        return Ok(String::new(alloc));
    };
    let known = Known {
        rows: &calls.rows,
        told: calls.told_of(action),
    };
    let notes = notes_of(alloc, known, action, &row)?;
    indented_all(alloc, prefix, &notes)
}
