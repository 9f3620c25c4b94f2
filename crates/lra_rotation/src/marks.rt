//! Lines about a journal that is nearly full.

ghost use Rattle.std.specs.Prelude.{◌≡◌, IfOk, string_bytes};
ghost use Rattle.lra_rotation.specs.Marks as spec;

use lra_model::Memory;
use std::alloc::Global;

/// Limit that a nearly full journal has come to.
#[derive(Clone, Copy, PartialEq, Eq)]
pub enum Mark {
    /// Silent members are asked seldom, since the journal has few entries left.
    Seldom,
    /// Silent members aren't asked again, and nothing new is begun in the journal, since it has hardly any entries
    /// left.
    Never,
    /// Nothing new is begun in the journal, since it has hardly any bytes left.
    Bytes,
}

/// Returns the text that follows the journal's path in the line.
fn mark_text(mark: Mark) -> &'static str
    ensures { result.now ≡ spec.mark_text mark }
{
    match mark {
        Mark::Seldom => "3/4 of its entries: silent members are asked once in ten minutes",
        Mark::Never => {
            "15/16 of its entries: silent members aren't asked again, and nothing new is begun in it"
        }
        Mark::Bytes => "15/16 of its bytes: nothing new is begun in it",
    }
}

/// Returns the line that reports which limit the journal of a path has come to.
pub fn mark_line(alloc: Global, path: &str, mark: Mark) -> Result<String, Memory>
    ensures { IfOk result (λ line. string_bytes line ≡ spec.mark_line path.now mark) }
{
    let text = mark_text(mark);
    format!(in alloc; "lra: {path} has {text}\n")
}
