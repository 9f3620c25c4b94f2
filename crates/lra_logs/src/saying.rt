//! Lines that a service prints anyway, in the form that a log has them.

ghost use Rattle.std.specs.Prelude.{◌≡◌, codes};
ghost use Rattle.lra_logs.specs.inner.Sayings as spec;

/// Returns a text without the line feed at its end, if it has one.
fn unended(text: &str) -> &str
    ensures { spec.HasLostEnd (codes "\n") text.now result.now }
{
    match text.strip_suffix("\n") {
        Some(bare) => bare,
        None => text,
    }
}

/// Returns a text without the program's name at its front, if it has it.
fn unnamed(text: &str) -> &str
    ensures { spec.HasLostFront (codes "lra: ") text.now result.now }
{
    match text.strip_prefix("lra: ") {
        Some(bare) => bare,
        None => text,
    }
}

/// Returns the message of a line, without the program's name and the line feed.
pub(crate) fn said(line: &str) -> &str
    ensures { spec.Says line.now result.now }
{
    unnamed(unended(line))
}
