//! Asks whose answer nothing waits for.

ghost use Rattle.std.specs.Prelude.{◌≡◌};
ghost use Rattle.lra_outcomes.specs.Telling as spec;

use lra_model::AskKind;

/// Returns whether an ask only notifies a member of how its action ended. Nothing waits for its answer.
pub fn is_telling(kind: AskKind) -> bool
    ensures { result ≡ spec.is_telling kind }
{
    matches!(kind, AskKind::Forget | AskKind::After)
}
