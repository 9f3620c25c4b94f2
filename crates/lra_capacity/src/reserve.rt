//! The reserve of journals, which reports which of them are near their end.

ghost use Rattle.std.specs.Prelude.{◌≡◌, IfSome, IsFalse};

use lra_model::Instance;

/// Reserve of journals: it reports which of them are near their end.
pub trait CapacitySource {
    ghost use Rattle.std.specs.Prelude.{ℕ, Option, None};

    // What it may report of a request that names an instance, or none: the journal near its end that would accept it,
    // if one does.
    ghost tells: { Option ℕ → Option ℕ → Type 0 };

    /// Returns whether any journal may be near its end. A filter calls this for each request, so it takes no time.
    fn has_any(&self) -> bool
        ensures { IsFalse result → (named : Option ℕ) → tells named None };

    /// Returns the journal that accepts a request which names this instance, or no instance, if that journal is near
    /// its end.
    fn near_end(&self, named: Option<Instance>) -> Option<Instance>
        ensures tells { tells named result }
        ensures own { IfSome named (λ i. IfSome result (λ j. j ≡ i)) };
}
