//! Couriers, which carry errands to members.

ghost use Rattle.std.specs.Prelude.{ℕ, ◌≡◌, true};
ghost use Rattle.lra_model.specs.declared.asks.AskKind.{AskKind};
ghost use Rattle.lra_model.specs.declared.asks.Outcome.{Outcome};
ghost use Rattle.lra_model.specs.Words.{outcome_suits};

use lra_core::Errand;
use lra_model::Outcome;

/// Courier, which carries errands to members.
pub trait Courier {
    // The outcomes that it may return for an ask of this number and kind.
    ghost gives: { ℕ → AskKind → Outcome → Type 0 };

    /// Carries an errand to its member, and returns the outcome. Where the callback failed, that is
    /// [`Outcome::Silent`].
    fn carry(&mut self, errand: &Errand) -> Outcome
        ensures { gives errand.now.ask errand.now.kind result };

    // Every outcome suits the ask's kind.
    ghost suits: { (ask : ℕ) (kind : AskKind) (outcome : Outcome) → gives ask kind outcome → outcome_suits kind outcome
        ≡ true };
}
