//! Callback pools, which carry many errands at once.

ghost use Rattle.std.specs.Prelude.{◌≡◌, ℕ, Option, true, OnOk, IfErr, IfSome, IfNone};
ghost use Rattle.lra_model.specs.declared.asks.AskKind.{AskKind};
ghost use Rattle.lra_model.specs.declared.asks.Outcome.{Outcome};
ghost use Rattle.lra_model.specs.declared.asks.Outcome.TheVariants.{Silent};
ghost use Rattle.lra_model.specs.Words.{outcome_suits};
ghost use Rattle.lra_courier.specs.CallbackPools.{Handed, Gains, AreSame};

use lra_core::Errand;
use lra_model::Outcome;

/// Callback pool: it carries many errands to members at once. Errands that are under way when it is dropped are
/// discarded. Their asks stay outstanding until a restart.
pub trait CallbackPool {
    // The errands that are under way, each in a slot of its own, and their positions.
    ghost held: { Self → ℕ → Option Handed };

    // The outcomes that an ask of this number and kind may have.
    ghost gives: { ℕ → AskKind → Outcome → Type 0 };

    /// Returns whether one more errand is accepted, unless memory is refused.
    fn has_room(&self) -> bool;

    /// Accepts an errand. Its request is sent once its journal is durable up to `position`. Where memory is refused,
    /// returns the errand.
    fn take(&mut self, errand: Errand, position: u64) -> Result<(), Errand>
        ensures ok { OnOk result (Gains (held self.old) (held self.new) (errand, position)) }
        ensures err { IfErr result (λ back. (back ≡ errand) × AreSame (held self.old) (held self.new)) };

    /// Advances the errands that can be advanced, and waits for a while where none can be. `next` is the moment, in
    /// milliseconds of the office's clock, from which on something will be due at the office. It waits no longer than
    /// until then, or as long as suits it where there is none. A moment that has passed means that something is due
    /// already, of which no errand was taken.
    fn carry(&mut self, next: Option<u64>)
        ensures { AreSame (held self.old) (held self.new) };

    /// Removes and returns an errand that has an outcome, and the outcome, if there is one.
    fn done(&mut self) -> Option<(Errand, Outcome)>
        ensures some { IfSome result (λ came. (position : ℕ) × Gains (held self.new) (held self.old) (came.0, position)
            × gives came.0.ask came.0.kind came.1) }
        ensures none { IfNone result (AreSame (held self.old) (held self.new)) };

    // Every outcome suits the ask's kind.
    ghost suits: { (ask : ℕ) (kind : AskKind) (outcome : Outcome) → gives ask kind outcome → outcome_suits kind outcome
        ≡ true };

    // Every ask may have the outcome `Silent`.
    ghost silent: { (ask : ℕ) (kind : AskKind) → gives ask kind Silent };
}
