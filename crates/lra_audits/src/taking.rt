//! The taker of an input, which comes piece by piece.

ghost use Rattle.std.specs.Prelude.{◌≡◌, ◌+◌, ◌<◌, ◌^◌, ◌++◌, length, OnOk, IfErr};

use crate::fault::RunFault;
use lra_auditor::Auditor;

/// A taker of an input, piece by piece.
pub trait Taker {
    ghost use Rattle.std.specs.Prelude.{◌≡◌, ◌+◌, ◌<◌, ◌^◌, ◌++◌, ℕ, List, [], length, OnOk, IfErr};
    ghost use Rattle.lra_audits.specs.declared.fault.RunFault.{RunFault};
    ghost use Rattle.lra_audits.specs.Faults.{IsOfOutput};

    // It took these bytes between a state before and one after.
    ghost took: { Self → Self → List ℕ → Type 0 };

    // The number of bytes that it has.
    ghost count: { Self → ℕ };

    // The names of what it borrows, which stay.
    ghost lent: { Self → List ℕ } = { λ _. [] };

    // The faults with which it may refuse a piece.
    ghost fails: { RunFault → Type 0 };

    /// Takes one more piece.
    fn accept(&mut self, piece: &[u8]) -> Result<(), RunFault>
        requires { count self.old + length piece.now < 2 ^ 63 }
        ensures took { (first : Self) (bytes : List ℕ) → took first self.old bytes
            → OnOk result (took first self.new (bytes ++ piece.now)) }
        ensures counted { OnOk result (count self.new ≡ count self.old + length piece.now) }
        ensures lent { lent self.new ≡ lent self.old }
        ensures fault { IfErr result fails }
        ensures output { IfErr result IsOfOutput };

    ghost begins: { (first : Self) → took first first [] };
}

/// An auditor is fed each piece.
impl Taker for Auditor {
    ghost use Rattle.std.specs.Prelude.{◌≡◌};
    ghost use Rattle.lra_audits.specs.declared.fault.RunFault.TheVariants.{Memory};
    ghost use Rattle.lra_audits.specs.inner.Fed.{IsFedOn};
    ghost use Rattle.std.proofs.Common.{rules};

    ghost took = { IsFedOn };

    ghost count = { λ a. a.fed };

    ghost fails = { λ fault. fault ≡ Memory };

    ghost begins = { Prim.search rules };

    fn accept(&mut self, piece: &[u8]) -> Result<(), RunFault> {
        self.feed(piece)?;
        Ok(())
    }
}
