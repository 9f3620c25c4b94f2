//! The sources of the inputs of runs.

use lra_audits::RunFault;
use std::io::Read;

/// Standard input, and files by their names.
pub trait Sources {
    ghost use Rattle.std.specs.Prelude.{◌≡◌, List, ℕ, Option, None, Some, IfOk, IfErr, IfSome};

    type Input: Read + Drop;

    type File: Read + Drop;

    // The bytes of standard input, where they are known.
    ghost standard: { Self → Option (List ℕ) } = { λ _. None };

    // The bytes of the file of a name, where they are known.
    ghost named: { Self → List ℕ → Option (List ℕ) } = { λ _ _. None };

    /// Returns a reader of standard input.
    fn input(&self) -> Self::Input
        ensures bytes { IfSome (standard self.now) (λ all. Self.Input.remaining result ≡ Some all) };

    /// Opens the file of this name.
    fn open(&self, name: &str) -> Result<Self::File, RunFault>
        ensures bytes { IfOk result (λ file. IfSome (named self.now name.now)
            (λ all. Self.File.remaining file ≡ Some all)) }
        ensures err { IfErr result (λ fault. fault ≡ RunFault.Read) };

    /// Opens the file of this name once more, to be read a second time. Returns none where that can't be, as with a
    /// pipe.
    fn open_again(&self, name: &str) -> Option<Self::File>
        ensures bytes { IfSome result (λ file. IfSome (named self.now name.now)
            (λ all. Self.File.remaining file ≡ Some all)) };
}
