//! The journal that the words of a command line ask to audit.

ghost use Rattle.std.specs.Prelude.{◌≡◌, ◌≢◌, ◌∷◌, [], ℕ, List, IfOk, IfErr, IfSome, IfNone, codes};
ghost use Rattle.lra_words.specs.Asked.{texts};

use thiserror::Error;

/// The fault of words that ask for no audit.
#[derive(Clone, Copy, Debug, PartialEq, Eq, Error)]
#[error("the words ask for nothing")]
pub struct Usage;

/// Returns the file that these words ask to audit, or None for standard input. The program's own name isn't among them.
pub fn read_audit(words: &[String]) -> Result<Option<&str>, Usage>
    ensures input { IfOk result (λ file. IfNone file (texts words.now ≡ [])) }
    ensures file { IfOk result (λ file. IfSome file (λ name. texts words.now ≡ codes "audit" ∷ name.now ∷ [])) }
    ensures usage { IfErr result (λ _. texts words.now ≢ []) }
    ensures other { IfErr result (λ _. (name : List ℕ) → texts words.now ≢ codes "audit" ∷ name ∷ []) }
{
    match words {
        [] => Ok(None),
        [verb, file] if verb.as_str() == "audit" => Ok(Some(file.as_str())),
        _ => Err(Usage),
    }
}
