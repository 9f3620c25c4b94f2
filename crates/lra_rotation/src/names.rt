//! Names of journals.

ghost use Rattle.std.specs.Prelude.{◌≡◌, ◌<◌, ◌^◌, ℕ, Some, IfOk, IfSome, string_bytes};
ghost use Rattle.lra_rotation.specs.Names as spec;

use lra_model::{Instance, Memory};
use std::alloc::Global;

/// Returns the name of an instance's journal.
#[tactic(auto, using(crate::proofs::Hex::written))]
pub fn name_of(alloc: Global, instance: Instance) -> Result<String, Memory>
    ensures { IfOk result (λ name. string_bytes name ≡ spec.name_of instance) }
{
    let number = instance.number();
    format!(in alloc; "{number:015x}.journal")
}

/// Returns the name that an instance's journal has until it is in use.
#[tactic(auto, using(crate::proofs::Hex::written))]
pub fn next_name_of(alloc: Global, instance: Instance) -> Result<String, Memory>
    ensures { IfOk result (λ name. string_bytes name ≡ spec.next_name_of instance) }
{
    let number = instance.number();
    format!(in alloc; "{number:015x}.next")
}

/// Returns the instance that a text of digits may spell, if there is one.
#[tactic(auto, using(crate::proofs::Hex::read_back))]
fn instance_spelled(stem: &str) -> Option<Instance>
    ensures { (i : ℕ) → i < 2 ^ 60 → stem.now ≡ spec.stem i → result ≡ Some i }
{
    Instance::new(u64::from_str_radix(stem, 16).ok()?)
}

/// Returns the instance of a journal's name, or `None` if the text is no such name.
pub fn instance_named(alloc: Global, name: &str) -> Result<Option<Instance>, Memory>
    ensures some { IfOk result (λ found. IfSome found (λ i. name.now ≡ spec.name_of i)) }
    ensures all { (i : ℕ) → i < 2 ^ 60 → name.now ≡ spec.name_of i → IfOk result (λ found. found ≡ Some i) }
{
    let Some(stem) = name.strip_suffix(".journal") else {
        return Ok(None);
    };
    let Some(instance) = instance_spelled(stem) else {
        return Ok(None);
    };
    let own = name_of(alloc, instance)?;
    if own.as_str() == name {
        Ok(Some(instance))
    } else {
        Ok(None)
    }
}
