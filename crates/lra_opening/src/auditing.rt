//! Audit of the journal that was found.

ghost use Rattle.std.specs.Prelude.{◌≡◌, ◌⊎◌, ℕ, List, [], Option, None, IfSome, IfOk, IfErr};
ghost use Rattle.lra_core.specs.Fed.{IsFed};
ghost use Rattle.lra_office.specs.Wholes.{whole_lines};
ghost use Rattle.lra_opening.specs.Ends.{IsFoundSound, IsSaid, IsRefused};
ghost use Rattle.lra_opening.specs.Faults.{IsOfRun};
ghost use Rattle.lra_opening.specs.Places.{IsRead};

use crate::fault::ServeFault;
use crate::feeding::is_new;
use lra_audits::report_fault;
use lra_core::Opening;
use std::alloc::Global;
use std::io::Write;

/// Audits the journal that was found. Returns `None` if it can be served, and writes nothing then. Otherwise returns
/// the fault, or writes the audit as `lra audit` does and returns the program's status.
pub fn refuse<W: Write>(
    alloc: Global,
    opening: &Opening,
    writer: &mut W,
) -> Option<Result<u8, ServeFault>>
    ensures sound { result ≡ None → W.contents writer.new ≡ W.contents writer.old }
    // Nothing unsound is served: there is no journal yet, or its whole lines are ones that an audit finds sound.
    ensures audited { (b : List ℕ) → IsFed b opening.now → result ≡ None → (b ≡ []) ⊎ IsFoundSound (whole_lines b) }
    ensures unsound { (found : Option (List ℕ)) → IsRead found opening.now
        → IfSome result (λ told. IfOk told (IsRefused found (W.contents writer.old) (W.contents writer.new))) }
    ensures fault { (address : List ℕ) → IfSome result (λ told. IfErr told
        (IsSaid address (W.contents writer.old) (W.contents writer.new))) }
    ensures of_run { IfSome result (λ told. IfErr told IsOfRun) }
{
    if is_new(opening) {
        return None;
    }
    let fault = opening.fault()?;
    match report_fault(alloc, fault.line, fault.rule, writer) {
        Ok(status) => Some(Ok(status)),
        Err(fault) => Some(Err(ServeFault::Run(fault))),
    }
}
