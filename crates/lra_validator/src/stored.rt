//! The addresses of a member, as they are stored.

ghost use Rattle.std.specs.Prelude.{
  ◌≡◌,
  ◌≢◌,
  ◌&&◌,
  ◌||◌,
  IfOk,
  IfErr,
  Ok,
  true,
  false,
  string_bytes,
  option_map,
  is_some,
  is_none,
};
ghost use Rattle.lra_model.specs.Addresses.{text_of};
ghost use Rattle.lra_ids.specs.Addresses.{address_of};
ghost use Rattle.lra_commands.specs.Deeds.{stored};
ghost use Rattle.lra_validator.specs.inner.Stored.{is_readable, reads, has_enough, IsReading};

use lra_commands::Refusal;
use lra_ids::{UriFault, address};
use lra_model::Uris;
use std::alloc::Global;

/// Returns the text of the address that a text stands for. It is `BadAddresses` where there is none, and `Memory` where
/// memory was refused.
fn stored_text(alloc: Global, text: &str) -> Result<String, Refusal>
    ensures ok { IfOk result (λ own. address_of text.now ≡ Ok (string_bytes own)) }
    ensures err { IfErr result (λ r. r ≢ Refusal.Memory → (r ≡ Refusal.BadAddresses) × (reads text.now ≡ false)) }
{
    match address(alloc, text) {
        Ok(own) => Ok(String::from(own)),
        Err(UriFault::Memory) => Err(Refusal::Memory),
        Err(UriFault::NotUrl) => Err(Refusal::BadAddresses),
        Err(UriFault::NotHttp) => Err(Refusal::BadAddresses),
        Err(UriFault::TooLong) => Err(Refusal::BadAddresses),
    }
}

/// Returns the text of the address that a text stands for, where there is a text; `None` where there is none.
fn stored_address(alloc: Global, text: &Option<String>) -> Result<Option<String>, Refusal>
    ensures ok { IfOk result (λ own. (text_of own ≡ option_map stored (text_of text.now))
        × (is_readable (text_of text.now) ≡ true)) }
    ensures err { IfErr result (λ r. r ≢ Refusal.Memory → (r ≡ Refusal.BadAddresses)
        × (is_readable (text_of text.now) ≡ false)) }
{
    match text {
        Some(text) => Ok(Some(stored_text(alloc, text)?)),
        None => Ok(None),
    }
}

/// Returns whether there are the addresses that a member has to have.
fn has_enough(uris: &Uris) -> bool
    ensures { result ≡ has_enough uris.now }
{
    uris.compensate.is_some()
        || (uris.after.is_some()
            && uris.complete.is_none()
            && uris.status.is_none()
            && uris.forget.is_none())
}

/// Returns the addresses of a member, as they are stored. They are `BadAddresses` where they don't fit.
pub(crate) fn stored(alloc: Global, uris: &Uris) -> Result<Uris, Refusal>
    ensures { IsReading uris.now result }
{
    if !has_enough(uris) {
        return Err(Refusal::BadAddresses);
    }
    Ok(Uris {
        compensate: stored_address(alloc, &uris.compensate)?,
        complete: stored_address(alloc, &uris.complete)?,
        status: stored_address(alloc, &uris.status)?,
        forget: stored_address(alloc, &uris.forget)?,
        after: stored_address(alloc, &uris.after)?,
    })
}
