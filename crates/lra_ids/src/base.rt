//! The base of the identifiers that are served at an address.

ghost use Rattle.std.specs.Prelude.{◌≡◌, ◌&&◌, true, false, bytes_eq, None, Ok, IfOk, IfSome};
ghost use Rattle.lra_addresses.specs.Addresses.{is_address, is_base, address_of};
ghost use Rattle.lra_ids.specs.Bases.{base_text, is_own_base};

use lra_addresses::{Address, UriFault, address};
use lra_model::Memory;
use std::alloc::Global;

/// Returns the address that a text stands for, or None if it stands for none.
fn address_in(alloc: Global, text: &str) -> Result<Option<Address>, Memory>
    ensures some { IfOk result (λ found. IfSome found (λ own. address_of text.now ≡ Ok own)) }
    ensures none { IfOk result (λ found. found ≡ None → is_address text.now ≡ false) }
{
    match address(alloc, text) {
        Ok(own) => Ok(Some(own)),
        Err(fault) => match fault {
            UriFault::Memory => Err(Memory),
            _ => Ok(None),
        },
    }
}

/// Returns whether an address has that text, and can be a base.
fn is_base_at(own: &Address, text: &str) -> bool
    ensures { result ≡ (bytes_eq own.now text.now && is_base own.now) }
{
    own.as_str() == text && own.is_base()
}

/// Returns the base that a text is as it stands, or None if it isn't one.
fn base_in(alloc: Global, text: &str) -> Result<Option<Address>, Memory>
    ensures text { IfOk result (λ found. IfSome found (λ base. base ≡ text.now)) }
    ensures base { IfOk result (λ found. IfSome found (λ base. is_base base ≡ true)) }
    ensures none { IfOk result (λ found. found ≡ None → is_own_base text.now ≡ false) }
{
    let Some(own) = address_in(alloc, text)? else {
        return Ok(None);
    };
    if is_base_at(&own, text) {
        Ok(Some(own))
    } else {
        Ok(None)
    }
}

/// Returns the base of the identifiers that are served at an address: `http://`, the address and `/`, or None if that
/// text isn't a base as it stands.
pub fn base_of(alloc: Global, to: &str) -> Result<Option<Address>, Memory>
    ensures text { IfOk result (λ found. IfSome found (λ base. base ≡ base_text to.now)) }
    ensures base { IfOk result (λ found. IfSome found (λ base. is_base base ≡ true)) }
    ensures none { IfOk result (λ found. found ≡ None → is_own_base (base_text to.now) ≡ false) }
{
    let text = format!(in alloc; "http://{to}/")?;
    base_in(alloc, &text)
}
