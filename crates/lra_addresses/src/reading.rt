//! The reader of addresses from texts.

ghost use Rattle.std.specs.Prelude.{◌≡◌, ◌≢◌, ℕ, ◌<◌, List, All, IsTrue, Ok, Err, IfOk, IfErr};
ghost use Rattle.std.specs.List.{list_all};
ghost use Rattle.std.specs.Char.{is_ascii_graphic};
ghost use Rattle.lra_addresses.specs.Addresses.{is_address, is_http, address_of};

use crate::addresses::{Address, LONGEST};
use crate::fault::UriFault;
use lra_model::Memory;
use std::alloc::Global;
use std::str;
use url::Url;

// Returns whether each byte is one from 0x21 to 0x7E.
pub fn is_graphic(text: &[u8]) -> bool
    ensures { result ≡ list_all is_ascii_graphic text.now }
{
    text.iter().all(|b| b.is_ascii_graphic())
}

// Returns whether the URL may be that of an address, whatever its length.
fn is_http(url: &Url) -> bool
    ensures { result ≡ is_http url.now }
{
    url.scheme() == "http" && is_graphic(url.as_str().as_bytes())
}

/// Returns the address that a text stands for by the URL Standard. Looks for faults in this order: a text of more than
/// 512 bytes, a text that is no URL, a URL whose scheme isn't `http` or whose own text has a byte outside 0x21 to 0x7E,
/// and a URL whose own text has more than 512 bytes. If an allocation is refused, returns `Memory` at once.
pub fn address(alloc: Global, text: &str) -> Result<Address, UriFault>
    ensures ok { IfOk result (λ address. address_of text.now ≡ Ok address) }
    ensures fault { IfErr result (λ fault. fault ≢ UriFault.Memory → address_of text.now ≡ Err fault) }
{
    if text.len() > LONGEST {
        return Err(UriFault::TooLong);
    }
    let url = Url::parse(alloc, text)?;
    if !is_http(&url) {
        return Err(UriFault::NotHttp);
    }
    if url.as_str().len() > LONGEST {
        return Err(UriFault::TooLong);
    }
    Ok(Address::of_url(url))
}

/// Returns whether a text is an address as it stands: whether [`address`] returns an address with this text.
pub fn is_address_text(alloc: Global, text: &[u8]) -> Result<bool, Memory>
    ensures { IfOk result (λ own. own ≡ is_address text.now) }
{
    let Ok(text) = str::from_utf8(text) else {
        return Ok(false);
    };
    match address(alloc, text) {
        Ok(own) => Ok(own.as_str() == text),
        Err(fault) => match fault {
            UriFault::Memory => Err(Memory),
            _ => Ok(false),
        },
    }
}

/// States that the address that a text stands for stands for itself.
pub fn address_stands_for_itself()
    ensures { (text own : List ℕ) → All (λ b. b < 256) text → address_of text ≡ Ok own
        → IsTrue (is_address own) }
{}
