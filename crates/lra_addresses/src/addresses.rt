//! Addresses, and their parts.

ghost use Rattle.std.specs.Prelude.{◌≡◌, ◌-◌, ◌≤◌, ◌==◌, ◌||◌, IsTrue, IfOk, length, slice_index, count_by};
ghost use Rattle.std.specs.List.{list_all, list_any};
ghost use Rattle.url.specs.Ascii.{slash, question_mark, number_sign};
ghost use Rattle.std.specs.Char.{is_ascii_graphic};
ghost use Rattle.lra_addresses.specs.Addresses as spec;

use lra_model::Memory;
use std::marker::Model;
use url::{Position, Url};

// The most bytes of an address.
pub(crate) const LONGEST: usize = 512;

// The most bytes of an address that is a base.
pub const LONGEST_BASE: usize = 400;

/// An `http` URL as the URL Standard serialises it: at most 512 bytes, each from 0x21 to 0x7E. A contract sees its
/// text.
#[derive(Debug, Drop)]
pub struct Address {
    url: Url,
}

impl Model for Address {
    ghost use Rattle.std.specs.Prelude.{ℕ, List};

    ghost Value = { List ℕ };

    ghost use Rattle.url.specs.Parts.{serialize};
    ghost use Rattle.lra_addresses.specs.inner.Urls.{IsAddressUrl};

    ghost view = { λ a. serialize a.url };

    ghost invariant = { λ a. IsAddressUrl a.url };
}

pub fn ends_in_slash(text: &[u8]) -> bool
    ensures { result ≡ (slice_index text.now (length text.now - 1) == slash) }
{
    text.last() == Some(&b'/')
}

fn slashes(text: &[u8]) -> usize
    ensures { result ≡ count_by (λ b. b == slash) text.now }
{
    text.iter().filter(|b| **b == b'/').count()
}

// Returns whether the text has a query or a fragment.
pub fn has_tail(text: &[u8]) -> bool
    ensures { result ≡ list_any (λ b. b == question_mark || b == number_sign) text.now }
{
    text.iter().any(|b| *b == b'?' || *b == b'#')
}

impl Address {
    ghost use Rattle.url.specs.Parts.{serialize};
    ghost use Rattle.lra_addresses.specs.inner.Urls.{IsAddressUrl};

    // Returns the URL as an address.
    pub(crate) fn of_url(url: Url) -> Address
        requires { IsAddressUrl url }
        ensures { result ≡ serialize url }
    {
        Address { url }
    }

    /// Returns the text.
    pub fn as_str(&self) -> &str
        ensures value { result.now ≡ self.now }
        ensures address { IsTrue (spec.is_address result.now) }
        ensures graphic { IsTrue (list_all is_ascii_graphic result.now) }
        ensures long { 5 ≤ length result.now }
        ensures short { length result.now ≤ 512 }
    {
        self.url.as_str()
    }

    /// Returns the host, with `:` and the port if there is one: the value of a `Host` field (RFC 9110, section 7.2).
    pub fn authority(&self) -> &str
        ensures { result.now ≡ spec.authority_of self.now }
    {
        self.url.slice(Position::BeforeHost, Position::AfterPort)
    }

    /// Returns the port, if the address names one. Port 80 is the scheme's own, and no address names it.
    pub fn port(&self) -> Option<u16>
        ensures { result ≡ spec.port_of self.now }
    {
        self.url.port()
    }

    /// Returns the path, with `?` and the query if there is one: the target of a request (RFC 9112, section 3.2.1).
    pub fn target(&self) -> &str
        ensures { result.now ≡ spec.target_of self.now }
    {
        self.url.slice(Position::BeforePath, Position::AfterQuery)
    }

    /// Returns whether the address can be a base, to which the paths of identifiers are appended.
    pub fn is_base(&self) -> bool
        ensures { result ≡ spec.is_base self.now }
    {
        let text = self.as_str().as_bytes();
        ends_in_slash(text) && slashes(text) == 3 && !has_tail(text) && text.len() <= LONGEST_BASE
    }

    /// Returns an equal address.
    pub fn copy(&self) -> Result<Address, Memory>
        ensures { IfOk result (λ copy. copy ≡ self.now) }
    {
        Ok(Address {
            url: self.url.clone()?,
        })
    }
}

impl From<Address> for String {
    ghost use Rattle.std.specs.Prelude.{◌≡◌, string_bytes};

    ghost from_gives = { λ address text. string_bytes text ≡ address };

    /// Returns the text. It takes no memory.
    fn from(address: Address) -> String {
        let Address { url } = address;
        String::from(url)
    }
}
