//! Bases: the texts that the URIs of a coordinator begin with.

ghost use Rattle.std.specs.Prelude.{
  ◌≡◌,
  true,
  ◌≤◌,
  ◌<◌,
  ◌^◌,
  ◌-◌,
  ◌&&◌,
  ◌||◌,
  ◌==◌,
  ℕ,
  nat_le,
  not,
  length,
  slice_index,
  codes,
  bytes_eq,
  string_bytes,
  IfOk,
  IfSome,
};
ghost use Rattle.std.specs.List.{list_all, list_any};
ghost use Rattle.url.specs.Parts.{serialize};
ghost use Rattle.lra_addresses.specs.Addresses.{url_of, is_base};
ghost use Rattle.lra_ids.specs.Bases.{is_web, is_stem, base_for};
ghost use Rattle.lra_ids.specs.Identifiers.{IsSpelling, action_uri, recovery_uri};

use crate::identifier::{ACTIONS, RECOVERIES, read, spell};
use lra_addresses::{Address, LONGEST_BASE, UriFault, ends_in_slash, has_tail, is_graphic};
use lra_model::{Instance, Memory};
use std::alloc::Global;
use std::marker::Model;
use url::Url;

/// The text that the URIs of a coordinator's actions and members begin with: an address that can be a base, or an
/// `http` or `https` URL of a proxy's, with whatever path the coordinator has there. A contract sees its text.
#[derive(Debug, Drop)]
pub struct Base {
    text: String,
}

impl Model for Base {
    ghost use Rattle.std.specs.Prelude.{ℕ, List, string_bytes};

    ghost Value = { List ℕ };

    ghost view = { λ b. string_bytes b.text };
}

/// Returns whether a URL is `http` or `https`, names no user, and has bytes from 0x21 to 0x7E alone.
fn is_web(url: &Url) -> bool
    ensures { result ≡ is_web url.now }
{
    (url.scheme() == "http" || url.scheme() == "https")
        && url.username().is_empty()
        && url.password().is_none()
        && is_graphic(url.as_str().as_bytes())
}

/// Returns whether the paths of identifiers can be appended to a text.
fn is_stem(text: &[u8]) -> bool
    ensures { result ≡ is_stem text.now }
{
    ends_in_slash(text) && !has_tail(text) && text.len() <= LONGEST_BASE
}

/// Returns whether the URIs of a coordinator can begin with a URL.
fn is_base_url(url: &Url) -> bool
    ensures { result ≡ (is_web url.now && is_stem (serialize url.now)) }
{
    is_web(url) && is_stem(url.as_str().as_bytes())
}

/// Returns the URL that a text stands for, or None if it stands for none.
fn url_in(alloc: Global, text: &str) -> Result<Option<Url>, Memory>
    ensures { IfOk result (λ found. found ≡ url_of text.now) }
{
    match Url::parse(alloc, text) {
        Ok(url) => Ok(Some(url)),
        Err(error) => match UriFault::from(error) {
            UriFault::Memory => Err(Memory),
            _ => Ok(None),
        },
    }
}

impl Base {
    /// Returns the base that a text stands for, or None if it stands for none. A base is an `http` or `https` URL by
    /// the URL Standard, without a user, a query or a fragment, whose path ends in `/`, and whose own text has at most
    /// 400 bytes.
    #[tactic(auto, unfolding(crate::specs::Bases::base_for))]
    pub fn read(alloc: Global, text: &str) -> Result<Option<Base>, Memory>
        ensures { IfOk result (λ found. found ≡ base_for text.now) }
    {
        let Some(url) = url_in(alloc, text)? else {
            return Ok(None);
        };
        if is_base_url(&url) {
            Ok(Some(Base {
                text: String::from(url),
            }))
        } else {
            Ok(None)
        }
    }

    /// Returns the base of an address that can be one.
    pub fn of(address: Address) -> Base
        requires { is_base address ≡ true }
        ensures { result ≡ address }
    {
        Base {
            text: String::from(address),
        }
    }

    /// Returns the text.
    pub fn as_str(&self) -> &str
        ensures { result.now ≡ self.now }
    {
        self.text.as_str()
    }

    /// Returns an equal base.
    pub fn copy(&self) -> Result<Base, Memory>
        ensures { IfOk result (λ copy. copy ≡ self.now) }
    {
        Ok(Base {
            text: self.text.clone()?,
        })
    }

    /// Returns the URI of action `n` of a coordinator: the base, `lra-coordinator/` and the UUID.
    pub fn spell_action(&self, alloc: Global, instance: Instance, n: u64) -> Result<String, Memory>
        requires positive { 1 ≤ n }
        requires small { n < 2 ^ 62 }
        ensures { IfOk result (λ uri. string_bytes uri ≡ action_uri instance self.now n) }
    {
        spell(alloc, instance, n, self.as_str(), ACTIONS)
    }

    /// Returns the recovery URI of member `n` of a coordinator: the base, `lra-recovery/` and the UUID.
    pub fn spell_recovery(
        &self,
        alloc: Global,
        instance: Instance,
        n: u64,
    ) -> Result<String, Memory>
        requires positive { 1 ≤ n }
        requires small { n < 2 ^ 62 }
        ensures { IfOk result (λ uri. string_bytes uri ≡ recovery_uri instance self.now n) }
    {
        spell(alloc, instance, n, self.as_str(), RECOVERIES)
    }

    /// Returns the number of the action whose URI the text is.
    pub fn read_action(&self, text: &str, instance: Instance) -> Option<u64>
        ensures found { IfSome result (IsSpelling (action_uri instance self.now) text.now) }
        ensures all { (n : ℕ) → IsSpelling (action_uri instance self.now) text.now n → result ≡ Some n }
    {
        read(text, instance, self.as_str(), ACTIONS)
    }

    /// Returns the number of the member whose recovery URI the text is.
    pub fn read_recovery(&self, text: &str, instance: Instance) -> Option<u64>
        ensures found { IfSome result (IsSpelling (recovery_uri instance self.now) text.now) }
        ensures all { (n : ℕ) → IsSpelling (recovery_uri instance self.now) text.now n → result ≡ Some n }
    {
        read(text, instance, self.as_str(), RECOVERIES)
    }
}
