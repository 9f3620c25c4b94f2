//! Identifiers under an older base.

ghost use Rattle.std.specs.Prelude.{◌≡◌, option_map, string_bytes, IfOk};
ghost use Rattle.lra_rewrite.specs.Texts as spec;

use crate::paths::{joined, served_behind};
use lra_ids::Base;
use lra_model::Memory;
use std::alloc::Global;

/// Copies bases.
pub fn copy_bases(alloc: Global, bases: &[Base]) -> Result<Vec<Base>, Memory>
    ensures { IfOk result (λ copies. copies.items ≡ bases.now) }
{
    let mut copies = Vec::new(alloc);
    for base in bases {
        copies.push(base.copy()?)?;
    }
    Ok(copies)
}

/// Returns what follows the base in a text, for the first of several bases that the text is under.
fn behind_any<'t>(bases: &[Base], text: &'t str) -> Option<&'t str>
    ensures { option_map (λ rest. rest.now) result ≡ spec.behind_any bases.now text.now }
{
    for base in bases {
        if let Some(rest) = served_behind(base.as_str(), text) {
            return Some(rest);
        }
    }
    None
}

/// Returns the text that an identifier means, if that is another.
#[tactic(auto, unfolding(crate::specs::Texts::other_text))]
pub(crate) fn other_text(
    alloc: Global,
    base: &str,
    olders: &[Base],
    text: &str,
) -> Result<Option<String>, Memory>
    ensures { IfOk result (λ other. option_map string_bytes other ≡ spec.other_text base.now olders.now text.now) }
{
    if served_behind(base, text).is_some() {
        return Ok(None);
    }
    match behind_any(olders, text) {
        Some(rest) => Ok(Some(joined(alloc, base, rest)?)),
        None => Ok(None),
    }
}
