//! Targets that begin with the path of a base.

ghost use Rattle.std.specs.Prelude.{◌≡◌, ◌++◌, bytes_eq, length, nat_eq, option_map, string_bytes, IsSome, IfOk, OnErr};
ghost use Rattle.std.specs.List.{after_first, starts_with};
ghost use Rattle.lra_front.specs.Routes.{is_slash};
ghost use Rattle.lra_rewrite.specs.Paths as spec;

use lra_model::Memory;
use std::alloc::Global;

/// Returns whether two texts of one length are the same, in a time that doesn't depend on where they differ.
fn is_same(one: &[u8], other: &[u8]) -> bool
    requires { length one.now ≡ length other.now }
    ensures { result ≡ bytes_eq one.now other.now }
{
    let mut same = true;
    for place in 0..one.len() {
        same &= one[place] == other[place];
    }
    same
}

/// Returns whether a text begins with a prefix that may be a secret, in a time that doesn't depend on where they
/// differ.
fn begins_alike(text: &str, front: &str) -> bool
    ensures { result ≡ starts_with nat_eq text.now front.now }
{
    match text.as_bytes().get(..front.len()) {
        Some(head) => is_same(front.as_bytes(), head),
        None => false,
    }
}

/// Returns what follows a prefix in a text, if the text begins with it.
fn behind<'t>(front: &str, text: &'t str) -> Option<&'t str>
    ensures { option_map (λ rest. rest.now) result ≡ spec.behind front.now text.now }
{
    if begins_alike(text, front) {
        text.strip_prefix(front)
    } else {
        None
    }
}

/// Returns whether a text begins with a prefix.
fn begins_with(text: &str, front: &str) -> bool
    ensures { result ≡ starts_with nat_eq text.now front.now }
{
    text.starts_with(front)
}

/// Returns whether a text begins as all paths that are served do, but for their first slash.
fn is_served(text: &str) -> bool
    ensures { result ≡ spec.is_served text.now }
{
    begins_with(text, "lra-coordinator") || begins_with(text, "lra-recovery")
}

/// Returns what follows a prefix in a text, if the text begins with it and goes on as a path that is served.
#[tactic(auto, unfolding(crate::specs::Paths::served_behind))]
pub(crate) fn served_behind<'t>(front: &str, text: &'t str) -> Option<&'t str>
    ensures { option_map (λ rest. rest.now) result ≡ spec.served_behind front.now text.now }
{
    let rest = behind(front, text)?;
    if is_served(rest) { Some(rest) } else { None }
}

/// Returns what follows the first slash, or nothing.
fn after_slash(text: &str) -> &str
    ensures { result.now ≡ after_first is_slash text.now }
{
    match text.split_once('/') {
        Some((_, after)) => after,
        None => "",
    }
}

/// Returns the path of a base, without its first slash: what follows the third slash of the base's text.
#[tactic(auto, unfolding(crate::specs::Paths::path_of))]
pub fn path_of(base: &str) -> &str
    ensures { result.now ≡ spec.path_of base.now }
{
    after_slash(after_slash(after_slash(base)))
}

/// Returns what follows a path in a target, if a proxy passed the path on.
fn passed_on<'t>(path: &str, target: &'t str) -> Option<&'t str>
    ensures { option_map (λ rest. rest.now) result ≡ spec.passed_on path.now target.now }
{
    if path.is_empty() {
        return None;
    }
    served_behind(path, behind("/", target)?)
}

/// Returns whether a target isn't under the path of the base, as a proxy passes it on.
pub(crate) fn is_outside(base: &str, target: &str) -> bool
    ensures { result ≡ spec.is_outside base.now target.now }
{
    passed_on(path_of(base), target).is_none()
}

/// Returns a text of two parts.
pub(crate) fn joined(alloc: Global, front: &str, rest: &str) -> Result<String, Memory>
    ensures { IfOk result (λ text. string_bytes text ≡ front.now ++ rest.now) }
{
    let mut text = String::with_capacity(alloc, front.len().saturating_add(rest.len()))?;
    text.push_str(front)?;
    text.push_str(rest)?;
    Ok(text)
}

/// Returns the target that a target means, if that is another.
pub(crate) fn other_target(
    alloc: Global,
    base: &str,
    target: &str,
) -> Result<Option<String>, Memory>
    ensures ok { IfOk result (λ other. option_map string_bytes other ≡ spec.other_target base.now target.now) }
    ensures err { OnErr result (IsSome (spec.other_target base.now target.now)) }
{
    match passed_on(path_of(base), target) {
        Some(rest) => Ok(Some(joined(alloc, "/", rest)?)),
        None => Ok(None),
    }
}
