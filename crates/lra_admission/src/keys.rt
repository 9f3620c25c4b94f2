//! Keys that requests have to give.

ghost use Rattle.std.specs.Prelude.{◌≡◌, [], ◌∷◌, ◌++◌, bytes_eq, Ok, IfOk, IfErr, OnOk, option_map};
ghost use Rattle.std.specs.List.{list_any};
ghost use Rattle.lra_admission.specs.Lines as lines;
ghost use Rattle.lra_admission.specs.Keys as spec;
ghost use Rattle.lra_admission.specs.inner.Left.{Takes, FailsAt};

use crate::fault::KeysFault;
use crate::lines::{DIGEST, cut_line, digest_in, is_remark};
use lra_model::Memory;
use sha2::{Digest, Sha256};
use std::alloc::Global;

/// Beginning of a value of `Authorization` that gives a secret.
const SCHEME: &[u8] = b"bearer ";

/// Keys that requests have to give: the digests of their secrets.
#[derive(Drop)]
pub struct Keys {
    digests: Vec<[u8; DIGEST]>,
}

/// Returns whether two digests are the same, in a time that doesn't depend on where they differ.
fn is_same(one: &[u8; DIGEST], other: &[u8; DIGEST]) -> bool
    ensures { result ≡ bytes_eq one.now other.now }
{
    let mut is_same = true;
    for place in 0..DIGEST {
        is_same &= one[place] == other[place];
    }
    is_same
}

/// Returns whether a digest is one of several, in a time that doesn't depend on which it is.
fn is_among(digest: &[u8; DIGEST], digests: &[[u8; DIGEST]]) -> bool
    ensures { result ≡ list_any (λ own. bytes_eq own digest.now) digests.now }
{
    let mut is_among = false;
    for own in digests {
        is_among |= is_same(own, digest);
    }
    is_among
}

/// Appends a digest to others.
fn put(digests: &mut Vec<[u8; DIGEST]>, digest: [u8; DIGEST]) -> Result<(), Memory>
    ensures { OnOk result (digests.new.items ≡ digests.old.items ++ digest ∷ []) }
{
    digests.push(digest)?;
    Ok(())
}

/// Appends the digest that a line of this number names to others, unless the line says nothing.
#[tactic(auto, unfolding(crate::specs::Lines::digests_from))]
fn take_line(digests: &mut Vec<[u8; DIGEST]>, line: &[u8], number: u64) -> Result<(), KeysFault>
    ensures ok { OnOk result (Takes digests.old.items digests.new.items number line.now) }
    ensures err { IfErr result (FailsAt digests.old.items number line.now) }
{
    if is_remark(line) {
        return Ok(());
    }
    match digest_in(line) {
        Some(digest) => Ok(put(digests, digest)?),
        None => Err(KeysFault::Line(number)),
    }
}

/// Returns the digests that a text names.
#[tactic(auto, unfolding(crate::specs::Lines::digests_from))]
fn digests_in(alloc: Global, text: &[u8]) -> Result<Vec<[u8; DIGEST]>, KeysFault>
    ensures ok { IfOk result (λ digests. lines.digests_in text.now ≡ Ok digests.items) }
    ensures err { IfErr result (spec.IsWrong text.now) }
{
    let mut digests = Vec::new(alloc);
    let mut number: u64 = 1;
    let mut left = Some(text);
    while let Some(rest) = left {
        let (line, behind) = cut_line(rest);
        take_line(&mut digests, line, number)?;
        number += 1;
        left = behind;
    }
    Ok(digests)
}

/// Returns the secret that a value of `Authorization` gives.
pub(crate) fn secret_in(value: &[u8]) -> Option<&[u8]>
    ensures { option_map (λ secret. secret.now) result ≡ spec.secret_in value.now }
{
    let (scheme, secret) = value.split_at_checked(SCHEME.len())?;
    if scheme.eq_ignore_ascii_case(SCHEME) {
        Some(secret)
    } else {
        None
    }
}

impl Keys {
    ghost use Rattle.std.specs.Prelude.{◌≡◌, Ok, IfOk, IfErr};
    ghost use Rattle.lra_admission.specs.Lines.{digests_in};
    ghost use Rattle.lra_admission.specs.Keys.{digests_of, is_known, IsWrong};

    /// Reads the keys of a file with this text: each line is a name, spaces and the SHA-256 of a secret in 64
    /// hexadecimal digits, or is empty or begins with `#`.
    pub fn read(alloc: Global, text: &[u8]) -> Result<Keys, KeysFault>
        ensures ok { IfOk result (λ keys. digests_in text.now ≡ Ok (digests_of keys)) }
        ensures err { IfErr result (IsWrong text.now) }
    {
        let digests = digests_in(alloc, text)?;
        Ok(Keys { digests })
    }

    /// Returns whether one of the keys is of this secret, in a time that reveals neither which it is, nor how near the
    /// secret comes.
    pub fn admits(&self, secret: &[u8]) -> bool
        ensures { result ≡ is_known (digests_of self.now) secret.now }
    {
        is_among(&Sha256::digest(secret), self.digests.as_slice())
    }
}
