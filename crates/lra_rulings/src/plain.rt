//! Addresses in the plain form, which most have: one pass over the bytes recognizes them, without the URL's parser.

ghost use Rattle.std.specs.Prelude.{◌≡◌, ◌≢◌, ◌++◌, ℕ, List, Some, true, codes, MatchOption};
ghost use Rattle.std.specs.Fmt.{decimal};
ghost use Rattle.lra_addresses.specs.Addresses.{is_address};
ghost use Rattle.lra_rulings.specs.inner.Plain.{
  is_letter,
  is_name_byte,
  is_path_byte,
  is_host,
  is_path,
  IsPort,
  IsAuthority,
};

use lra_entries::{read_number, split_once};

/// The most bytes of an address.
const LONGEST: usize = 512;

fn is_letter(b: u8) -> bool
    ensures { result ≡ is_letter b }
{
    97 <= b && b <= 122
}

fn is_name_byte(b: u8) -> bool
    ensures { result ≡ is_name_byte b }
{
    is_letter(b) || (48 <= b && b <= 57) || b == 45
}

fn is_path_byte(b: u8) -> bool
    ensures { result ≡ is_path_byte b }
{
    is_name_byte(b) || (65 <= b && b <= 90) || b == 46 || b == 95 || b == 126
}

/// Returns whether bytes are names with single dots between them, where each name begins with a letter.
#[tactic(auto, unfolding(crate::specs::inner::Plain::is_host))]
fn is_host(bytes: &[u8]) -> bool
    ensures { result ≡ is_host true bytes.now }
{
    let mut fresh = true;
    for b in bytes {
        let b = *b;
        if is_letter(b) {
            fresh = false;
        } else {
            if fresh || !(is_name_byte(b) || b == b'.') {
                return false;
            }
            fresh = b == b'.';
        }
    }
    !fresh
}

/// Returns whether bytes are the segments of a path behind its first slash, where none begins with a dot.
#[tactic(auto, unfolding(crate::specs::inner::Plain::is_path))]
fn is_path(bytes: &[u8]) -> bool
    ensures { result ≡ is_path true bytes.now }
{
    let mut fresh = true;
    for b in bytes {
        let b = *b;
        if is_letter(b) {
            fresh = false;
        } else if b == b'/' {
            fresh = true;
        } else {
            if !is_path_byte(b) || (fresh && b == b'.') {
                return false;
            }
            fresh = false;
        }
    }
    true
}

/// Returns what follows `http://`, if a text begins with that.
fn after_scheme(text: &[u8]) -> Option<&[u8]>
    ensures { MatchOption result ((rest : List ℕ) → text.now ≢ codes "http://" ++ rest)
        (λ rest. text.now ≡ codes "http://" ++ rest.now) }
{
    text.strip_prefix(b"http://")
}

/// Returns whether digits are those of a port other than 80, the scheme's default.
fn is_port(digits: &[u8]) -> bool
    ensures { result ≡ true → (n : ℕ) × (digits.now ≡ decimal n) × IsPort (Some n) }
{
    match read_number(digits) {
        Some(port) => port < 65_536 && port != 80,
        None => false,
    }
}

/// Returns whether bytes are a host, or a host, a colon and a port.
fn is_authority(bytes: &[u8]) -> bool
    ensures { result ≡ true → IsAuthority bytes.now }
{
    match split_once(bytes, b':') {
        Some((host, port)) => is_host(host) && is_port(port),
        None => is_host(bytes),
    }
}

/// Returns whether a text is an address in the plain form: `http://`, a host and a port, and a path.
pub(crate) fn is_plain_address(text: &[u8]) -> bool
    ensures { result ≡ true → is_address text.now ≡ true }
{
    if text.len() > LONGEST {
        return false;
    }
    let Some(rest) = after_scheme(text) else {
        return false;
    };
    match split_once(rest, b'/') {
        Some((authority, path)) => is_authority(authority) && is_path(path),
        None => false,
    }
}
