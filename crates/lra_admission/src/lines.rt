//! The lines of a file of keys.

ghost use Rattle.std.specs.Prelude.{
  ◌≡◌,
  true,
  false,
  ℕ,
  ◌<◌,
  ◌∷◌,
  length,
  slice_index,
  All,
  option_map,
  IfSome,
  IfNone,
};
ghost use Rattle.lra_admission.specs.Lines as spec;
ghost use Rattle.lra_admission.specs.inner.Left.{lines_left};

use hex::FromHex;

/// Number of bytes of a SHA-256.
pub(crate) const DIGEST: usize = 32;

/// Returns the place of the first line feed.
fn feed_place(text: &[u8]) -> Option<usize>
    ensures found { IfSome result (λ place. (place < length text.now) ×
        (spec.is_feed (slice_index text.now place) ≡ true)) }
    ensures first { IfSome result (λ place. (k : ℕ) → k < place → spec.is_feed (slice_index text.now k) ≡ false) }
    ensures none { IfNone result (All (λ b. spec.is_feed b ≡ false) text.now) }
{
    text.iter().position(|byte| *byte == b'\n')
}

/// Cuts off the first line of a text. Returns it, and what follows its line feed, if it has one.
pub(crate) fn cut_line(text: &[u8]) -> (&[u8], Option<&[u8]>)
    ensures lines { spec.lines_of text.now ≡ result.0.now ∷ lines_left (option_map (λ rest. rest.now) result.1) }
    ensures shorter { IfSome result.1 (λ rest. length rest.now < length text.now) }
{
    match feed_place(text) {
        Some(place) => (&text[..place], Some(&text[place + 1..])),
        None => (text, None),
    }
}

/// Returns whether a line says nothing: it is empty, or begins with `#`.
pub(crate) fn is_remark(line: &[u8]) -> bool
    ensures { result ≡ spec.is_remark line.now }
{
    match line {
        [] => true,
        [first, ..] => *first == b'#',
    }
}

/// Returns what follows the leading spaces.
fn skip_spaces(text: &[u8]) -> &[u8]
    ensures { result.now ≡ spec.skip_spaces text.now }
{
    for place in 0..text.len() {
        if text[place] != b' ' {
            return &text[place..];
        }
    }
    &text[text.len()..]
}

/// Returns what follows the name that a text begins with: its first bytes that are no spaces.
fn skip_name(text: &[u8]) -> &[u8]
    ensures { result.now ≡ spec.skip_name text.now }
{
    for place in 0..text.len() {
        if text[place] == b' ' {
            return &text[place..];
        }
    }
    &text[text.len()..]
}

/// Returns the digest that a line names, if it is a name and a digest.
pub(crate) fn digest_in(line: &[u8]) -> Option<[u8; DIGEST]>
    ensures { result ≡ spec.digest_in line.now }
{
    if line.starts_with(b" ") {
        return None;
    }
    <[u8; DIGEST] as FromHex>::from_hex(skip_spaces(skip_name(line))).ok()
}
