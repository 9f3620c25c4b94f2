//! Pieces of texts.

ghost use Rattle.std.specs.Prelude.{◌≡◌, nat_eq, option_map};
ghost use Rattle.std.specs.List.{before_first, after_first, starts_with};
ghost use Rattle.lra_front.specs.Routes.{is_slash};
ghost use Rattle.lra_narayana.specs.Texts as spec;

/// Returns whether a text begins with a prefix.
pub(crate) fn begins_with(text: &str, front: &str) -> bool
    ensures { result ≡ starts_with nat_eq text.now front.now }
{
    text.starts_with(front)
}

/// Returns what stands before the first question mark, or all of the text.
pub(crate) fn before_mark(text: &str) -> &str
    ensures { result.now ≡ before_first spec.is_mark text.now }
{
    match text.split_once('?') {
        Some((before, _)) => before,
        None => text,
    }
}

/// Returns what follows the first question mark, or nothing.
pub(crate) fn after_mark(text: &str) -> &str
    ensures { result.now ≡ after_first spec.is_mark text.now }
{
    match text.split_once('?') {
        Some((_, after)) => after,
        None => "",
    }
}

/// Returns what follows the first slash, or nothing.
pub(crate) fn after_slash(text: &str) -> &str
    ensures { result.now ≡ after_first is_slash text.now }
{
    match text.split_once('/') {
        Some((_, after)) => after,
        None => "",
    }
}

/// Returns what stands before the first `<`, or all of the text.
pub(crate) fn before_open(text: &str) -> &str
    ensures { result.now ≡ before_first spec.is_open text.now }
{
    match text.split_once('<') {
        Some((before, _)) => before,
        None => text,
    }
}

/// Returns what follows the first `<`, or nothing.
pub(crate) fn after_open(text: &str) -> &str
    ensures { result.now ≡ after_first spec.is_open text.now }
{
    match text.split_once('<') {
        Some((_, after)) => after,
        None => "",
    }
}

/// Returns what stands before the first `>`, or all of the text.
pub(crate) fn before_close(text: &str) -> &str
    ensures { result.now ≡ before_first spec.is_close text.now }
{
    match text.split_once('>') {
        Some((before, _)) => before,
        None => text,
    }
}

/// Returns what follows the first `>`, or nothing.
pub(crate) fn after_close(text: &str) -> &str
    ensures { result.now ≡ after_first spec.is_close text.now }
{
    match text.split_once('>') {
        Some((_, after)) => after,
        None => "",
    }
}

/// Returns what follows the first semicolon, or nothing.
pub(crate) fn after_semicolon(text: &str) -> &str
    ensures { result.now ≡ after_first spec.is_semicolon text.now }
{
    match text.split_once(';') {
        Some((_, after)) => after,
        None => "",
    }
}

/// Returns the text that bytes are, or an empty one if they aren't UTF-8.
pub(crate) fn text_of(bytes: &[u8]) -> &str
    ensures { result.now ≡ spec.text_of bytes.now }
{
    match str::from_utf8(bytes) {
        Ok(text) => text,
        Err(_) => "",
    }
}

/// Returns what follows a prefix in a text, if the text begins with it.
fn stripped<'t>(front: &str, text: &'t str) -> Option<&'t str>
    ensures { option_map (λ rest. rest.now) result ≡ spec.stripped front.now text.now }
{
    text.strip_prefix(front)
}

/// Returns the last part of an identifier, if a text is one under a base, and else the text.
pub(crate) fn last_part<'t>(base: &str, text: &'t str) -> &'t str
    ensures { result.now ≡ spec.last_part base.now text.now }
{
    match stripped(base, text) {
        Some(rest) => after_slash(rest),
        None => text,
    }
}
