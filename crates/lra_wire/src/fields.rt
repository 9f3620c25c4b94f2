//! The fields of a head, and what they say of the message.
ghost use Rattle.std.specs.Prelude.{◌≡◌, ◌≤◌, ℕ, List, [], ◌∷◌, ◌++◌, length, map, reverse, All, true};
ghost use Rattle.std.specs.Char.{is_ascii_digit};
ghost use Rattle.std.specs.List.{list_all};
ghost use Rattle.std.specs.Str.Parse.{digits_value};
ghost use Rattle.httparse.specs.Grammar.{is_ows, skip_ows, trim_ows};
ghost use Rattle.httparse.specs.Spans.{IsHeaderWithin, header_bytes};
ghost use Rattle.lra_wire.specs.Fields.{
  is_alike,
  values_of,
  has_field,
  spelled_length,
  stated_of,
  has_element,
  lists_close,
};
ghost use Rattle.lra_wire.specs.inner.Fields.{Shows};

use httparse::spans::HeaderSpan;

/// Field of one name, of which a head may have none or several.
#[derive(Clone, Copy)]
pub(crate) enum Named<'b> {
    Absent,
    Once(&'b [u8]),
    Several,
}

impl<'b> Named<'b> {
    /// Returns what is found once one more value follows.
    fn and(self, value: &'b [u8]) -> Named<'b>
        ensures { (values : List (List ℕ)) → Shows self.entry values
            → Shows result (values ++ value.now ∷ []) }
    {
        match self {
            Named::Absent => Named::Once(value),
            Named::Once(_) => Named::Several,
            Named::Several => Named::Several,
        }
    }
}

/// Value of `Content-Length`.
#[derive(Clone, Copy)]
pub(crate) enum ContentLength {
    Nothing,
    Length(u64),
    Malformed,
}

/// Largest number of digits of a `Content-Length`, so that its value fits 64 bits.
const MAX_DIGITS: usize = 19;

/// Returns the field of a name, whose case doesn't matter.
pub(crate) fn lookup<'b>(bytes: &'b [u8], fields: &[HeaderSpan], name: &[u8]) -> Named<'b>
    requires { All (IsHeaderWithin (length bytes.now)) fields.now }
    ensures { Shows result (values_of name.now (map (header_bytes bytes.now) fields.now)) }
{
    let mut found = Named::Absent;
    for field in fields {
        if is_alike(field.name.of(bytes), name) {
            found = found.and(field.value.of(bytes));
        }
    }
    found
}

/// Returns whether a field has the name, whose case doesn't matter.
pub(crate) fn has(bytes: &[u8], fields: &[HeaderSpan], name: &[u8]) -> bool
    requires { All (IsHeaderWithin (length bytes.now)) fields.now }
    ensures { result ≡ has_field name.now (map (header_bytes bytes.now) fields.now) }
{
    match lookup(bytes, fields, name) {
        Named::Absent => false,
        Named::Once(_) => true,
        Named::Several => true,
    }
}

/// Returns whether two texts are equal but for the case of their letters.
pub(crate) fn is_alike(a: &[u8], b: &[u8]) -> bool
    ensures { result ≡ is_alike a.now b.now }
{
    a.eq_ignore_ascii_case(b)
}

/// Returns the length that `Content-Length` states, if it states one (RFC 9110, section 8.6).
pub(crate) fn stated_length(bytes: &[u8], fields: &[HeaderSpan]) -> ContentLength
    requires { All (IsHeaderWithin (length bytes.now)) fields.now }
    ensures { result ≡ stated_of (map (header_bytes bytes.now) fields.now) }
{
    match lookup(bytes, fields, b"content-length") {
        Named::Absent => ContentLength::Nothing,
        Named::Once(value) => spelled_length(value),
        Named::Several => ContentLength::Malformed,
    }
}

/// Returns the number that 1 to 19 decimal digits spell, or `Malformed` for any other text.
fn spelled_length(value: &[u8]) -> ContentLength
    ensures { result ≡ spelled_length value.now }
{
    if value.is_empty() || value.len() > MAX_DIGITS || !is_digits(value) {
        return ContentLength::Malformed;
    }
    ContentLength::Length(number(value))
}

fn is_digits(bytes: &[u8]) -> bool
    ensures { result ≡ list_all is_ascii_digit bytes.now }
{
    bytes.iter().all(|b| b.is_ascii_digit())
}

fn number(digits: &[u8]) -> u64
    requires count { length digits.now ≤ 19 }
    requires digits { list_all is_ascii_digit digits.now ≡ true }
    ensures { result ≡ digits_value 10 digits.now }
{
    let mut number: u64 = 0;
    for digit in digits {
        number = number * 10 + (*digit - b'0') as u64;
    }
    number
}

/// Returns whether a `Connection` field lists `close` (RFC 9112, section 9.6).
pub(crate) fn lists_close(bytes: &[u8], fields: &[HeaderSpan]) -> bool
    requires { All (IsHeaderWithin (length bytes.now)) fields.now }
    ensures { result ≡ lists_close (map (header_bytes bytes.now) fields.now) }
{
    for field in fields {
        if is_alike(field.name.of(bytes), b"connection")
            && has_element(b"close", field.value.of(bytes))
        {
            return true;
        }
    }
    false
}

/// Returns whether a list has the element, whose case doesn't matter (RFC 9110, section 5.6.1).
fn has_element(element: &[u8], list: &[u8]) -> bool
    ensures { result ≡ has_element element.now list.now }
{
    list.split(|b| *b == b',')
        .any(|part| is_alike(trim(part), element))
}

/// Returns the bytes without spaces and tabs at both ends.
fn trim(bytes: &[u8]) -> &[u8]
    ensures { result.now ≡ trim_ows bytes.now }
{
    trim_end(trim_start(bytes))
}

fn trim_start(bytes: &[u8]) -> &[u8]
    ensures { result.now ≡ skip_ows bytes.now }
{
    for i in 0..bytes.len() {
        if !is_blank(bytes[i]) {
            return &bytes[i..];
        }
    }
    &bytes[bytes.len()..]
}

fn trim_end(bytes: &[u8]) -> &[u8]
    ensures { result.now ≡ reverse (skip_ows (reverse bytes.now)) }
{
    let mut end = bytes.len();
    while end > 0 && is_blank(bytes[end - 1]) {
        end -= 1;
    }
    &bytes[..end]
}

fn is_blank(b: u8) -> bool
    ensures { result ≡ is_ows b }
{
    b == b' ' || b == b'\t'
}
