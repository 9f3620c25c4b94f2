//! Readers of numbers and names, and a split of texts at a byte.

ghost use Rattle.std.specs.Prelude.{◌≡◌, option_map};
ghost use Rattle.std.specs.List.{list_all};
ghost use Rattle.std.specs.Char.{is_ascii_digit};
ghost use Rattle.lra_rules.specs.Texts as spec;

/// Splits a text at the last occurrence of a byte. Returns the parts before and after it, or None if there is none.
pub(crate) fn at_last(text: &[u8], byte: u8) -> Option<(&[u8], &[u8])>
    ensures { option_map (λ parts. (parts.0.now, parts.1.now)) result ≡ spec.at_last byte text.now }
{
    match text.iter().rposition(|b| *b == byte) {
        Some(place) => Some((&text[..place], &text[place + 1..])),
        None => None,
    }
}

/// Returns the host of a host and port: the part before the last colon, or all of the text if it has no colon.
pub fn host_in(socket: &[u8]) -> &[u8]
    ensures { result.now ≡ spec.host_in socket.now }
{
    match at_last(socket, b':') {
        Some((host, _)) => host,
        None => socket,
    }
}

/// Returns the part after the last point, or all of the name if it has no point.
fn last_label(name: &[u8]) -> &[u8]
    ensures { result.now ≡ spec.last_label name.now }
{
    match at_last(name, b'.') {
        Some((_, label)) => label,
        None => name,
    }
}

/// Reads a decimal number from a text of digits alone. Returns None if it is above `most`.
#[tactic(auto, unfolding(crate::specs::Texts::number))]
pub(crate) fn number(text: &[u8], most: u16) -> Option<u16>
    ensures { result ≡ spec.number most text.now }
{
    if text.is_empty() {
        return None;
    }
    let mut value = 0u16;
    for byte in text {
        value = next_number(value, *byte, most)?;
    }
    Some(value)
}

/// Returns the number `value` with one more digit at its end. Returns None if the byte is no digit, or the number is
/// above `most`.
fn next_number(value: u16, digit: u8, most: u16) -> Option<u16>
    ensures { result ≡ spec.next_number most value digit }
{
    if !digit.is_ascii_digit() {
        return None;
    }
    let next = u32::from(value) * 10 + u32::from(digit - b'0');
    if next > u32::from(most) {
        return None;
    }
    Some(next as u16)
}

fn is_name_byte(byte: u8) -> bool
    ensures { result ≡ spec.is_name_byte byte }
{
    byte.is_ascii_alphanumeric() || byte == b'-' || byte == b'.' || byte == b'_'
}

fn has_name_bytes_alone(text: &[u8]) -> bool
    ensures { result ≡ list_all spec.is_name_byte text.now }
{
    text.iter().all(|byte| is_name_byte(*byte))
}

fn has_digits_alone(text: &[u8]) -> bool
    ensures { result ≡ list_all is_ascii_digit text.now }
{
    text.iter().all(|byte| byte.is_ascii_digit())
}

/// Returns whether a text is a host's name. A text whose last label is a number is none.
#[tactic(auto, unfolding(crate::specs::Texts::is_name))]
pub(crate) fn is_name(text: &[u8]) -> bool
    ensures { result ≡ spec.is_name text.now }
{
    has_name_bytes_alone(text) && !has_digits_alone(last_label(text))
}
