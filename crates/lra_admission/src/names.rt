//! The names of hosts by which a service is called.

ghost use Rattle.std.specs.Prelude.{◌≡◌, ◌≤◌, length, option_map};
ghost use Rattle.std.specs.List.{list_all, list_any};
ghost use Rattle.std.specs.Char.{is_ascii_digit};
ghost use Rattle.std.specs.Str.{str_eq_ignore_ascii_case};
ghost use Rattle.lra_admission.specs.Names as spec;

use lra_model::Memory;
use std::alloc::Global;
use std::marker::Model;

/// Name by which a service is called: a host, or a host and a port. A contract sees its text.
#[derive(Drop)]
pub struct Name {
    text: String,
}

impl Model for Name {
    ghost use Rattle.std.specs.Prelude.{ℕ, List, string_bytes};

    ghost Value = { List ℕ };

    ghost view = { λ n. string_bytes n.text };
}

/// Returns whether two texts are the same but for the case of their letters.
fn is_alike(one: &[u8], other: &[u8]) -> bool
    ensures { result ≡ str_eq_ignore_ascii_case one.now other.now }
{
    one.eq_ignore_ascii_case(other)
}

/// Returns whether all bytes of a text are digits.
fn all_digits(text: &[u8]) -> bool
    ensures { result ≡ list_all is_ascii_digit text.now }
{
    text.iter().all(|byte| byte.is_ascii_digit())
}

/// Returns what follows the first closing bracket, or nothing.
fn behind_bracket(text: &[u8]) -> &[u8]
    ensures { result.now ≡ spec.behind_bracket text.now }
{
    for place in 0..text.len() {
        if text[place] == b']' {
            return &text[place + 1..];
        }
    }
    &text[text.len()..]
}

/// Returns a text from its first colon on, or nothing.
fn from_colon(text: &[u8]) -> &[u8]
    ensures value { result.now ≡ spec.from_colon text.now }
    ensures bound { length result.now ≤ length text.now }
{
    for place in 0..text.len() {
        if text[place] == b':' {
            return &text[place..];
        }
    }
    &text[text.len()..]
}

/// Returns what follows the host that a text begins with.
fn behind_host(text: &[u8]) -> &[u8]
    ensures { result.now ≡ spec.behind_host text.now }
{
    if text.starts_with(b"[") {
        behind_bracket(text)
    } else {
        from_colon(text)
    }
}

/// Returns whether a text is a colon and a port, or nothing.
fn is_any_port(text: &[u8]) -> bool
    ensures { result ≡ spec.is_any_port text.now }
{
    match text {
        [] => true,
        [first, rest @ ..] => *first == b':' && all_digits(rest),
    }
}

/// Returns whether a byte may stand in a name, after the bracket that may begin it.
fn is_name_byte(byte: u8) -> bool
    ensures { result ≡ spec.is_name_byte byte }
{
    byte.is_ascii_alphanumeric() || matches!(byte, b'-' | b'.' | b'_' | b':' | b']')
}

/// Returns whether all bytes of a text may stand in a name, after the bracket that may begin it.
fn all_name_bytes(text: &[u8]) -> bool
    ensures { result ≡ list_all spec.is_name_byte text.now }
{
    text.iter().all(|byte| is_name_byte(*byte))
}

/// Returns whether a text may follow the host of a name.
fn is_own_port(rest: &[u8]) -> bool
    ensures { result ≡ spec.is_own_port rest.now }
{
    is_any_port(rest) && rest.len() != 1 && rest.len() <= 6
}

/// Returns a text without the bracket that may begin it.
fn behind_opening(text: &[u8]) -> &[u8]
    ensures { result.now ≡ spec.behind_opening text.now }
{
    match text {
        [first, rest @ ..] if *first == b'[' => rest,
        _ => text,
    }
}

/// Returns whether a text has a closing bracket.
fn has_closing(text: &[u8]) -> bool
    ensures { result ≡ list_any spec.is_closing text.now }
{
    text.contains(&b']')
}

/// Returns whether a text has a closing bracket if an opening one begins it, and none otherwise.
fn is_closed(text: &[u8]) -> bool
    ensures { result ≡ spec.is_closed text.now }
{
    if text.starts_with(b"[") {
        has_closing(text)
    } else {
        !has_closing(text)
    }
}

/// Returns whether a text may be a host, as far as its bytes say.
fn is_spelled(text: &[u8]) -> bool
    ensures { result ≡ spec.is_spelled text.now }
{
    all_name_bytes(behind_opening(text)) && is_closed(text)
}

/// Returns whether a text is a name.
fn is_name(text: &[u8]) -> bool
    ensures { result ≡ spec.is_name text.now }
{
    let rest = behind_host(text);
    is_spelled(text) && rest.len() < text.len() && is_own_port(rest)
}

/// Returns whether a text may follow a name.
fn may_follow(name: &[u8], rest: &[u8]) -> bool
    ensures { result ≡ spec.may_follow name.now rest.now }
{
    if behind_host(name).is_empty() {
        is_any_port(rest)
    } else {
        rest.is_empty()
    }
}

/// Returns whether a host is the one of a name.
fn is_named(name: &[u8], host: &[u8]) -> bool
    ensures { result ≡ spec.is_named name.now host.now }
{
    let (front, rest) = host.split_at(name.len().min(host.len()));
    is_alike(name, front) && may_follow(name, rest)
}

/// Returns whether a host is that of one of the names.
pub(crate) fn is_own_host(names: &[Name], host: &[u8]) -> bool
    ensures { result ≡ spec.is_own_host names.now host.now }
{
    for name in names {
        if is_named(name.text.as_bytes(), host) {
            return true;
        }
    }
    false
}

/// Returns whether a byte may stand in a scheme, after its first byte.
fn is_scheme_byte(byte: u8) -> bool
    ensures { result ≡ spec.is_scheme_byte byte }
{
    byte.is_ascii_alphanumeric() || matches!(byte, b'+' | b'-' | b'.')
}

/// Returns whether all bytes of a text may stand in a scheme, after its first byte.
fn all_scheme_bytes(text: &[u8]) -> bool
    ensures { result ≡ list_all spec.is_scheme_byte text.now }
{
    text.iter().all(|byte| is_scheme_byte(*byte))
}

/// Returns whether a text is a scheme.
fn is_scheme(text: &[u8]) -> bool
    ensures { result ≡ spec.is_scheme text.now }
{
    match text {
        [] => false,
        [first, rest @ ..] => first.is_ascii_alphabetic() && all_scheme_bytes(rest),
    }
}

/// Returns what stands before the first colon, or all of it.
fn before_colon(text: &[u8]) -> &[u8]
    ensures { result.now ≡ spec.before_colon text.now }
{
    &text[..text.len() - from_colon(text).len()]
}

/// Returns the host of an origin, with its port or without.
fn host_in(origin: &[u8]) -> Option<&[u8]>
    ensures { option_map (λ host. host.now) result ≡ spec.host_in origin.now }
{
    let rest = from_colon(origin);
    if is_scheme(before_colon(origin)) && rest.starts_with(b"://") {
        Some(&rest[3..])
    } else {
        None
    }
}

/// Returns whether an origin is of one of the names.
pub(crate) fn is_own_origin(names: &[Name], origin: &[u8]) -> bool
    ensures { result ≡ spec.is_own_origin names.now origin.now }
{
    match host_in(origin) {
        Some(host) => is_own_host(names, host),
        None => false,
    }
}

impl Name {
    ghost use Rattle.std.specs.Prelude.{◌≡◌, if◌then◌else◌, Some, None, IfOk};
    ghost use Rattle.lra_admission.specs.Names.{is_name};

    /// Reads a text as a name, and returns it if it is one: a host, or a host, a colon and a port.
    pub fn read(alloc: Global, text: &str) -> Result<Option<Name>, Memory>
        ensures { IfOk result (λ found. found ≡ (if is_name text.now then Some text.now else None)) }
    {
        if !is_name(text.as_bytes()) {
            return Ok(None);
        }
        Ok(Some(Name {
            text: String::from_str(alloc, text)?,
        }))
    }

    /// Returns the text.
    pub fn as_str(&self) -> &str
        ensures { result.now ≡ self.now }
    {
        self.text.as_str()
    }
}
