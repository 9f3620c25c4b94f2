//! The reader of the values of `traceparent`.

ghost use Rattle.std.specs.Prelude.{◌≡◌, length, option_map, true, IfSome};
ghost use Rattle.std.specs.List.{list_all};
ghost use Rattle.lra_traces.specs.Traceparents as spec;

/// Number of bytes of a value of version 00.
const LENGTH: usize = 55;

fn is_lower_hex(byte: u8) -> bool
    ensures { result ≡ spec.is_lower_hex byte }
{
    byte.is_ascii_digit() || (b'a' <= byte && byte <= b'f')
}

fn is_hex(text: &[u8]) -> bool
    ensures { result ≡ list_all spec.is_lower_hex text.now }
{
    text.iter().all(|byte| is_lower_hex(*byte))
}

fn is_zero(text: &[u8]) -> bool
    ensures { result ≡ list_all spec.is_zero text.now }
{
    text.iter().all(|byte| *byte == b'0')
}

/// Returns whether a text is an ID: hexadecimal digits in lower case that aren't all 0.
fn is_id(text: &[u8]) -> bool
    ensures { result ≡ spec.is_id text.now }
{
    is_hex(text) && !is_zero(text)
}

/// Returns whether a text is a version: two digits other than `ff`.
fn is_version(text: &[u8]) -> bool
    ensures { result ≡ spec.is_version text.now }
{
    is_hex(text) && text != b"ff".as_slice()
}

/// Returns whether a text is a hyphen and an ID.
fn is_id_part(text: &[u8]) -> bool
    ensures { result ≡ spec.is_id_part text.now }
{
    match text {
        [] => false,
        [first, ..] => *first == b'-' && is_id(&text[1..]),
    }
}

/// Returns whether a text is a hyphen and flags.
fn is_flag_part(text: &[u8]) -> bool
    ensures { result ≡ spec.is_flag_part text.now }
{
    match text {
        [] => false,
        [first, ..] => *first == b'-' && is_hex(&text[1..]),
    }
}

/// Returns whether texts are the ID of a trace, that of a span, and flags, each behind its hyphen.
fn are_parts(trace: &[u8], span: &[u8], flags: &[u8]) -> bool
    ensures { result ≡ spec.are_parts trace.now span.now flags.now }
{
    is_id_part(trace) && is_id_part(span) && is_flag_part(flags)
}

/// Returns whether a text is the IDs and the flags of a value, each behind its hyphen.
fn is_body(text: &[u8]) -> bool
    requires { length text.now ≡ 53 }
    ensures { result ≡ spec.is_body text.now }
{
    let (trace, rest) = text.split_at(33);
    let (span, flags) = rest.split_at(17);
    are_parts(trace, span, flags)
}

/// Returns whether a value of a version may go on so behind its flags.
fn may_follow(version: &[u8], rest: &[u8]) -> bool
    ensures { result ≡ spec.may_follow version.now rest.now }
{
    match rest {
        [] => true,
        [first, ..] => *first == b'-' && version != b"00".as_slice(),
    }
}

/// Returns the IDs and the flags of a value, where they, its version and what follows them are valid.
fn checked<'a>(version: &[u8], body: &'a [u8], rest: &[u8]) -> Option<&'a [u8]>
    requires { length body.now ≡ 53 }
    ensures valid { IfSome result (λ own. spec.is_body own.now ≡ true) }
    ensures size { IfSome result (λ own. length own.now ≡ 53) }
    ensures body { option_map (λ own. own.now) result ≡ spec.checked version.now body.now rest.now }
{
    if is_version(version) && is_body(body) && may_follow(version, rest) {
        Some(body)
    } else {
        None
    }
}

/// Returns the IDs and the flags of a value, with their hyphens, where it is valid.
pub(crate) fn body_in(value: &[u8]) -> Option<&[u8]>
    ensures valid { IfSome result (λ body. spec.is_body body.now ≡ true) }
    ensures size { IfSome result (λ body. length body.now ≡ 53) }
    ensures body { option_map (λ body. body.now) result ≡ spec.body_in value.now }
{
    if value.len() < LENGTH {
        return None;
    }
    let (version, after) = value.split_at(2);
    let (body, rest) = after.split_at(53);
    checked(version, body, rest)
}
