//! Escaped texts in the lines of a log.

ghost use Rattle.std.specs.Prelude.{◌≡◌, ◌++◌, ◌<◌, OnOk, string_bytes, encode_utf8_all};
ghost use Rattle.std.specs.Char.{digit_char};
ghost use Rattle.lra_logs.specs.Escapes as spec;

use lra_model::Memory;

/// Returns the hexadecimal digit of a number.
fn digit(number: u32) -> char
    requires { number < 16 }
    ensures { result ≡ digit_char number }
{
    if number < 10 {
        (b'0' + number as u8) as char
    } else {
        (b'a' + (number as u8 - 10)) as char
    }
}

/// Adds a character. Escapes a control character as its code in two hexadecimal digits, and doubles a reversed solidus.
fn push_char(line: &mut String, sign: char) -> Result<(), Memory>
    ensures { OnOk result (string_bytes line.new ≡ string_bytes line.old ++ encode_utf8_all (spec.shown_char sign)) }
{
    if sign.is_control() {
        let code = sign as u32;
        line.push_str("\\x")?;
        line.push(digit(code / 16))?;
        line.push(digit(code % 16))
    } else if sign == '\\' {
        line.push_str("\\\\")
    } else {
        line.push(sign)
    }
}

/// Adds a text, with its control characters escaped. Where memory is refused a prefix of it may have been added.
pub(crate) fn push_escaped(line: &mut String, text: &str) -> Result<(), Memory>
    ensures { OnOk result (string_bytes line.new ≡ string_bytes line.old ++ spec.escaped text.now) }
{
    for sign in text.chars() {
        push_char(line, sign)?;
    }
    Ok(())
}
