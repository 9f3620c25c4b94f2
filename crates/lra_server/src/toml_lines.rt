//! Lines of settings, as TOML 1.0 spells them.

use lra_audits::put;
use lra_opening::ServeFault;
use std::alloc::{AllocError, Global};
use std::io::Write;

/// Hexadecimal digits.
const DIGITS: &[u8] = b"0123456789abcdef";

/// Returns the hexadecimal digit of a number below 16.
fn digit(number: u32) -> char {
    match DIGITS.get(number as usize) {
        Some(digit) => *digit as char,
        None => '0',
    }
}

/// Adds a character of a string. Escapes a quotation mark, a reversed solidus and a control character.
fn push_character(line: &mut String, character: char) -> Result<(), AllocError> {
    if character.is_control() {
        let code = character as u32;
        line.push_str("\\u00")?;
        line.push(digit(code / 16))?;
        return line.push(digit(code % 16));
    }
    match character {
        '"' => line.push_str("\\\""),
        '\\' => line.push_str("\\\\"),
        _ => line.push(character),
    }
}

/// Adds a text as a string in quotation marks.
fn push_string(line: &mut String, text: &str) -> Result<(), AllocError> {
    line.push_str("\"")?;
    for character in text.chars() {
        push_character(line, character)?;
    }
    line.push_str("\"")
}

/// Writes a line of a word and a number.
pub fn put_number<W: Write>(
    alloc: Global,
    word: &str,
    number: u64,
    writer: &mut W,
) -> Result<(), ServeFault> {
    let line = format!(in alloc; "{word} = {number}\n")?;
    Ok(put(writer, line.as_bytes())?)
}

/// Writes a line of a word and a text.
pub fn put_text<W: Write>(
    alloc: Global,
    word: &str,
    text: &str,
    writer: &mut W,
) -> Result<(), ServeFault> {
    let mut line = String::from_str(alloc, word)?;
    line.push_str(" = ")?;
    push_string(&mut line, text)?;
    line.push_str("\n")?;
    Ok(put(writer, line.as_bytes())?)
}

/// Writes a line of a word and a list of texts, if there are any.
pub fn put_texts<W: Write>(
    alloc: Global,
    word: &str,
    texts: &[&str],
    writer: &mut W,
) -> Result<(), ServeFault> {
    if texts.is_empty() {
        return Ok(());
    }
    let mut line = String::from_str(alloc, word)?;
    line.push_str(" = [")?;
    for (place, text) in texts.iter().enumerate() {
        line.push_str(if place == 0 { "" } else { ", " })?;
        push_string(&mut line, text)?;
    }
    line.push_str("]\n")?;
    Ok(put(writer, line.as_bytes())?)
}
