//! File of settings.

use crate::fault::{OptionsFault, one_line, wrong};
use crate::number::value_in;
use crate::said::{RawOptions, Word};
use lra_files::{SmallFault, read_whole};
use lra_settings::{Given, Parameter};
use std::alloc::{AllocError, Global};
use std::fs;
use std::rt::Files;
use toml::{Table, Value};

/// Largest number of bytes of a file of settings.
const LONGEST: u32 = 65_536;

/// Settings and texts of a file.
#[derive(Drop)]
pub(crate) struct Config<'a> {
    pub(crate) given: Given,
    pub(crate) said: RawOptions<'a>,
}

impl<'a> Config<'a> {
    /// Returns the settings where no file is named.
    pub(crate) fn nothing(alloc: Global) -> Config<'a> {
        Config {
            given: Given::nothing(),
            said: RawOptions::nothing(alloc),
        }
    }
}

/// Reads all bytes of a file.
fn read_file<R: Files>(rt: &R, alloc: Global, name: &str) -> Result<Vec<u8>, OptionsFault> {
    let Ok(file) = fs::open(rt, name) else {
        return Err(wrong(format!(in alloc; "cannot read {name}")));
    };
    match read_whole(alloc, file, LONGEST) {
        Ok(bytes) => Ok(bytes),
        Err(SmallFault::TooLong) => Err(wrong(format!(in alloc; "{name}: too long"))),
        Err(SmallFault::Memory) => Err(OptionsFault::Memory),
        Err(SmallFault::File) => Err(wrong(format!(in alloc; "cannot read {name}"))),
    }
}

/// Parses the table of a file's bytes.
fn table_of(alloc: Global, name: &str, bytes: &[u8]) -> Result<Table, OptionsFault> {
    match toml::table_from_slice(alloc, bytes) {
        Ok(table) => Ok(table),
        Err(error) => Err(wrong(told(alloc, name, &error))),
    }
}

/// Returns the line about a file that can't be parsed.
fn told(alloc: Global, name: &str, error: &toml::de::Error) -> Result<String, AllocError> {
    let text = format!(in alloc; "{error}")?;
    let line = one_line(alloc, text.as_str())?;
    format!(in alloc; "{name}: {line}")
}

/// Reads a parameter from a value. `place` names the file and its key in a fault.
fn number_of(
    alloc: Global,
    parameter: Parameter,
    place: &str,
    value: &Value,
) -> Result<u64, OptionsFault> {
    match value.as_integer() {
        Some(number) => {
            let text = format!(in alloc; "{number}")?;
            value_in(alloc, parameter, place, text.as_str())
        }
        None => Err(wrong(format!(in alloc; "{place}: no number"))),
    }
}

/// Reads a text from a value. `place` names the file and its key in a fault.
fn text_of(alloc: Global, place: &str, value: &Value) -> Result<String, OptionsFault> {
    match value.as_str() {
        Some(text) => Ok(String::from_str(alloc, text)?),
        None => Err(wrong(format!(in alloc; "{place}: no text"))),
    }
}

/// Adds the texts of a value that is a list. `place` names the file and its key in a fault.
fn note_texts(
    alloc: Global,
    place: &str,
    word: Word,
    value: &Value,
    said: &mut RawOptions<'_>,
) -> Result<(), OptionsFault> {
    let Some(values) = value.as_array() else {
        return Err(wrong(format!(in alloc; "{place}: no list")));
    };
    for value in values {
        said.add(word, text_of(alloc, place, value)?)?;
    }
    Ok(())
}

/// Reads true or false from a value. `place` names the file and its key in a fault.
fn truth_of(alloc: Global, place: &str, value: &Value) -> Result<bool, OptionsFault> {
    match value.as_bool() {
        Some(truth) => Ok(truth),
        None => Err(wrong(format!(in alloc; "{place}: neither true nor false"))),
    }
}

/// Adds the value of a key that is no parameter. `place` names the file and its key in a fault.
fn note_other(
    alloc: Global,
    place: &str,
    key: &str,
    value: &Value,
    config: &mut Config<'_>,
) -> Result<(), OptionsFault> {
    if key == "stop-at-eof" {
        config.given.stop_at_eof = Some(truth_of(alloc, place, value)?);
        return Ok(());
    }
    if key == "trace-context" {
        config.given.trace_context = Some(truth_of(alloc, place, value)?);
        return Ok(());
    }
    if key == "chunked" {
        config.given.chunked = Some(truth_of(alloc, place, value)?);
        return Ok(());
    }
    match Word::from_name(key) {
        Some(word) if word.is_list() => note_texts(alloc, place, word, value, &mut config.said),
        Some(word) => {
            let text = text_of(alloc, place, value)?;
            Ok(config.said.add(word, text)?)
        }
        None => Err(wrong(format!(in alloc; "{place}: no such setting"))),
    }
}

/// Adds the value of a key.
fn note(
    alloc: Global,
    name: &str,
    key: &str,
    value: &Value,
    config: &mut Config<'_>,
) -> Result<(), OptionsFault> {
    let place = format!(in alloc; "{name}: {key}")?;
    if let Some(parameter) = Parameter::from_name(key) {
        let number = number_of(alloc, parameter, place.as_str(), value)?;
        config.given.put(parameter, number);
        return Ok(());
    }
    note_other(alloc, place.as_str(), key, value, config)
}

/// Reads a file of settings.
pub(crate) fn read_config<'a, R: Files>(
    rt: &R,
    alloc: Global,
    name: &'a str,
) -> Result<Config<'a>, OptionsFault> {
    let bytes = read_file(rt, alloc, name)?;
    let table = table_of(alloc, name, bytes.as_slice())?;
    let mut config = Config {
        given: Given::nothing(),
        said: RawOptions::of_config(alloc, name),
    };
    for (key, value) in &table {
        note(alloc, name, key.as_str(), value, &mut config)?;
    }
    Ok(config)
}
