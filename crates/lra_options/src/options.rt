//! Service to be run, from the words of the command line and the file of settings that they may name.

ghost use Rattle.std.specs.Prelude.{◌≡◌, true, IfOk};
ghost use Rattle.lra_settings.specs.Settings.{are_fit};

use crate::config::{Config, read_config};
use crate::fault::{OptionsFault, wrong};
use crate::line::{Line, read_line};
use crate::said::{RawOptions, Word};
use lra_ids::Base;
use lra_settings::{Given, Settings, settings_of};
use std::alloc::Global;
use std::rt::Files;

/// Service to be run, and its settings.
#[derive(Drop)]
pub struct Options<'a> {
    pub address: &'a str,
    pub file: &'a str,
    /// Number of threads of a kind: from 1 to 16.
    pub workers: u32,
    pub settings: Settings,
    /// Base that identifiers begin with, if it isn't `http://`, the address and `/`.
    pub base: Option<Base>,
    /// Older bases that identifiers in requests may begin with as well. The first that an identifier begins with
    /// counts.
    pub also_bases: Vec<Base>,
    /// Values of the options that are texts.
    pub said: RawOptions<'a>,
    /// Mark that a folder accepts no more starts, and is served until all its work is done.
    pub drains: bool,
    /// Mark that a folder was restored from a copy. The journals that it has accept no new work.
    pub is_restored: bool,
    /// Mark that the program only reports what it would serve.
    pub is_check: bool,
}

/// Returns the settings from the command line and the file, if a service can run with them.
fn fit_settings(alloc: Global, line: &Given, file: &Given) -> Result<Settings, OptionsFault>
    ensures { IfOk result (λ settings. are_fit settings ≡ true) }
{
    let settings = settings_of(line, file);
    if settings.are_fit() {
        return Ok(settings);
    }
    let first = settings.retry_first_ms;
    let last = settings.retry_last_ms;
    Err(wrong(format!(in alloc; "retry-first: {first} is more than retry-last, {last}")))
}

/// Reads the file that a line names, if it names one.
fn config_of<'a, R: Files>(
    rt: &R,
    alloc: Global,
    config: Option<&'a str>,
) -> Result<Config<'a>, OptionsFault> {
    match config {
        Some(name) => read_config(rt, alloc, name),
        None => Ok(Config::nothing(alloc)),
    }
}

/// Reads a base from a text. `place` names the option or key in a fault.
fn base_in(alloc: Global, place: &str, text: &str) -> Result<Base, OptionsFault> {
    match Base::read(alloc, text) {
        Ok(Some(base)) => Ok(base),
        Ok(None) => Err(wrong(format!(in alloc; "{place}: no base: {text}"))),
        Err(_) => Err(OptionsFault::Memory),
    }
}

/// Reads the bases that an option has in one source.
fn bases_in(alloc: Global, said: &RawOptions<'_>, word: Word) -> Result<Vec<Base>, OptionsFault> {
    let place = said.place(alloc, word)?;
    let mut bases = Vec::new(alloc);
    for text in said.texts(alloc, word)? {
        bases.push(base_in(alloc, place.as_str(), text)?)?;
    }
    Ok(bases)
}

/// Reads the bases that an option has on the command line, or else in the file.
fn bases_of(
    alloc: Global,
    line: &RawOptions<'_>,
    file: &RawOptions<'_>,
    word: Word,
) -> Result<Vec<Base>, OptionsFault> {
    let bases = bases_in(alloc, line, word)?;
    if !bases.is_empty() {
        return Ok(bases);
    }
    bases_in(alloc, file, word)
}

/// Returns the service and its settings from a command line and the file that it names.
fn options_of<'a, R: Files>(
    rt: &R,
    alloc: Global,
    line: Line<'a>,
) -> Result<Options<'a>, OptionsFault>
    ensures { IfOk result (λ options. are_fit options.settings ≡ true) }
{
    let file = config_of(rt, alloc, line.config)?;
    let settings = fit_settings(alloc, &line.given, &file.given)?;
    let base = bases_of(alloc, &line.said, &file.said, Word::Base)?.pop();
    let also_bases = bases_of(alloc, &line.said, &file.said, Word::AlsoBase)?;
    let Line {
        address,
        file: name,
        workers,
        config: _,
        said,
        drains,
        is_restored,
        is_check,
        given: _,
    } = line;
    let Config {
        given: _,
        said: others,
    } = file;
    Ok(Options {
        address,
        file: name,
        workers,
        settings,
        base,
        also_bases,
        said: said.or(others)?,
        drains,
        is_restored,
        is_check,
    })
}

/// Reads what is to be served from the words after `serve`, and from the file of settings that they may name. A service
/// can run with the settings. A fault names the option, or the key of the file, and says what is wrong with it.
pub fn read_options<'a, R: AllocGlobal + Files>(
    rt: &R,
    words: &'a [String],
) -> Result<Options<'a>, OptionsFault>
    ensures { IfOk result (λ options. are_fit options.settings ≡ true) }
{
    let alloc = rt.alloc();
    match read_line(alloc, words) {
        Ok(line) => options_of(rt, alloc, line),
        Err(fault) => Err(fault),
    }
}
