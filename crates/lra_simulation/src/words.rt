//! Words of the command line.

use super::world::{Fault, Setting};
use anyhow::{Context, Result, bail, ensure};
use std::env;

/// Most sites that there are numbers for; 0 is no number of a site.
const MOST_SITES: usize = 65_535;

pub const USAGE: &str = "usage: lra_simulation SEED SITES ACTIONS [--lose-synced | --lose-quietly]";

/// Parses a word as a number.
fn number_in(word: Option<String>) -> Result<u64> {
    let word = word.context(USAGE)?;
    let number = word.parse();
    drop(word);
    match number {
        Ok(number) => Ok(number),
        Err(_) => bail!("{USAGE}"),
    }
}

/// Returns the fault of this name.
fn fault_named(name: &str) -> Result<Fault> {
    match name {
        "--lose-synced" => Ok(Fault::LoseSynced),
        "--lose-quietly" => Ok(Fault::LoseQuietly),
        _ => bail!("{USAGE}"),
    }
}

/// Returns the fault that a word names, if there is a word.
fn fault_in(word: Option<String>) -> Result<Option<Fault>> {
    let Some(word) = word else {
        return Ok(None);
    };
    let fault = fault_named(word.as_str());
    drop(word);
    Ok(Some(fault?))
}

/// Parses the words of the command line. Returns none if there are none.
pub fn setting_in(rt: &HostRuntime) -> Result<Option<Setting>> {
    let mut words = env::args(rt)?;
    let _program = words.next();
    let Some(first) = words.next() else {
        drop(words);
        return Ok(None);
    };
    let seed = number_in(Some(first));
    let sites = number_in(words.next());
    let actions = number_in(words.next());
    let fault = fault_in(words.next());
    drop(words);
    let setting = Setting {
        seed: seed?,
        sites: usize::try_from(sites?)?,
        actions: actions?,
        fault: fault?,
    };
    ensure!(
        setting.sites > 0 && setting.sites <= MOST_SITES,
        "there are 1 to {MOST_SITES} sites"
    );
    Ok(Some(setting))
}
