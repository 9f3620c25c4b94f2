//! The journals that a folder has.

use lra_audits::RunFault;
use std::alloc::{AllocError, Global};
use std::fs;
use std::io::ErrorKind;
use std::rt::Files;

/// The folder in a folder whose journals count too: those that were archived.
pub const ENDED: &str = "ended";

/// The file in it that has the greatest instance that was ever given.
pub const NEWEST: &str = "newest";

/// The file in it that has what identifiers began with when it was served last.
pub const BASE: &str = "base";

/// The file in it that has the greatest instance of those journals in which nothing is begun any more since the folder
/// was restored.
pub const RESTORED: &str = "restored";

/// The file in it that has the members which operators have given up. Such a member gets no more notice that its action
/// has ended.
pub const GIVEN_UP: &str = "given-up";

/// The names of what a folder has.
#[derive(Drop)]
pub struct Found {
    /// The journals, in the order of their names.
    pub journals: Vec<String>,
    /// The names of what is no journal.
    pub others: Vec<String>,
}

/// Returns whether a name is that of a folder.
pub fn is_folder<R: Files>(rt: &R, name: &str) -> bool {
    match fs::metadata(rt, name) {
        Ok(about) => about.is_dir(),
        Err(_) => false,
    }
}

/// Returns the line that says that a name in a folder is no journal's. Control characters of the name stand as `?`.
pub fn stray_line(alloc: Global, folder: &str, name: &str) -> Result<String, AllocError> {
    let mut line = format!(in alloc; "lra: {folder}/")?;
    for character in name.chars() {
        line.push(if character.is_control() {
            '?'
        } else {
            character
        })?;
    }
    line.push_str(" is no journal\n")?;
    Ok(line)
}

/// Returns whether a name is that of what a service keeps in its folder beside the journals: archived journals, its
/// notes, and what is being made ready.
pub fn is_kept(name: &str) -> bool {
    is_noted(name) || name == ENDED || name.ends_with(".next")
}

/// Returns whether a name is that of a file in which a service notes something beside its journals.
fn is_noted(name: &str) -> bool {
    name == NEWEST || name == BASE || name == RESTORED || name == GIVEN_UP
}

/// Returns whether a name in a folder is a file's, or can't be looked up. A pipe's is neither: reads may never end.
fn may_be_file<R: AllocGlobal + Files>(
    rt: &R,
    folder: &str,
    name: &str,
) -> Result<bool, AllocError> {
    let path = format!(in rt.alloc(); "{folder}/{name}")?;
    match fs::metadata(rt, path.as_str()) {
        Ok(about) => Ok(about.is_file()),
        Err(_) => Ok(true),
    }
}

/// Adds a name of a folder to the journals or to the others, unless a service keeps it beside its journals.
fn put_name<R: AllocGlobal + Files>(
    rt: &R,
    folder: &str,
    found: &mut Found,
    prefix: &str,
    name: &str,
) -> Result<(), AllocError> {
    let path = format!(in rt.alloc(); "{prefix}{name}")?;
    if name.ends_with(".journal") && may_be_file(rt, folder, name)? {
        Ok(found.journals.push(path)?)
    } else if prefix.is_empty() && is_kept(name) {
        Ok(())
    } else {
        Ok(found.others.push(path)?)
    }
}

/// Returns the names of what a folder has, in the order of their bytes. One that isn't UTF-8 is `?`.
pub fn names_in<R: AllocGlobal + Files + Clone + Drop>(
    rt: &R,
    folder: &str,
) -> Result<Vec<String>, RunFault> {
    let alloc = rt.alloc();
    let Ok(entries) = fs::read_dir(rt, folder) else {
        return Err(RunFault::Read);
    };
    let mut names = Vec::new(alloc);
    for entry in entries {
        let name = match entry {
            Ok(entry) => String::from_str(alloc, entry.file_name())?,
            Err(error) if error.kind() == ErrorKind::InvalidFilename => {
                String::from_str(alloc, "?")?
            }
            Err(_) => return Err(RunFault::Read),
        };
        if names.push(name).is_err() {
            return Err(RunFault::Memory);
        }
    }
    names.sort()?;
    Ok(names)
}

/// Adds the names of what a folder has, each behind a prefix.
fn add_names<R: AllocGlobal + Files + Clone + Drop>(
    rt: &R,
    folder: &str,
    prefix: &str,
    found: &mut Found,
) -> Result<(), RunFault> {
    for name in &names_in(rt, folder)? {
        put_name(rt, folder, found, prefix, name.as_str())?;
    }
    Ok(())
}

/// Finds the names of what a folder has, and of what a folder `ended` in it has.
pub fn find<R: AllocGlobal + Files + Clone + Drop>(
    rt: &R,
    folder: &str,
) -> Result<Found, RunFault> {
    let alloc = rt.alloc();
    let mut found = Found {
        journals: Vec::new(alloc),
        others: Vec::new(alloc),
    };
    add_names(rt, folder, "", &mut found)?;
    let ended = format!(in alloc; "{folder}/{ENDED}")?;
    if is_folder(rt, ended.as_str()) {
        add_names(rt, ended.as_str(), "ended/", &mut found)?;
    }
    found.journals.sort()?;
    found.others.sort()?;
    Ok(found)
}
