//! The key of the operators' port.

ghost use Rattle.std.specs.Prelude.{◌≡◌, true, IfOk, string_bytes};
ghost use Rattle.std.specs.List.{list_all};
ghost use Rattle.lra_operators_server.specs.Keys.{is_shown, is_key};

use crate::fault::PortFault;
use lra_files::{SmallFault, is_shared, read_whole};
use std::alloc::Global;
use std::fs::File;
use std::rt::Files;

/// Largest number of bytes that the file of a key has.
const LONGEST: usize = 1_024;

/// Returns a line without its end.
fn line_of(text: &str) -> &str {
    match text.strip_suffix("\n") {
        Some(line) => line.strip_suffix("\r").unwrap_or(line),
        None => text,
    }
}

/// Returns whether a text has nothing but visible characters, and spaces, of ASCII.
fn all_shown(text: &[u8]) -> bool
    ensures { result ≡ list_all is_shown text.now }
{
    text.iter().all(|byte| 0x20 <= *byte && *byte <= 0x7e)
}

/// Returns whether a text can be a key, and stand in the head of a request.
fn is_key(text: &[u8]) -> bool
    ensures { result ≡ is_key text.now }
{
    !text.is_empty() && text.len() < LONGEST && all_shown(text)
}

/// Returns a text as a key, or `PortFault::BadKey` if it can't be one.
fn own_key(alloc: Global, text: &str) -> Result<String, PortFault>
    ensures { IfOk result (λ key. is_key (string_bytes key) ≡ true) }
{
    if !is_key(text.as_bytes()) {
        return Err(PortFault::BadKey);
    }
    Ok(String::from_str(alloc, text)?)
}

/// Returns the key that the bytes of a file are, or `PortFault::BadKey` if they aren't one.
fn key_of(alloc: Global, bytes: &[u8]) -> Result<String, PortFault>
    ensures { IfOk result (λ key. is_key (string_bytes key) ≡ true) }
{
    match str::from_utf8(bytes) {
        Ok(text) => own_key(alloc, line_of(text)),
        Err(_) => Err(PortFault::BadKey),
    }
}

/// Reads the key from a file that has it alone, on its one line. No user but its owner may read the file.
pub fn read_key<R: Files<File = File>>(
    rt: &R,
    alloc: Global,
    path: &str,
) -> Result<String, PortFault>
    ensures { IfOk result (λ key. is_key (string_bytes key) ≡ true) }
{
    let Ok(file) = File::open(rt, path) else {
        return Err(PortFault::KeyFile);
    };
    if is_shared(&file) {
        drop(file);
        return Err(PortFault::SharedKey);
    }
    match read_whole(alloc, file, LONGEST as u32) {
        Ok(text) => key_of(alloc, text.as_slice()),
        Err(SmallFault::TooLong) => Err(PortFault::BadKey),
        Err(SmallFault::Memory) => Err(PortFault::Memory),
        Err(SmallFault::File) => Err(PortFault::KeyFile),
    }
}
