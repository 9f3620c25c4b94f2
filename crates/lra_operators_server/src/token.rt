//! A token that no attacker can guess.

use crate::fault::PortFault;
use std::alloc::Global;
use std::fs::File;
use std::io::Read;
use std::rt::Files;

/// Number of random bytes in a token.
const BYTES: usize = 16;

/// Reads random bytes from the system.
fn random<R: Files<File = File>>(rt: &R) -> Option<[u8; BYTES]> {
    let mut piece = [0u8; BYTES];
    let mut file = File::open(rt, "/dev/urandom").ok()?;
    let read = file.read(&mut piece);
    drop(file);
    if read.ok()? == BYTES {
        Some(piece)
    } else {
        None
    }
}

/// Makes a token that no attacker can guess, in hexadecimal digits.
pub(crate) fn token<R: Files<File = File>>(rt: &R, alloc: Global) -> Result<String, PortFault> {
    let Some(piece) = random(rt) else {
        return Err(PortFault::NoToken);
    };
    let mut token = String::new(alloc);
    for byte in &piece {
        let byte = *byte;
        token.push_str(format!(in alloc; "{byte:02x}")?.as_str())?;
    }
    Ok(token)
}
