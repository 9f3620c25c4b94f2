//! Reasons why there is no port for operators.

ghost use Rattle.std.specs.Prelude.{◌≡◌, IfOk, string_bytes};
ghost use Rattle.lra_operators_server.specs.Faults as specs;

use std::alloc::{AllocError, Global};

/// Reason why there is no port for operators.
#[derive(Clone, Copy, PartialEq, Eq)]
pub enum PortFault {
    /// The address is no host and port, or can't be bound.
    Address,
    /// Other machines reach the address, and no key is required.
    NoKey,
    /// The file of the key can't be read.
    KeyFile,
    /// Other users than its owner may read the file of the key.
    SharedKey,
    /// The file of the key isn't one line of visible characters.
    BadKey,
    /// The system gives no random bytes.
    NoToken,
    /// There is no memory.
    Memory,
}

impl From<AllocError> for PortFault {
    fn from(_error: AllocError) -> PortFault {
        PortFault::Memory
    }
}

impl PortFault {
    /// Returns the words that report the fault.
    const fn text(self) -> &'static str
        ensures { result.now ≡ specs.why self }
    {
        match self {
            PortFault::Address => "the address cannot be served",
            PortFault::NoKey => "other machines reach it, and no key is given",
            PortFault::KeyFile => "the file of the key cannot be read",
            PortFault::SharedKey => "others may read the file of the key",
            PortFault::BadKey => "the file of the key has no key",
            PortFault::NoToken => "no random bytes can be had",
            PortFault::Memory => "out of memory",
        }
    }
}

/// Writes the line that reports why there is no port at an address.
pub fn port_line(alloc: Global, fault: PortFault, address: &str) -> Result<String, AllocError>
    ensures { IfOk result (λ text. string_bytes text ≡ specs.port_line fault address.now) }
{
    let why = fault.text();
    format!(in alloc; "lra: no operators at {address}: {why}\n")
}
