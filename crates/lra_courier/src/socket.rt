//! The text of an address's socket.

ghost use Rattle.std.specs.Prelude.{◌≡◌, IfOk, string_bytes};
ghost use Rattle.lra_courier.specs.Sockets.{socket_text};

use lra_ids::Address;
use std::alloc::{AllocError, Global};

/// Returns the host of an address, `:`, and its port, which is 80 where the address names none.
pub fn socket_text(alloc: Global, to: &Address) -> Result<String, AllocError>
    ensures { IfOk result (λ text. string_bytes text ≡ socket_text to.now) }
{
    let host = to.authority();
    match to.port() {
        Some(_) => String::from_str(alloc, host),
        None => format!(in alloc; "{host}:80"),
    }
}
