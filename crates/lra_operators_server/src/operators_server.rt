//! The operators' server: where operators connect.

ghost use Rattle.std.specs.Prelude.{◌≡◌, IfOk, string_bytes, option_map};
ghost use Rattle.lra_operators.specs.Access as spec;

use crate::fault::PortFault;
use crate::process_statistics::{Gauges, ProcessStatistics};
use crate::token::token;
use lra_operators::Access;
use lra_storage::{Stopwatch, Timed};
use std::alloc::Global;
use std::fs::File;
use std::net::{Net, TcpListener, TcpStream};
use std::rt::Files;

/// Server that operators connect to: a listener, the key that they have to give, if there is one, the token that the
/// pages' forms carry, the files that process statistics are read from, and the stopwatch that times syncs of the disk.
#[derive(Drop)]
pub struct OperatorsServer {
    pub(crate) listener: TcpListener,
    key: Option<String>,
    token: String,
    gauges: Gauges,
    stopwatch: Stopwatch,
}

/// Returns whether a listener can be reached only from this machine.
fn is_own(listener: &TcpListener) -> bool {
    match listener.local_addr() {
        Ok(address) => address.ip().is_loopback(),
        Err(_) => false,
    }
}

/// Opens a listener at an address. If no key is required, the address has to be one of the machine's own.
fn listen<R: Net<Stream = TcpStream, Listener = TcpListener>>(
    rt: &R,
    address: &str,
    have_key: bool,
) -> Result<TcpListener, PortFault> {
    let Ok(listener) = TcpListener::bind(rt, address) else {
        return Err(PortFault::Address);
    };
    if !have_key && !is_own(&listener) {
        drop(listener);
        return Err(PortFault::NoKey);
    }
    match listener.set_nonblocking(true) {
        Ok(()) => Ok(listener),
        Err(_) => {
            drop(listener);
            Err(PortFault::Address)
        }
    }
}

impl OperatorsServer {
    /// Opens an operators' server at a host and port, which asks for that key, if there is one. Without a key, the
    /// address has to be one of the machine's own.
    pub fn open<R: Net<Stream = TcpStream, Listener = TcpListener> + Files<File = File> + Timed>(
        rt: &R,
        alloc: Global,
        address: &str,
        key: Option<String>,
    ) -> Result<OperatorsServer, PortFault>
        ensures { IfOk result (λ server. server.key ≡ key) }
    {
        let token = token(rt, alloc)?;
        match listen(rt, address, key.is_some()) {
            Ok(listener) => Ok(OperatorsServer {
                listener,
                key,
                token,
                gauges: Gauges::open(rt),
                stopwatch: rt.stopwatch(),
            }),
            Err(fault) => Err(fault),
        }
    }

    /// Reads the process statistics.
    pub fn process_statistics(&self) -> ProcessStatistics {
        self.gauges.read()
    }

    /// Returns the stopwatch that times syncs of the disk.
    pub(crate) fn stopwatch(&self) -> Stopwatch {
        self.stopwatch
    }

    /// Returns the secrets that a request has to give to be admitted.
    pub(crate) fn access(&self) -> Access<'_>
        ensures key { spec.key_of result ≡ option_map string_bytes self.now.key }
        ensures token { result.token.now ≡ string_bytes self.now.token }
    {
        Access::new(&self.key, self.token.as_str())
    }
}
