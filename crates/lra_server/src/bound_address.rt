//! Address at which connections come in, also if the system chooses the port.

ghost use Rattle.std.specs.Prelude.{◌≡◌, ◌++◌, codes, decimal, string_bytes, IfOk, IfErr, IfSome};
ghost use Rattle.lra_opening.specs.Ends.{IsOfAddress};
ghost use Rattle.lra_server.specs.Sited.{IsBoundAddressOf};

use crate::base::bind;
use lra_audits::RunFault;
use lra_opening::ServeFault;
use std::alloc::Global;
use std::net::{Net, TcpListener, TcpStream};

/// Address that is served.
#[derive(Drop)]
pub struct BoundAddress {
    /// Host and port.
    pub address: String,
    /// Listener at the address, if the system has chosen the port.
    pub listener: Option<TcpListener>,
}

/// Listener of a service, and the input whose end ends the service.
#[derive(Drop)]
pub struct ServiceInput<I> {
    /// Listener at the address, if there is one already.
    pub listener: Option<TcpListener>,
    /// Input that ends the service gently once it has ended, if there is one.
    pub input: Option<I>,
}

/// Returns the host of an address whose port is 0.
fn host_of(address: &str) -> Option<&str>
    ensures { IfSome result (λ host. address.now ≡ host.now ++ codes ":0") }
{
    address.strip_suffix(":0")
}

/// Returns a host and port as a text.
fn address_of(alloc: Global, host: &str, port: u16) -> Result<String, ServeFault>
    ensures text { IfOk result (λ text. string_bytes text ≡ host.now ++ codes ":" ++ decimal port) }
    ensures fault { IfErr result IsOfAddress }
{
    match format!(in alloc; "{host}:{port}") {
        Ok(text) => Ok(text),
        Err(_) => Err(ServeFault::Run(RunFault::Memory)),
    }
}

/// Returns the address that is served for a given one. If the port is 0, the system chooses the port. Otherwise the
/// address is the given one.
pub fn bound_address_at<R: Net<Stream = TcpStream, Listener = TcpListener>>(
    rt: &R,
    alloc: Global,
    address: &str,
) -> Result<BoundAddress, ServeFault>
    ensures text { IfOk result (λ bound_address. IsBoundAddressOf address.now (string_bytes bound_address.address)) }
    ensures fault { IfErr result IsOfAddress }
{
    let Some(host) = host_of(address) else {
        return match String::from_str(alloc, address) {
            Ok(address) => Ok(BoundAddress {
                address,
                listener: None,
            }),
            Err(_) => Err(ServeFault::Run(RunFault::Memory)),
        };
    };
    let listener = bind(rt, address)?;
    let Ok(socket) = listener.local_addr() else {
        return Err(ServeFault::Address);
    };
    Ok(BoundAddress {
        address: address_of(alloc, host, socket.port())?,
        listener: Some(listener),
    })
}

/// Returns the given listener if there is one, and otherwise a new one at a socket's host and port.
pub fn listener_at<R: Net<Stream = TcpStream, Listener = TcpListener>>(
    rt: &R,
    socket: &str,
    given: Option<TcpListener>,
) -> Result<TcpListener, ServeFault>
    ensures { IfErr result IsOfAddress }
{
    match given {
        Some(listener) => Ok(listener),
        None => bind(rt, socket),
    }
}
