//! Site of a service: the socket at which it listens, and the base of the identifiers that it gives.

ghost use Rattle.std.specs.Prelude.{◌≡◌, true, false, None, Err, IfOk, IfErr};
ghost use Rattle.lra_ids.specs.Addresses.{is_base};
ghost use Rattle.lra_ids.specs.Bases.{base_text, is_own_base};
ghost use Rattle.lra_opening.specs.Ends.{IsOfAddress};
ghost use Rattle.lra_server.specs.Sited.{base_served};

use lra_audits::RunFault;
use lra_courier::socket_text;
use lra_ids::{Address, Base, base_of};
use lra_opening::ServeFault;
use std::alloc::Global;
use std::net::{Net, TcpListener};

/// Site of a service.
#[derive(Drop)]
pub struct ServiceSite {
    /// Base of the identifiers that it gives.
    pub base: Base,
    /// Host and port of the socket that it listens at.
    pub socket: String,
}

/// Returns the base of the identifiers that are served at an address, or why there is none.
fn base_at(alloc: Global, to: &str) -> Result<Address, ServeFault>
    ensures text { IfOk result (λ base. base ≡ base_text to.now) }
    ensures base { IfOk result (λ base. is_base base ≡ true) }
    ensures fault { IfErr result IsOfAddress }
    ensures address { result ≡ Err ServeFault.Address → is_own_base (base_text to.now) ≡ false }
{
    match base_of(alloc, to) {
        Ok(Some(base)) => Ok(base),
        Ok(None) => Err(ServeFault::Address),
        Err(_) => Err(ServeFault::Run(RunFault::Memory)),
    }
}

/// Returns the site whose identifiers begin with `http://`, its address and `/`, or why there is none.
fn own_site(alloc: Global, to: &str) -> Result<ServiceSite, ServeFault>
    ensures base { IfOk result (λ site. site.base ≡ base_text to.now) }
    ensures own { IfOk result (λ _. is_base (base_text to.now) ≡ true) }
    ensures fault { IfErr result IsOfAddress }
    ensures address { result ≡ Err ServeFault.Address → is_own_base (base_text to.now) ≡ false }
{
    let address = base_at(alloc, to)?;
    match socket_text(alloc, &address) {
        Ok(socket) => Ok(ServiceSite {
            base: Base::of(address),
            socket,
        }),
        Err(_) => {
            drop(address);
            Err(ServeFault::Run(RunFault::Memory))
        }
    }
}

/// Returns the site at an address. Its identifiers begin with a base of their own if there is one, and otherwise with
/// `http://`, the address and `/`.
pub fn site_at(alloc: Global, to: &str, base: Option<Base>) -> Result<ServiceSite, ServeFault>
    ensures base { IfOk result (λ site. site.base ≡ base_served base to.now) }
    ensures own { base ≡ None → IfOk result (λ _. is_base (base_text to.now) ≡ true) }
    ensures fault { IfErr result IsOfAddress }
    ensures address { base ≡ None → result ≡ Err ServeFault.Address → is_own_base (base_text to.now) ≡ false }
{
    let Some(base) = base else {
        return own_site(alloc, to);
    };
    match String::from_str(alloc, to) {
        Ok(socket) => Ok(ServiceSite { base, socket }),
        Err(_) => {
            drop(base);
            Err(ServeFault::Run(RunFault::Memory))
        }
    }
}

/// Binds a listener to a socket's host and port.
pub(crate) fn bind<R: Net>(rt: &R, socket: &str) -> Result<R::Listener, ServeFault>
    ensures { IfErr result IsOfAddress }
{
    TcpListener::bind(rt, socket).map_err(|_| ServeFault::Address)
}
