//! The rules of a coordinator.

ghost use Rattle.std.specs.Prelude.{◌≡◌, ◌==◌, [], length};
ghost use Rattle.std.specs.Net.Socket.{socket_ip, socket_port};
ghost use Rattle.lra_rules.specs.Texts.{host_in};
ghost use Rattle.lra_rules.specs.Rules as spec;

use crate::network::{inside, ip_in, is_special};
use crate::rule::Rule;
use crate::texts::{at_last, host_in, number};
use std::alloc::Global;
use std::marker::Model;
use std::net::{IpAddr, SocketAddr};

/// Rules that say where members may be: wherever one of them allows, or anywhere if there is none. A contract sees the
/// texts of the rules.
#[derive(Drop)]
pub struct Rules {
    rules: Vec<Rule>,
}

impl Model for Rules {
    ghost use Rattle.std.specs.Prelude.{ℕ, List};

    ghost Value = { List (List ℕ) };

    ghost view = { λ r. r.rules.items };
}

impl Rules {
    pub fn new(rules: Vec<Rule>) -> Rules
        ensures { result ≡ rules.items }
    {
        Rules { rules }
    }

    /// Makes rules without any rule, so that members may be anywhere.
    pub fn none(alloc: Global) -> Rules
        ensures { result ≡ [] }
    {
        Rules::new(Vec::new(alloc))
    }

    /// Returns all the rules.
    pub fn as_slice(&self) -> &[Rule]
        ensures { result.now ≡ self.now }
    {
        self.rules.as_slice()
    }

    /// Returns whether there is no rule.
    pub fn is_empty(&self) -> bool
        ensures { result ≡ (length self.now == 0) }
    {
        self.rules.as_slice().is_empty()
    }

    /// Returns whether a rule allows a host at a port, at each address that the host resolves to and that isn't
    /// special.
    fn some_lets(&self, host: &[u8], port: u16) -> bool
        ensures { result ≡ spec.some_lets self.now host.now port }
    {
        self.as_slice().iter().any(|rule| rule.lets(host, port))
    }

    /// Returns whether a rule names an address at a port.
    fn some_names(&self, ip: IpAddr, port: u16) -> bool
        ensures { result ≡ spec.some_names self.now ip port }
    {
        self.as_slice().iter().any(|rule| rule.names(ip, port))
    }

    /// Returns whether a rule allows a host at a port or names an address at that port.
    fn some_has(&self, host: &[u8], ip: IpAddr, port: u16) -> bool
        ensures { result ≡ spec.some_has self.now host.now ip port }
    {
        self.some_names(ip, port) || self.some_lets(host, port)
    }

    /// Returns whether a host may be called at a port and an address that it resolves to. Without a rule it always may.
    /// An address of NAT64 or 6to4 whose IPv4 address is special may be called only if a rule names that IPv4 address.
    #[tactic(auto, unfolding(crate::specs::Rules::let_address))]
    pub fn let_address(&self, host: &[u8], ip: IpAddr, port: u16) -> bool
        ensures { result ≡ spec.let_address self.now host.now ip port }
    {
        let there = inside(ip);
        self.is_empty()
            || self.some_names(there, port)
            || (self.some_has(host, ip, port) && !is_special(there))
    }

    /// Returns whether a host at a port may be a member's, as far as its text shows. If the text is an IP address, that
    /// address has to be one that may be called.
    #[tactic(auto, unfolding(crate::specs::Rules::let_host))]
    pub fn let_host(&self, host: &[u8], port: u16) -> bool
        ensures { result ≡ spec.let_host self.now host.now port }
    {
        match ip_in(host) {
            Some(ip) => self.let_address(host, ip, port),
            None => self.is_empty() || self.some_lets(host, port),
        }
    }

    /// Returns whether a host and port may be a member's, as far as their text shows.
    #[tactic(auto, unfolding(crate::specs::Rules::let_written))]
    pub fn let_written(&self, socket: &[u8]) -> bool
        ensures { result ≡ spec.let_written self.now socket.now }
    {
        let Some((host, port)) = at_last(socket, b':') else {
            return false;
        };
        match number(port, u16::MAX) {
            Some(port) => self.let_host(host, port),
            None => false,
        }
    }

    /// Returns whether a host and port may be called at a socket address that they resolve to.
    pub fn let_socket(&self, socket: &[u8], to: SocketAddr) -> bool
        ensures { result ≡ spec.let_address self.now (host_in socket.now) (socket_ip to) (socket_port to) }
    {
        self.let_address(host_in(socket), to.ip(), to.port())
    }
}
