//! The parser of rules.

ghost use Rattle.std.specs.Prelude.{◌≡◌};
ghost use Rattle.lra_rules.specs.Rules as spec;
ghost use Rattle.lra_rules.specs.inner.Readings.{Gives, seen, seen_hosts};

use crate::fault::RuleFault;
use crate::network::{Network, network_in};
use crate::texts::{at_last, is_name, number};
use std::alloc::Global;
use std::net::IpAddr;

/// Hosts that a rule is for.
#[derive(Drop)]
pub(crate) enum Hosts<N> {
    /// All hosts that have names, and all addresses that aren't special.
    Any,
    /// The host of this name. If the name begins with a point, all hosts whose names end with it.
    Named(N),
    /// The addresses of a network.
    Within(Network),
}

/// Parsed rule: the hosts that it is for, and its port. None is any port.
#[derive(Drop)]
pub(crate) struct Reading<N> {
    pub(crate) hosts: Hosts<N>,
    pub(crate) port: Option<u16>,
}

/// Reads the hosts that a text without a port names. Names are turned into lower case.
#[tactic(auto, unfolding(crate::specs::Rules::hosts_of))]
fn hosts_in(alloc: Global, text: &[u8]) -> Result<Hosts<Vec<u8>>, RuleFault>
    ensures { Gives seen_hosts result (spec.hosts_of text.now) }
{
    if text == b"*".as_slice() {
        return Ok(Hosts::Any);
    }
    if let Some(network) = network_in(text) {
        return Ok(Hosts::Within(network));
    }
    if !is_name(text) {
        return Err(RuleFault::NotHosts);
    }
    Ok(Hosts::Named(text.to_ascii_lowercase(alloc)?))
}

/// Reads a rule from two texts: that of its hosts and that of its port.
fn with_port(alloc: Global, hosts: &[u8], port: &[u8]) -> Result<Reading<Vec<u8>>, RuleFault>
    ensures { Gives seen result (spec.with_port hosts.now port.now) }
{
    let Some(port) = number(port, u16::MAX) else {
        return Err(RuleFault::NotPort);
    };
    Ok(Reading {
        hosts: hosts_in(alloc, hosts)?,
        port: Some(port),
    })
}

/// Reads a rule from a text that has no port.
fn without_port(alloc: Global, text: &[u8]) -> Result<Reading<Vec<u8>>, RuleFault>
    ensures { Gives seen result (spec.without_port text.now) }
{
    Ok(Reading {
        hosts: hosts_in(alloc, text)?,
        port: None,
    })
}

/// Reads a rule from its text.
#[tactic(auto, unfolding(crate::specs::Rules::reading_of))]
pub(crate) fn reading_of(alloc: Global, text: &[u8]) -> Result<Reading<Vec<u8>>, RuleFault>
    ensures { Gives seen result (spec.reading_of text.now) }
{
    if let Some(network) = network_in(text) {
        return Ok(Reading {
            hosts: Hosts::Within(network),
            port: None,
        });
    }
    match at_last(text, b':') {
        Some((hosts, port)) => with_port(alloc, hosts, port),
        None => without_port(alloc, text),
    }
}

impl Hosts<Vec<u8>> {
    /// Returns whether these are any hosts, or have a host by its name.
    pub(crate) fn has_host(&self, host: &[u8]) -> bool
        ensures { result ≡ spec.has_host (seen_hosts self.now) host.now }
    {
        match self {
            Hosts::Any => true,
            Hosts::Named(name) => is_named(name.as_slice(), host),
            Hosts::Within(_) => false,
        }
    }

    /// Returns whether these are a network that has an address.
    pub(crate) fn has_address(&self, ip: IpAddr) -> bool
        ensures { result ≡ spec.has_address (seen_hosts self.now) ip }
    {
        match self {
            Hosts::Within(network) => network.holds(ip),
            _ => false,
        }
    }
}

/// Returns whether a host has this name. If the name begins with a point, returns whether the host ends with it.
fn is_named(name: &[u8], host: &[u8]) -> bool
    ensures { result ≡ spec.is_named name.now host.now }
{
    if name.first() == Some(&b'.') {
        host.ends_with(name)
    } else {
        host == name
    }
}
