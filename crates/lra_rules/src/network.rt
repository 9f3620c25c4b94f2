//! Networks of IP addresses, and the special addresses.

ghost use Rattle.std.specs.Prelude.{◌≡◌, option_map};
ghost use Rattle.std.specs.Net.Addr.{ipv4_octets, ipv6_segments};
ghost use Rattle.std.specs.Net.Reader.{whole_value, read_ipv4, read_ipv6};
ghost use Rattle.lra_rules.specs.Networks as spec;
ghost use Rattle.lra_rules.specs.inner.Octets.{own_octets, own_width};

use crate::texts::{at_last, number};
use std::net::{IpAddr, Ipv4Addr, Ipv6Addr};

/// Network: all addresses whose first `bits` bits are those of `first`.
#[derive(Clone, Copy, PartialEq, Eq)]
pub(crate) struct Network {
    first: IpAddr,
    bits: u16,
}

fn ipv4_in(text: &[u8]) -> Option<Ipv4Addr>
    ensures { option_map ipv4_octets result ≡ whole_value (read_ipv4 text.now) }
{
    match Ipv4Addr::parse_ascii(text) {
        Ok(ip) => Some(ip),
        Err(_) => None,
    }
}

fn ipv6_in(text: &[u8]) -> Option<Ipv6Addr>
    ensures { option_map ipv6_segments result ≡ whole_value (read_ipv6 text.now) }
{
    match Ipv6Addr::parse_ascii(text) {
        Ok(ip) => Some(ip),
        Err(_) => None,
    }
}

/// Reads an IP address from a text without brackets.
#[tactic(auto, unfolding(crate::specs::Networks::bare_ip_of))]
fn bare_ip_in(text: &[u8]) -> Option<IpAddr>
    ensures { result ≡ spec.bare_ip_of text.now }
{
    match ipv4_in(text) {
        Some(ip) => Some(IpAddr::V4(ip)),
        None => match ipv6_in(text) {
            Some(ip) => Some(IpAddr::V6(ip)),
            None => None,
        },
    }
}

/// Reads an IP address from a text. An IPv6 address may stand between brackets.
#[tactic(auto, unfolding(crate::specs::Networks::ip_of))]
pub(crate) fn ip_in(text: &[u8]) -> Option<IpAddr>
    ensures { result ≡ spec.ip_of text.now }
{
    match text {
        [b'[', inner @ .., b']'] => match ipv6_in(inner) {
            Some(ip) => Some(IpAddr::V6(ip)),
            None => None,
        },
        _ => bare_ip_in(text),
    }
}

/// Returns an address, or the IPv4 address in it if it is an IPv4-mapped one.
fn canonical(ip: IpAddr) -> IpAddr
    ensures octets { spec.octets_of ip ≡ own_octets result }
    ensures width { spec.width_of ip ≡ own_width result }
{
    ip.to_canonical()
}

/// Returns the IPv4 address whose 32 bits are these two segments.
fn ipv4_of(high: u16, low: u16) -> IpAddr
    ensures { result ≡ spec.ipv4 (spec.octets_in high low) }
{
    let octets = [
        (high / 256) as u8,
        (high % 256) as u8,
        (low / 256) as u8,
        (low % 256) as u8,
    ];
    IpAddr::V4(Ipv4Addr::from_octets(octets))
}

/// Returns the address at which traffic to the IPv6 address of these segments arrives.
fn inside_of(segments: [u16; 8]) -> IpAddr
    ensures { result ≡ spec.inside_of segments }
{
    if segments[..6] == [0x64, 0xff9b, 0, 0, 0, 0] {
        return ipv4_of(segments[6], segments[7]);
    }
    if segments[0] == 0x2002 {
        return ipv4_of(segments[1], segments[2]);
    }
    IpAddr::V6(Ipv6Addr::from_segments(segments))
}

/// Returns the address at which traffic to an address arrives: the IPv4 address inside an address of NAT64 or 6to4,
/// else the address itself.
#[tactic(auto, unfolding(crate::specs::Networks::inside))]
pub(crate) fn inside(ip: IpAddr) -> IpAddr
    ensures { result ≡ spec.inside ip }
{
    match ip {
        IpAddr::V4(_) => ip,
        IpAddr::V6(own) => inside_of(own.segments()),
    }
}

/// Returns the number of bits of an address. An IPv4-mapped one has 32.
fn width_of(ip: IpAddr) -> u16
    ensures { result ≡ spec.width_of ip }
{
    match canonical(ip) {
        IpAddr::V4(_) => 32,
        IpAddr::V6(_) => 128,
    }
}

/// Reads a network from a text: an address, or an address, `/` and the number of bits of the prefix.
#[tactic(auto, unfolding(crate::specs::Networks::network_of))]
pub(crate) fn network_in(text: &[u8]) -> Option<Network>
    ensures { result ≡ spec.network_of text.now }
{
    match at_last(text, b'/') {
        Some((ip, bits)) => {
            let first = ip_in(ip)?;
            let bits = number(bits, width_of(first))?;
            Some(Network { first, bits })
        }
        None => {
            let first = ip_in(text)?;
            Some(Network {
                first,
                bits: width_of(first),
            })
        }
    }
}

/// Returns the first `bits` bits of an octet, or all of it if `bits` is above 8.
fn first_bits(bits: u16, octet: u8) -> u32
    ensures { result ≡ spec.first_bits bits octet }
{
    u32::from(octet) >> 8u16.saturating_sub(bits)
}

/// Returns whether two addresses have the same number of octets and the same first `bits` bits.
fn agree(bits: u16, first: &[u8], other: &[u8]) -> bool
    ensures { result ≡ spec.agree bits first.now other.now }
{
    if first.len() != other.len() {
        return false;
    }
    let mut left = bits;
    for place in 0..first.len() {
        if first_bits(left, first[place]) != first_bits(left, other[place]) {
            return false;
        }
        left = left.saturating_sub(8);
    }
    true
}

/// Returns whether the first `bits` bits of an address are those of `first`.
fn begins(bits: u16, first: &[u8], ip: IpAddr) -> bool
    ensures { result ≡ spec.agree bits first.now (spec.octets_of ip) }
{
    match canonical(ip) {
        IpAddr::V4(ip) => agree(bits, first, &ip.octets()),
        IpAddr::V6(ip) => agree(bits, first, &ip.octets()),
    }
}

impl Network {
    /// Returns whether the network has an address.
    #[tactic(auto, unfolding(crate::specs::Networks::holds))]
    pub(crate) fn holds(self, ip: IpAddr) -> bool
        ensures { result ≡ spec.holds self ip }
    {
        match canonical(self.first) {
            IpAddr::V4(first) => begins(self.bits, &first.octets(), ip),
            IpAddr::V6(first) => begins(self.bits, &first.octets(), ip),
        }
    }

    /// Makes the network of the first `bits` bits of an IPv4 address.
    const fn of_v4(octets: [u8; 4], bits: u16) -> Network
        ensures { result ≡ spec.of_v4 octets bits }
    {
        Network {
            first: IpAddr::V4(Ipv4Addr::from_octets(octets)),
            bits,
        }
    }

    /// Makes the network of the first `bits` bits of an IPv6 address.
    const fn of_v6(segments: [u16; 8], bits: u16) -> Network
        ensures { result ≡ spec.of_v6 segments bits }
    {
        Network {
            first: IpAddr::V6(Ipv6Addr::from_segments(segments)),
            bits,
        }
    }
}

/// Returns whether an address is special, so that a rule has to name it: one of this machine, a link-local one, or one
/// of a cloud's metadata service.
#[tactic(auto, unfolding(crate::specs::Networks::is_special))]
pub(crate) fn is_special(ip: IpAddr) -> bool
    ensures { result ≡ spec.is_special ip }
{
    let special = [
        Network::of_v4([127, 0, 0, 0], 8),
        Network::of_v4([0, 0, 0, 0], 8),
        Network::of_v4([169, 254, 0, 0], 16),
        Network::of_v4([100, 100, 100, 200], 32),
        Network::of_v4([168, 63, 129, 16], 32),
        Network::of_v6([0, 0, 0, 0, 0, 0, 0, 1], 128),
        Network::of_v6([0, 0, 0, 0, 0, 0, 0, 0], 128),
        Network::of_v6([0xfe80, 0, 0, 0, 0, 0, 0, 0], 10),
        Network::of_v6([0xfd00, 0xec2, 0, 0, 0, 0, 0, 0x254], 128),
        Network::of_v6([0xfd20, 0xce, 0, 0, 0, 0, 0, 0x254], 128),
    ];
    special.iter().any(|network| network.holds(ip))
}
