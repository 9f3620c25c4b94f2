//! One rule.

ghost use Rattle.std.specs.Prelude.{◌≡◌, ◌≢◌, Ok, Err, IfOk, IfErr, OnOk, IsTrue};
ghost use Rattle.lra_rules.specs.Rules as spec;

use crate::fault::RuleFault;
use crate::reading::{Reading, reading_of};
use std::alloc::Global;
use std::marker::Model;
use std::net::IpAddr;

/// A rule that says where members may be: `*`, a name, `.` and the end of names, an address or a network. It is for one
/// port if `:` and a port follow, else for all ports. A contract sees the text.
#[derive(Drop)]
pub struct Rule {
    text: String,
    reading: Reading<Vec<u8>>,
}

impl Model for Rule {
    ghost use Rattle.std.specs.Prelude.{◌≡◌, ℕ, List, Ok, string_bytes};
    ghost use Rattle.lra_rules.specs.Rules.{reading_of};
    ghost use Rattle.lra_rules.specs.inner.Readings.{seen};

    ghost Value = { List ℕ };

    ghost view = { λ r. string_bytes r.text };

    ghost invariant = { λ r. reading_of (string_bytes r.text) ≡ Ok (seen r.reading) };
}

/// Returns whether a rule with the port `own`, or with none, is for the port `port`.
fn is_for(own: Option<u16>, port: u16) -> bool
    ensures { result ≡ spec.is_for own port }
{
    match own {
        Some(own) => own == port,
        None => true,
    }
}

impl Rule {
    /// Reads a rule from a text.
    pub fn read(alloc: Global, text: &str) -> Result<Rule, RuleFault>
        ensures ok { IfOk result (λ rule. rule ≡ text.now) }
        ensures rule { OnOk result (IsTrue (spec.is_rule text.now)) }
        ensures fault { IfErr result (λ fault. fault ≢ RuleFault.Memory → spec.reading_of text.now ≡ Err fault) }
    {
        let reading = reading_of(alloc, text.as_bytes())?;
        Ok(Rule {
            text: String::from_str(alloc, text)?,
            reading,
        })
    }

    /// Returns the text of the rule.
    pub fn as_str(&self) -> &str
        ensures value { result.now ≡ self.now }
        ensures rule { IsTrue (spec.is_rule self.now) }
    {
        let _reading = &self.reading;
        self.text.as_str()
    }

    /// Returns whether the rule allows a host at a port, at each address that the host resolves to and that isn't
    /// special.
    #[tactic(auto, unfolding(crate::specs::Rules::lets))]
    pub(crate) fn lets(&self, host: &[u8], port: u16) -> bool
        ensures { result ≡ spec.lets host.now port self.now }
    {
        is_for(self.reading.port, port) && self.reading.hosts.has_host(host)
    }

    /// Returns whether the rule names an address at a port, alone or within a network.
    #[tactic(auto, unfolding(crate::specs::Rules::names))]
    pub(crate) fn names(&self, ip: IpAddr, port: u16) -> bool
        ensures { result ≡ spec.names ip port self.now }
    {
        is_for(self.reading.port, port) && self.reading.hosts.has_address(ip)
    }
}
