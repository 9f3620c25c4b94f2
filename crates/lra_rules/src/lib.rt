//! Rules that say where members may be: hosts by name, addresses and networks, each at any port or at one.
#![tactic(auto)]

mod fault;
mod network;
mod reading;
mod rule;
mod rules;
mod texts;

pub use fault::RuleFault;
pub use rule::Rule;
pub use rules::Rules;
pub use texts::host_in;
