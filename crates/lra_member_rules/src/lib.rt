//! Joins outside the rules for where members may be: they are refused, and all other requests are answered as before.
#![tactic(auto)]

mod addresses;
mod laws;
mod member_rules_filter;

pub use laws::hosts_are_those_of_sockets;
pub use member_rules_filter::{MemberRulesFilter, is_join};
