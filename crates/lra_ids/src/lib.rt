//! Identifiers: the UUIDs of actions and members, the URIs that are spelled from them, the bases that these begin with,
//! and the instances and sites that they bear.
#![tactic(auto)]

mod base;
mod bases;
mod bearing;
mod identifier;
mod instance_laws;
mod site_laws;

pub use base::base_of;
pub use bases::Base;
pub use bearing::{instance_at_end, instance_in};
pub use identifier::{read_action, read_id, read_recovery, spell_action, spell_recovery};
pub use instance_laws::identifiers_are_of_one_instance;
pub use lra_addresses::{Address, UriFault, address, address_stands_for_itself, is_address_text};
pub use lra_model::{Instance, Memory};
pub use site_laws::{identifiers_begin_with_their_site, sites_are_ranges, sites_never_meet};
