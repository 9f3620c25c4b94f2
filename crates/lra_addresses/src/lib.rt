//! Addresses: the `http` URLs at which members are asked, and which of them can be bases.
#![tactic(auto)]

mod addresses;
mod fault;
mod reading;

pub use addresses::{Address, LONGEST_BASE, ends_in_slash, has_tail};
pub use fault::UriFault;
pub use lra_model::Memory;
pub use reading::{address, address_stands_for_itself, is_address_text, is_graphic};
