//! The rows of a history: what its actions, members and asks are now, each found by its number, and how one more entry
//! changes them.
#![tactic(auto)]

mod apply;
mod asks;
mod carry;
mod endpoint;
mod endpoints;
mod found;
mod lists;
mod nesting;
mod packed_addresses;
mod room;
mod rows;
mod settles;
mod step;
mod undo;
mod wants;

pub use apply::copy_joined;
pub use found::{ActionRow, AskRow, MemberRow};
pub use lra_model::Memory;
pub use packed_addresses::PackedAddresses;
pub use rows::Rows;
pub use step::Step;
