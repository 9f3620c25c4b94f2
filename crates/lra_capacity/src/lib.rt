//! Journals near their end: a request that would begin something in one is turned away, and all others are answered as
//! before.
#![tactic(auto)]

mod capacity_filter;
mod reserve;

pub use capacity_filter::CapacityFilter;
pub use reserve::CapacitySource;
