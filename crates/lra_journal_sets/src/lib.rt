//! A journal set: counters, each with an instance of its own, and a function that gives each request to the counter
//! that it names.
#![tactic(auto)]

mod front;
mod journal_set;
mod laws;
mod visit;

pub use front::{Request, respond};
pub use journal_set::JournalSet;
pub use laws::{
    each_member_has_its_chain, instances_never_come_back, members_are_apart,
    what_is_known_of_one_is_known_of_each,
};
pub use visit::{Giving, Visit};
