//! Router over the journals of a set: which journal a request names, and how the request is answered.
#![tactic(auto)]

mod journal_router;
mod laws;
mod naming;
mod serving;

pub use journal_router::{JournalRouter, Membership, add_member, remove_member};
pub use laws::{
    each_member_answers_its_own, journal_routers_are_journal_sets, requests_name_instances,
    two_instances_are_refused, unknown_instances_are_denied,
};
pub use naming::instance_of;
pub use serving::respond;
