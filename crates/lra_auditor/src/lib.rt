//! The auditor of a journal: whether its bytes are the text of a legal history, and what the history has in it.
#![tactic(auto)]

mod auditor;
mod following;
mod laws;
mod reading;

pub use auditor::{Auditor, AuditorFault, FaultyLine, audit};
pub use following::Follower;
pub use laws::{bytes_have_one_verdict, legal_texts_are_sound};
pub use lra_course::{
    Account, FailedEnd, FailedEnds, ListedAction, ListedMember, Listing, Summary, Verdict, check,
};
pub use lra_model::{Memory, Rule, Version};
