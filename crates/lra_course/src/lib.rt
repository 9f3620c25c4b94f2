//! The course of a history: whether its entries keep the rules, one after another, and the summary of them. This crate
//! doesn't read the journal's text.
#![tactic(auto)]

mod course;
mod entries;
mod listing;
mod verdict;

pub use course::Course;
pub use entries::check;
pub use listing::{Account, ListedAction, ListedMember, Listing};
pub use lra_model::{Memory, Rule, Version};
pub use lra_totals::{FailedEnd, FailedEnds, Summary};
pub use verdict::Verdict;
