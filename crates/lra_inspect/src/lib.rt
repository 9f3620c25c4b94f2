//! The command lines that ask for something about journals: audits, listings and timelines, with their progress and
//! the reasons of what can't be read; scripts that are played; and an audit that goes on as its journals grow.
#![tactic(auto)]

mod answers;
mod asking;
mod counts;
mod explaining;
mod file_tail;
mod followed;
mod following;
mod gauge;
mod help;
mod journals;
mod listing;
mod lost;
mod misuse;
mod program;
mod questioning;
mod reasons;
mod watch;

pub use answers::{answer_play, answer_question, answer_words};
pub use counts::FollowCounts;
pub use file_tail::AuditedTail;
pub use following::standard_input;
pub use reasons::{FAULT, Reason, report_misuse, why_unread, with_reason};
