//! Timeline of one action of a journal, in sentences or as a picture; and a list of a journal's actions, with what each
//! waits for.
#![tactic(auto)]

mod calls;
mod drawing;
mod explaining;
mod listing;
mod reading;
mod sentences;
mod start_times;
mod tallies;
mod timeline;
mod timeline_items;
mod times;
mod waiting;
mod waits;
mod wanted;

pub use explaining::{Form, explain_run, missing_text};
pub use listing::{Choice, list_run};
pub use timeline_items::{TimelineItem, Told};
pub use wanted::{Wanted, read_wanted};
