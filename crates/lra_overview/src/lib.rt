//! The operators' view of a service: the texts of its health, its metrics, its lists and its pages, from a source that
//! answers queries of its histories.
#![tactic(auto)]

mod action_page;
mod attempts;
mod census;
mod counts;
mod faults;
mod gather;
mod health;
mod home_page;
mod laws;
mod laying;
mod metrics;
mod names;
mod objects;
mod overdue;
mod overview;
mod page_parts;
mod pieces;
mod shares;
mod svg;
mod tree;
mod unended;
mod untold;

pub use action_page::put_action_page;
pub use attempts::{Line, Tried, lines_of, members_in};
pub use census::Census;
pub use counts::{Counts, Totals, count_all, grown};
pub use faults::Trouble;
pub use gather::{
    ActionRow, Listed, MemberRow, Shown, Waiting, all_waiting, list_actions, show_action, waits_for,
};
pub use health::{Answered, Probe, is_up, put_health};
pub use home_page::{Home, put_home};
pub use laws::{pages_keep_marks, pages_refer};
pub use laying::{put, put_number};
pub use metrics::{Kind, describe, put_metrics, put_parts, whole};
pub use names::Names;
pub use objects::{put_action, put_actions, put_text};
pub use overdue::{Overdue, Standing, standing_of};
pub use overview::{Facts, Overview};
pub use page_parts::{Forms, put_plain_page};
pub use pieces::Piece;
pub use shares::{Share, Shares};
pub use tree::{Node, NodeOf, tree_of};
pub use unended::list_unended;
pub use untold::is_untold;
