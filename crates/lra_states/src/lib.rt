//! The state of an action and of a member that the rules read, how one more entry changes it, and when and how an
//! action may end.
#![tactic(auto)]

mod changes;
mod ends;
mod state;

pub use changes::{
    new_action, new_member, renewed, stays, turned, way_asked, with_ask, with_child, with_member,
    with_new_child, with_new_member, with_reply, with_report, with_skip, with_status,
};
pub use ends::{is_settled, right_end};
pub use state::{ActionState, Awaited, Limit, MemberState, Presence, Standing, was_accepted};
